// What is printed for a line.
ghost use Rattle.job.specs.Endings.{without_ending};
ghost use Rattle.job.specs.Statements.{statement};
ghost use Rattle.job.specs.Replies.{Replies};

use crate::ending::without_ending;
use crate::error::JobError;
use crate::evaluate::evaluate;
use crate::reader::read_line;
use crate::setting::Setting;
use std::alloc::Global;

/// The answer to a line of the input, whose ending may stand or be missing; `None` where the line says nothing, and
/// nothing is printed.
pub fn reply_to(heap: Global, line: &[u8]) -> Result<Option<Setting>, JobError<'_>>
    ensures { Replies result (statement (without_ending line.now)) }
{
    match read_line(heap, without_ending(line))? {
        Some(statement) => Ok(Some(evaluate(&statement)?)),
        None => Ok(None),
    }
}
