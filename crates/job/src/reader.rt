// From a line's bytes to a statement.
ghost use Rattle.job.specs.Words.{words};
ghost use Rattle.job.specs.Numbers.{numbers};
ghost use Rattle.job.specs.Statements.{statement, clock_of};
ghost use Rattle.job.specs.Meanings.{Reads, AreNumbers};

use crate::keyword::{Keyword, keyword_of};
use crate::number::read_number;
use crate::statement::Statement;
use crate::unreadable::Unreadable;
use crate::words::Words;
use std::alloc::Global;

/// What a line says: a statement, nothing (an empty line or a comment), or the reason why it cannot be read.
pub fn read_line(heap: Global, line: &[u8]) -> Result<Option<Statement>, Unreadable<'_>>
    ensures { Reads result (statement line.now) }
{
    let mut rest = Words(line);
    let Some(word) = rest.next() else {
        return Ok(None);
    };
    match keyword_of(word) {
        Keyword::Comment => Ok(None),
        Keyword::Clock => read_clock(heap, rest),
        Keyword::Unknown => Err(Unreadable::UnknownStatement(word)),
    }
}

// What follows the word `clock`.
#[tactic(auto, using(crate::proofs::Rows::broken))]
fn read_clock<'a>(heap: Global, mut rest: Words<'a>) -> Result<Option<Statement>, Unreadable<'a>>
    ensures { Reads result (clock_of (numbers (words rest.entry.0.now))) }
{
    let Some(word) = rest.next() else {
        return Err(Unreadable::MissingFrequency);
    };
    let frequency = read_number(word)?;
    let sources = read_numbers(heap, rest)?;
    Ok(Some(Statement::Clock { frequency, sources }))
}

#[tactic(auto, using(crate::proofs::Rows::after_more, crate::proofs::Rows::after_some))]
fn read_numbers<'a>(heap: Global, rest: Words<'a>) -> Result<Vec<u32>, Unreadable<'a>>
    ensures { AreNumbers result (numbers (words rest.entry.0.now)) }
{
    let mut all = Vec::new(heap);
    for word in rest {
        let number = read_number(word)?;
        all.push(number)?;
    }
    Ok(all)
}
