// From a statement to its answer.
ghost use Rattle.std.specs.Prelude.{◌≡◌};
ghost use Rattle.job.specs.Evaluated.{answer_of, clock_answer, statement_answer};

use crate::setting::Setting;
use crate::statement::Statement;
use clock::closest::calculate_closest_divider;
use clock::divider::calculate_output_frequency;
use clock::search::{ClockError, calculate_clkm};

/// The answer to a statement.
pub fn evaluate(statement: &Statement) -> Result<Setting, ClockError>
    ensures { answer_of result ≡ statement_answer statement.now }
{
    match statement {
        Statement::Clock { frequency, sources } => evaluate_clock(*frequency, sources.as_slice()),
    }
}

/// The setting for a frequency over some sources.
#[tactic(auto, using(crate::proofs::Found::known_source))]
pub fn evaluate_clock(frequency: u32, sources: &[u32]) -> Result<Setting, ClockError>
    ensures { answer_of result ≡ clock_answer frequency sources.now }
{
    let (index, divider) = calculate_clkm(frequency, sources)?;
    let source = sources[index];
    let count = calculate_closest_divider(source, frequency).map_or(0, |closest| closest.count);
    let hertz = calculate_output_frequency(source, &divider);
    Ok(Setting {
        index,
        divider,
        count,
        hertz,
    })
}
