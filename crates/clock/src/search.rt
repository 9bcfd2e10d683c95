// The search through the sources for the setting that comes closest to a frequency from below.
ghost use Rattle.std.specs.Prelude.{◌≡◌};
ghost use Rattle.clock.specs.Laws.{SearchLaw};
ghost use Rattle.clock.specs.Search.{searched, considered, answer_of, number};

use crate::closest::{ClosestDivider, calculate_closest_divider};
use crate::divider::{ClockDivider, calculate_output_frequency};

/// Why no setting is found.
#[derive(Clone, Copy, PartialEq, Eq, Debug)]
pub enum ClockError {
    /// The desired frequency is 0.
    FrequencyZero = 1,
    /// The desired frequency is too low for the dividers to divide any source to.
    FrequencyTooLow = 3,
}

impl ClockError {
    /// The number of the refusal. The crates share no error, so each has this line.
    pub fn number(self) -> u32
        ensures { result ≡ number self }
    {
        self as u32
    }
}

/// The source and the divider whose output comes closest to a frequency from below.
#[tactic(auto, using(crate::proofs::Sources::one_turn, crate::proofs::Sources::no_turn))]
pub fn calculate_clkm(
    desired_frequency: u32,
    source_frequencies: &[u32],
) -> Result<(usize, ClockDivider), ClockError>
    ensures answer { answer_of result ≡ searched desired_frequency source_frequencies.now }
    ensures law { SearchLaw desired_frequency source_frequencies.now (answer_of result) }
{
    best_from_below(desired_frequency, source_frequencies);
    if desired_frequency == 0 {
        return Err(ClockError::FrequencyZero);
    }
    let mut best = None;
    for (i, &source_frequency) in source_frequencies.iter().enumerate() {
        let closest = calculate_closest_divider(source_frequency, desired_frequency);
        best = better(best, i, source_frequency, closest);
    }
    match best {
        Some(best) => Ok((best.index, best.divider)),
        None => Err(ClockError::FrequencyTooLow),
    }
}

// The best setting so far, and its whole hertz.
#[derive(Clone, Copy)]
struct Best {
    index: usize,
    divider: ClockDivider,
    freq: u32,
}

// The source at the index i where it serves with more whole hertz, else what was best so far.
fn better(
    best: Option<Best>,
    i: usize,
    source_frequency: u32,
    closest: Option<ClosestDivider>,
) -> Option<Best>
    ensures { result ≡ considered i source_frequency closest best }
{
    let Some(found) = closest else {
        return best;
    };
    let freq = calculate_output_frequency(source_frequency, &found.divider);
    if best.is_none_or(|best| freq > best.freq) {
        Some(Best {
            index: i,
            divider: found.divider,
            freq,
        })
    } else {
        best
    }
}

// What the rules give for a list of sources is the best from below. The body is empty: as a lemma that `using` names,
// the law is not found where the code returns.
#[tactic(auto, using(crate::proofs::Sources::search_law))]
fn best_from_below(frequency: u32, sources: &[u32])
    ensures { SearchLaw frequency sources.now (searched frequency sources.now) }
{}
