// Decimal numbers.
ghost use Rattle.std.specs.Prelude.{◌≡◌, ◌<◌, IsTrue, MatchOption};
ghost use Rattle.std.specs.List.{list_all};
ghost use Rattle.job.specs.Numbers.{digit, numeral, value};
ghost use Rattle.job.specs.Meanings.{IsNumber};

use crate::unreadable::Unreadable;

/// The number that a word says, or why it says none.
pub fn read_number(word: &[u8]) -> Result<u32, Unreadable<'_>>
    ensures { IsNumber word.now result }
{
    if !is_numeral(word) {
        return Err(Unreadable::NotANumber(word));
    }
    value_of(word).ok_or(Unreadable::TooLarge(word))
}

fn is_numeral(word: &[u8]) -> bool
    ensures { result ≡ numeral word.now }
{
    !word.is_empty() && all_digits(word)
}

fn all_digits(word: &[u8]) -> bool
    ensures { result ≡ list_all digit word.now }
{
    word.iter().all(|b| b.is_ascii_digit())
}

// What the digits write, unless it is too large for the result. `str::parse` is no plainer: it takes text, so UTF-8 would
// be looked for first, and it takes a `+`.
#[tactic(auto, using(crate::proofs::Numerals::digits_here, crate::proofs::Numerals::digit_range, crate::proofs::Numerals::value_on, crate::proofs::Numerals::value_end, crate::proofs::Numerals::value_grows), unfolding(crate::specs::Numbers::value))]
fn value_of(digits: &[u8]) -> Option<u32>
    requires { IsTrue (numeral «digits».now) }
    ensures { MatchOption result (4294967295 < value digits.now) (λ n. n ≡ value digits.now) }
{
    let mut value = 0u64;
    for b in digits {
        value = 10 * value + u64::from(*b - b'0');
        if value > u64::from(u32::MAX) {
            return None;
        }
    }
    Some(value as u32)
}
