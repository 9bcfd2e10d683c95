// The divider of one source that comes closest to a frequency from below.
ghost use Rattle.std.specs.Prelude.{◌≡◌, ◌<◌, ◌↔◌};
ghost use Rattle.clock.specs.Closest.{closest, least_term, without_fraction};
ghost use Rattle.clock.specs.Laws.{ClosestFromBelow};

use crate::divider::ClockDivider;
use crate::farey::walk::farey_sequence;
use crate::fraction::{Fraction, hcf};

/// A divider of one source, and the place of its fraction in the Farey sequence.
#[derive(Clone, Copy, PartialEq, Eq, Debug)]
pub struct ClosestDivider {
    pub divider: ClockDivider,
    /// The place from 1; 0 where there is no remainder, or the source is not fast enough to be divided. A number and no
    /// `Option`: 0 is what a job script's answer tells.
    pub count: u32,
}

/// A term of the Farey sequence, and its place from 1.
#[derive(Clone, Copy)]
pub struct Term {
    pub fraction: Fraction,
    pub place: u32,
}

/// The divider of one source whose output comes closest to a frequency from below; `None` where the source is too
/// fast for it.
#[tactic(auto, using(crate::proofs::Terms::least_term_of_remainder, crate::proofs::Terms::least_term_small, crate::proofs::OneSource::closest_from_below_lem))]
pub fn calculate_closest_divider(
    source_frequency: u32,
    desired_frequency: u32,
) -> Option<ClosestDivider>
    ensures answer { result ≡ closest source_frequency desired_frequency }
    ensures law { 0 < desired_frequency → ClosestFromBelow source_frequency desired_frequency (closest source_frequency desired_frequency) }
{
    if desired_frequency == 0 {
        return None;
    }
    let quotient = source_frequency / desired_frequency;
    if quotient < 2 {
        // The source is not fast enough to be divided down to the frequency: its greatest output.
        return Some(without_fraction(1));
    }
    if quotient > 256 {
        return None;
    }
    let div_num = if quotient == 256 { 0 } else { quotient as u8 };
    let target = lowest_terms(source_frequency % desired_frequency, desired_frequency);
    if target.numerator == 0 {
        return Some(without_fraction(div_num));
    }
    let term = find_not_below(&target).unwrap();
    let div_b = term.fraction.numerator as u8;
    let div_a = term.fraction.denominator as u8;
    Some(ClosestDivider {
        divider: ClockDivider {
            div_num,
            div_b,
            div_a,
        },
        count: term.place,
    })
}

// A whole part with no fraction.
fn without_fraction(div_num: u8) -> ClosestDivider
    ensures { Some result ≡ without_fraction div_num }
{
    ClosestDivider {
        divider: ClockDivider {
            div_num,
            div_b: 0,
            div_a: 0,
        },
        count: 0,
    }
}

// A fraction in lowest terms: the same terms of the Farey sequence are not below it.
#[tactic(auto, using(crate::proofs::Scaled::factor_positive, crate::proofs::Scaled::same_terms, crate::proofs::Scaled::zero_from, crate::proofs::Scaled::zero_to))]
fn lowest_terms(numerator: u32, denominator: u32) -> Fraction
    requires { 0 < denominator }
    ensures same { least_term result.numerator result.denominator ≡ least_term numerator denominator }
    ensures zero { (result.numerator ≡ 0) ↔ (numerator ≡ 0) }
{
    let gcd = hcf(numerator, denominator);
    Fraction {
        numerator: numerator / gcd,
        denominator: denominator / gcd,
    }
}

// The first term of the Farey sequence that is not below a fraction.
fn find_not_below(target: &Fraction) -> Option<Term>
    ensures { result ≡ least_term target.now.numerator target.now.denominator }
{
    for (i, curr) in farey_sequence().enumerate() {
        let new_curr_num = curr.numerator as u64 * target.denominator as u64;
        let new_target_num = target.numerator as u64 * curr.denominator as u64;
        if new_curr_num >= new_target_num {
            return Some(Term {
                fraction: curr,
                place: i as u32 + 1,
            });
        }
    }
    None
}
