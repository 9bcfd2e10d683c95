// Fractions, and the highest common factor that brings them to lowest terms.
ghost use Rattle.std.specs.Prelude.{◌≡◌, ◌+◌};
ghost use Rattle.std.specs.Int.{IsGcd};

/// A fraction of two whole numbers.
#[derive(Clone, Copy, PartialEq, Eq, Debug)]
pub struct Fraction {
    pub numerator: u32,
    pub denominator: u32,
}

/// Two terms of the Farey sequence that follow each other: a/b, and then c/d. Four numbers, as the Rust has them: the
/// step from a term to the next is written in them.
#[derive(Clone, Copy, PartialEq, Eq, Debug)]
pub struct Neighbours {
    pub a: u32,
    pub b: u32,
    pub c: u32,
    pub d: u32,
}

/// The highest common factor of two numbers, by Euclid's algorithm; 0 for 0 and 0.
#[tactic(auto, using(crate::proofs::Euclid::euclid))]
pub fn hcf(a: u32, b: u32) -> u32
    ensures greatest { IsGcd a b result }
    ensures none { a + b ≡ 0 → result ≡ 0 }
{
    if b != 0 { hcf(b, a % b) } else { a }
}
