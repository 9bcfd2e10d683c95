// A walk through the Farey sequence of order 63: the fractions from 0 to 1 with denominators up to 63, in order.
ghost use Rattle.std.specs.Prelude.{◌≡◌, ◌+◌, ◌-◌, ◌≤◌, [], is_some, IsTrue, if◌then◌else◌, MatchBool};
ghost use Rattle.clock.specs.Walk.{sound, GoesOn};

use crate::fraction::{Fraction, Neighbours};

pub mod walk;

/// A walk through the Farey sequence of order 63.
#[derive(Clone, Copy)]
pub struct FareySequence {
    /// The term to come, and the one after it.
    terms: Neighbours,
    /// How many terms were given.
    pub place: u32,
    ghost within: { place ≤ 1229 },
    ghost on_the_walk: { IsTrue (sound (1229 - place) terms) },
}

impl Iterator for FareySequence {
    ghost use Rattle.std.specs.Iterator.{YieldsFirst, item_count};
    ghost use Rattle.clock.specs.Sequence.{ahead};

    type Item = Fraction;

    ghost next_gives = { YieldsFirst ahead };

    ghost remaining = { item_count ahead };

    /// The next term, or `None` after 1/1.
    fn next(&mut self) -> Option<Fraction>
        ensures term { YieldsFirst ahead self.old result self.new }
        ensures counts { self.new.place ≡ (if is_some result then self.old.place + 1 else self.old.place) }
    {
        if self.ended() {
            return None;
        }
        let Neighbours { a, b, c, d } = self.terms;
        let k = (63 + b) / d;
        self.terms = Neighbours {
            a: c,
            b: d,
            c: k * c - a,
            d: k * d - b,
        };
        self.place += 1;
        Some(Fraction {
            numerator: a,
            denominator: b,
        })
    }
}

impl FareySequence {
    ghost use Rattle.clock.specs.Sequence.{ahead};

    // Past 1/1 the numerator is above 63.
    #[tactic(auto, using(crate::proofs::Walk::ended))]
    fn ended(&self) -> bool
        ensures { MatchBool result (ahead self.now ≡ []) (GoesOn self.now.place self.now.terms) }
    {
        self.terms.a > 63
    }
}
