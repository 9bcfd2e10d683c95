// Where the walk begins. It is a file of its own, since a free function's clauses may name `ahead` in no file that
// declares the struct which `ahead` takes.
ghost use Rattle.std.specs.Prelude.{◌≡◌};
ghost use Rattle.clock.specs.Farey.{f63};
ghost use Rattle.clock.specs.Laws.{AllSmallFractions};
ghost use Rattle.clock.specs.Sequence.{ahead};

use crate::farey::FareySequence;
use crate::fraction::Neighbours;

/// The walk from 0/1 to 1/1 through all fractions in lowest terms with denominators up to 63.
#[tactic(auto, using(crate::proofs::Start::ahead_first, crate::proofs::Start::sound_first, crate::proofs::Fractions::f63_complete))]
pub fn farey_sequence() -> FareySequence
    ensures start { ahead result ≡ f63 }
    ensures none_given { result.place ≡ 0 }
    ensures law { AllSmallFractions f63 }
{
    FareySequence {
        terms: Neighbours {
            a: 0,
            b: 1,
            c: 1,
            d: 63,
        },
        place: 0,
    }
}
