// The worked cases of the rules.
ghost use Rattle.std.specs.Prelude.{◌≡◌, length, IsTrue};
ghost use Rattle.clock.specs.Cases.{worked_cases, all_hold};

/// How many worked cases there are. Each of them holds: the rules give its setting or refusal, and its whole hertz.
#[tactic(auto, using(crate::proofs::Computed::cases_hold))]
pub fn worked_cases() -> u32
    ensures all { IsTrue (all_hold worked_cases) }
    ensures count { result ≡ length worked_cases }
{
    11
}
