// The end of a line.
ghost use Rattle.std.specs.Prelude.{◌≡◌};
ghost use Rattle.job.specs.Endings.{without_ending, without_last};

/// A line without its ending, which is a line feed, a carriage return and a line feed, or, at the end of the input,
/// a carriage return or nothing.
pub fn without_ending(line: &[u8]) -> &[u8]
    ensures { result.now ≡ without_ending line.now }
{
    without_last(without_last(line, b'\n'), b'\r')
}

#[tactic(auto, using(crate::proofs::Lasts::last_goes, crate::proofs::Lasts::last_stays))]
fn without_last(line: &[u8], byte: u8) -> &[u8]
    ensures { result.now ≡ without_last byte line.now }
{
    line.strip_suffix(&[byte]).unwrap_or(line)
}
