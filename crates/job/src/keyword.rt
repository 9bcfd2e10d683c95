// Words that are names: of a kind of line, of a register, of a side.
ghost use Rattle.std.specs.Prelude.{◌≡◌};
ghost use Rattle.job.specs.Keywords.{keyword};
ghost use Rattle.job.specs.Names.{named, side_name, side_named};

use board::register::{Register, Side};

/// The kind of line that a first word begins.
#[derive(Clone, Copy, PartialEq, Eq, Debug)]
pub enum Keyword {
    Comment,
    Clock,
    Unknown,
}

/// The kind of line that a first word begins. No `From`: many words are of one kind.
pub fn keyword_of(word: &[u8]) -> Keyword
    ensures { result ≡ keyword word.now }
{
    match word {
        [b'#', ..] => Keyword::Comment,
        b"clock" => Keyword::Clock,
        _ => Keyword::Unknown,
    }
}

/// The register among some that a word names. No `TryFrom`, here and below: the types are of other crates.
pub fn register_named(registers: &[Register], word: &[u8]) -> Option<Register>
    ensures { result ≡ named registers.now word.now }
{
    registers
        .iter()
        .copied()
        .find(|register| word == register.name().as_bytes())
}

/// The side that a word names. The names are the script's, so they are not in the crate of `Side`.
pub fn side_named(word: &[u8]) -> Option<Side>
    ensures { result ≡ side_named word.now }
{
    [Side::Panel, Side::Camera]
        .into_iter()
        .find(|side| word == side_name(*side).as_bytes())
}

/// The name of a side.
pub fn side_name(side: Side) -> &'static str
    ensures { result.now ≡ side_name side }
{
    match side {
        Side::Panel => "panel",
        Side::Camera => "camera",
    }
}
