// Why a line cannot be read.
ghost use Rattle.std.specs.Prelude.{◌≡◌, Some};
ghost use Rattle.job.specs.Printed.{reason_text};
ghost use Rattle.job.specs.declared.unreadable.Unreadable.TheVariants.{OutOfMemory};

use crate::quoted::Quoted;
use std::alloc::AllocFailed;
use std::fmt;

/// The reason why a line cannot be read, with the word that it is about.
#[derive(Clone, Copy, Debug)]
pub enum Unreadable<'a> {
    /// The first word names no statement.
    UnknownStatement(&'a [u8]),
    /// Nothing follows `clock`.
    MissingFrequency,
    /// A word with another byte than a digit where a number belongs.
    NotANumber(&'a [u8]),
    /// A number that no u32 holds.
    TooLarge(&'a [u8]),
    /// There is no memory for the line's numbers.
    OutOfMemory,
}

impl<T: Drop> From<AllocFailed<T>> for Unreadable<'_> {
    ghost from_gives = { λ _ r. r ≡ OutOfMemory };

    fn from(_refused: AllocFailed<T>) -> Self {
        Self::OutOfMemory
    }
}

impl fmt::Display for Unreadable<'_> {
    ghost output = { λ e. Some (reason_text e) };

    fn fmt<W: fmt::Write>(&self, f: &mut fmt::Formatter<W>) -> fmt::Result {
        match self {
            Unreadable::UnknownStatement(word) => {
                let word = Quoted(word);
                write!(f, "unknown statement {word} (expected clock)")
            }
            Unreadable::MissingFrequency => {
                write!(
                    f,
                    "clock without a frequency (expected clock FREQUENCY SOURCE SOURCE ..)"
                )
            }
            Unreadable::NotANumber(word) => {
                let word = Quoted(word);
                write!(f, "{word} is not a number (expected decimal digits)")
            }
            Unreadable::TooLarge(word) => {
                let word = Quoted(word);
                write!(f, "{word} is too large (expected at most 4294967295)")
            }
            Unreadable::OutOfMemory => write!(f, "no memory for this line"),
        }
    }
}
