// Why a line has no setting, as it is printed.
ghost use Rattle.std.specs.Prelude.{◌≡◌, Some, Err};
ghost use Rattle.job.specs.Replies.{reply_line};
ghost use Rattle.job.specs.declared.error.JobError.TheVariants.{Refused, Unread};

use crate::unreadable::Unreadable;
use clock::search::ClockError;
use std::fmt;

/// Why a line has no setting.
#[derive(Clone, Copy, Debug)]
pub enum JobError<'a> {
    /// The search refuses.
    Refused(ClockError),
    /// The line cannot be read.
    Unread(Unreadable<'a>),
}

impl From<ClockError> for JobError<'_> {
    ghost from_gives = { λ e r. r ≡ Refused e };

    fn from(error: ClockError) -> Self {
        Self::Refused(error)
    }
}

impl<'a> From<Unreadable<'a>> for JobError<'a> {
    ghost from_gives = { λ e r. r ≡ Unread e };

    fn from(reason: Unreadable<'a>) -> Self {
        Self::Unread(reason)
    }
}

impl fmt::Display for JobError<'_> {
    ghost output = { λ e. Some (reply_line (Err e)) };

    fn fmt<W: fmt::Write>(&self, f: &mut fmt::Formatter<W>) -> fmt::Result {
        match self {
            JobError::Refused(error) => {
                let number = error.number();
                write!(f, "refused {number}")
            }
            JobError::Unread(reason) => write!(f, "error: {reason}"),
        }
    }
}
