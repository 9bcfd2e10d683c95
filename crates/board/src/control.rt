// What a side keeps beside its settings: whether a run goes on, and which resets are marked.
ghost use Rattle.std.specs.Prelude.{◌≡◌};
ghost use Rattle.board.specs.Controls.{requested, marked, begins, controlled, start_field};
ghost use Rattle.board.specs.Fields.{flag};
ghost use Rattle.board.specs.States.{left_after, with_start};
ghost use Rattle.board.specs.States.Polls.{ending};

use crate::field::Field;
use crate::register::{Register, Side};

/// Whether a run goes on on a side, and which of the two resets were marked since the last run began.
#[derive(Clone, Copy)]
pub struct Control {
    pub start: bool,
    /// The reset of the control unit is marked.
    pub reset: bool,
    /// The reset of the asynchronous FIFO is marked.
    pub afifo_reset: bool,
}

/// What a word that is written to a register asks of its side, beside the settings to be stored.
#[derive(Clone, Copy)]
pub struct Request {
    pub reset: bool,
    pub afifo_reset: bool,
    /// What is written to start; `None` where the register has no such field.
    pub start: Option<bool>,
    pub update: bool,
}

impl Request {
    // A word that asks nothing.
    const NONE: Request = Request {
        reset: false,
        afifo_reset: false,
        start: None,
        update: false,
    };

    /// What a word asks of its side where it is written to the register.
    pub fn of(register: Register, word: u32) -> Request
        ensures { result ≡ requested register word }
    {
        match register {
            Register::LcdUser => Request {
                reset: flag(Field::LcdReset, word),
                start: Some(flag(Field::LcdStart, word)),
                update: flag(Field::LcdUpdate, word),
                ..Request::NONE
            },
            Register::LcdMisc => Request {
                afifo_reset: flag(Field::LcdAfifoReset, word),
                ..Request::NONE
            },
            Register::CamCtrl => Request {
                update: flag(Field::CamUpdate, word),
                ..Request::NONE
            },
            Register::CamCtrl1 => Request {
                reset: flag(Field::CamReset, word),
                afifo_reset: flag(Field::CamAfifoReset, word),
                start: Some(flag(Field::CamStart, word)),
                ..Request::NONE
            },
            _ => Request::NONE,
        }
    }
}

impl Control {
    // No run and no mark.
    pub(crate) const IDLE: Control = Control {
        start: false,
        reset: false,
        afifo_reset: false,
    };

    /// What the control is after a request: resets are marked first, then start is written.
    pub fn after(self, request: Request) -> Control
        ensures { result ≡ controlled request self }
    {
        let marked = self.marked(request);
        match request.start {
            Some(true) if marked.begins() => Control {
                start: true,
                ..Control::IDLE
            },
            Some(false) => Control {
                start: false,
                ..marked
            },
            _ => marked,
        }
    }

    /// What is left of a run of `span` polls after a request, where `left` was: all of it where the run begins, and
    /// nothing where it is ended.
    pub fn left_after(self, request: Request, span: u32, left: u32) -> u32
        ensures { ending result ≡ left_after request.start (marked request self) (ending span) (ending left) }
    {
        match request.start {
            Some(true) if self.marked(request).begins() => span,
            Some(false) => 0,
            _ => left,
        }
    }

    // The control with the resets of a request marked.
    fn marked(self, request: Request) -> Control
        ensures { result ≡ marked request self }
    {
        Control {
            reset: self.reset | request.reset,
            afifo_reset: self.afifo_reset | request.afifo_reset,
            ..self
        }
    }

    // Whether a 1 that is written to start begins a run: none goes on, and both resets are marked.
    fn begins(self) -> bool
        ensures { result ≡ begins self }
    {
        !self.start & (self.reset & self.afifo_reset)
    }
}

/// A word of a register with start in its place, where the register has that field.
pub(crate) fn with_start(register: Register, start: bool, word: u32) -> u32
    ensures { result ≡ with_start register start word }
{
    match register {
        Register::LcdUser | Register::CamCtrl1 => {
            start_field(register.side()).put(word, start as u32)
        }
        _ => word,
    }
}

/// The field of a side that begins and ends its runs. It is inlined, so that its place is known in the caller.
#[inline(always)]
pub(crate) fn start_field(side: Side) -> Field
    ensures { result ≡ start_field side }
{
    match side {
        Side::Panel => Field::LcdStart,
        Side::Camera => Field::CamStart,
    }
}

/// A field of one bit.
pub(crate) fn flag(field: Field, word: u32) -> bool
    ensures { result ≡ flag «field» word }
{
    field.get(word) == 1
}
