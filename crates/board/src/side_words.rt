// One side of the word board.
ghost use Rattle.std.specs.Prelude.{◌≡◌, ◌≤◌, not};
ghost use Rattle.board.specs.Controls.{requested};
ghost use Rattle.board.specs.Fields.{stored};

use crate::control::{Control, Request};
use crate::register::Register;
use crate::words::Words;

/// The words of a side, its control, what is left of a run and how many polls a run takes.
#[derive(Drop)]
pub(crate) struct SideWords<W> {
    written: W,
    in_force: W,
    pub control: Control,
    // No `Option` of a run: `control` is answered whole, with its `start`, so one would say start a second time.
    left: u32,
    span: u32,
    ghost some: { 1 ≤ span },
}

impl<W: Words> SideWords<W> {
    ghost use Rattle.board.specs.States.{side_written, side_polled};
    ghost use Rattle.board.specs.WordBoards.{side_state, new_side, chosen_span};

    /// A side with these words written and in force, no run and no mark; a run takes `span` polls, 1 to 1,000,000, the
    /// nearer end where `span` lies outside.
    pub fn new(words: W, span: u32) -> SideWords<W>
        ensures { side_state result ≡ new_side words (chosen_span span) }
    {
        SideWords {
            written: words,
            in_force: words,
            control: Control::IDLE,
            left: 0,
            span: span.max(1).min(1_000_000),
        }
    }

    /// The fields written to a register.
    pub fn written(&self, register: Register) -> u32
        ensures { result ≡ stored register (W.word_of register self.now.written) }
    {
        register.stored(self.written.get(register))
    }

    /// The fields of a register that are in force.
    pub fn in_force(&self, register: Register) -> u32
        ensures { result ≡ stored register (W.word_of register self.now.in_force) }
    {
        register.stored(self.in_force.get(register))
    }

    /// Stores a word that is written to a register, and does what it asks.
    pub fn write(&mut self, register: Register, word: u32)
        ensures { side_state self.new
            ≡ side_written (W.with_word register (stored register word) self.old.written)
            (requested register word) (side_state self.old) }
    {
        let request = Request::of(register, word);
        self.left = self.control.left_after(request, self.span, self.left);
        self.control = self.control.after(request);
        self.written = self.written.with(register, register.stored(word));
        if request.update {
            self.in_force = self.written;
        }
    }

    /// Lowers what is left of a run, and answers whether start is 0.
    pub fn poll(&mut self) -> bool
        ensures after { side_state self.new ≡ side_polled (side_state self.old) }
        ensures answer { result ≡ not self.new.control.start }
    {
        if self.control.start {
            self.left = self.left.saturating_sub(1);
            self.control.start = self.left != 0;
        }
        !self.control.start
    }
}
