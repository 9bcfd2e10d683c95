// The board: what a driver can do to the LCD_CAM module, and what it means.
ghost use Rattle.std.specs.Prelude.{◌≡◌};
ghost use Rattle.board.specs.States.{BoardState, SpansHold, read, written, polled, poll_answer};

use crate::register::{Register, Side};
use crate::sources::Sources;

/// A board with the registers of LCD_CAM. It means its sources and two sides; each side has the fields written, the
/// fields in force, start, two reset marks, what is left of a run, and how long a run takes.
pub trait Board {
    ghost meaning: { Self → BoardState };

    /// The fields written to a register, and start. It has no effect.
    fn read(&self, register: Register) -> u32
        ensures { result ≡ read register (meaning self.now) };

    /// Replaces the written fields of a register. Resets are marked; start begins a run where both are, or ends it;
    /// update puts the written fields of the side in force.
    fn write(&mut self, register: Register, word: u32)
        ensures after { meaning self.new ≡ written register word (meaning self.old) };

    /// Lowers what is left of a run on a side, and answers whether start is 0.
    fn poll(&mut self, side: Side) -> bool
        ensures answer { result ≡ poll_answer side (meaning self.old) }
        ensures after { meaning self.new ≡ polled side (meaning self.old) };

    /// The sources, which never change.
    fn sources(&self) -> Sources
        ensures { result ≡ (meaning self.now).sources };

    // A run takes one poll or more, or has no end.
    ghost spans: { (b : Self) → SpansHold (meaning b) };
}
