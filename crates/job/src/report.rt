// What can be seen of a board: a line for each register, and one for each side.
ghost use Rattle.std.specs.Prelude.{◌≡◌, Some};
ghost use Rattle.job.specs.Reports.{register_line, register_lines, register_text, side_line, side_text, report, report_text};

use crate::keyword::side_name;
use board::control::Control;
use board::inspect::{Inspect, clock_in_force};
use board::register::{REGISTERS, Register, Side};
use std::fmt;

/// The word of a register as a read answers it, and the one in force.
#[derive(Clone, Copy)]
pub struct RegisterLine {
    pub register: Register,
    pub written: u32,
    pub in_force: u32,
}

/// Start, marks and clock of a side.
#[derive(Clone, Copy)]
pub struct SideLine {
    pub side: Side,
    pub control: Control,
    /// The whole hertz of the clock in force.
    pub hertz: u32,
}

/// All that can be seen of a board.
#[derive(Clone, Copy)]
pub struct Report {
    pub registers: [RegisterLine; 12],
    pub panel: SideLine,
    pub camera: SideLine,
}

/// What can be seen of a board.
pub fn report_of<B: Inspect>(board: &B) -> Report
    ensures { result ≡ report (B.Board.meaning board.now) }
{
    Report {
        registers: register_lines(board),
        panel: side_line(board, Side::Panel),
        camera: side_line(board, Side::Camera),
    }
}

// A line for each register, in the board's order.
#[tactic(auto, unfolding(crate::specs::Reports::register_lines))]
fn register_lines<B: Inspect>(board: &B) -> [RegisterLine; 12]
    ensures { result ≡ register_lines (B.Board.meaning board.now) }
{
    REGISTERS.map(|register| register_line(board, register))
}

fn register_line<B: Inspect>(board: &B, register: Register) -> RegisterLine
    ensures { result ≡ register_line (B.Board.meaning board.now) register }
{
    RegisterLine {
        register,
        written: board.read(register),
        in_force: board.in_force(register),
    }
}

fn side_line<B: Inspect>(board: &B, side: Side) -> SideLine
    ensures { result ≡ side_line (B.Board.meaning board.now) side }
{
    SideLine {
        side,
        control: board.control(side),
        hertz: clock_in_force(board, side),
    }
}

impl fmt::Display for Report {
    ghost output = { λ r. Some (report_text r) };

    #[tactic(auto, using(crate::proofs::Pieces::piece_more))]
    fn fmt<W: fmt::Write>(&self, f: &mut fmt::Formatter<W>) -> fmt::Result {
        for line in &self.registers {
            writeln!(f, "{line}")?;
        }
        let panel = self.panel;
        let camera = self.camera;
        write!(f, "{panel}\n{camera}")
    }
}

impl fmt::Display for RegisterLine {
    ghost output = { λ l. Some (register_text l) };

    #[tactic(auto, using(crate::proofs::Escapes::word_shown))]
    fn fmt<W: fmt::Write>(&self, f: &mut fmt::Formatter<W>) -> fmt::Result {
        let name = self.register.name();
        let written = self.written;
        let in_force = self.in_force;
        write!(f, "{name} {written:08x} {in_force:08x}")
    }
}

impl fmt::Display for SideLine {
    ghost output = { λ l. Some (side_text l) };

    fn fmt<W: fmt::Write>(&self, f: &mut fmt::Formatter<W>) -> fmt::Result {
        let side = side_name(self.side);
        let start = self.control.start as u8;
        let reset = self.control.reset as u8;
        let afifo = self.control.afifo_reset as u8;
        let hertz = self.hertz;
        write!(
            f,
            "{side} start {start} reset {reset} afifo {afifo} hertz {hertz}"
        )
    }
}
