// What can be seen of a board that lies in memory, and no driver can ask of the module itself.
ghost use Rattle.std.specs.Prelude.{◌≡◌};
ghost use Rattle.board.specs.Clocks.{clock_fields, clock_in, clock_register, side_hertz, selected};
ghost use Rattle.board.specs.States.{word_in_force, control_of};

use crate::control::Control;
use crate::field::Field;
use crate::interface::Board;
use crate::register::{Register, Side};
use crate::sources::Sources;
use clock::divider::{ClockDivider, calculate_output_frequency};

/// A board whose words in force and marks can be looked at.
pub trait Inspect: Board {
    /// The word of a register that is in force.
    fn in_force(&self, register: Register) -> u32
        ensures { result ≡ word_in_force register (Self.Board.meaning self.now) };

    /// Start and marks of a side.
    fn control(&self, side: Side) -> Control
        ensures { result ≡ control_of side (Self.Board.meaning self.now) };
}

/// The whole hertz of a side's clock: the output of its setting in force; 0 where no source is selected.
pub fn clock_in_force<B: Inspect>(board: &B, side: Side) -> u32
    ensures { result ≡ side_hertz side (B.Board.meaning board.now) }
{
    hertz_in(board.sources(), side, board.in_force(clock_register(side)))
}

// The whole hertz that the clock settings in a word make.
fn hertz_in(sources: Sources, side: Side, word: u32) -> u32
    ensures { result ≡ clock_in side sources word }
{
    let fields = ClockFields::of(side);
    let divider = ClockDivider {
        div_num: fields.div_num.get(word) as u8,
        div_b: fields.div_b.get(word) as u8,
        div_a: fields.div_a.get(word) as u8,
    };
    calculate_output_frequency(selected(sources, fields.clk_sel.get(word)), &divider)
}

// The register that has the clock settings of a side.
fn clock_register(side: Side) -> Register
    ensures { result ≡ clock_register side }
{
    match side {
        Side::Panel => Register::LcdClock,
        Side::Camera => Register::CamCtrl,
    }
}

// The fields of a side's clock setting.
#[derive(Clone, Copy)]
struct ClockFields {
    clk_sel: Field,
    div_num: Field,
    div_b: Field,
    div_a: Field,
}

impl ClockFields {
    fn of(side: Side) -> ClockFields
        ensures { result ≡ clock_fields side }
    {
        match side {
            Side::Panel => ClockFields {
                clk_sel: Field::LcdClkSel,
                div_num: Field::LcdClkmDivNum,
                div_b: Field::LcdClkmDivB,
                div_a: Field::LcdClkmDivA,
            },
            Side::Camera => ClockFields {
                clk_sel: Field::CamClkSel,
                div_num: Field::CamClkmDivNum,
                div_b: Field::CamClkmDivB,
                div_a: Field::CamClkmDivA,
            },
        }
    }
}

// The source that clk_sel selects; 0 Hz for none, as the register counts and the rules say.
fn selected(sources: Sources, clk_sel: u32) -> u32
    ensures { result ≡ selected clk_sel sources }
{
    match clk_sel {
        1 => sources.xtal,
        2 => sources.pll_d2,
        3 => sources.crypto,
        _ => 0,
    }
}
