// One field of a register changed, the others left as they are.
ghost use Rattle.std.specs.Prelude.{◌≡◌};
ghost use Rattle.board.specs.Modifications.{modified, ModifyLaw};

use crate::field::Field;
use crate::interface::Board;

/// Puts a field to a value, which is cut to the field. A setting then has the value, every other field is as it was
/// written, and what is in force stays unless the field is update.
#[tactic(auto, using(crate::proofs::Modifies::modify_law))]
pub fn modify<B: Board>(board: &mut B, field: Field, value: u32)
    ensures after { B.Board.meaning board.new ≡ modified field value (B.Board.meaning board.old) }
    ensures law { ModifyLaw field value (B.Board.meaning board.old) (B.Board.meaning board.new) }
{
    let register = field.place().register;
    let word = board.read(register);
    board.write(register, field.put(word, value));
}
