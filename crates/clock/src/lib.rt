// The search for the clock divider of the LCD_CAM module, after esp-hal's lcd_cam/mod.rs.
//
// A law about the definitions in specs/ is a lemma of proofs/, and the function whose contract cites it names the lemma
// in its attribute, or calls a function that has the law in its contract.
#![tactic(auto)]

pub mod cases;
pub mod closest;
pub mod divider;
pub mod entry;
pub mod farey;
pub mod fraction;
pub mod search;
