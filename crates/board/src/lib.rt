// The registers of the LCD_CAM module, the board that has them, and two boards to run on.
#![tactic(auto)]

pub mod control;
pub mod error;
pub mod field;
pub mod image;
pub mod inspect;
pub mod interface;
pub mod modify;
pub mod register;
mod side_words;
pub mod sources;
#[cfg(test)]
mod tests;
pub mod word_board;
pub mod words;
