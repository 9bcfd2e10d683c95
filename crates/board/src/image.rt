// The image board: a board that lies in 34 words which the firmware lends.
//
// What the image holds is the board: another board that is made over the words goes on where this one was.
ghost use Rattle.std.specs.Prelude.{◌≡◌, ◌↔◌, length, IsOk, IfOk, IfErr};
ghost use Rattle.board.specs.Errors.{number};
ghost use Rattle.board.specs.Images.{image, cleaned, KeepsTheRest};
ghost use Rattle.board.specs.ImageBoards.{image_board, image_spans, words_of};
ghost use Rattle.board.specs.States.{written, polled, poll_answer};

use crate::control::Control;
use crate::error::ImageError;
use crate::image::words::ImageWords;
use crate::inspect::Inspect;
use crate::interface::Board;
use crate::register::{Register, Side};
use crate::sources::Sources;

mod words;

/// A board over 34 words: 0 to 15 are the registers' words as a read answers them, in the board's order, 16 to 31 those
/// in force, 32 and 33 the marks of the panel and of the camera, reset in bit 0 and afifo_reset in bit 1. Its runs have
/// no end. Words of no register, 12 to 15 and 28 to 31, are kept.
#[derive(Drop)]
pub struct ImageBoard<'a> {
    image: ImageWords<'a>,
    sources: Sources,
}

/// Refuses words that are no image, before a board is made over them.
pub fn check_image(words: &[u32]) -> Result<(), ImageError>
    ensures whole { IsOk result ↔ (length words.now ≡ 34) }
    ensures number { IfErr result (λ e. number e ≡ 10) }
{
    if words.len() == 34 {
        Ok(())
    } else {
        Err(ImageError::WrongSize)
    }
}

impl<'a> ImageBoard<'a> {
    /// The board that 34 words hold. Bits that read as 0, start in force and spare mark bits are cleared.
    pub fn new(words: &'a mut [u32; 34], sources: Sources) -> ImageBoard<'a>
        ensures holds { image_board result ≡ image sources words.old }
        ensures words { words_of result ≡ cleaned words.old }
        ensures keeps { KeepsTheRest words.old (words_of result) }
    {
        ImageBoard::made(words, sources)
    }

    /// The same over a slice, which `check_image` has accepted.
    pub fn over(words: &'a mut [u32], sources: Sources) -> ImageBoard<'a>
        requires { length words.old ≡ 34 }
        ensures holds { image_board result ≡ image sources words.old }
        ensures words { words_of result ≡ cleaned words.old }
        ensures keeps { KeepsTheRest words.old (words_of result) }
    {
        ImageBoard::made(words.as_mut_array().unwrap(), sources)
    }

    /// The same over a slice, where it has 34 words. Other words are refused, and nothing is written to them.
    // No clause says so of the words: std's `RestsIfErr` would, and the check wants a proof of it that walks the code.
    pub fn try_over(words: &'a mut [u32], sources: Sources) -> Result<ImageBoard<'a>, ImageError>
        ensures whole { IsOk result ↔ (length words.old ≡ 34) }
        ensures number { IfErr result (λ e. number e ≡ 10) }
        ensures holds { IfOk result (λ b. image_board b ≡ image sources words.old) }
        ensures words { IfOk result (λ b. words_of b ≡ cleaned words.old) }
        ensures keeps { IfOk result (λ b. KeepsTheRest words.old (words_of b)) }
    {
        let words = words.as_mut_array().ok_or(ImageError::WrongSize)?;
        Ok(ImageBoard::made(words, sources))
    }

    // What the three ways come to. It stands apart, so that a wrong operand in one of them is refused in that one, and not
    // in the proof that cleaning keeps the board.
    fn made(words: &'a mut [u32; 34], sources: Sources) -> ImageBoard<'a>
        ensures holds { image_board result ≡ image sources words.old }
        ensures words { words_of result ≡ cleaned words.old }
        ensures keeps { KeepsTheRest words.old (words_of result) }
    {
        ImageBoard {
            image: ImageWords::over(words),
            sources,
        }
    }
}

impl Board for ImageBoard<'_> {
    ghost meaning = { image_board };

    ghost spans = { image_spans };

    #[tactic(auto, using(crate::proofs::CleanImages::read_is), unfolding(crate::specs::States::read, crate::specs::Images::cleaned))]
    fn read(&self, register: Register) -> u32 {
        self.image.word(register)
    }

    #[tactic(auto, using(crate::proofs::ImageBoards::write_is, crate::proofs::CleanImages::write_keeps), unfolding(crate::specs::States::written))]
    fn write(&mut self, register: Register, word: u32)
        ensures after { image_board self.new ≡ written register word (image_board self.old) }
        ensures keeps { KeepsTheRest (words_of self.old) (words_of self.new) }
    {
        self.image.write(register, word);
    }

    #[tactic(auto, unfolding(crate::specs::States::polled, crate::specs::States::poll_answer))]
    fn poll(&mut self, side: Side) -> bool
        ensures answer { result ≡ poll_answer side (image_board self.old) }
        ensures after { image_board self.new ≡ polled side (image_board self.old) }
        ensures same { words_of self.new ≡ words_of self.old }
    {
        !self.image.control(side).start
    }

    fn sources(&self) -> Sources {
        self.sources
    }
}

impl Inspect for ImageBoard<'_> {
    #[tactic(auto, using(crate::proofs::Masks::and_twice))]
    fn in_force(&self, register: Register) -> u32 {
        self.image.in_force(register)
    }

    fn control(&self, side: Side) -> Control {
        self.image.control(side)
    }
}
