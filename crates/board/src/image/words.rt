// The 34 words of an image.
ghost use Rattle.std.specs.Prelude.{◌≡◌, ◌+◌, ◌<◌, length, bit_and, slice_index, slice_set};
ghost use Rattle.board.specs.Fields.{stored};
ghost use Rattle.board.specs.Images.{cleaned, masks, mark_place, control_in, stored_in, put_in_force, image_written, KeepsTheRest};
ghost use Rattle.board.specs.Registers.{index, side};

use crate::control::{Control, Request, flag, start_field, with_start};
use crate::register::{Register, Side};

// The bits of each word that may be 1: those of the words as they are read, of the words in force, and of the marks. The
// contract of `mask` says that they are those of the registers. They are written out, since asking each register for its
// mask takes many times as long.
const MASKS: [u32; 34] = [
    0xffff_ffff,
    0xefe8_2000,
    0xf7ff_fffe,
    0xffff_ffff,
    0xffff_ffff,
    0xffff_03ff,
    0x8000_0000,
    0x0000_00ff,
    0xffff_ffff,
    0x7fff_ffef,
    0x3fff_ffff,
    0x8000_0000,
    0xffff_ffff,
    0xffff_ffff,
    0xffff_ffff,
    0xffff_ffff,
    0xffff_ffff,
    0xe7e8_2000,
    0xf7ff_fffe,
    0xffff_ffff,
    0xffff_ffff,
    0xffff_03ff,
    0x8000_0000,
    0x0000_00ff,
    0xffff_ffff,
    0x7fff_ffef,
    0x1fff_ffff,
    0x8000_0000,
    0xffff_ffff,
    0xffff_ffff,
    0xffff_ffff,
    0xffff_ffff,
    3,
    3,
];

/// The words of an image, where each bit that reads as 0 is 0, as are start in force and spare mark bits.
#[derive(Drop)]
pub(crate) struct ImageWords<'a> {
    words: &'a mut [u32; 34],
    // The type says this too, but a proof sees the length of an array behind a `&mut` only where its words are read.
    ghost whole: { length words.now ≡ 34 },
    ghost clean: { cleaned words.now ≡ words.now },
}

impl<'a> ImageWords<'a> {
    #[tactic(auto, using(crate::proofs::CleanImages::cleaned_twice))]
    pub fn over(words: &'a mut [u32; 34]) -> ImageWords<'a>
        ensures words { result.words.now ≡ cleaned words.old }
        ensures keeps { KeepsTheRest words.old result.words.now }
    {
        clean(words);
        ImageWords { words }
    }

    // The check does not cover `self.words[i]` in a method of `&self`, where the array lies behind a `&mut`.
    fn as_array(&self) -> &[u32; 34]
        ensures { result.now ≡ self.now.words.now }
    {
        &*self.words
    }

    /// The word of a register, as a read answers it.
    pub fn word(&self, register: Register) -> u32
        ensures { result ≡ slice_index self.now.words.now (index register) }
    {
        self.as_array()[register.index()]
    }

    /// The word of a register that is in force.
    pub fn in_force(&self, register: Register) -> u32
        ensures { result ≡ stored register (slice_index self.now.words.now (16 + index register)) }
    {
        register.stored(self.as_array()[16 + register.index()])
    }

    /// Start and marks of a side.
    pub fn control(&self, side: Side) -> Control
        ensures { result ≡ control_in side self.now.words.now }
    {
        let field = start_field(side);
        let marks = self.as_array()[mark_place(side)];
        Control {
            start: flag(field, self.word(field.place().register)),
            reset: marks % 2 == 1,
            afifo_reset: marks / 2 % 2 == 1,
        }
    }

    /// Does what a word asks that is written to a register.
    pub fn write(&mut self, register: Register, word: u32)
        ensures { self.new.words.now ≡ image_written register word self.old.words.now }
    {
        let side = register.side();
        let request = Request::of(register, word);
        let control = self.control(side).after(request);
        self.store(register, word, control);
        if request.update {
            self.put_in_force(side);
        }
    }

    // The register's word with start in its place, and the marks of its side.
    #[tactic(auto, using(crate::proofs::CleanImages::stored_passes))]
    fn store(&mut self, register: Register, word: u32, control: Control)
        ensures { self.new.words.now ≡ stored_in register word control self.old.words.now }
    {
        let stored = with_start(register, control.start, register.stored(word));
        self.put(register.index(), stored);
        let marks = control.reset as u32 + 2 * control.afifo_reset as u32;
        self.put(mark_place(register.side()), marks);
    }

    // Puts the words of a side in force, without start.
    #[tactic(auto, using(crate::proofs::CleanImages::in_force_passes, crate::proofs::CleanImages::one_more_in_force))]
    fn put_in_force(&mut self, side: Side)
        ensures { self.new.words.now ≡ put_in_force side self.old.words.now }
    {
        for register in side.registers() {
            let word = register.stored(self.word(*register));
            self.put(16 + register.index(), word);
        }
    }

    // Replaces a word by one that has no bit which has to be 0 there.
    fn put(&mut self, i: usize, word: u32)
        requires within { i < 34 }
        requires passes { bit_and word (slice_index masks i) ≡ word }
        ensures { self.new.words.now ≡ slice_set self.old.words.now i word }
    {
        self.words[i] = word;
    }
}

// Takes out the bits that read as 0, start in force and spare mark bits. Words of no register are kept.
#[tactic(auto, using(crate::proofs::Images::cleaned_more, crate::proofs::Images::cleaned_all, crate::proofs::CleanImages::clean_keeps), unfolding(crate::specs::Images::cleaned))]
fn clean(words: &mut [u32; 34])
    ensures words { words.new ≡ cleaned words.old }
    ensures keeps { KeepsTheRest words.old words.new }
{
    for (i, word) in words.iter_mut().enumerate() {
        *word &= mask(i);
    }
}

// The bits of a word that may be 1. Words of no register have all of them.
fn mask(i: usize) -> u32
    requires { i < 34 }
    ensures { result ≡ slice_index masks i }
{
    MASKS[i]
}

// Where the marks of a side stand.
fn mark_place(side: Side) -> usize
    ensures { result ≡ mark_place side }
{
    32 + side as usize
}
