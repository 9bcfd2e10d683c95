// Strips: a buffer in parts, which are taken one at a time while a channel has it.
ghost use Rattle.std.specs.Prelude.{◌≡◌, min};
ghost use Rattle.dma.specs.Strips.{strip_count, free_count, buffer_tag, view_tag, strips_opened, one_left, one_taken, strips_closed, TakeLaw, TakesLaw};

use crate::buffer::{DmaBuffer, Tagged, View};
use crate::load::Load;

/// Strips, of which the first ones are free for the DMA to use, and their tag.
#[derive(Drop)]
pub struct StripBuffer {
    load: Load,
    tag: u32,
}

/// Strips while a channel has them, and how many of them were taken.
#[derive(Drop)]
pub struct StripView {
    buffer: StripBuffer,
    taken: u32,
}

/// How many strips were taken, and their tag.
#[derive(Clone, Copy, PartialEq, Eq, Debug)]
pub struct StripsTaken {
    pub taken: u32,
    pub tag: u32,
}

impl StripBuffer {
    /// A buffer of strips. More free ones than there are counts as all of them.
    pub fn new(strips: u32, free: u32, tag: u32) -> StripBuffer
        ensures strips { strip_count result ≡ strips }
        ensures free { free_count result ≡ min free strips }
        ensures tag { buffer_tag result ≡ tag }
    {
        StripBuffer {
            load: Load::new(strips, free),
            tag,
        }
    }
}

impl Tagged for StripBuffer {
    ghost tag = { buffer_tag };

    fn tag(&self) -> u32 {
        self.tag
    }
}

impl Tagged for StripView {
    ghost tag = { view_tag };

    fn tag(&self) -> u32 {
        self.buffer.tag
    }
}

impl Tagged for StripsTaken {
    ghost tag = { λ s. s.tag };

    fn tag(&self) -> u32 {
        self.tag
    }
}

impl View for StripView {
    ghost takes = { one_left };

    ghost taken = { one_taken };

    // Besides what every view promises: the law of one call.
    fn take(&mut self) -> bool
        ensures answer { result ≡ one_left self.old }
        ensures after { self.new ≡ one_taken self.old }
        ensures same_tag { view_tag self.new ≡ view_tag self.old }
        ensures law { TakeLaw self.old self.new result }
    {
        if self.taken < self.buffer.load.count {
            self.taken += 1;
            true
        } else {
            false
        }
    }
}

impl DmaBuffer for StripBuffer {
    type View = StripView;

    type Final = StripsTaken;

    ghost count = { strip_count };

    ghost owned = { free_count };

    ghost opened = { strips_opened };

    ghost closed = { strips_closed };

    fn prepare(&self) -> Load {
        self.load
    }

    // Besides what every buffer promises: the law of all calls of `take` that follow.
    #[tactic(auto, using(crate::proofs::Takes::takes_law))]
    fn into_view(self) -> StripView
        ensures opens { result ≡ strips_opened self }
        ensures same_tag { view_tag result ≡ buffer_tag self }
        ensures law { TakesLaw result }
    {
        StripView {
            buffer: self,
            taken: 0,
        }
    }

    fn from_view(view: StripView) -> StripsTaken {
        StripsTaken {
            taken: view.taken,
            tag: view.buffer.tag,
        }
    }
}
