// A frame: bytes that are lent for reading.
ghost use Rattle.std.specs.Prelude.{◌≡◌, false, length};
ghost use Rattle.dma.specs.Frames.{frame_count, frame_opened, frame_closed, FrameLaw};

use crate::buffer::{DmaBuffer, Tagged, View};
use crate::load::Load;

/// The bytes of a frame, and its tag.
#[derive(Clone, Copy)]
pub struct FrameBuffer<'a> {
    pub bytes: &'a [u8],
    pub tag: u32,
}

/// A frame while a channel has it: there is nothing to take of it.
#[derive(Clone, Copy)]
pub struct FrameView<'a> {
    frame: FrameBuffer<'a>,
}

impl<'a> Tagged for FrameBuffer<'a> {
    ghost tag = { λ b. b.tag };

    fn tag(&self) -> u32 {
        self.tag
    }
}

impl<'a> Tagged for FrameView<'a> {
    ghost tag = { λ v. (frame_closed v).tag };

    fn tag(&self) -> u32 {
        self.frame.tag
    }
}

impl<'a> View for FrameView<'a> {
    ghost takes = { λ _. false };

    ghost taken = { λ v. v };

    fn take(&mut self) -> bool {
        false
    }
}

impl<'a> DmaBuffer for FrameBuffer<'a> {
    type View = FrameView<'a>;

    type Final = FrameBuffer<'a>;

    ghost count = { λ b. frame_count (length b.bytes.now) };

    ghost owned = { λ b. frame_count (length b.bytes.now) };

    ghost opened = { frame_opened };

    ghost closed = { frame_closed };

    // Besides what every buffer promises: the law of its count.
    fn prepare(&self) -> Load
        ensures count { result.count ≡ frame_count (length self.now.bytes.now) }
        ensures owned { result.owned ≡ frame_count (length self.now.bytes.now) }
        ensures law { FrameLaw (length self.now.bytes.now) result.count }
    {
        let count = self.bytes.len().div_ceil(4092).min(0xffff_ffff) as u32;
        Load {
            count,
            owned: count,
        }
    }

    fn into_view(self) -> FrameView<'a> {
        FrameView { frame: self }
    }

    fn from_view(view: FrameView<'a>) -> FrameBuffer<'a> {
        view.frame
    }
}
