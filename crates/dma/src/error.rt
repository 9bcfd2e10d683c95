// Why a DMA channel refuses.
ghost use Rattle.std.specs.Prelude.{◌≡◌};
ghost use Rattle.dma.specs.Answers.{number};

/// Why a channel refuses.
#[derive(Clone, Copy, PartialEq, Eq, Debug)]
pub enum DmaError {
    /// The load has no descriptor.
    BufferTooSmall = 5,
    /// The load has more descriptors than the channel can hold.
    OutOfDescriptors = 6,
    /// The first descriptor is not the DMA's, or there is nothing to start.
    DescriptorError = 7,
}

impl DmaError {
    /// The number of the refusal. The crates share no error, so each has this line.
    pub fn number(self) -> u32
        ensures { result ≡ number self }
    {
        self as u32
    }
}
