// What a DMA channel is to carry.
ghost use Rattle.std.specs.Prelude.{◌≡◌, ◌≤◌, min};

/// The descriptors of a chain, and how many of them, from the first on, the DMA owns.
#[derive(Clone, Copy, PartialEq, Eq, Debug)]
pub struct Load {
    pub count: u32,
    pub owned: u32,
    ghost within: { owned ≤ count },
}

impl Load {
    /// A load of `count` descriptors. More owned than there are counts as all of them.
    pub fn new(count: u32, owned: u32) -> Load
        ensures count { result.count ≡ count }
        ensures owned { result.owned ≡ min owned count }
    {
        Load {
            count,
            owned: owned.min(count),
        }
    }
}
