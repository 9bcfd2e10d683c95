// A channel that only counts.
ghost use Rattle.std.specs.Prelude.{◌≡◌, ◌≤◌, min, max};
ghost use Rattle.dma.specs.States.{idle_channel};

use crate::load::Load;
use crate::phased::PhasedChannel;
use crate::store::LoadStore;

/// A channel that holds no descriptors, and only the load.
pub type CountingChannel = PhasedChannel<CountingStore>;

/// A limit, and the load that was kept last.
#[derive(Drop)]
pub struct CountingStore {
    limit: u32,
    // No `Option`: the channel's phase says whether there is one, for this store and for the table, which has no empty load.
    load: Load,
    ghost holds_one: { 1 ≤ limit },
}

impl CountingChannel {
    ghost use Rattle.dma.specs.Counting.{counting_channel};

    /// An idle channel with a limit from 1 to 65,535, the nearer end for any other.
    pub fn new(limit: u32) -> CountingChannel
        ensures { counting_channel result ≡ idle_channel (max 1 (min limit 65535)) }
    {
        PhasedChannel::over(CountingStore {
            limit: limit.clamp(1, 65_535),
            load: Load { count: 0, owned: 0 },
        })
    }
}

impl LoadStore for CountingStore {
    ghost use Rattle.dma.specs.Counting.{counting_store, counting_least, HoldsLoad};

    ghost meaning = { counting_store };

    ghost keeps = { HoldsLoad };

    ghost least = { counting_least };

    fn limit(&self) -> u32 {
        self.limit
    }

    fn load(&self) -> Load {
        self.load
    }

    fn keep(&mut self, load: Load) {
        self.load = load;
    }
}
