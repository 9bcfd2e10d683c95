// Where a channel keeps its load, and what it promises.
//
// Code over any store is proved from the ghost members: they say what each call gives.
ghost use Rattle.std.specs.Prelude.{◌≡◌, ◌≤◌};
ghost use Rattle.dma.specs.Stores.{StoreState, Fits};
ghost use Rattle.dma.specs.declared.load.Load.{Load};

use crate::load::Load;

/// Where a channel keeps the load that it took.
pub trait LoadStore {
    // What a store says: how many descriptors it can hold, and the load that it kept last.
    ghost meaning: { Self → StoreState };

    // What else a load that is kept makes of a store.
    ghost keeps: { Load → Self → Self → Type 0 };

    /// How many descriptors the store can hold.
    fn limit(&self) -> u32
        ensures { result ≡ (meaning self.now).limit };

    /// The load that was kept last.
    fn load(&self) -> Load
        ensures count { result.count ≡ (meaning self.now).count }
        ensures owned { result.owned ≡ (meaning self.now).owned };

    /// Keeps a load in the place of the last one, where it has a descriptor and no more than the limit. Of a load that does
    /// not fit only that the limit stays is promised.
    fn keep(&mut self, load: Load)
        ensures count { Fits load (meaning self.old) → (meaning self.new).count ≡ load.count }
        ensures owned { Fits load (meaning self.old) → (meaning self.new).owned ≡ load.owned }
        ensures keeps { Fits load (meaning self.old) → keeps load self.old self.new }
        ensures same_limit { (meaning self.new).limit ≡ (meaning self.old).limit };

    // A store can hold one descriptor at least.
    ghost least: { (s : Self) → 1 ≤ (meaning s).limit };
}
