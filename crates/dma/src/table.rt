// A channel that holds a table of descriptors.
ghost use Rattle.std.specs.Prelude.{◌≡◌, ◌<◌, ◌≤◌, length, not, replicate};
ghost use Rattle.std.specs.List.{prefix_len};
ghost use Rattle.dma.specs.Chains.{chain_count, chain_owned, is_dma, linked, unlinked, OneByOne, ReadsBack, Written};
ghost use Rattle.dma.specs.States.{idle_channel};

use crate::load::Load;
use crate::phased::PhasedChannel;
use crate::store::LoadStore;

/// A channel of 256 descriptors. Its load is what they say, and is stored nowhere else.
pub type TableChannel = PhasedChannel<DescriptorTable>;

/// 256 descriptors.
#[derive(Drop)]
pub struct DescriptorTable {
    descriptors: [Descriptor; 256],
    ghost full: { length descriptors ≡ 256 },
}

/// Who may use the memory of a descriptor.
#[derive(Clone, Copy, PartialEq, Eq, Debug)]
pub enum Owner {
    Cpu,
    Dma,
}

/// A descriptor of a chain.
#[derive(Clone, Copy, PartialEq, Eq, Debug)]
pub struct Descriptor {
    pub owner: Owner,
    /// The chain ends here (the manual's suc_eof).
    pub last: bool,
}

impl TableChannel {
    ghost use Rattle.dma.specs.Table.{table_channel, table_descriptors};

    /// An idle channel, whose descriptors were never written.
    pub fn new() -> TableChannel
        ensures state { table_channel result ≡ idle_channel 256 }
        ensures descriptors { table_descriptors result ≡ replicate 256 unlinked }
    {
        PhasedChannel::over(DescriptorTable::new())
    }

    /// The load that the descriptors say: the chain from the first through the first that is last, and how many of it,
    /// from the first on, belong to the DMA.
    #[tactic(auto, using(crate::proofs::Chain::one_by_one))]
    pub fn load(&self) -> Load
        ensures count { result.count ≡ chain_count (table_descriptors self.now) }
        ensures owned { result.owned ≡ chain_owned (table_descriptors self.now) }
        ensures law { OneByOne (table_descriptors self.now) }
    {
        self.store.load()
    }
}

impl DescriptorTable {
    // Descriptors that were never written.
    fn new() -> DescriptorTable
        ensures { result.descriptors ≡ replicate 256 unlinked }
    {
        let unlinked = Descriptor {
            owner: Owner::Cpu,
            last: true,
        };
        DescriptorTable {
            descriptors: [unlinked; 256],
        }
    }

    // Writes a load into the first descriptors, which then say it.
    #[tactic(auto, using(crate::proofs::Chain::reads_back))]
    fn link(&mut self, load: Load)
        ensures count { 1 ≤ load.count → load.count ≤ 256 → chain_count self.new.descriptors ≡ load.count }
        ensures owned { 1 ≤ load.count → load.count ≤ 256 → chain_owned self.new.descriptors ≡ load.owned }
        ensures written { load.count ≤ 256 → Written load.count load.owned self.old.descriptors self.new.descriptors }
        ensures law { ReadsBack load.count load.owned self.new.descriptors }
    {
        for (place, descriptor) in self.descriptors.iter_mut().enumerate() {
            // Not `.take(..)` on the loop, after which the proof knows nothing of the descriptors.
            if place == load.count as usize {
                break;
            }
            descriptor.link(load, place as u32);
        }
    }
}

impl LoadStore for DescriptorTable {
    ghost use Rattle.std.proofs.Common.{lit≤};
    ghost use Rattle.dma.specs.Table.{descriptor_table, WritesLoad};

    ghost meaning = { descriptor_table };

    ghost keeps = { WritesLoad };

    ghost least = { λ _. lit≤ tt };

    fn limit(&self) -> u32 {
        256
    }

    #[tactic(auto, using(crate::proofs::Chain::chain_counted, crate::proofs::Chain::chain_owned_first, crate::proofs::Chain::prefix_within))]
    fn load(&self) -> Load {
        let count = (before_last(&self.descriptors) + 1).min(256);
        // Only of the chain: what stands past it may be left of a longer one.
        let owned = owned_first(&self.descriptors[..count]);
        Load {
            count: count as u32,
            owned: owned as u32,
        }
    }

    fn keep(&mut self, load: Load) {
        self.link(load);
    }
}

// How many descriptors come before the first that is last. It and `owned_first` stay two: written out in `load` its proof
// did not close, and one function over any test would have a longer contract than both.
fn before_last(descriptors: &[Descriptor]) -> usize
    ensures value { result ≡ prefix_len (λ d. not d.last) descriptors.now }
    ensures bound { result ≤ length descriptors.now }
{
    descriptors
        .iter()
        .take_while(|descriptor| !descriptor.last)
        .count()
}

// How many descriptors, from the first on, belong to the DMA.
fn owned_first(descriptors: &[Descriptor]) -> usize
    ensures value { result ≡ prefix_len (λ d. is_dma d.owner) descriptors.now }
    ensures bound { result ≤ length descriptors.now }
{
    descriptors
        .iter()
        .take_while(|descriptor| descriptor.owner == Owner::Dma)
        .count()
}

impl Descriptor {
    // Makes this the descriptor at a place, from 0, of the chain of a load.
    fn link(&mut self, load: Load, place: u32)
        requires { place < load.count }
        ensures { self.new ≡ linked load.count load.owned place }
    {
        self.owner = if place < load.owned {
            Owner::Dma
        } else {
            Owner::Cpu
        };
        self.last = place + 1 == load.count;
    }
}
