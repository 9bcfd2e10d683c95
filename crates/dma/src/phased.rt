// A channel that knows what it is doing, and keeps its load in a store.
ghost use Rattle.std.specs.Prelude.{◌≡◌};
ghost use Rattle.dma.specs.Answers.{answer_of};
ghost use Rattle.dma.specs.Phased.{phased_channel, store_of};
ghost use Rattle.dma.specs.Requests.{answer, after, prepare_answer, ready_answer};
ghost use Rattle.dma.specs.States.{idle_channel};
ghost use Rattle.dma.specs.Stores.{StoreAfter};

use crate::channel::{Channel, Request};
use crate::error::DmaError;
use crate::load::Load;
use crate::store::LoadStore;

/// A channel over a store of loads: its load is what the store says.
#[derive(Drop)]
pub struct PhasedChannel<S> {
    pub(crate) store: S,
    error: bool,
    phase: Phase,
}

impl<S: LoadStore> PhasedChannel<S> {
    /// An idle channel over a store.
    pub fn over(store: S) -> PhasedChannel<S>
        ensures state { phased_channel S.meaning result ≡ idle_channel (S.meaning store).limit }
        ensures store { store_of result ≡ store }
    {
        PhasedChannel {
            store,
            error: false,
            phase: Phase::Idle,
        }
    }
}

impl<S: LoadStore> Channel for PhasedChannel<S> {
    ghost meaning = { phased_channel S.meaning };

    ghost least = { λ c. S.least (store_of c) };

    // Besides what every channel promises: what becomes of the store.
    fn handle(&mut self, request: Request) -> Result<(), DmaError>
        ensures answer { answer_of result ≡ answer request (phased_channel S.meaning self.old) }
        ensures after { phased_channel S.meaning self.new ≡ after request (phased_channel S.meaning self.old) }
        ensures store { StoreAfter S.keeps request (answer_of result) (store_of self.old) (store_of self.new) }
    {
        // One `match` on the phase and the request, as the project wants it: the request is a value that callers hand in.
        match (self.phase, request) {
            (_, Request::Prepare(load)) => {
                self.phase = Phase::Idle;
                check_count(load, self.store.limit())?;
                self.store.keep(load);
                self.phase = Phase::Ready;
                self.error = false;
                Ok(())
            }
            (Phase::Ready, Request::Start) => {
                let load = self.store.load();
                self.phase = Phase::Running;
                if load.owned < load.count {
                    self.error = true;
                }
                check_owned(load)
            }
            (_, Request::Start) => {
                self.phase = Phase::Idle;
                Err(DmaError::DescriptorError)
            }
            (_, Request::Stop) => {
                self.phase = Phase::Idle;
                Ok(())
            }
        }
    }

    fn has_error(&self) -> bool {
        self.error
    }

    fn limit(&self) -> u32 {
        self.store.limit()
    }
}

// What a channel is doing.
#[derive(Clone, Copy)]
enum Phase {
    Idle,
    Ready,
    Running,
}

// Whether a load can be taken: it has a descriptor, and no more than the limit.
fn check_count(load: Load, limit: u32) -> Result<(), DmaError>
    ensures { answer_of result ≡ prepare_answer load.count limit }
{
    if load.count == 0 {
        return Err(DmaError::BufferTooSmall);
    }
    if load.count > limit {
        return Err(DmaError::OutOfDescriptors);
    }
    Ok(())
}

// Whether the DMA can begin with a load: it owns the first descriptor.
fn check_owned(load: Load) -> Result<(), DmaError>
    ensures { answer_of result ≡ ready_answer load.owned }
{
    if load.owned == 0 {
        return Err(DmaError::DescriptorError);
    }
    Ok(())
}
