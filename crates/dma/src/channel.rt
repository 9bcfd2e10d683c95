// A DMA channel: what it is asked, and what it promises.
ghost use Rattle.std.specs.Prelude.{◌≡◌, ◌≤◌};
ghost use Rattle.dma.specs.Answers.{answer_of};
ghost use Rattle.dma.specs.Laws.{PrepareLaw, StartLaw, StopLaw};
ghost use Rattle.dma.specs.Requests.{answer, after};
ghost use Rattle.dma.specs.States.{ChannelState};

use crate::error::DmaError;
use crate::load::Load;

/// What a channel can be asked.
#[derive(Clone, Copy)]
pub enum Request {
    /// To take a load, whatever it was doing.
    Prepare(Load),
    /// To run with the load that it took.
    Start,
    /// To let go of its load.
    Stop,
}

/// A DMA channel: a limit of descriptors, an error mark, and what it is doing.
pub trait Channel {
    // The state that a channel stands for.
    ghost meaning: { Self → ChannelState };

    /// Does what is asked, or says why not.
    fn handle(&mut self, request: Request) -> Result<(), DmaError>
        ensures answer { answer_of result ≡ answer request (meaning self.old) }
        ensures after { meaning self.new ≡ after request (meaning self.old) };

    /// The error mark.
    fn has_error(&self) -> bool
        ensures { result ≡ (meaning self.now).error };

    /// How many descriptors the channel can hold.
    fn limit(&self) -> u32
        ensures { result ≡ (meaning self.now).limit };

    /// Takes a load, whatever the channel was doing. The mark is cleared, unless the load is refused.
    fn prepare(&mut self, load: Load) -> Result<(), DmaError>
        ensures answer { answer_of result ≡ answer (Request.Prepare load) (meaning self.old) }
        ensures after { meaning self.new ≡ after (Request.Prepare load) (meaning self.old) }
        ensures law { PrepareLaw load.count load.owned (meaning self.old) (meaning self.new) (answer_of result) }
    {
        self.handle(Request::Prepare(load))
    }

    /// Runs with the load that was taken. The mark is set where the DMA does not own all of it.
    fn start(&mut self) -> Result<(), DmaError>
        ensures answer { answer_of result ≡ answer Request.Start (meaning self.old) }
        ensures after { meaning self.new ≡ after Request.Start (meaning self.old) }
        ensures law { StartLaw (meaning self.old) (meaning self.new) (answer_of result) }
    {
        self.handle(Request::Start)
    }

    /// Lets go of the load. This is always accepted.
    fn stop(&mut self) -> Result<(), DmaError>
        ensures answer { answer_of result ≡ answer Request.Stop (meaning self.old) }
        ensures after { meaning self.new ≡ after Request.Stop (meaning self.old) }
        ensures law { StopLaw (meaning self.old) (meaning self.new) (answer_of result) }
    {
        self.handle(Request::Stop)
    }

    // A channel can hold one descriptor at least.
    ghost least: { (c : Self) → 1 ≤ (meaning c).limit };
}
