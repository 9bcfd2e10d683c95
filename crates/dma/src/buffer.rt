// What a channel can carry: a buffer, its view while the channel has it, and what is left of it then. All three tell
// the same tag.
//
// Code over any buffer is proved from the ghost members: they say what each call gives.
ghost use Rattle.std.specs.Prelude.{◌≡◌, ℕ, Bool};

use crate::load::Load;

// The five impls stay: each type tells a field of its own, and one wrapper for both views would be no plainer: the one
// around a frame would count takes in vain.
/// What has a tag.
pub trait Tagged {
    ghost tag: { Self → ℕ };

    /// The tag.
    fn tag(&self) -> u32
        ensures { result ≡ tag self.now };
}

/// A buffer while a channel has it.
pub trait View: Tagged {
    // Whether a take answers yes.
    ghost takes: { Self → Bool };

    // The view after a take.
    ghost taken: { Self → Self };

    /// Takes what is next. `false` where there is nothing more.
    fn take(&mut self) -> bool
        ensures answer { result ≡ takes self.old }
        ensures after { self.new ≡ taken self.old }
        ensures same_tag { Self.Tagged.tag self.new ≡ Self.Tagged.tag self.old };
}

/// A buffer that a channel can carry.
pub trait DmaBuffer: Tagged {
    /// The buffer while a channel has it.
    type View: View;

    /// What is left of the buffer once the channel is done with it.
    type Final: Tagged;

    // The descriptors of its load.
    ghost count: { Self → ℕ };

    // How many of them the DMA owns.
    ghost owned: { Self → ℕ };

    // The view that it opens as.
    ghost opened: { Self → Self.View };

    // The final that a view closes as.
    ghost closed: { Self.View → Self.Final };

    /// The load of the buffer, which stays as it is.
    fn prepare(&self) -> Load
        ensures count { result.count ≡ count self.now }
        ensures owned { result.owned ≡ owned self.now };

    /// Called before the channel starts to use the buffer.
    fn into_view(self) -> Self::View
        ensures opens { result ≡ opened self }
        ensures same_tag { Self.View.Tagged.tag result ≡ Self.Tagged.tag self };

    /// Called once the channel is done with the buffer.
    fn from_view(view: Self::View) -> Self::Final
        ensures closes { result ≡ closed view }
        ensures same_tag { Self.Final.Tagged.tag result ≡ Self.View.Tagged.tag view };
}
