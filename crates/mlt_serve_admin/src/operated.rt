//! What an operator sees and does, of any server.

ghost use Rattle.std.specs.Prelude.{ℕ, IsTrue, OnOk, ⊤};

use crate::view::{NotSaved, ObjectsView, ServerView, WantedObjects};
use std::alloc::{AllocError, Global};

/// A server that is looked at, and told to end.
pub trait Operated {
    // What holds of a server once it was told to end: nothing, where an impl does not say.
    ghost is_stopped: { Self → Type 0 } = { λ _. ⊤ };

    // What holds of a server once it cut the session of a client, in the same way.
    ghost is_cut: { Self → ℕ → Type 0 } = { λ _ _. ⊤ };

    // What holds of a server once it saved its base, in the same way.
    ghost is_saved: { Self → Type 0 } = { λ _. ⊤ };

    /// What the server is now.
    ///
    /// # Errors
    /// Where a growth was refused.
    fn view(&self, alloc: Global) -> Result<ServerView, AllocError>;

    /// Objects, as the operations left them that are done, also those of open transactions: from this place on some, in no order, and the
    /// place behind them. Who begins at place 0 and goes on there, up to the last place, gets each object once that is there meanwhile.
    ///
    /// # Errors
    /// Where a growth was refused.
    fn objects(&self, alloc: Global, wanted: &WantedObjects) -> Result<ObjectsView, AllocError>;

    /// Saves the base to which the transactions lead that have committed at some moment meanwhile. Returns how many these are.
    ///
    /// # Errors
    /// Why it is not saved.
    fn save(&self) -> Result<u64, NotSaved>
        ensures { OnOk result (is_saved self.now) };

    /// Tells the server to end in order. It may go on for a while; told again, it ends as it does.
    fn stop(&self)
        ensures { is_stopped self.now };

    /// Cuts the session of this client. Answers whether one is served.
    fn end_session(&self, client: u32) -> bool
        ensures { IsTrue result → is_cut self.now client };
}
