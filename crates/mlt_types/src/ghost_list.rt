//! Lists that contracts alone have.

ghost use Rattle.std.specs.Prelude.{◌≡◌, List};
ghost use Rattle.std.specs.Borrow.{ftrue};

use std::marker::{Model, PhantomData};

/// A list that no code keeps: clauses see it as `items`. It takes no bytes, and its function does nothing when the program runs: it
/// says what the list of clauses becomes.
#[derive(Drop)]
pub struct GhostList<T> {
    marker: PhantomData<T>,
    pub ghost items: { List T },
}

impl<T> Model for GhostList<T> {
    ghost also_owns = { λ _. ftrue };
}

// It owns nothing.
unsafe impl<T> Send for GhostList<T> {}

unsafe impl<T> Sync for GhostList<T> {}

impl<T> GhostList<T> {
    /// The list that the proof of the caller makes of what these two are.
    pub fn of<A, B>(first: &A, second: &B) -> GhostList<T>
        ghost items: { List T }
        ensures { result.items ≡ items }
    {
        GhostList {
            marker: PhantomData,
        }
    }
}
