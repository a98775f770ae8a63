//! What a step of one transaction leaves of what another knows.

ghost use Rattle.std.specs.Prelude.{ℕ, ◌≡◌, ◌≢◌, is_some, true};
ghost use Rattle.mlt_page_locks.specs.LockTables.{can_write};
ghost use Rattle.mlt_page_subtx.specs.Images.{AreThere, Running, image_of};
ghost use Rattle.mlt_hash_access.specs.LocalStates.{MayStep, LocalState, beside};
ghost use Rattle.mlt_hash_access.specs.PageSteps.{TouchesOnePage};
ghost use Rattle.mlt_hash_access.specs.Views.{IsSameView, view_of};

/// A step of another transaction changes nothing of what a walk holds.
pub fn others_leave_the_view()
    ensures { (old new : LocalState) (running : Running) → MayStep old → TouchesOnePage old new
        → running.tx ≢ old.running.tx
        → IsSameView (view_of (beside old running)) (view_of (beside new running)) }
{}

/// And what a walk wrote stays there, and locked.
pub fn others_leave_what_was_written()
    ensures { (old new : LocalState) (running : Running) → MayStep old → TouchesOnePage old new
        → running.tx ≢ old.running.tx → AreThere running.images old.store.pages
        → ((q : ℕ) → is_some (image_of running.images q) ≡ true
        → can_write old.locks running.tx q ≡ true)
        → AreThere running.images new.store.pages
        × ((q : ℕ) → is_some (image_of running.images q) ≡ true
        → can_write new.locks running.tx q ≡ true) }
{}
