//! What a walk knows of its pages.

ghost use Rattle.std.specs.Prelude.{ℕ, ◌≡◌, ◌↔◌, Option, Some, is_some, true};
ghost use Rattle.std.specs.FinMap as map;
ghost use Rattle.mlt_types.specs.declared.mode.Mode.{Mode};
ghost use Rattle.mlt_types.specs.declared.mode.Mode.TheVariants.{Exclusive};
ghost use Rattle.mlt_page.specs.declared.page.Page.{Page};
ghost use Rattle.mlt_hash_form.specs.File.{FilePages};
ghost use Rattle.mlt_hash_form.specs.Held.{Agrees, over};
ghost use Rattle.mlt_hash_access.specs.LocalStates.{IsCleanFor, MayStep, LocalState};
ghost use Rattle.mlt_hash_access.specs.PageSteps.{TouchesOnePage};
ghost use Rattle.mlt_hash_access.specs.Views.{HasWritten, MakesPage, ReadsHeldPage, ReadsPage, View, WritesPage, rebased, view_of};

/// What a walk saw is on the clean pages.
pub fn view_agrees_with_clean_pages()
    ensures { (m : LocalState) (clean : ℕ → Option Page)
        → MayStep m → IsCleanFor m clean → Agrees (view_of m).seen clean }
{}

/// A transaction's own step lets what it sees only grow, so that what was found on its way stays on the clean pages.
pub fn own_steps_see_more()
    ensures { (old new : LocalState) (q : ℕ) (first : Option Page)
        → MayStep old → TouchesOnePage old new
        → (view_of old).seen q ≡ Some first → (view_of new).seen q ≡ Some first }
{}

/// What a walk has written or made it holds exclusively.
pub fn written_pages_are_held_exclusively()
    ensures { (m : LocalState) (q : ℕ) → MayStep m
        → is_some ((view_of m).own q) ≡ true → map.get (view_of m).modes q ≡ Some Exclusive }
{}

/// What a walk has written so far may be taken as seen. What agrees with the view is then, with these writes over it, what
/// agrees with the rebased view, and nothing else agrees with that.
pub fn rebased_views_agree_with_what_was_written()
    ensures agrees { (before : FilePages) (view : View) (clean : ℕ → Option Page)
        → Agrees view.seen clean → Agrees (rebased before view).seen (over clean before) }
    ensures alone { (before : FilePages) (view : View) (now : ℕ → Option Page)
        → Agrees (rebased before view).seen now
        → (clean : ℕ → Option Page) × Agrees view.seen clean
        × ((q : ℕ) → over clean before q ≡ now q) }
{}

/// Held pages then read as they did, and each step on a page is the same step of the rebased view.
pub fn rebased_views_step_alike()
    ensures reads { (before : FilePages) (view : View) (q : ℕ) (page : Page)
        → HasWritten before view
        → ReadsHeldPage (rebased before view) q page ↔ ReadsHeldPage view q page }
    ensures locks { (before : FilePages) (old new : View) (q : ℕ) (mode : Mode)
        (page : Option Page) → HasWritten before old → ReadsPage old new q mode page
        → ReadsPage (rebased before old) (rebased before new) q mode page }
    ensures writes { (before : FilePages) (old new : View) (q : ℕ) (page : Page)
        → WritesPage old new q page
        → WritesPage (rebased before old) (rebased before new) q page }
    ensures makes { (before : FilePages) (old new : View) (q : ℕ) (page : Page)
        → HasWritten before old → MakesPage old new q page
        → MakesPage (rebased before old) (rebased before new) q page }
    ensures stays { (before : FilePages) (old new : LocalState)
        → MayStep old → TouchesOnePage old new
        → HasWritten before (view_of old) → HasWritten before (view_of new) }
{}
