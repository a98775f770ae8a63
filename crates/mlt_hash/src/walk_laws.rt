//! What a walk knows, whatever other transactions do.

ghost use Rattle.std.specs.Prelude.{ℕ, ◌≡◌, ◌<◌, ◌+◌, Option, Some, true};
ghost use Rattle.std.specs.Ordering.{nat_cmp};
ghost use Rattle.std.specs.FinMap as map;
ghost use Rattle.std.specs.FinSet as set;
ghost use Rattle.mlt_types.specs.declared.mode.Mode.TheVariants.{Exclusive};
ghost use Rattle.mlt_page.specs.declared.page.Page.{Page};
ghost use Rattle.mlt_page_locks.specs.LockTables.{pages_of};
ghost use Rattle.mlt_hash_form.specs.File.{FilePages, HasForm, look_up};
ghost use Rattle.mlt_hash_form.specs.Held.{Agrees};
ghost use Rattle.mlt_hash_access.specs.LocalStates.{MayStep, LocalState};
ghost use Rattle.mlt_hash_access.specs.Views.{View, rebased, view_of};
ghost use Rattle.mlt_hash_split.specs.Rests.{KeepsNoMore};
ghost use Rattle.mlt_hash_split.specs.Steps.{IsNextPage};
ghost use Rattle.mlt_hash.specs.Walks.{WalkContext, HasRead, HoldsByPass, IsAtBucket, IsAtStart, IsSplitting, IsStanding, SlotsStood, WalkFields, split_target, view_for};
ghost use Rattle.mlt_hash.specs.Splitting.{TellsAt, TellsOfSplitting, WalkStep};
ghost use Rattle.mlt_hash.specs.StepsLeft.{IsPutting, steps_to_put};
ghost use Rattle.mlt_hash.specs.declared.answer.WalkAnswer.TheVariants as answer;
ghost use Rattle.mlt_hash.specs.declared.pass.Pass.TheVariants as pass;

/// Who holds no page and has written none is at the start of a walk.
pub fn walk_starts_without_pages()
    ensures { (m : LocalState) → MayStep m
        → pages_of m.locks m.running.tx ≡ map.empty → m.running.images ≡ map.empty
        → IsAtStart (view_of m) }
{}

/// What a walk found of its key at its bucket is on the clean pages.
pub fn what_is_found_is_there()
    ensures { (context : WalkContext) (walk : WalkFields) (view : View) (bucket depth : ℕ)
        (found : Option ℕ) (clean : ℕ → Option Page)
        → IsAtBucket context walk view bucket depth found
        → Agrees view.seen clean → HasForm context.bits clean context.root
        → look_up context.bits clean context.root walk.key ≡ found }
{}

/// Transactions may close, and others begin that left no ghost on a page that is held: a walk stands where it stood.
pub fn closed_owners_keep_the_walk()
    ensures { (context : WalkContext) (fewer : set.FinSet nat_cmp) (walk : WalkFields) (view : View)
        (clean : ℕ → Option Page)
        → IsStanding context walk view → KeepsNoMore context.active fewer view
        → Agrees view.seen clean → HasForm context.bits clean context.root
        → IsStanding (record context { active = fewer }) walk view }
{}

/// So it does over what it wrote for its first key: on these pages no more slots are kept than before, as long as its own
/// transaction is open.
pub fn closed_owners_keep_what_was_written()
    ensures stood { (written : FilePages) (tx : ℕ) (old new : View)
        → SlotsStood written tx old
        → ((q : ℕ) (p : Option Page) → old.seen q ≡ Some p → new.seen q ≡ Some p)
        → SlotsStood written tx new }
    ensures no_more { (written : FilePages) (tx : ℕ) (active fewer : set.FinSet nat_cmp)
        (view : View)
        → SlotsStood written tx view → set.contains active tx ≡ true
        → KeepsNoMore active fewer view → KeepsNoMore active fewer (rebased written view) }
{}

/// So do other transactions that change nothing of what the walk holds.
pub fn same_view_keeps_the_walk()
    ensures { (context : WalkContext) (walk : WalkFields) (before after : View)
        → IsStanding context walk before
        → after.modes ≡ before.modes → ((q : ℕ) → after.seen q ≡ before.seen q)
        → ((q : ℕ) → after.own q ≡ before.own q)
        → IsStanding context walk after }
{}

/// A walk at its bucket has read its way, and holds these pages in the modes of its pass.
pub fn walk_at_its_bucket_has_passed()
    ensures { (context : WalkContext) (walk : WalkFields) (view : View) (bucket depth : ℕ)
        (found : Option ℕ) → IsAtBucket context walk view bucket depth found
        → (read : HasRead context walk.key view found)
        × HoldsByPass context.before.held walk.pass walk.mode context.root read.dir read.bucket
        view }
{}

/// What was found of a key is on the clean pages as long as what was read on its way is held.
pub fn what_was_found_stays_there()
    ensures { (context : WalkContext) (key : ℕ) (view : View) (found : Option ℕ)
        (clean : ℕ → Option Page) → HasRead context key view found
        → Agrees view.seen clean → found ≡ look_up context.bits clean context.root key }
{}

/// Once a narrow pass splits, it holds the page that it is to lock next, and exclusively.
pub fn narrow_passes_hold_their_next_page()
    ensures { (context : WalkContext) (walk : WalkFields) (view : View) (room_depth n : ℕ)
        (clean : ℕ → Option Page) → (splits : IsSplitting context walk view room_depth)
        → walk.pass ≡ pass.Narrow
        → Agrees view.seen clean → HasForm context.bits clean context.root
        → IsNextPage splits.split.phase (split_target context walk room_depth) view n
        → map.get view.modes n ≡ Some Exclusive }
{}

/// So a narrow pass that splits is never told to wait.
pub fn narrow_passes_never_wait()
    ensures { (context : WalkContext) (step : WalkStep) (value room_depth page by : ℕ)
        (clean : ℕ → Option Page)
        → MayStep step.old → IsSplitting context step.before (view_for context step.old) room_depth
        → step.before.pass ≡ pass.Narrow
        → Agrees (view_for context step.old).seen clean → HasForm context.bits clean context.root
        → TellsOfSplitting context step value room_depth (answer.Waiting page by)
        → ⊥ }
{}

/// A walk holds fewer than 300 pages, wherever it stands. `clean` is some clean file that agrees with what it saw.
pub fn walks_hold_fewer_than_300_pages()
    ensures { (context : WalkContext) (walk : WalkFields) (view : View) (clean : ℕ → Option Page)
        → IsStanding context walk view
        → Agrees view.seen clean → HasForm context.bits clean context.root
        → map.len view.modes < 300 }
{}

/// Each step of a pass that splits, or is to, is one of those that are left.
pub fn each_step_leaves_one_fewer()
    ensures { (context : WalkContext) (old new : LocalState) (before after : WalkFields)
        (clean : ℕ → Option Page) → Agrees (view_for context new).seen clean
        → HasForm context.bits clean context.root → IsPutting before.phase
        → TellsAt before.phase context old new before after answer.Going
        → steps_to_put context.root after (view_for context new) + 1
        ≡ steps_to_put context.root before (view_for context old) }
{}
