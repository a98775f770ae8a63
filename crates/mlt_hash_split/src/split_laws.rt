//! What a walk knows of its splits, whatever other transactions do.

ghost use Rattle.std.specs.Prelude.{ℕ, ◌≡◌, ◌<◌, ◌≤◌, ◌+◌, ◌⊎◌, None, Option, Some, slice_index_or, true};
ghost use Rattle.std.specs.Ordering.{nat_cmp};
ghost use Rattle.std.specs.FinSet as set;
ghost use Rattle.mlt_types.specs.declared.mode.Mode.TheVariants.{Exclusive};
ghost use Rattle.mlt_page.specs.Slots.{is_kept};
ghost use Rattle.mlt_page.specs.Values.{BucketFields, HeadFields};
ghost use Rattle.mlt_page.specs.declared.page.Page.{Page};
ghost use Rattle.mlt_page.specs.declared.slot.Slot.TheVariants.{Free};
ghost use Rattle.mlt_page.specs.Stores.{page_at};
ghost use Rattle.mlt_page_locks.specs.LockTables.{mode_held};
ghost use Rattle.mlt_hash_form.specs.File.{HasForm, bucket_of};
ghost use Rattle.mlt_hash_form.specs.Held.{Agrees};
ghost use Rattle.mlt_hash_access.specs.LocalStates.{LocalState};
ghost use Rattle.mlt_hash_access.specs.Views.{View, view_over};
ghost use Rattle.mlt_hash_split.specs.Rests.{SplitTarget, IsAtRest, KeepsNoMore};
ghost use Rattle.mlt_hash_split.specs.Splits.{IsUnderWay, SplitFields};
ghost use Rattle.mlt_hash_split.specs.Steps.{IsKeysPage, IsMaking, IsNextPage, Touches};
ghost use Rattle.mlt_hash_split.specs.declared.split.SplitAnswer.{SplitAnswer};

/// Transactions may close, and others begin, that left no ghost on a page that is held: the walk's file is at rest still.
/// `clean` is some clean file that agrees with what the walk saw: there always is one.
pub fn closed_owners_keep_the_rest()
    ensures { (target : SplitTarget) (fewer : set.FinSet nat_cmp) (view : View) (n : ℕ)
        (header : HeadFields) (bucket : BucketFields) (clean : ℕ → Option Page)
        → Agrees view.seen clean → HasForm target.bits clean target.root
        → IsAtRest target view n header bucket → KeepsNoMore target.active fewer view
        → IsAtRest (record target { active = fewer }) view n header bucket }
{}

/// And a split is under way still.
pub fn closed_owners_keep_the_split()
    ensures { (target : SplitTarget) (fewer : set.FinSet nat_cmp) (view : View)
        (split : SplitFields)
        (clean : ℕ → Option Page)
        → Agrees view.seen clean → HasForm target.bits clean target.root
        → IsUnderWay target view split → KeepsNoMore target.active fewer view
        → IsUnderWay (record target { active = fewer }) view split }
{}

/// A step of a split locks no page but its own: each page is held as before, or exclusively, and is the next page of the
/// split or one that it made.
pub fn steps_lock_their_page_alone()
    ensures { (told : SplitAnswer) (target : SplitTarget) (old new : LocalState)
        (split : SplitFields) (p : ℕ)
        → Touches told target old new split
        → (mode_held new.locks old.running.tx p ≡ mode_held old.locks old.running.tx p)
        ⊎ ((mode_held new.locks old.running.tx p ≡ Some Exclusive)
        × (IsNextPage split.phase target (view_over target.before old) p
        ⊎ (IsMaking split.phase × (page_at old.store.pages p ≡ None)))) }
{}

/// Where one page of the directory has all entries of the bucket, a split in place locks the key's own page, and no other.
/// `clean` is some clean file that agrees with what the walk saw.
pub fn narrow_splits_lock_the_keys_page()
    ensures { (target : SplitTarget) (view : View) (split : SplitFields) (n : ℕ)
        (clean : ℕ → Option Page)
        → Agrees view.seen clean → HasForm target.bits clean target.root
        → IsUnderWay target view split
        → split.depth < split.directory_depth → split.directory_depth ≤ split.depth + 8
        → IsNextPage split.phase target view n
        → IsKeysPage target view n }
{}
