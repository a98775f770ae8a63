//! What a pair knows, whatever other transactions do.

ghost use Rattle.std.specs.Prelude.{ℕ, ◌≡◌, ◌≢◌, Option};
ghost use Rattle.std.specs.Ordering.{nat_cmp};
ghost use Rattle.std.specs.FinMap as map;
ghost use Rattle.std.specs.FinSet as set;
ghost use Rattle.mlt_page.specs.declared.page.Page.{Page};
ghost use Rattle.mlt_page_locks.specs.LockTables.{pages_of};
ghost use Rattle.mlt_hash_form.specs.File.{lead_of, look_up};
ghost use Rattle.mlt_hash_form.specs.Held.{Agrees, over};
ghost use Rattle.mlt_hash_form.specs.Changes.{ChangesRecord, slot_change};
ghost use Rattle.mlt_hash_access.specs.LocalStates.{LocalState};
ghost use Rattle.mlt_hash_access.specs.Views.{IsSameView, View, view_of};
ghost use Rattle.mlt_hash_pair.specs.Descents.{found_of, page_of};
ghost use Rattle.mlt_hash_pair.specs.Changes.{FitsWritten, HasChanged, IsHolding, KeepsNoMore, MakesChange, WritesBucketsAlone};
ghost use Rattle.mlt_hash_pair.specs.Plans.{slot_after, value_after};
ghost use Rattle.mlt_hash_pair.specs.declared.asked.RecordChange.{RecordChange};
ghost use Rattle.mlt_hash_pair.specs.Pairs.{IsFinding, IsFound, PairFields, find_by};

/// Who holds no page is at the start of a pair.
pub fn pair_starts_without_pages()
    ensures { (bits : ℕ → ℕ) (root left right : ℕ) (m : LocalState) → left ≢ right
        → pages_of m.locks m.running.tx ≡ map.empty
        → IsFinding bits root (find_by left right) (view_of m) }
{}

/// A pair on its way holds what it has read, at most five pages.
pub fn finding_pairs_hold_what_they_read()
    ensures { (bits : ℕ → ℕ) (root : ℕ) (pair : PairFields) (view : View)
        → IsFinding bits root pair view → IsHolding bits root pair view }
{}

/// What a pair found of its keys is on the clean pages, up to its end.
pub fn what_was_found_stays_there()
    ensures { (bits : ℕ → ℕ) (root : ℕ) (pair : PairFields) (view : View) (clean : ℕ → Option Page)
        → IsFound pair → IsHolding bits root pair view → Agrees view.seen clean
        → (found_of pair.left_descent ≡ look_up bits clean root pair.left)
        × (found_of pair.right_descent ≡ look_up bits clean root pair.right) }
{}

/// Other transactions that change nothing of what a pair holds leave it where it stands.
pub fn same_view_keeps_the_pair()
    ensures { (bits : ℕ → ℕ) (root : ℕ) (active : set.FinSet nat_cmp) (tx : ℕ) (pair : PairFields)
        (before after : View) → IsSameView before after
        → (IsFinding bits root pair before → IsFinding bits root pair after)
        × (IsHolding bits root pair before → IsHolding bits root pair after)
        × (HasChanged bits root active tx pair before → HasChanged bits root active tx pair after) }
{}

/// So do transactions that close, and others that begin and left no ghost on a page that is held. On its way a pair knows
/// nothing of the open transactions.
pub fn closed_owners_keep_the_pair()
    ensures { (bits : ℕ → ℕ) (root : ℕ) (active fewer : set.FinSet nat_cmp) (tx : ℕ)
        (pair : PairFields) (view : View)
        → HasChanged bits root active tx pair view → KeepsNoMore active fewer view
        → HasChanged bits root fewer tx pair view }
{}

/// Whatever is written in the two buckets, each key leads to its own.
pub fn keys_lead_to_their_buckets()
    ensures { (bits : ℕ → ℕ) (root : ℕ) (pair : PairFields) (view : View) (clean : ℕ → Option Page)
        → IsFound pair → IsHolding bits root pair view → Agrees view.seen clean
        → WritesBucketsAlone pair view
        → (lead_of (over clean view.own) root (bits pair.left) ≡ page_of pair.left_descent)
        × (lead_of (over clean view.own) root (bits pair.right) ≡ page_of pair.right_descent) }
{}

/// A change that is made changes the record of its key, and nothing else, whatever the clean pages are elsewhere: where
/// the pages as they are written have the form of a file, the key leads to the bucket, and the change fits what it has.
pub fn each_change_changes_one_record()
    ensures { (bits : ℕ → ℕ) (root : ℕ) (active : set.FinSet nat_cmp) (tx key q : ℕ)
        (change : RecordChange) (old new : View) (clean : ℕ → Option Page)
        → FitsWritten bits root key q change old clean
        → (makes : MakesChange change active tx key q old new)
        → ChangesRecord bits (over clean old.own) (over clean new.own) root
        (slot_change key (value_after change) q makes.write.at (slot_after change key tx)) }
{}
