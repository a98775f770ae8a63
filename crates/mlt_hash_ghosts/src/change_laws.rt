//! What changes of one slot do to the ghosts of open transactions: the pages and the operations that stand still
//! match.
//!
//! `pages` are the clean pages after the change, and `standing` the operations on keys' presence that stand then.

ghost use Rattle.std.specs.Prelude.{ℕ, ◌≡◌, None, Some, true, false};
ghost use Rattle.mlt_page.specs.Slots.{is_ghost_of, is_kept, is_live_of};
ghost use Rattle.mlt_page.specs.declared.slot.Slot.TheVariants.{Ghost, Live};
ghost use Rattle.mlt_hash_form.specs.Form.{value_in};
ghost use Rattle.mlt_hash_form.specs.File.{FilePages};
ghost use Rattle.mlt_hash_form.specs.Changes.{Spot, slot_of};
ghost use Rattle.mlt_hash_ghosts.specs.Events.{ChangesSlot, IsRoomFor, MayAddKey, MayRemoveKey};
ghost use Rattle.mlt_hash_ghosts.specs.Ghosts.{PagesMatchOperations};
ghost use Rattle.mlt_hash_ghosts.specs.Ledgers.{IsOpenIn, Ledger, last_by};
ghost use Rattle.mlt_hash_ghosts.specs.Operations.{Added, Appends, Removed, Standing};

/// A removal makes a ghost of its transaction. It asks that no other open transaction has added the key, and that
/// the abort of its own has not begun.
pub fn removal_makes_the_ghost()
    ensures { (ledger : Ledger) (standing : Standing) (pages : FilePages)
        (spot : Spot) (owner key : ℕ)
        → PagesMatchOperations ledger → MayRemoveKey ledger owner key
        → is_live_of key (slot_of spot) ≡ true
        → ChangesSlot ledger pages spot key None (Ghost key 0 owner)
        → Appends ledger.standing standing owner key Removed
        → PagesMatchOperations (record ledger { standing = standing; pages = pages }) }
{}

/// An addition by a transaction that has a ghost of the key takes it back. It asks that no other open transaction
/// has removed the key.
pub fn addition_revives_the_ghost()
    ensures { (ledger : Ledger) (standing : Standing) (pages : FilePages)
        (spot : Spot) (owner key value : ℕ)
        → PagesMatchOperations ledger → MayAddKey ledger owner key
        → value_in key spot.bucket.slots ≡ None → is_ghost_of key owner (slot_of spot) ≡ true
        → ChangesSlot ledger pages spot key (Some value) (Live key value)
        → Appends ledger.standing standing owner key Added
        → PagesMatchOperations (record ledger { standing = standing; pages = pages }) }
{}

/// An addition by a transaction that has no ghost of the key takes a slot that is not kept. It asks that no other
/// open transaction has removed the key.
pub fn addition_puts_a_record()
    ensures { (ledger : Ledger) (standing : Standing) (pages : FilePages)
        (spot : Spot) (owner key value : ℕ)
        → PagesMatchOperations ledger → MayAddKey ledger owner key
        → IsRoomFor ledger.active spot owner key
        → ChangesSlot ledger pages spot key (Some value) (Live key value)
        → Appends ledger.standing standing owner key Added
        → PagesMatchOperations (record ledger { standing = standing; pages = pages }) }
{}

/// To undo an addition makes the record a ghost of its transaction: a removal before it may stand, and asks for the
/// ghost.
pub fn undone_addition_leaves_a_ghost()
    ensures { (ledger : Ledger) (standing : Standing) (pages : FilePages)
        (spot : Spot) (owner key : ℕ)
        → PagesMatchOperations ledger → IsOpenIn ledger owner → ledger.undoing owner ≡ true
        → is_live_of key (slot_of spot) ≡ true
        → ChangesSlot ledger pages spot key None (Ghost key 0 owner)
        → Appends standing ledger.standing owner key Added
        → PagesMatchOperations (record ledger { standing = standing; pages = pages }) }
{}

/// To undo a removal makes the ghost of its transaction a record again.
pub fn undone_removal_revives_the_ghost()
    ensures { (ledger : Ledger) (standing : Standing) (pages : FilePages)
        (spot : Spot) (owner key value : ℕ)
        → PagesMatchOperations ledger → IsOpenIn ledger owner
        → is_ghost_of key owner (slot_of spot) ≡ true
        → ChangesSlot ledger pages spot key (Some value) (Live key value)
        → Appends standing ledger.standing owner key Removed
        → PagesMatchOperations (record ledger { standing = standing; pages = pages }) }
{}

/// To give a record another value touches no ghost.
pub fn plain_update_keeps_ghosts()
    ensures { (ledger : Ledger) (pages : FilePages) (spot : Spot) (key value : ℕ)
        → PagesMatchOperations ledger → is_live_of key (slot_of spot) ≡ true
        → ChangesSlot ledger pages spot key (Some value) (Live key value)
        → PagesMatchOperations (record ledger { pages = pages }) }
{}

/// Nor does it to put a record that is never taken back, as a counter's, where no open transaction has removed the
/// key.
pub fn plain_put_keeps_ghosts()
    ensures { (ledger : Ledger) (pages : FilePages) (spot : Spot) (key value : ℕ)
        → PagesMatchOperations ledger
        → ((owner : ℕ) → IsOpenIn ledger owner → last_by ledger owner key ≡ Some Removed → ⊥)
        → is_kept ledger.active (slot_of spot) ≡ false
        → ChangesSlot ledger pages spot key (Some value) (Live key value)
        → PagesMatchOperations (record ledger { pages = pages }) }
{}
