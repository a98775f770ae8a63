//! Room in a bucket.

ghost use Rattle.std.specs.Prelude.{◌≡◌, ℕ, ◌≤◌, ◌↔◌, IsTrue, count_by, false};
ghost use Rattle.std.specs.FinSet as set;
ghost use Rattle.mlt_page.specs.Slots.{is_kept};
ghost use Rattle.mlt_page.specs.declared.slot.Slot.TheVariants.{Ghost};

use mlt_page::{Bucket, Slot};
use mlt_types::OpenSet;

/// Whether the slot has a ghost whose owner is not open, so that it may be overwritten.
pub fn reclaimable(slot: &Slot, active: &OpenSet) -> bool
    ensures { IsTrue result ↔ ((key : ℕ) × (value : ℕ) × (owner : ℕ)
        × (slot.now ≡ Ghost key value owner) × (set.contains active.now owner ≡ false)) }
{
    match slot {
        Slot::Ghost(_, _, owner) => !active.contains(*owner),
        _ => false,
    }
}

/// How many slots of the bucket an insert may not take, 0 to 8: those with a record, and those with a ghost whose
/// owner is open.
pub fn kept_room(bucket: &Bucket, active: &OpenSet) -> usize
    ensures count { result ≡ count_by (is_kept active.now) bucket.now.slots }
    ensures most { result ≤ 8 }
{
    bucket
        .slots
        .iter()
        .filter(|slot| slot.is_kept(active))
        .count()
}
