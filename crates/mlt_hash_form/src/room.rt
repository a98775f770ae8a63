//! How deep a bucket has to be split until an addition finds room.

ghost use Rattle.std.specs.Prelude.{◌≡◌, ℕ, List, ◌<◌, ◌≤◌, ◌^◌, ◌↔◌, MatchOption, Option, length, map, slice_index_or, true, false};
ghost use Rattle.std.specs.List.{list_all};
ghost use Rattle.std.specs.Ordering.{nat_cmp};
ghost use Rattle.std.specs.FinSet as set;
ghost use Rattle.mlt_page.specs.Slots.{half, is_kept};
ghost use Rattle.mlt_page.specs.declared.slot.Slot.{Slot};
ghost use Rattle.mlt_page.specs.declared.slot.Slot.TheVariants.{Free};
ghost use Rattle.mlt_hash_form.specs.File.{FilePages, GivesPseudokeys, HasForm, buckets_of, lead_of};
ghost use Rattle.mlt_hash_form.specs.Room.{IsCrowded, crowds, is_crowded};

use crate::place::first_bits;
use mlt_page::{Bucket, Slot};
use mlt_types::{OpenSet, Pseudo};

/// Whether the slot's room is taken by a key that agrees with a pseudokey in its first `depth` bits.
fn crowds<P: Pseudo>(slot: &Slot, depth: u8, bits: u64, pseudo: &P, active: &OpenSet) -> bool
    requires { depth ≤ 64 }
    ensures { result ≡ crowds (P.bits_of pseudo.now) active.now depth bits slot.now }
{
    match slot {
        Slot::Free => false,
        Slot::Live(key, _) | Slot::Ghost(key, _, _) => {
            slot.is_kept(active) && first_bits(pseudo.bits(key), depth) == first_bits(bits, depth)
        }
    }
}

/// Whether a key of this pseudokey would find no room in the bucket, were it split down to a depth of at most 64.
pub fn is_crowded<P: Pseudo>(
    bucket: &Bucket,
    depth: u8,
    bits: u64,
    pseudo: &P,
    active: &OpenSet,
) -> bool
    requires { depth ≤ 64 }
    ensures { result ≡ is_crowded (P.bits_of pseudo.now) active.now depth bits bucket.now.slots }
{
    bucket
        .slots
        .iter()
        .all(|slot| crowds(slot, depth, bits, pseudo, active))
}

/// The least depth, from the bucket's own up to `most`, at which a key of this pseudokey finds room, if there is one.
pub fn depth_with_room<P: Pseudo>(
    bucket: &Bucket,
    most: u8,
    bits: u64,
    pseudo: &P,
    active: &OpenSet,
) -> Option<u8>
    requires { most ≤ 16 }
    ensures { let bits_of = P.bits_of pseudo.now in
        let crowded = λ (d : ℕ). is_crowded bits_of active.now d bits bucket.now.slots in
        MatchOption result
        ((d : ℕ) → bucket.now.depth ≤ d → d ≤ most → crowded d ≡ true)
        (λ least. (bucket.now.depth ≤ least) × (least ≤ most) × (crowded least ≡ false)
        × ((d : ℕ) → bucket.now.depth ≤ d → d < least → crowded d ≡ true)) }
{
    for depth in bucket.depth..most + 1 {
        if !is_crowded(bucket, depth, bits, pseudo, active) {
            return Some(depth);
        }
    }
    None
}

/// Eight slots of the file agree with a pseudokey in some bits just where those of its bucket do: it is known there
/// that no split makes room.
pub fn crowding_is_local()
    ensures { (bits : ℕ → ℕ) (active : set.FinSet nat_cmp) (pages : FilePages) (root depth x : ℕ)
        → GivesPseudokeys bits → x < 2 ^ 64 → HasForm bits pages root
        → let bucket = buckets_of pages (lead_of pages root x) in
        bucket.depth ≤ depth → depth ≤ 64
        → IsCrowded bits active (buckets_of pages) depth x
        ↔ (is_crowded bits active depth x bucket.slots ≡ true) }
{}

/// What is crowded in some bits is so in fewer.
pub fn crowding_in_fewer_bits()
    ensures { (bits : ℕ → ℕ) (active : set.FinSet nat_cmp) (less more x : ℕ) (slots : List Slot)
        → less ≤ more → more ≤ 64
        → is_crowded bits active more x slots ≡ true → is_crowded bits active less x slots ≡ true }
{}

/// A key's bucket is crowded at its own depth just where each of its slots is kept.
pub fn crowding_at_own_depth()
    ensures { (bits : ℕ → ℕ) (active : set.FinSet nat_cmp) (pages : FilePages) (root x : ℕ)
        → GivesPseudokeys bits → x < 2 ^ 64 → HasForm bits pages root
        → let bucket = buckets_of pages (lead_of pages root x) in
        (is_crowded bits active bucket.depth x bucket.slots ≡ true)
        ↔ (list_all (is_kept active) bucket.slots ≡ true) }
{}

/// A half of a split bucket is crowded only where the bucket was: a split takes no room away.
pub fn half_is_no_more_crowded()
    ensures { (bits : ℕ → ℕ) (active later : set.FinSet nat_cmp) (place bit depth x : ℕ)
        (slots : List Slot)
        → is_crowded bits later depth x (map (half bits active place bit) slots) ≡ true
        → is_crowded bits later depth x slots ≡ true }
{}

/// Slots of which fewer are kept, since owners of ghosts have closed, are crowded only where they were.
pub fn fewer_kept_slots_are_no_more_crowded()
    ensures { (bits : ℕ → ℕ) (active later : set.FinSet nat_cmp) (depth x : ℕ) (slots : List Slot)
        → ((i : ℕ) → i < length slots → let slot = slice_index_or slots i Free in
        is_kept later slot ≡ true → is_kept active slot ≡ true)
        → is_crowded bits later depth x slots ≡ true → is_crowded bits active depth x slots ≡ true }
{}
