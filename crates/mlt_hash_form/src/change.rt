//! The four changes of a record in its bucket.

ghost use Rattle.std.specs.Prelude.{◌≡◌, IfSome, MatchOption, None, Some, position};
ghost use Rattle.mlt_page.specs.Slots.{is_ghost_of, is_live_of};
ghost use Rattle.mlt_page.specs.declared.slot.Slot.TheVariants.{Live, Ghost};
ghost use Rattle.mlt_hash_form.specs.Plans.{IsNowhere, SetsFirst, has_room, slots_written};
ghost use Rattle.mlt_hash_form.specs.Pairs.{HasOnePair, SetsPair};

use crate::slot_write::SlotWrite;
use mlt_page::{Bucket, Slot};
use mlt_types::{Key, OpenSet, PageNo, TxId, Value};

/// Puts the record of a key that has none into the lowest slot with room: one that is free, or has a ghost whose
/// owner is not open. There is no plan exactly where no slot has room. `number` is the bucket's page.
pub fn insert(
    number: PageNo,
    bucket: &Bucket,
    key: Key,
    value: Value,
    active: &OpenSet,
) -> Option<SlotWrite>
    requires { position (is_live_of key) bucket.now.slots ≡ None }
    ensures plan { MatchOption result (IsNowhere (has_room active.now) bucket.now.slots)
        (SetsFirst number bucket.now (has_room active.now) (Live key value)) }
    ensures pairs { let slots = bucket.now.slots in
        IfSome result (λ write. SetsPair slots (slots_written slots write) key (Some value)) }
{
    let at = bucket.room(active)?;
    Some(SlotWrite {
        number,
        at,
        slot: Slot::Live(key, value),
    })
}

/// Gives a key's record another value. There is no plan exactly where the key has no record here. `number` is the
/// bucket's page.
pub fn update(number: PageNo, bucket: &Bucket, key: Key, value: Value) -> Option<SlotWrite>
    ensures plan { MatchOption result (IsNowhere (is_live_of key) bucket.now.slots)
        (SetsFirst number bucket.now (is_live_of key) (Live key value)) }
    ensures pairs { let slots = bucket.now.slots in HasOnePair slots key
        → IfSome result (λ write. SetsPair slots (slots_written slots write) key (Some value)) }
{
    let at = bucket.find_live(key)?;
    let record = Slot::Live(key, value);
    Some(SlotWrite {
        number,
        at,
        slot: record,
    })
}

/// Removes a key's record and leaves a ghost of `owner` in its slot, with value 0. There is no plan exactly where
/// the key has no record here. `number` is the bucket's page.
pub fn remove(number: PageNo, bucket: &Bucket, key: Key, owner: TxId) -> Option<SlotWrite>
    ensures plan { MatchOption result (IsNowhere (is_live_of key) bucket.now.slots)
        (SetsFirst number bucket.now (is_live_of key) (Ghost key 0 owner)) }
    ensures pairs { let slots = bucket.now.slots in HasOnePair slots key
        → IfSome result (λ write. SetsPair slots (slots_written slots write) key None) }
{
    let at = bucket.find_live(key)?;
    Some(SlotWrite {
        number,
        at,
        slot: Slot::Ghost(key, 0, owner),
    })
}

/// Makes the first ghost that `owner` left of a key its record again, where the key has none. There is no plan
/// exactly where `owner` has no ghost of the key here. `number` is the bucket's page.
pub fn revive(
    number: PageNo,
    bucket: &Bucket,
    key: Key,
    owner: TxId,
    value: Value,
) -> Option<SlotWrite>
    requires { position (is_live_of key) bucket.now.slots ≡ None }
    ensures plan { MatchOption result (IsNowhere (is_ghost_of key owner) bucket.now.slots)
        (SetsFirst number bucket.now (is_ghost_of key owner) (Live key value)) }
    ensures pairs { let slots = bucket.now.slots in
        IfSome result (λ write. SetsPair slots (slots_written slots write) key (Some value)) }
{
    let at = bucket.find_ghost(key, owner)?;
    Some(SlotWrite {
        number,
        at,
        slot: Slot::Live(key, value),
    })
}
