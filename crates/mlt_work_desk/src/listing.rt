//! A list of the records of a manager, which is read bit by bit while its transactions go on.

ghost use Rattle.std.specs.Prelude.{◌≡◌, ◌++◌, ◌<◌, ◌^◌, ℕ, [], List, IfOk, None, OnOk, Some};
ghost use Rattle.mlt_work_desk.specs.Listings.{AddsRecords, AreFound, AreNotFound, AreReadings, Reading, TellsOne, all_told, place_behind, place_of, records_in, told_values};

use crate::locked_state::LockedState;
use crate::made_with::MadeWith;
use mlt_page::Slot;
use mlt_types::{Key, Pseudo};
use std::alloc::AllocError;

/// A record, as running operations found it.
#[derive(Clone, Copy)]
pub struct ListedRecord {
    /// The number of its key.
    pub key: u64,
    /// Its value.
    pub value: u64,
}

impl<P: Pseudo, L: MadeWith<P>> LockedState<P, L> {
    /// Adds the records, as running operations found them, from a place on, of at most so many buckets. Returns the place behind
    /// them, from which a later call goes on, if there is one. The place of a record is the first 32 bits of its pseudokey.
    ///
    /// # Errors
    /// Where a growth is refused, then fewer are added.
    pub(crate) fn copy_records(
        &self,
        from: u32,
        most: usize,
        records: &mut Vec<ListedRecord>,
    ) -> Result<Option<u32>, AllocError>
        ensures { IfOk result (AddsRecords P.bits_of self.now.manager (Some from)
            records.old.items records.new.items) }
    {
        let mut next = Some(from);
        for _ in 0..most {
            let Some(place) = next else {
                return Ok(None);
            };
            next = self.copy_bucket(place, records)?;
        }
        Ok(next)
    }

    /// Adds the records from a place on of the bucket that has it, and returns the place behind that bucket, if there is one.
    ///
    /// # Errors
    /// Where a growth is refused, then fewer are added.
    fn copy_bucket(
        &self,
        place: u32,
        records: &mut Vec<ListedRecord>,
    ) -> Result<Option<u32>, AllocError>
        ensures { IfOk result (AddsRecords P.bits_of self.now.manager (Some place)
            records.old.items records.new.items) }
    {
        let bucket = self.manager.bucket_of(u64::from(place) << 32);
        self.push_records(place, &bucket.slots, records)?;
        Ok(place_behind(place, bucket.depth))
    }

    /// Adds the records of these slots from a place on.
    ///
    /// # Errors
    /// Where a growth is refused, then fewer are added.
    fn push_records(
        &self,
        place: u32,
        slots: &[Slot],
        records: &mut Vec<ListedRecord>,
    ) -> Result<(), AllocError>
        ensures { OnOk result (records.new.items ≡ records.old.items
            ++ records_in (P.bits_of self.now.manager.root.pseudo) place slots.now) }
    {
        for slot in slots {
            if let Slot::Live(key, value) = *slot {
                if self.place_of(&key) >= place {
                    let key = key.number();
                    records.push(ListedRecord { key, value })?;
                }
            }
        }
        Ok(())
    }

    /// The place of a key.
    fn place_of(&self, key: &Key) -> u32
        ensures { result ≡ place_of (P.bits_of self.now.manager.root.pseudo key.now) }
    {
        (self.manager.pseudokey_of(key) >> 32) as u32
    }
}

/// The place behind those of the pseudokeys of a bucket of this depth, by one of these, if there is one.
fn place_behind(place: u32, depth: u8) -> Option<u32>
    ensures { result ≡ place_behind place depth }
{
    let place = u64::from(place);
    let count = 1_u64 << 32_u8.saturating_sub(depth);
    let behind = place - place % count + count;
    u32::try_from(behind).ok()
}

/// Where readings follow one another from the first place to the end, each key of which something is found at each of them is told
/// once, with a value that was found, and one of which nothing is found is told never.
pub fn a_list_tells_each_key_once()
    ensures { (place : ℕ → ℕ) (readings : List Reading) (key : ℕ)
        → AreReadings place (Some 0) readings None → place key < 2 ^ 32
        → (AreFound key readings → TellsOne key readings)
        × (AreNotFound key readings → told_values key (all_told readings) ≡ []) }
{}
