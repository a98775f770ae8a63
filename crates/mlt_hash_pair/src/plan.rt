//! The plan of what is to be written for one key.

ghost use Rattle.std.specs.Prelude.{◌≡◌, Option, Some};
ghost use Rattle.mlt_hash_pair.specs.Plans.{FitsSlots, IsPlanned, IsWithin, bucket_after};

use crate::asked::RecordChange;
use mlt_hash_form::SlotWrite;
use mlt_page::Bucket;
use mlt_types::{Key, OpenSet, PageNo, TxId};

/// What is to be written for one key.
#[derive(Clone, Copy, Debug, PartialEq, Eq)]
pub(crate) enum SlotPlan {
    /// Nothing is asked for.
    Nothing,
    /// This slot is to be set.
    Set(SlotWrite),
    /// There is no room for the record.
    Full,
}

/// The plan of what is asked for of this key in its bucket, which is on page `number`. `owner` is the transaction.
pub(crate) fn plan_in(
    bucket: &Bucket,
    number: PageNo,
    key: &Key,
    asked: &Option<RecordChange>,
    owner: TxId,
    active: &OpenSet,
) -> SlotPlan
    requires fits { FitsSlots asked.now key.now bucket.now.slots }
    ensures planned { IsPlanned result asked.now active.now owner key.now number bucket.now }
    ensures within { IsWithin result }
{
    match *asked {
        None => SlotPlan::Nothing,
        Some(change) => plan_of(bucket, number, key, change, owner, active),
    }
}

// The plan of a change.
fn plan_of(
    bucket: &Bucket,
    number: PageNo,
    key: &Key,
    change: RecordChange,
    owner: TxId,
    active: &OpenSet,
) -> SlotPlan
    requires fits { FitsSlots (Some change) key.now bucket.now.slots }
    ensures planned { IsPlanned result (Some change) active.now owner key.now number bucket.now }
    ensures within { IsWithin result }
{
    match change {
        RecordChange::Insert(value) => {
            if let Some(write) = mlt_hash_form::revive(number, bucket, *key, owner, value) {
                return SlotPlan::Set(write);
            }
            match mlt_hash_form::insert(number, bucket, *key, value, active) {
                Some(write) => SlotPlan::Set(write),
                None => SlotPlan::Full,
            }
        }
        RecordChange::Update(value) => match mlt_hash_form::update(number, bucket, *key, value) {
            Some(write) => SlotPlan::Set(write),
            None => unreachable!(),
        },
        RecordChange::Remove => match mlt_hash_form::remove(number, bucket, *key, owner) {
            Some(write) => SlotPlan::Set(write),
            None => unreachable!(),
        },
    }
}

/// The bucket with the plan in it.
pub(crate) fn bucket_after(bucket: &Bucket, plan: &SlotPlan) -> Bucket
    requires within { IsWithin plan.now }
    ensures { result ≡ bucket_after bucket.now plan.now }
{
    let mut after = *bucket;
    if let SlotPlan::Set(write) = *plan {
        after.set_slot(write.at, write.slot);
    }
    after
}
