//! The changes that a walk makes in its bucket.

ghost use Rattle.std.specs.Prelude.{◌≡◌, ◌≢◌, ◌≤◌, ◌↔◌, ℕ, IsTrue, MatchOption, Option, true};
ghost use Rattle.mlt_hash_access.specs.LocalStates.{MayStep, local};
ghost use Rattle.mlt_page.specs.Slots.{is_live_of};
ghost use Rattle.mlt_page.specs.Values.{BucketFields};
ghost use Rattle.mlt_page_locks.specs.LockTables.{can_write};
ghost use Rattle.mlt_hash_access.specs.PageSteps.{Leaves};
ghost use Rattle.mlt_hash_access.specs.Views.{ReadsHeldBucket, view_of};
ghost use Rattle.mlt_hash.specs.Walks.{WalkContext, context_in, one_key, view_for};
ghost use Rattle.mlt_hash_form.specs.Plans.{IsNowhere, SetsFirst};
ghost use Rattle.mlt_hash.specs.Passes.{change_to, slot_after};
ghost use Rattle.mlt_hash.specs.declared.pass.Change.TheVariants as change;
ghost use Rattle.mlt_hash.specs.Changes.{HasOwnGhost, IsAtAbsent, IsAtBucketPhase, IsAtRecord, IsFull, MayChange, MayChangeBy, MayChangeFirst, PlansSlot, RevivesFirst, TakesSlot, TellsOfAddition, TellsOfChange, TellsOfWrite, WritesIfChanged, page_of};

use crate::answer::WalkAnswer;
use crate::pass::{Change, Pass, Phase};
use crate::room::next_pass;
use crate::walk::Walk;
use mlt_hash_access::{LockedStore, read_held_bucket, write_slot};
use mlt_hash_form::SlotWrite;
use mlt_hash_split::Environment;
use mlt_page::Bucket;
use mlt_page_subtx::Subtx;
use mlt_types::{Key, PageNo, Pseudo, Refusal, TxId, Value};

impl Walk {
    /// Adds a record of the walk's key, which has none: revives the transaction's own ghost of the key, else puts the
    /// record into the lowest slot with room, else says that a split is needed, or which pass, and has written nothing.
    /// In a first pass it takes no memory. The ghost is what the walk goes by.
    pub fn insert<P: Pseudo>(
        &mut self,
        value: Value,
        environment: &Environment<P>,
        subtx: &mut Subtx,
        pages: &mut LockedStore,
    ) -> WalkAnswer
        ghost context: { WalkContext }
        requires context { context_in P.bits_of environment.now subtx.old.tx ≡ one_key context }
        requires ready { MayChange context (local subtx.old pages.old) self.old }
        requires found { IsAtAbsent self.old.phase }
        ensures writes { WritesIfChanged (local subtx.old pages.old) (local subtx.new pages.new)
            (page_of self.old.phase) result }
        ensures leaves { Leaves (local subtx.old pages.old) (local subtx.new pages.new) }
        ensures tells { TellsOfAddition context
            (local subtx.new pages.new) self.old self.new value result }
        ensures slot { TakesSlot result context (view_for context (local subtx.old pages.old))
            (view_for context (local subtx.new pages.new)) self.old value }
    {
        let (number, bucket) = held_bucket(self, subtx, pages);
        if let Some(write) = mlt_hash_form::revive(number, bucket, self.key, subtx.tx(), value) {
            return write_change(self, write, Change::Revive(value), subtx, pages);
        }
        if let Some(write) = mlt_hash_form::insert(
            number,
            bucket,
            self.key,
            value,
            environment.active,
        ) {
            return write_change(self, write, Change::Put(value), subtx, pages);
        }
        without_room(self, value, environment, subtx, pages)
    }

    /// Gives the record of the walk's key another value. It takes no memory where the key is the walk's first.
    pub fn update(&mut self, value: Value, subtx: &mut Subtx, pages: &mut LockedStore) -> WalkAnswer
        requires ready { MayChangeBy subtx.old.tx (local subtx.old pages.old) self.old }
        requires found { IsAtRecord self.old.phase }
        ensures writes { WritesIfChanged (local subtx.old pages.old) (local subtx.new pages.new)
            (page_of self.old.phase) result }
        ensures leaves { Leaves (local subtx.old pages.old) (local subtx.new pages.new) }
        ensures tells { (context : WalkContext) → context.tx ≡ subtx.old.tx
            → MayChange context (local subtx.old pages.old) self.old
            → TellsOfChange context (local subtx.new pages.new) self.old
            self.new (change.Set value) result }
    {
        self.set(Some(value), subtx, pages)
    }

    /// Removes the record of the walk's key, and leaves a ghost of the transaction. It takes no memory where the key is the
    /// walk's first.
    pub fn remove(&mut self, subtx: &mut Subtx, pages: &mut LockedStore) -> WalkAnswer
        requires ready { MayChangeBy subtx.old.tx (local subtx.old pages.old) self.old }
        requires found { IsAtRecord self.old.phase }
        ensures writes { WritesIfChanged (local subtx.old pages.old) (local subtx.new pages.new)
            (page_of self.old.phase) result }
        ensures leaves { Leaves (local subtx.old pages.old) (local subtx.new pages.new) }
        ensures tells { (context : WalkContext) → context.tx ≡ subtx.old.tx
            → MayChange context (local subtx.old pages.old) self.old
            → TellsOfChange context (local subtx.new pages.new) self.old
            self.new change.Remove result }
    {
        self.set(None, subtx, pages)
    }

    /// Gives the record of the walk's key this value, or removes it where there is none. It takes no memory where the key is
    /// the walk's first.
    pub fn set(
        &mut self,
        value: Option<Value>,
        subtx: &mut Subtx,
        pages: &mut LockedStore,
    ) -> WalkAnswer
        requires ready { MayChangeBy subtx.old.tx (local subtx.old pages.old) self.old }
        requires found { IsAtRecord self.old.phase }
        ensures writes { WritesIfChanged (local subtx.old pages.old) (local subtx.new pages.new)
            (page_of self.old.phase) result }
        ensures leaves { Leaves (local subtx.old pages.old) (local subtx.new pages.new) }
        ensures tells { (context : WalkContext) → context.tx ≡ subtx.old.tx
            → MayChange context (local subtx.old pages.old) self.old
            → TellsOfChange context (local subtx.new pages.new) self.old
            self.new (change_to value) result }
    {
        let (number, bucket) = held_bucket(self, subtx, pages);
        let Some(write) = plan_to_set(number, bucket, self.key, value, subtx.tx()) else {
            unreachable!()
        };
        write_change(self, write, done_to_set(value), subtx, pages)
    }

    /// Makes the ghost that the transaction left of the walk's key a record again, the first one. The key is the walk's
    /// first. It takes no memory.
    pub fn revive(&mut self, value: Value, subtx: &mut Subtx, pages: &mut LockedStore) -> WalkAnswer
        requires ready { MayChangeFirst subtx.old.tx (local subtx.old pages.old) self.old }
        requires found { IsAtAbsent self.old.phase }
        requires ghost_found { HasOwnGhost subtx.old.tx self.old
            (view_of (local subtx.old pages.old)) }
        ensures writes { WritesIfChanged (local subtx.old pages.old) (local subtx.new pages.new)
            (page_of self.old.phase) result }
        ensures leaves { Leaves (local subtx.old pages.old) (local subtx.new pages.new) }
        ensures tells { (context : WalkContext) → context.tx ≡ subtx.old.tx
            → MayChange context (local subtx.old pages.old) self.old
            → TellsOfChange context (local subtx.new pages.new) self.old
            self.new (change.Revive value) result }
        ensures slot { RevivesFirst subtx.old.tx
            (view_of (local subtx.old pages.old)) (view_of (local subtx.new pages.new))
            self.old (page_of self.old.phase) value }
    {
        let (number, bucket) = held_bucket(self, subtx, pages);
        let Some(write) = mlt_hash_form::revive(number, bucket, self.key, subtx.tx(), value) else {
            unreachable!()
        };
        write_change(self, write, Change::Revive(value), subtx, pages)
    }
}

/// The bucket that the walk is at, with its page.
pub(crate) fn held_bucket<'a>(
    walk: &Walk,
    subtx: &Subtx,
    pages: &'a LockedStore,
) -> (PageNo, &'a Bucket)
    requires may { MayStep (local subtx.now pages.now) }
    requires at { IsAtBucketPhase walk.now.phase }
    requires held { (bucket : BucketFields)
        × ReadsHeldBucket (view_of (local subtx.now pages.now)) (page_of walk.now.phase) bucket }
    ensures number { result.0 ≡ page_of walk.now.phase }
    ensures bucket { ReadsHeldBucket
        (view_of (local subtx.now pages.now)) (page_of walk.now.phase) result.1.now }
{
    let Phase::AtBucket { number, .. } = walk.phase else {
        unreachable!()
    };
    let bucket = read_held_bucket(subtx, pages, number);
    (number, bucket)
}

// The plan of what gives a key's record this value, or removes it.
fn plan_to_set(
    number: PageNo,
    bucket: &Bucket,
    key: Key,
    value: Option<Value>,
    owner: TxId,
) -> Option<SlotWrite>
    ensures plan { MatchOption result (IsNowhere (is_live_of key) bucket.now.slots)
        (SetsFirst number bucket.now (is_live_of key) (slot_after (change_to value) key owner)) }
{
    match value {
        Some(value) => mlt_hash_form::update(number, bucket, key, value),
        None => mlt_hash_form::remove(number, bucket, key, owner),
    }
}

// That change.
fn done_to_set(value: Option<Value>) -> Change
    ensures { result ≡ change_to value }
{
    match value {
        Some(value) => Change::Set(value),
        None => Change::Remove,
    }
}

/// Writes the bucket as the plan has it. The first two pages that a walk writes take no memory.
pub(crate) fn write_change(
    walk: &mut Walk,
    write: SlotWrite,
    done: Change,
    subtx: &mut Subtx,
    pages: &mut LockedStore,
) -> WalkAnswer
    requires may { MayStep (local subtx.old pages.old) }
    requires held { can_write pages.old.locks subtx.old.tx write.number ≡ true }
    requires planned { PlansSlot (view_of (local subtx.old pages.old)) write }
    ensures writes { WritesIfChanged (local subtx.old pages.old) (local subtx.new pages.new)
        write.number result }
    ensures leaves { Leaves (local subtx.old pages.old) (local subtx.new pages.new) }
    ensures tells { TellsOfWrite (local subtx.old pages.old) (local subtx.new pages.new)
        walk.old walk.new write done result }
{
    match write_slot(subtx, pages, write.number, write.at, write.slot) {
        Ok(()) => {
            walk.phase = Phase::Changed(write.number, done);
            WalkAnswer::Changed
        }
        Err(refusal) => WalkAnswer::Refused(refusal),
    }
}

/// What an addition does whose bucket has no room.
#[cold]
#[inline(never)]
fn without_room<P: Pseudo>(
    walk: &mut Walk,
    value: Value,
    environment: &Environment<P>,
    subtx: &Subtx,
    pages: &LockedStore,
) -> WalkAnswer
    ghost context: { WalkContext }
    requires context { context_in P.bits_of environment.now subtx.now.tx ≡ one_key context }
    requires ready { MayChange context (local subtx.now pages.now) walk.old }
    requires found { IsAtAbsent walk.old.phase }
    requires full { (fields : BucketFields)
        × IsFull context walk.old (view_for context (local subtx.now pages.now)) fields }
    ensures tells { TellsOfAddition context
        (local subtx.now pages.now) walk.old walk.new value result }
    ensures unchanged { result ≢ WalkAnswer.Changed }
{
    let Phase::AtBucket {
        directory_depth,
        ..
    } = walk.phase
    else {
        unreachable!()
    };
    let (number, bucket) = held_bucket(walk, subtx, pages);
    let (next, least) = next_pass(bucket, directory_depth, walk.key, environment);
    if let Pass::First = walk.pass {
        walk.phase = Phase::Full(next);
        return WalkAnswer::NeedSplit;
    }
    if must_widen(walk.pass, next) {
        walk.phase = Phase::Full(Pass::Wide);
        return WalkAnswer::Widen;
    }
    let Some(room_depth) = least else {
        return WalkAnswer::Refused(Refusal::NoRoom);
    };
    walk.phase = Phase::Adding {
        value,
        bucket: number,
        room_depth,
        unsplit: true,
    };
    WalkAnswer::NeedSplit
}

/// Whether a pass is narrow that has to be wide.
fn must_widen(pass: Pass, next: Pass) -> bool
    ensures { IsTrue result ↔ ((pass ≡ Pass.Narrow) × (next ≡ Pass.Wide)) }
{
    matches!((pass, next), (Pass::Narrow, Pass::Wide))
}
