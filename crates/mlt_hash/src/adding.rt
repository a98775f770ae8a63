//! Additions whose bucket had no room: splits, and then the record.

ghost use Rattle.std.specs.Prelude.{◌≡◌, ◌≤◌, ◌⊎◌, ◌↔◌, ℕ, MatchOption, None, Option, Some, false, position, true};
ghost use Rattle.std.specs.FinMap as map;
ghost use Rattle.mlt_page.specs.Slots.{is_live_of};
ghost use Rattle.mlt_page.specs.Values.{BucketFields};
ghost use Rattle.mlt_page.specs.declared.page.Page.TheVariants as page;
ghost use Rattle.mlt_page.specs.declared.slot.Slot.TheVariants.{Live};
ghost use Rattle.mlt_hash_form.specs.Plans.{IsNowhere, SetsFirst, has_room};
ghost use Rattle.mlt_page_locks.specs.LockTables.{can_read};
ghost use Rattle.mlt_hash_access.specs.LocalStates.{MayStep, local};
ghost use Rattle.mlt_hash_access.specs.PageSteps.{HasNoPageLeft, Leaves};
ghost use Rattle.mlt_hash_access.specs.Views.{view_of};
ghost use Rattle.mlt_hash.specs.Walks.{WalkContext, MayWalk, split_target, context_in, one_key};
ghost use Rattle.mlt_hash_split.specs.Rests.{SplitTarget, held_page};
ghost use Rattle.mlt_hash_split.specs.Steps.{IsMaking};
ghost use Rattle.mlt_hash.specs.Splitting.{HasToSplit, OfSplit, TellsOfAdding, TellsOfSplitting, walk_step};

use crate::answer::WalkAnswer;
use crate::change::write_change;
use crate::pass::{Change, Phase};
use crate::walk::Walk;
use mlt_hash_access::{LockedStore, read_held_bucket};
use mlt_hash_form::SlotWrite;
use mlt_hash_split::{Environment, Split, SplitAnswer};
use mlt_page_subtx::Subtx;
use mlt_types::{OpenSet, PageNo, Pseudo, Refusal, Value};

/// Puts the record where its bucket has room now, or begins to split the bucket. The first split follows in any case.
#[cold]
#[inline(never)]
pub(crate) fn add_or_split<P: Pseudo>(
    walk: &mut Walk,
    value: Value,
    number: PageNo,
    room_depth: u8,
    unsplit: bool,
    environment: &Environment<P>,
    subtx: &mut Subtx,
    pages: &mut LockedStore,
) -> WalkAnswer
    ghost given: { WalkContext × ℕ }
    requires depth { given.1 ≡ room_depth }
    requires context { context_in P.bits_of environment.now subtx.old.tx ≡ one_key given.0 }
    requires phase { walk.old.phase ≡ Phase.Adding value number room_depth unsplit }
    requires ready { MayWalk given.0 (local subtx.old pages.old) walk.old }
    ensures leaves { Leaves (local subtx.old pages.old) (local subtx.new pages.new) }
    ensures no_room { (result ≡ WalkAnswer.Refused Refusal.NoRoom)
        ↔ (HasToSplit given.0 (local subtx.old pages.old) walk.old value number room_depth
        × HasNoPageLeft pages.old.store) }
    ensures tells { TellsOfAdding given.0
        (walk_step (local subtx.old pages.old) (local subtx.new pages.new) walk.old walk.new)
        value number room_depth result }
{
    if let Some(write) = plan_to_put(
        walk,
        value,
        number,
        unsplit,
        subtx,
        pages,
        environment.active,
    ) {
        return write_change(walk, write, Change::Put(value), subtx, pages);
    }
    match Split::begin(environment, walk.key, number, subtx, pages) {
        Ok(split) => keep_split(walk, value, room_depth, split),
        Err(refusal) => WalkAnswer::Refused(refusal),
    }
}

// The plan of the write that puts the record, where a split was made and the bucket has room.
fn plan_to_put(
    walk: &Walk,
    value: Value,
    number: PageNo,
    unsplit: bool,
    subtx: &Subtx,
    pages: &LockedStore,
    active: &OpenSet,
) -> Option<SlotWrite>
    requires may { MayStep (local subtx.now pages.now) }
    requires held { can_read pages.now.locks subtx.now.tx number ≡ true }
    requires found { (fields : BucketFields)
        × (held_page (view_of (local subtx.now pages.now)) number ≡ Some (page.Bucket fields))
        × (position (is_live_of walk.now.key) fields.slots ≡ None) }
    ensures { (fields : BucketFields)
        → held_page (view_of (local subtx.now pages.now)) number ≡ Some (page.Bucket fields)
        → MatchOption result
        ((unsplit ≡ true) ⊎ IsNowhere (has_room active.now) fields.slots)
        (λ write. (unsplit ≡ false)
        × SetsFirst number fields (has_room active.now) (Live walk.now.key value) write) }
{
    if unsplit {
        return None;
    }
    let bucket = read_held_bucket(subtx, pages, number);
    mlt_hash_form::insert(number, bucket, walk.key, value, active)
}

// Notes the split that began.
fn keep_split(walk: &mut Walk, value: Value, room_depth: u8, split: Split) -> WalkAnswer
    ensures kept { result ≡ WalkAnswer.Going
        → walk.new ≡ record walk.old {
          phase = Phase.Splitting value room_depth;
          split = Some split;
        } }
    ensures told { (result ≡ WalkAnswer.Going) ⊎ (result ≡ WalkAnswer.Refused Refusal.OutOfMemory) }
{
    match Box::new(walk.alloc, split) {
        Ok(split) => walk.split = Some(split),
        Err(_) => return WalkAnswer::Refused(Refusal::OutOfMemory),
    }
    walk.phase = Phase::Splitting(value, room_depth);
    WalkAnswer::Going
}

/// Goes on with the split.
#[cold]
#[inline(never)]
pub(crate) fn go_on_splitting<P: Pseudo>(
    walk: &mut Walk,
    value: Value,
    room_depth: u8,
    environment: &Environment<P>,
    subtx: &mut Subtx,
    pages: &mut LockedStore,
) -> WalkAnswer
    ghost given: { WalkContext × SplitTarget }
    requires target { given.1 ≡ split_target given.0 walk.old room_depth }
    requires root { environment.now.root.now.page ≡ given.0.root }
    requires phase { walk.old.phase ≡ Phase.Splitting value room_depth }
    requires ready { MayWalk given.0 (local subtx.old pages.old) walk.old }
    ensures leaves { Leaves (local subtx.old pages.old) (local subtx.new pages.new) }
    ensures no_room { (result ≡ WalkAnswer.Refused Refusal.NoRoom)
        ↔ (OfSplit walk.old (λ split. IsMaking split.phase) × HasNoPageLeft pages.old.store) }
    ensures tells { TellsOfSplitting given.0
        (walk_step (local subtx.old pages.old) (local subtx.new pages.new) walk.old walk.new)
        value room_depth result }
{
    let Some(split) = &mut walk.split else {
        unreachable!()
    };
    match split.advance(environment.root.page, subtx, pages) {
        SplitAnswer::Going => WalkAnswer::Going,
        SplitAnswer::Closed(bucket) => {
            walk.phase = Phase::Adding {
                value,
                bucket,
                room_depth,
                unsplit: false,
            };
            WalkAnswer::Going
        }
        SplitAnswer::Waiting(page, by) => WalkAnswer::Waiting(page, by),
        SplitAnswer::Refused(refusal) => WalkAnswer::Refused(refusal),
    }
}
