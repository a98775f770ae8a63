//! The changes that a pair makes in its two buckets.

ghost use Rattle.std.specs.Prelude.{◌≡◌, ◌≢◌, ◌<◌, ◌⊎◌, ℕ, IsSome, Option, None, Some, true};
ghost use Rattle.mlt_page_locks.specs.LockTables.{can_read, can_write};
ghost use Rattle.mlt_hash_access.specs.LocalStates.{MayStep, local};
ghost use Rattle.mlt_hash_access.specs.PageSteps.{Leaves, WritesAtMost, WritesHeldSlot};
ghost use Rattle.mlt_hash_access.specs.Views.{IsUnwritten, view_of};
ghost use Rattle.mlt_hash_form.specs.Plans.{WriteFields};
ghost use Rattle.mlt_hash_pair.specs.Descents.{IsThere, page_of};
ghost use Rattle.mlt_hash_pair.specs.Changes.{FitsBoth, HoldsOn, MakesOwed, MayWriteEarlier, StandsBehind, TellsOfChanges, TellsOfTwo, task_in, task_of};
ghost use Rattle.mlt_hash_pair.specs.Pairs.{FileRoot, IsFinding, IsFound, later_of, later_page};
ghost use Rattle.mlt_hash_pair.specs.Plans.{IsWithin};
ghost use Rattle.mlt_hash_pair.specs.Writing.{HasPlan, MayPlan, MayWrite, OwesPlan, TellsOfOne, WritesPlan};

use crate::answer::{ChangeAnswer, Side};
use crate::asked::{PairChanges, RecordChange};
use crate::descent::Descent;
use crate::pair::Pair;
use crate::plan::{SlotPlan, bucket_after, plan_in};
use mlt_hash_access::{LockedStore, read_held_bucket, write_held, write_slot};
use mlt_page::Page;
use mlt_page_subtx::Subtx;
use mlt_types::{Key, OpenSet, PageNo};

impl Pair {
    /// Makes at most one change of each key's record, in the event in which both were found. What is asked for of the later
    /// bucket is written at once; a change of an earlier one is planned, and `write_earlier` writes it. Where a bucket has
    /// no room, nothing is written. `active` are the open transactions. It takes no memory.
    pub fn change(
        &mut self,
        changes: &PairChanges,
        subtx: &mut Subtx,
        pages: &mut LockedStore,
        active: &OpenSet,
    ) -> ChangeAnswer
        ghost file: { FileRoot }
        requires may { MayStep (local subtx.old pages.old) }
        requires finding { IsFinding file.bits file.root
            self.old (view_of (local subtx.old pages.old)) }
        requires found { IsFound self.old }
        requires asked { IsSome changes.now.left ⊎ IsSome changes.now.right }
        requires fits { FitsBoth changes.now self.old }
        ensures writes { WritesAtMost (local subtx.old pages.old) (local subtx.new pages.new)
            (later_page self.old) }
        ensures leaves { Leaves (local subtx.old pages.old) (local subtx.new pages.new) }
        ensures stands { StandsBehind result file.bits file.root active.now subtx.old.tx
            self.new (view_of (local subtx.new pages.new)) }
        ensures tells { TellsOfChanges active.now
            (local subtx.old pages.old) (local subtx.new pages.new)
            self.old self.new changes.now result }
    {
        let left = bucket_page(&self.left_descent);
        let right = bucket_page(&self.right_descent);
        if left == right {
            change_one_bucket(&self.left, &self.right, left, changes, subtx, pages, active)
        } else {
            change_two_buckets(self, left, right, changes, subtx, pages, active)
        }
    }

    /// Writes the change of the earlier bucket, in a step of its own. It takes no memory, and is not refused.
    pub fn write_earlier(&mut self, subtx: &mut Subtx, pages: &mut LockedStore)
        requires may { MayStep (local subtx.old pages.old) }
        requires owed { IsSome self.old.owed }
        requires ready { MayWriteEarlier subtx.old.tx
            self.old (view_of (local subtx.old pages.old)) }
        ensures writes { (write : WriteFields) → self.old.owed ≡ Some write
            → WritesHeldSlot (local subtx.old pages.old) (local subtx.new pages.new)
            write.number write.at write.slot }
        ensures leaves { Leaves (local subtx.old pages.old) (local subtx.new pages.new) }
        ensures makes { MakesOwed subtx.old.tx self.old
            (view_of (local subtx.old pages.old)) (view_of (local subtx.new pages.new)) }
        ensures holding { HoldsOn self.old
            (view_of (local subtx.old pages.old)) (view_of (local subtx.new pages.new)) }
        ensures pair { self.new ≡ record self.old { owed = None } }
    {
        let Some(write) = self.owed else {
            unreachable!()
        };
        match write_slot(subtx, pages, write.number, write.at, write.slot) {
            Ok(()) => self.owed = None,
            Err(_) => unreachable!(),
        }
    }
}

// The page of the bucket that a descent has come to.
fn bucket_page(descent: &Descent) -> PageNo
    requires { IsThere descent.now }
    ensures { result ≡ page_of descent.now }
{
    match *descent {
        Descent::AtBucket { bucket, .. } => bucket,
        _ => unreachable!(),
    }
}

// Makes both changes in one bucket: plans the right one with the left one in it, and writes the bucket once.
fn change_one_bucket(
    left: &Key,
    right: &Key,
    number: PageNo,
    changes: &PairChanges,
    subtx: &mut Subtx,
    pages: &mut LockedStore,
    active: &OpenSet,
) -> ChangeAnswer
    requires may { MayStep (local subtx.old pages.old) }
    requires held { can_write pages.old.locks subtx.old.tx number ≡ true }
    requires unwritten { IsUnwritten (view_of (local subtx.old pages.old)) }
    requires apart { left.now ≢ right.now }
    requires asked { IsSome changes.now.left ⊎ IsSome changes.now.right }
    requires left_fits { MayPlan changes.now.left left.now number
        (view_of (local subtx.old pages.old)) }
    requires right_fits { MayPlan changes.now.right right.now number
        (view_of (local subtx.old pages.old)) }
    ensures writes { WritesAtMost (local subtx.old pages.old) (local subtx.new pages.new) number }
    ensures leaves { Leaves (local subtx.old pages.old) (local subtx.new pages.new) }
    ensures tells { TellsOfOne (task_in active.now left.now right.now number changes.now)
        (local subtx.old pages.old) (local subtx.new pages.new) result }
{
    let bucket = read_held_bucket(subtx, pages, number);
    let owner = subtx.tx();
    let left_plan = plan_in(bucket, number, left, &changes.left, owner, active);
    if let SlotPlan::Full = left_plan {
        return ChangeAnswer::Full(Side::Left);
    }
    let between = bucket_after(bucket, &left_plan);
    let right_plan = plan_in(&between, number, right, &changes.right, owner, active);
    if let SlotPlan::Full = right_plan {
        return ChangeAnswer::Full(Side::Right);
    }
    let after = bucket_after(&between, &right_plan);
    match write_held(subtx, pages, number, Page::Bucket(after)) {
        Ok(()) => ChangeAnswer::Changed,
        Err(_) => unreachable!(),
    }
}

// Plans a change in a bucket that is held.
fn plan_held(
    number: PageNo,
    key: &Key,
    asked: &Option<RecordChange>,
    subtx: &Subtx,
    pages: &LockedStore,
    active: &OpenSet,
) -> SlotPlan
    requires may { MayStep (local subtx.now pages.now) }
    requires fits { MayPlan asked.now key.now number (view_of (local subtx.now pages.now)) }
    ensures planned { HasPlan result asked.now active.now subtx.now.tx key.now number
        (view_of (local subtx.now pages.now)) }
    ensures within { IsWithin result }
{
    let bucket = read_held_bucket(subtx, pages, number);
    plan_in(bucket, number, key, asked, subtx.tx(), active)
}

// Makes the changes in two buckets: writes the later one, and leaves the change of the earlier one to be written.
fn change_two_buckets(
    pair: &mut Pair,
    left: PageNo,
    right: PageNo,
    changes: &PairChanges,
    subtx: &mut Subtx,
    pages: &mut LockedStore,
    active: &OpenSet,
) -> ChangeAnswer
    requires may { MayStep (local subtx.old pages.old) }
    requires left_held { can_write pages.old.locks subtx.old.tx left ≡ true }
    requires right_held { can_write pages.old.locks subtx.old.tx right ≡ true }
    requires unwritten { IsUnwritten (view_of (local subtx.old pages.old)) }
    requires apart { left ≢ right }
    requires left_fits { MayPlan changes.now.left pair.old.left left
        (view_of (local subtx.old pages.old)) }
    requires right_fits { MayPlan changes.now.right pair.old.right right
        (view_of (local subtx.old pages.old)) }
    ensures writes { WritesAtMost (local subtx.old pages.old) (local subtx.new pages.new)
        (later_of left right) }
    ensures leaves { Leaves (local subtx.old pages.old) (local subtx.new pages.new) }
    ensures tells { TellsOfTwo (task_of active.now pair.old left right changes.now)
        (local subtx.old pages.old) (local subtx.new pages.new) pair.old pair.new result }
{
    let left_plan = plan_held(left, &pair.left, &changes.left, subtx, pages, active);
    if let SlotPlan::Full = left_plan {
        return ChangeAnswer::Full(Side::Left);
    }
    let right_plan = plan_held(right, &pair.right, &changes.right, subtx, pages, active);
    if let SlotPlan::Full = right_plan {
        return ChangeAnswer::Full(Side::Right);
    }
    if left.0 < right.0 {
        write_plan(&right_plan, subtx, pages);
        return owe_plan(pair, &left_plan);
    }
    write_plan(&left_plan, subtx, pages);
    owe_plan(pair, &right_plan)
}

// Writes what is planned, as the first write of the transaction.
fn write_plan(plan: &SlotPlan, subtx: &mut Subtx, pages: &mut LockedStore)
    requires may { MayStep (local subtx.old pages.old) }
    requires unwritten { IsUnwritten (view_of (local subtx.old pages.old)) }
    requires within { IsWithin plan.now }
    requires ready { MayWrite plan.now (local subtx.old pages.old) }
    ensures writes { WritesPlan plan.now (local subtx.old pages.old) (local subtx.new pages.new) }
    ensures leaves { Leaves (local subtx.old pages.old) (local subtx.new pages.new) }
{
    match *plan {
        SlotPlan::Set(write) => match write_slot(subtx, pages, write.number, write.at, write.slot) {
            Ok(()) => {}
            Err(_) => unreachable!(),
        },
        SlotPlan::Nothing | SlotPlan::Full => {}
    }
}

// Leaves what is planned to be written in a step of its own.
fn owe_plan(pair: &mut Pair, plan: &SlotPlan) -> ChangeAnswer
    ensures { OwesPlan plan.now pair.old pair.new result }
{
    match *plan {
        SlotPlan::Set(write) => {
            pair.owed = Some(write);
            ChangeAnswer::OneLeft
        }
        _ => ChangeAnswer::Changed,
    }
}
