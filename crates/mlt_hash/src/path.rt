//! The way of a walk to its bucket: each step locks one page and reads it.

ghost use Rattle.std.specs.Prelude.{◌≡◌, ℕ, Option};
ghost use Rattle.mlt_hash_access.specs.LocalStates.{local};
ghost use Rattle.mlt_hash_access.specs.PageSteps.{Leaves, LocksAtMost};
ghost use Rattle.mlt_hash.specs.Walks.{WalkContext, MayWalk};
ghost use Rattle.mlt_hash.specs.Changes.{page_of};
ghost use Rattle.mlt_hash.specs.Steps.{TellsOfPath, next_page};

use crate::answer::WalkAnswer;
use crate::pass::Phase;
use crate::walk::Walk;
use mlt_hash_access::{LockedStore, lock, read_held_bucket, read_held_dir, read_held_head};
use mlt_hash_form::{DirSlot, Root, value_in};
use mlt_page_subtx::Subtx;
use mlt_types::{PageNo, Pseudo};

/// Locks the header and reads where the key's directory page is.
#[inline(always)]
pub(crate) fn read_header<P: Pseudo>(
    walk: &mut Walk,
    root: &Root<P>,
    subtx: &Subtx,
    pages: &mut LockedStore,
) -> WalkAnswer
    ghost context: { WalkContext }
    requires tx { subtx.now.tx ≡ context.tx }
    requires root { root.now.page ≡ context.root }
    requires bits { P.bits_of root.now.pseudo ≡ context.bits }
    requires phase { walk.old.phase ≡ Phase.Start }
    requires ready { MayWalk context (local subtx.now pages.old) walk.old }
    ensures leaves { Leaves (local subtx.now pages.old) (local subtx.now pages.new) }
    ensures locks { LocksAtMost (local subtx.now pages.old) (local subtx.now pages.new)
        (next_page context.root walk.old.phase) }
    ensures tells { TellsOfPath context
        (local subtx.now pages.old) (local subtx.now pages.new) walk.old walk.new result }
{
    if let Err(by) = lock(subtx, pages, root.page, walk.pass.header_mode()) {
        return WalkAnswer::Waiting(root.page, by);
    }
    let header = read_held_head(subtx, pages, root.page);
    let place = DirSlot::of(root.pseudo.bits(&walk.key), header.depth);
    walk.phase = Phase::Headed {
        dir: header.dir(place.dir),
        row: place.entry,
        directory_depth: header.depth,
    };
    WalkAnswer::Going
}

/// Locks the directory page and reads the key's entry.
#[inline(always)]
pub(crate) fn read_directory<P: Pseudo>(
    walk: &mut Walk,
    number: PageNo,
    row: usize,
    depth: u8,
    root: &Root<P>,
    subtx: &Subtx,
    pages: &mut LockedStore,
) -> WalkAnswer
    ghost context: { WalkContext }
    requires tx { subtx.now.tx ≡ context.tx }
    requires root { root.now.page ≡ context.root }
    requires bits { P.bits_of root.now.pseudo ≡ context.bits }
    requires phase { walk.old.phase ≡ Phase.Headed number row depth }
    requires ready { MayWalk context (local subtx.now pages.old) walk.old }
    ensures leaves { Leaves (local subtx.now pages.old) (local subtx.now pages.new) }
    ensures locks { LocksAtMost (local subtx.now pages.old) (local subtx.now pages.new)
        (next_page context.root walk.old.phase) }
    ensures tells { TellsOfPath context
        (local subtx.now pages.old) (local subtx.now pages.new) walk.old walk.new result }
{
    if let Err(by) = lock(subtx, pages, number, walk.pass.directory_mode()) {
        return WalkAnswer::Waiting(number, by);
    }
    let dir = read_held_dir(subtx, pages, number);
    walk.phase = Phase::Placed(dir.entry(row), depth);
    WalkAnswer::Going
}

/// Locks the bucket and reads what it has of the key.
#[inline(always)]
pub(crate) fn read_bucket<P: Pseudo>(
    walk: &mut Walk,
    number: PageNo,
    depth: u8,
    root: &Root<P>,
    subtx: &Subtx,
    pages: &mut LockedStore,
) -> WalkAnswer
    ghost context: { WalkContext }
    requires tx { subtx.now.tx ≡ context.tx }
    requires root { root.now.page ≡ context.root }
    requires bits { P.bits_of root.now.pseudo ≡ context.bits }
    requires phase { walk.old.phase ≡ Phase.Placed number depth }
    requires ready { MayWalk context (local subtx.now pages.old) walk.old }
    ensures leaves { Leaves (local subtx.now pages.old) (local subtx.now pages.new) }
    ensures locks { LocksAtMost (local subtx.now pages.old) (local subtx.now pages.new)
        (page_of walk.new.phase) }
    ensures tells { TellsOfPath context
        (local subtx.now pages.old) (local subtx.now pages.new) walk.old walk.new result }
{
    let mode = walk.pass.bucket_mode(walk.mode);
    if let Err(by) = lock(subtx, pages, number, mode) {
        return WalkAnswer::Waiting(number, by);
    }
    let bucket = read_held_bucket(subtx, pages, number);
    let found = value_in(bucket, walk.key);
    walk.phase = Phase::AtBucket {
        number,
        directory_depth: depth,
        found,
    };
    WalkAnswer::Found(found)
}
