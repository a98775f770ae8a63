//! The pages that a split writes and makes once its new bucket is there, one in each step.

ghost use Rattle.std.specs.Prelude.{◌≡◌, ◌≢◌, ◌↔◌, ℕ, ◌<◌, ◌≤◌, Option, length, slice_set};
ghost use Rattle.std.specs.FinMap as map;
ghost use Rattle.mlt_hash_access.specs.LocalStates.{local};
ghost use Rattle.mlt_hash_access.specs.PageSteps.{HasNoPageLeft, Leaves};
ghost use Rattle.mlt_hash_split.specs.FirstPhases.{IsFirstPhase};
ghost use Rattle.mlt_hash_split.specs.Rests.{SplitTarget};
ghost use Rattle.mlt_hash_split.specs.Splits.{MayAdvance};
ghost use Rattle.mlt_hash_split.specs.Steps.{Touches};
ghost use Rattle.mlt_hash_split.specs.Tells.{Tells};

use crate::phase::SplitPhase;
use crate::split::{Split, SplitAnswer};
use mlt_hash_access::{
    LockedStore, lock, make_dir_page, read_held_dir, read_held_head, write_held, write_held_dir,
    write_held_head,
};
use mlt_hash_form::{NewPlaces, doubled_page, first_bits, page_with_new_places};
use mlt_page::{HeadPage, Page};
use mlt_page_subtx::Subtx;
use mlt_types::{Mode, PageNo, Refusal};

/// Writes the old bucket.
pub(crate) fn write_old_bucket(
    split: &mut Split,
    subtx: &mut Subtx,
    pages: &mut LockedStore,
) -> SplitAnswer
    ghost target: { SplitTarget }
    requires phase { split.old.phase ≡ SplitPhase.OldBucket }
    requires ready { MayAdvance target (local subtx.old pages.old) split.old }
    ensures leaves { Leaves (local subtx.old pages.old) (local subtx.new pages.new) }
    ensures steps { Touches result target
        (local subtx.old pages.old) (local subtx.new pages.new) split.old }
    ensures no_room { result ≢ SplitAnswer.Refused Refusal.NoRoom }
    ensures tells { Tells target
        (local subtx.old pages.old) (local subtx.new pages.new) split.old split.new result }
{
    if let Err(refusal) = write_held(subtx, pages, split.old_page, Page::Bucket(split.zeros)) {
        return SplitAnswer::Refused(refusal);
    }
    split.phase = first_directory_step(split);
    SplitAnswer::Going
}

// Where the directory is written once the old bucket is.
fn first_directory_step(split: &Split) -> SplitPhase
    requires { (split.now.depth ≤ split.now.directory_depth) × (split.now.directory_depth ≤ 16) }
    ensures { IsFirstPhase split.now result }
{
    if split.depth == split.directory_depth {
        return SplitPhase::Double(0);
    }
    let places = NewPlaces::of(split.seed, split.depth, split.directory_depth);
    let place = (places.first / 256) as usize;
    let pages = (places.count / 256).max(1) as usize;
    SplitPhase::InPlace(place, place + pages)
}

/// Writes the new bucket's entries on one page of the directory. `root` is the header's page.
pub(crate) fn write_in_place(
    split: &mut Split,
    place: usize,
    end: usize,
    root: PageNo,
    subtx: &mut Subtx,
    pages: &mut LockedStore,
) -> SplitAnswer
    ghost target: { SplitTarget }
    requires phase { split.old.phase ≡ SplitPhase.InPlace place end }
    requires root { root ≡ target.root }
    requires ready { MayAdvance target (local subtx.old pages.old) split.old }
    ensures leaves { Leaves (local subtx.old pages.old) (local subtx.new pages.new) }
    ensures steps { Touches result target
        (local subtx.old pages.old) (local subtx.new pages.new) split.old }
    ensures no_room { result ≢ SplitAnswer.Refused Refusal.NoRoom }
    ensures tells { Tells target
        (local subtx.old pages.old) (local subtx.new pages.new) split.old split.new result }
{
    let header = read_held_head(subtx, pages, root);
    let number = header.dir(place);
    if let Err(by) = lock(subtx, pages, number, Mode::Exclusive) {
        return SplitAnswer::Waiting(number, by);
    }
    let dir = read_held_dir(subtx, pages, number);
    let places = NewPlaces::of(split.seed, split.depth, split.directory_depth);
    let page = page_with_new_places(dir, place, places, split.new_page);
    if let Err(refusal) = write_held_dir(subtx, pages, number, page) {
        return SplitAnswer::Refused(refusal);
    }
    if place + 1 == end {
        return SplitAnswer::Closed(split.key_bucket());
    }
    split.phase = SplitPhase::InPlace(place + 1, end);
    SplitAnswer::Going
}

/// Rewrites a page of the old directory as its first half doubled, and keeps its second half. `root` is the header's
/// page.
pub(crate) fn double_page(
    split: &mut Split,
    place: usize,
    root: PageNo,
    subtx: &mut Subtx,
    pages: &mut LockedStore,
) -> SplitAnswer
    ghost target: { SplitTarget }
    requires phase { split.old.phase ≡ SplitPhase.Double place }
    requires root { root ≡ target.root }
    requires ready { MayAdvance target (local subtx.old pages.old) split.old }
    requires small { place < 128 }
    ensures leaves { Leaves (local subtx.old pages.old) (local subtx.new pages.new) }
    ensures steps { Touches result target
        (local subtx.old pages.old) (local subtx.new pages.new) split.old }
    ensures no_room { result ≢ SplitAnswer.Refused Refusal.NoRoom }
    ensures tells { Tells target
        (local subtx.old pages.old) (local subtx.new pages.new) split.old split.new result }
{
    let header = read_held_head(subtx, pages, root);
    let number = header.dir(place);
    if let Err(by) = lock(subtx, pages, number, Mode::Exclusive) {
        return SplitAnswer::Waiting(number, by);
    }
    let dir = read_held_dir(subtx, pages, number);
    let entry = 2 * first_bits(split.seed, split.directory_depth) + 1;
    let first = doubled_page(dir, 2 * place, entry, split.new_page);
    let second = doubled_page(dir, 2 * place + 1, entry, split.new_page);
    if let Err(refusal) = write_held_dir(subtx, pages, number, first) {
        return SplitAnswer::Refused(refusal);
    }
    name_page(&mut split.made, 2 * place, number);
    split.second = second;
    split.phase = if split.directory_depth < 8 {
        SplitPhase::Header
    } else {
        SplitPhase::SecondHalf(place)
    };
    SplitAnswer::Going
}

/// Makes the page of the second half.
pub(crate) fn make_second_half(
    split: &mut Split,
    place: usize,
    subtx: &mut Subtx,
    pages: &mut LockedStore,
) -> SplitAnswer
    ghost target: { SplitTarget }
    requires phase { split.old.phase ≡ SplitPhase.SecondHalf place }
    requires ready { MayAdvance target (local subtx.old pages.old) split.old }
    ensures leaves { Leaves (local subtx.old pages.old) (local subtx.new pages.new) }
    ensures steps { Touches result target
        (local subtx.old pages.old) (local subtx.new pages.new) split.old }
    ensures no_room { (result ≡ SplitAnswer.Refused Refusal.NoRoom)
        ↔ HasNoPageLeft pages.old.store }
    ensures tells { Tells target
        (local subtx.old pages.old) (local subtx.new pages.new) split.old split.new result }
{
    let number = match make_dir_page(subtx, pages, split.second) {
        Ok(number) => number,
        Err(refusal) => return SplitAnswer::Refused(refusal),
    };
    name_page(&mut split.made, 2 * place + 1, number);
    split.phase = if place + 1 < 1 << (split.directory_depth - 8) {
        SplitPhase::Double(place + 1)
    } else {
        SplitPhase::Header
    };
    SplitAnswer::Going
}

/// Writes the header, which closes the split. `root` is its page.
pub(crate) fn write_header(
    split: &Split,
    root: PageNo,
    subtx: &mut Subtx,
    pages: &mut LockedStore,
) -> SplitAnswer
    ghost target: { SplitTarget }
    requires phase { split.now.phase ≡ SplitPhase.Header }
    requires root { root ≡ target.root }
    requires ready { MayAdvance target (local subtx.old pages.old) split.now }
    ensures leaves { Leaves (local subtx.old pages.old) (local subtx.new pages.new) }
    ensures steps { Touches result target
        (local subtx.old pages.old) (local subtx.new pages.new) split.now }
    ensures no_room { result ≢ SplitAnswer.Refused Refusal.NoRoom }
    ensures tells { Tells target
        (local subtx.old pages.old) (local subtx.new pages.new) split.now split.now result }
{
    match write_held_head(subtx, pages, root, split.made) {
        Ok(()) => SplitAnswer::Closed(split.key_bucket()),
        Err(refusal) => SplitAnswer::Refused(refusal),
    }
}

// Names a page of the doubled directory. Every header has 256 places.
fn name_page(made: &mut HeadPage, at: usize, number: PageNo)
    requires { at < 256 }
    ensures places { length made.old.dirs ≡ 256 }
    ensures named { made.new ≡ record made.old { dirs = slice_set made.old.dirs at number } }
{
    made.dirs[at] = number;
}
