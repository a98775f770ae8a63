//! Steps on one page.

ghost use Rattle.std.specs.Prelude.{ℕ, List, ◌≡◌, ◌<◌, ◌≤◌, ◌⊎◌, ◌↔◌, Err, IfErr, IsOkUnless, IfOk, None, OnErr, OnOk, Some, is_some, true};
ghost use Rattle.std.specs.FinMap as map;
ghost use Rattle.mlt_page.specs.Values.{BucketFields, HeadFields};
ghost use Rattle.mlt_page.specs.declared.page.Page.TheVariants as page;
ghost use Rattle.mlt_page.specs.Stores.{page_at};
ghost use Rattle.mlt_page_locks.specs.LockTables.{can_read, can_write, page_count};
ghost use Rattle.mlt_page_locks.specs.Requests.{IsLowest, conflicts};
ghost use Rattle.mlt_page_subtx.specs.Images.{image_of};
ghost use Rattle.mlt_hash_access.specs.LocalStates.{MayStep, local};
ghost use Rattle.mlt_hash_access.specs.PageSteps.{HasNoPageLeft, Leaves, LocksPage, MakesLockedPage, WritesHeldPage, WritesHeldSlot};
ghost use Rattle.mlt_hash_access.specs.Views.{MakesPage, ReadsHeldBucket, ReadsHeldPage, SeesPage, WritesPage, WritesSlot, view_of};

use crate::locked_store::LockedStore;
use mlt_page::{Bucket, DirPage, HeadPage, Page, Slot};
use mlt_page_locks::Grant;
use mlt_page_subtx::Subtx;
use mlt_types::{Mode, PageNo, Refusal, TxId};

/// Locks a page that is there. It takes no memory.
///
/// # Errors
/// The lowest other transaction that holds the page in a mode that does not go with this one. Then nothing has changed.
#[inline(always)]
pub fn lock(subtx: &Subtx, pages: &mut LockedStore, number: PageNo, mode: Mode) -> Result<(), TxId>
    requires may { MayStep (local subtx.now pages.old) }
    requires few { page_count pages.old.locks subtx.now.tx < 300 }
    requires there { is_some (page_at pages.old.store.pages number) ≡ true }
    ensures locks { OnOk result
        (LocksPage (local subtx.now pages.old) (local subtx.now pages.new) number mode) }
    ensures view { OnOk result
        (SeesPage (view_of (local subtx.now pages.old)) (view_of (local subtx.now pages.new))
        number mode) }
    ensures leaves { Leaves (local subtx.now pages.old) (local subtx.now pages.new) }
    ensures waits { IfErr result (λ by.
        IsLowest (conflicts pages.old.locks subtx.now.tx number mode) by
        × (pages.new ≡ pages.old)) }
{
    match pages.locks.ask(subtx.tx(), number, mode) {
        Grant::Held => Ok(()),
        Grant::Waiting(by) => Err(by),
    }
}

/// Reads a page that is held.
#[inline(always)]
pub fn read_held<'a>(subtx: &Subtx, pages: &'a LockedStore, number: PageNo) -> &'a Page
    requires may { MayStep (local subtx.now pages.now) }
    requires held { can_read pages.now.locks subtx.now.tx number ≡ true }
    ensures page { page_at pages.now.store.pages number ≡ Some result.now }
    ensures reads { ReadsHeldPage (view_of (local subtx.now pages.now)) number result.now }
{
    match subtx.read(&pages.store, number) {
        Some(page) => page,
        None => unreachable!(),
    }
}

/// Reads the header, which is held.
pub fn read_held_head<'a>(subtx: &Subtx, pages: &'a LockedStore, number: PageNo) -> &'a HeadPage
    requires may { MayStep (local subtx.now pages.now) }
    requires head { (head : HeadFields)
        × ReadsHeldPage (view_of (local subtx.now pages.now)) number (page.Head head) }
    ensures reads { let view = view_of (local subtx.now pages.now) in
        ReadsHeldPage view number (page.Head result.now) }
{
    match read_held(subtx, pages, number) {
        Page::Head(head) => head.get(),
        Page::Dir(_) | Page::Bucket(_) => unreachable!(),
    }
}

/// Reads a directory page that is held.
pub fn read_held_dir<'a>(subtx: &Subtx, pages: &'a LockedStore, number: PageNo) -> &'a DirPage
    requires may { MayStep (local subtx.now pages.now) }
    requires dir { (entries : List ℕ)
        × ReadsHeldPage (view_of (local subtx.now pages.now)) number (page.Dir entries) }
    ensures reads { let view = view_of (local subtx.now pages.now) in
        ReadsHeldPage view number (page.Dir result.now) }
{
    match read_held(subtx, pages, number) {
        Page::Dir(dir) => dir.get(),
        Page::Head(_) | Page::Bucket(_) => unreachable!(),
    }
}

/// Reads a bucket that is held.
pub fn read_held_bucket<'a>(subtx: &Subtx, pages: &'a LockedStore, number: PageNo) -> &'a Bucket
    requires may { MayStep (local subtx.now pages.now) }
    requires bucket { (bucket : BucketFields)
        × ReadsHeldBucket (view_of (local subtx.now pages.now)) number bucket }
    ensures reads { ReadsHeldBucket (view_of (local subtx.now pages.now)) number result.now }
{
    match read_held(subtx, pages, number) {
        Page::Bucket(bucket) => bucket,
        Page::Head(_) | Page::Dir(_) => unreachable!(),
    }
}

/// Writes a page that is held exclusively.
///
/// # Errors
/// `OutOfMemory`, where the page is at least the third that is written and a growth was refused. Then nothing has
/// changed.
pub fn write_held(
    subtx: &mut Subtx,
    pages: &mut LockedStore,
    number: PageNo,
    page: Page,
) -> Result<(), Refusal>
    requires may { MayStep (local subtx.old pages.old) }
    requires held { can_write pages.old.locks subtx.old.tx number ≡ true }
    ensures writes { OnOk result
        (WritesHeldPage (local subtx.old pages.old) (local subtx.new pages.new) number page) }
    ensures view { OnOk result
        (WritesPage (view_of (local subtx.old pages.old)) (view_of (local subtx.new pages.new))
        number page) }
    ensures leaves { Leaves (local subtx.old pages.old) (local subtx.new pages.new) }
    ensures err { OnErr result ((subtx.new ≡ subtx.old) × (pages.new ≡ pages.old)) }
    ensures third { OnErr result
        ((2 ≤ map.len subtx.old.images) × (image_of subtx.old.images number ≡ None)) }
    ensures refusal { IsOkUnless result Refusal.OutOfMemory }
{
    subtx.write(&mut pages.store, number, page)
}

/// Writes a page of the directory that is held exclusively.
///
/// # Errors
/// `OutOfMemory`, where room for the page or a growth was refused. Then nothing has changed.
pub fn write_held_dir(
    subtx: &mut Subtx,
    pages: &mut LockedStore,
    number: PageNo,
    dir: DirPage,
) -> Result<(), Refusal>
    requires may { MayStep (local subtx.old pages.old) }
    requires held { can_write pages.old.locks subtx.old.tx number ≡ true }
    ensures writes { let new = local subtx.new pages.new in
        OnOk result (WritesHeldPage (local subtx.old pages.old) new number (page.Dir dir)) }
    ensures view { let new = view_of (local subtx.new pages.new) in
        OnOk result (WritesPage (view_of (local subtx.old pages.old)) new number (page.Dir dir)) }
    ensures leaves { Leaves (local subtx.old pages.old) (local subtx.new pages.new) }
    ensures err { OnErr result ((subtx.new ≡ subtx.old) × (pages.new ≡ pages.old)) }
    ensures refusal { IsOkUnless result Refusal.OutOfMemory }
{
    let page = pages.store.dir_page(dir)?;
    write_held(subtx, pages, number, page)
}

/// Writes the header, which is held exclusively.
///
/// # Errors
/// `OutOfMemory`, where room for the page or a growth was refused. Then nothing has changed.
pub fn write_held_head(
    subtx: &mut Subtx,
    pages: &mut LockedStore,
    number: PageNo,
    head: HeadPage,
) -> Result<(), Refusal>
    requires may { MayStep (local subtx.old pages.old) }
    requires held { can_write pages.old.locks subtx.old.tx number ≡ true }
    ensures writes { let new = local subtx.new pages.new in
        OnOk result (WritesHeldPage (local subtx.old pages.old) new number (page.Head head)) }
    ensures view { let new = view_of (local subtx.new pages.new) in
        OnOk result (WritesPage (view_of (local subtx.old pages.old)) new number (page.Head head)) }
    ensures leaves { Leaves (local subtx.old pages.old) (local subtx.new pages.new) }
    ensures err { OnErr result ((subtx.new ≡ subtx.old) × (pages.new ≡ pages.old)) }
    ensures refusal { IsOkUnless result Refusal.OutOfMemory }
{
    let page = pages.store.head_page(head)?;
    write_held(subtx, pages, number, page)
}

/// Sets one slot of a bucket that is held exclusively.
///
/// # Errors
/// `OutOfMemory`, where the page is at least the third that is written and a growth was refused. Then nothing has
/// changed.
#[inline(always)]
pub fn write_slot(
    subtx: &mut Subtx,
    pages: &mut LockedStore,
    number: PageNo,
    at: usize,
    slot: Slot,
) -> Result<(), Refusal>
    requires may { MayStep (local subtx.old pages.old) }
    requires held { can_write pages.old.locks subtx.old.tx number ≡ true }
    requires bucket { (bucket : BucketFields)
        × ReadsHeldBucket (view_of (local subtx.old pages.old)) number bucket }
    requires at { at < 8 }
    ensures writes { OnOk result
        (WritesHeldSlot (local subtx.old pages.old) (local subtx.new pages.new) number at slot) }
    ensures view { let old = view_of (local subtx.old pages.old) in
        OnOk result (WritesSlot old (view_of (local subtx.new pages.new)) number at slot) }
    ensures leaves { Leaves (local subtx.old pages.old) (local subtx.new pages.new) }
    ensures err { OnErr result ((subtx.new ≡ subtx.old) × (pages.new ≡ pages.old)) }
    ensures third { OnErr result
        ((2 ≤ map.len subtx.old.images) × (image_of subtx.old.images number ≡ None)) }
    ensures refusal { IsOkUnless result Refusal.OutOfMemory }
{
    subtx.write_slot(&mut pages.store, number, at, slot)
}

/// Makes a page and locks it exclusively.
///
/// # Errors
/// `NoRoom` exactly where the store has as many pages as it may have; else `OutOfMemory`, where a growth was refused.
/// Then nothing has changed.
pub fn make_page(subtx: &mut Subtx, pages: &mut LockedStore, page: Page) -> Result<PageNo, Refusal>
    requires may { MayStep (local subtx.old pages.old) }
    requires few { page_count pages.old.locks subtx.old.tx < 300 }
    ensures makes { IfOk result (λ number.
        MakesLockedPage (local subtx.old pages.old) (local subtx.new pages.new) number page) }
    ensures view { IfOk result (λ number.
        MakesPage (view_of (local subtx.old pages.old)) (view_of (local subtx.new pages.new))
        number page) }
    ensures leaves { Leaves (local subtx.old pages.old) (local subtx.new pages.new) }
    ensures err { OnErr result ((subtx.new ≡ subtx.old) × (pages.new ≡ pages.old)) }
    ensures no_room { (result ≡ Err Refusal.NoRoom)
        ↔ HasNoPageLeft pages.old.store }
    ensures refusal { IfErr result (λ refusal.
        (refusal ≡ Refusal.NoRoom) ⊎ (refusal ≡ Refusal.OutOfMemory)) }
{
    subtx.grow(&mut pages.store, &mut pages.locks, page)
}

/// Makes a page of the directory and locks it exclusively.
///
/// # Errors
/// `NoRoom` exactly where the store has as many pages as it may have; else `OutOfMemory`, where room for the page or a
/// growth was refused. Then nothing has changed.
pub fn make_dir_page(
    subtx: &mut Subtx,
    pages: &mut LockedStore,
    dir: DirPage,
) -> Result<PageNo, Refusal>
    requires may { MayStep (local subtx.old pages.old) }
    requires few { page_count pages.old.locks subtx.old.tx < 300 }
    ensures makes { let new = local subtx.new pages.new in
        IfOk result (λ number.
        MakesLockedPage (local subtx.old pages.old) new number (page.Dir dir)) }
    ensures view { let new = view_of (local subtx.new pages.new) in
        IfOk result (λ number.
        MakesPage (view_of (local subtx.old pages.old)) new number (page.Dir dir)) }
    ensures leaves { Leaves (local subtx.old pages.old) (local subtx.new pages.new) }
    ensures err { OnErr result ((subtx.new ≡ subtx.old) × (pages.new ≡ pages.old)) }
    ensures no_room { (result ≡ Err Refusal.NoRoom)
        ↔ HasNoPageLeft pages.old.store }
    ensures refusal { IfErr result (λ refusal.
        (refusal ≡ Refusal.NoRoom) ⊎ (refusal ≡ Refusal.OutOfMemory)) }
{
    if pages.store.is_full() {
        return Err(Refusal::NoRoom);
    }
    let page = pages.store.dir_page(dir)?;
    make_page(subtx, pages, page)
}
