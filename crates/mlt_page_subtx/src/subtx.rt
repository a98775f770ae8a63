//! Subtransactions.

ghost use Rattle.std.specs.Prelude.{◌≡◌, ◌≤◌, ◌<◌, ◌+◌, ◌==◌, ◌++◌, [], ◌∷◌, ◌⊎◌, ◌↔◌, ℕ, length, true, false, is_some, None, Some, Err, IfOk, IfErr, IsOkUnless, OnOk, OnErr, option_copied};
ghost use Rattle.std.specs.FinMap as map;
ghost use Rattle.mlt_types.specs.declared.mode.Mode.TheVariants.{Exclusive};
ghost use Rattle.mlt_page.specs.declared.page.Page.TheVariants as page;
ghost use Rattle.mlt_page.specs.Stores.{HasBucketAt, SetsSlot, page_at};
ghost use Rattle.mlt_page_locks.specs.LockTables.{AreCompatible};
ghost use Rattle.mlt_page_locks.specs.Requests.{granted, released};
ghost use Rattle.mlt_page_subtx.specs.Images.{image_of, with_image, put_back, AreThere, started};
ghost use Rattle.mlt_page_subtx.specs.ImageLists.{images_in, images_of, IsKept};
ghost use Rattle.mlt_page_subtx.specs.Locking.{LocksPagesThere, HasRoomForOneMore};

use crate::image::{Image, find_image};
use crate::near::NearImages;
use indexmap::IndexMap;
use mlt_page::{Bucket, Page, Slot, Store};
use mlt_page_locks::{Grant, PageLocks};
use mlt_types::{Mode, PageNo, Refusal, TxId};
use std::alloc::Global;
use std::marker::Model;

/// The first images of pages behind the first two, in the order in which they came. None is looked for by a scan.
type FarImages = IndexMap<PageNo, Option<Page>>;

/// A running subtransaction of a transaction: the first images of the pages that it has written or made. Room for
/// two images is in the value. A contract sees the number of the transaction and a map of images.
///
/// That a page is locked before it is read or written is the caller's part.
#[derive(Drop)]
pub struct Subtx {
    tx: TxId,
    near: NearImages,
    far: FarImages,
}

impl Model for Subtx {
    ghost use Rattle.std.specs.Prelude.{◌++◌};
    ghost use Rattle.mlt_page_subtx.specs.Images.{Running, coded_running};
    ghost use Rattle.mlt_page_subtx.specs.ImageLists.{images_in, images_of, IsKept};

    ghost Value = { Running };

    ghost coded = { coded_running };

    ghost view = { λ s. record { tx = s.tx; images = images_of (s.near ++ images_in s.far.entries) } };

    ghost invariant = { λ s. IsKept s.near (images_in s.far.entries) };
}

impl Subtx {
    /// A subtransaction of `tx` that has written nothing.
    pub fn start(alloc: Global, tx: TxId) -> Subtx
        ensures { result ≡ started tx }
    {
        Subtx {
            tx,
            near: NearImages::new(),
            far: IndexMap::new(alloc),
        }
    }

    /// Makes it a subtransaction of `tx` that has written nothing, as [`Subtx::start`] does, in the place of this one. It
    /// takes no memory, and gives back what is taken for images behind the first two.
    pub fn restart(&mut self, alloc: Global, tx: TxId)
        ensures { self.new ≡ started tx }
    {
        let Subtx { tx: own, near, far } = self;
        *own = tx;
        near.clear();
        *far = IndexMap::new(alloc);
    }

    /// The transaction that the subtransaction is part of.
    pub fn tx(&self) -> TxId
        ensures { result ≡ self.now.tx }
    {
        self.tx
    }

    /// Reads a page.
    pub fn read<'a>(&self, store: &'a Store, number: PageNo) -> Option<&'a Page>
        ensures { option_copied result ≡ page_at store.now.pages number }
    {
        store.read(number)
    }

    /// Writes a page that is there. The first time, the page is kept as it was.
    ///
    /// # Errors
    /// `OutOfMemory`, where the page is at least the third and a growth was refused. Then nothing has changed.
    pub fn write(&mut self, store: &mut Store, number: PageNo, page: Page) -> Result<(), Refusal>
        requires { is_some (page_at store.old.pages number) ≡ true }
        ensures store { OnOk result
            (store.new ≡ record store.old { pages = map.insert store.old.pages number page }) }
        ensures images { let first = page_at store.old.pages number in
            let images = with_image self.old.images number first in
            OnOk result (self.new ≡ record self.old { images = images }) }
        ensures kept { OnOk result
            (put_back self.new.images store.new.pages ≡ put_back self.old.images store.old.pages) }
        ensures err { OnErr result ((self.new ≡ self.old) × (store.new ≡ store.old)) }
        ensures third { OnErr result
            ((2 ≤ map.len self.old.images) × (image_of self.old.images number ≡ None)) }
        ensures refusal { IsOkUnless result Refusal.OutOfMemory }
    {
        if self.has_image(number) {
            store.write(number, page);
        } else if self.has_near_room() {
            let first = store.replace(number, page);
            self.keep_near(number, first);
        } else {
            let first = store.copy(number)?;
            self.keep_far(number, first)?;
            store.write(number, page);
        }
        Ok(())
    }

    /// Sets one slot of a bucket that is there. The first time, the page is kept as it was; that is its only copy.
    ///
    /// # Errors
    /// `OutOfMemory`, where the page is at least the third and a growth was refused. Then nothing has changed.
    pub fn write_slot(
        &mut self,
        store: &mut Store,
        number: PageNo,
        at: usize,
        slot: Slot,
    ) -> Result<(), Refusal>
        requires bucket { HasBucketAt store.old.pages number }
        requires at { at < 8 }
        ensures store { OnOk result (SetsSlot store.old store.new number at slot) }
        ensures images { let first = page_at store.old.pages number in
            let images = with_image self.old.images number first in
            OnOk result (self.new ≡ record self.old { images = images }) }
        ensures kept { OnOk result
            (put_back self.new.images store.new.pages ≡ put_back self.old.images store.old.pages) }
        ensures err { OnErr result ((self.new ≡ self.old) × (store.new ≡ store.old)) }
        ensures third { OnErr result
            ((2 ≤ map.len self.old.images) × (image_of self.old.images number ≡ None)) }
        ensures refusal { IsOkUnless result Refusal.OutOfMemory }
    {
        self.keep_bucket(store, number)?;
        store.set_slot(number, at, slot);
        Ok(())
    }

    /// Makes a page and locks it exclusively.
    ///
    /// # Errors
    /// `NoRoom` exactly where the store has as many pages as it may have; else `OutOfMemory`, where a growth was
    /// refused. Then nothing has changed.
    pub fn grow(
        &mut self,
        store: &mut Store,
        locks: &mut PageLocks,
        page: Page,
    ) -> Result<PageNo, Refusal>
        requires there { AreThere self.old.images store.old.pages }
        requires unlocked { LocksPagesThere locks.old store.old.pages }
        requires room { HasRoomForOneMore locks.old self.old.tx }
        ensures fresh { IfOk result (λ number. page_at store.old.pages number ≡ None) }
        ensures store { IfOk result (λ number.
            store.new ≡ record store.old { pages = map.insert store.old.pages number page }) }
        ensures images { IfOk result (λ number.
            self.new ≡ record self.old { images = map.insert self.old.images number None }) }
        ensures locks { IfOk result (λ number.
            locks.new ≡ granted locks.old self.old.tx number Exclusive) }
        ensures kept { OnOk result
            (put_back self.new.images store.new.pages ≡ put_back self.old.images store.old.pages) }
        ensures err { OnErr result
            ((self.new ≡ self.old) × (store.new ≡ store.old) × (locks.new ≡ locks.old)) }
        ensures no_room { (result ≡ Err Refusal.NoRoom)
            ↔ (map.len store.old.pages ≡ store.old.max_pages) }
        ensures refusal { IfErr result (λ refusal.
            (refusal ≡ Refusal.NoRoom) ⊎ (refusal ≡ Refusal.OutOfMemory)) }
    {
        let number = store.grow(page)?;
        if let Err(refusal) = self.keep_made(number) {
            store.drop_page(number);
            return Err(refusal);
        }
        match locks.ask(self.tx, number, Mode::Exclusive) {
            Grant::Held => Ok(number),
            Grant::Waiting(_) => unreachable!(),
        }
    }

    /// Puts the first images back, drops the pages that were made, the last one first, and releases all locks. The
    /// subtransaction is then as one that has just started.
    pub fn roll_back(&mut self, store: &mut Store, locks: &mut PageLocks)
        requires { AreThere self.old.images store.old.pages }
        ensures store { store.new
            ≡ record store.old { pages = put_back self.old.images store.old.pages } }
        ensures locks { locks.new ≡ released locks.old self.old.tx }
        ensures images { self.new ≡ started self.old.tx }
    {
        put_all_back(&mut self.far, &mut self.near, store);
        locks.release_all(self.tx);
    }

    /// Keeps what was written and releases all locks. The subtransaction is then as one that has just started.
    #[inline(always)]
    pub fn end(&mut self, locks: &mut PageLocks)
        ensures locks { locks.new ≡ released locks.old self.old.tx }
        ensures images { self.new ≡ started self.old.tx }
    {
        self.near.clear();
        clear_far(&mut self.far);
        locks.release_all(self.tx);
    }

    /// The first image of a page, if it has one: what the page had before it was written, or nothing where it was made.
    pub fn first_image(&self, page: PageNo) -> Option<&Option<Page>>
        ensures { option_copied result ≡ image_of self.now.images page }
    {
        match find_image(self.near.as_slice(), page) {
            Some(image) => Some(&image.first),
            None => self.far.get(&page),
        }
    }

    fn has_image(&self, page: PageNo) -> bool
        ensures { result ≡ is_some (image_of self.now.images page) }
    {
        self.first_image(page).is_some()
    }

    // Whether there is room for an image in the value.
    fn has_near_room(&self) -> bool
        ensures room { result ≡ true → map.len self.now.images < 2 }
        ensures full { result ≡ false → 2 ≤ map.len self.now.images }
    {
        !self.near.is_full()
    }

    // Keeps a bucket as it is, if it has no image yet.
    fn keep_bucket(&mut self, store: &Store, number: PageNo) -> Result<(), Refusal>
        requires bucket { HasBucketAt store.now.pages number }
        ensures images { let first = page_at store.now.pages number in
            let images = with_image self.old.images number first in
            OnOk result (self.new ≡ record self.old { images = images }) }
        ensures err { OnErr result (self.new ≡ self.old) }
        ensures third { OnErr result
            ((2 ≤ map.len self.old.images) × (image_of self.old.images number ≡ None)) }
        ensures refusal { IsOkUnless result Refusal.OutOfMemory }
    {
        if self.has_image(number) {
            return Ok(());
        }
        let Some(Page::Bucket(bucket)) = self.read(store, number) else {
            unreachable!()
        };
        if self.has_near_room() {
            self.keep_near_bucket(number, bucket);
            return Ok(());
        }
        self.keep_far(number, Some(Page::Bucket(*bucket)))
    }

    // Keeps that a page was made.
    fn keep_made(&mut self, number: PageNo) -> Result<(), Refusal>
        requires { image_of self.old.images number ≡ None }
        ensures ok { let images = map.insert self.old.images number None in
            OnOk result (self.new ≡ record self.old { images = images }) }
        ensures err { OnErr result (self.new ≡ self.old) }
        ensures refusal { IsOkUnless result Refusal.OutOfMemory }
    {
        if self.has_near_room() {
            self.keep_near(number, None);
            return Ok(());
        }
        self.keep_far(number, None)
    }

    // Keeps the first image of a page that has none, in the value.
    fn keep_near(&mut self, page: PageNo, first: Option<Page>)
        requires room { map.len self.old.images < 2 }
        requires anew { image_of self.old.images page ≡ None }
        ensures { let images = map.insert self.old.images page first in
            self.new ≡ record self.old { images = images } }
    {
        self.near.push(page, first);
    }

    // Keeps the first image of a bucket that has none, in the value.
    fn keep_near_bucket(&mut self, number: PageNo, bucket: &Bucket)
        requires room { map.len self.old.images < 2 }
        requires anew { image_of self.old.images number ≡ None }
        ensures { let first = Some (page.Bucket bucket.now) in
            let images = map.insert self.old.images number first in
            self.new ≡ record self.old { images = images } }
    {
        self.near.push_bucket(number, bucket);
    }

    // Keeps the first image of a page that has none, behind the first two.
    fn keep_far(&mut self, page: PageNo, first: Option<Page>) -> Result<(), Refusal>
        requires full { 2 ≤ map.len self.old.images }
        requires anew { image_of self.old.images page ≡ None }
        ensures ok { let images = map.insert self.old.images page first in
            OnOk result (self.new ≡ record self.old { images = images }) }
        ensures err { OnErr result (self.new ≡ self.old) }
        ensures refusal { IsOkUnless result Refusal.OutOfMemory }
    {
        self.far.insert(page, first)?;
        Ok(())
    }
}

// Takes all images out; mostly there are none.
#[inline(always)]
fn clear_far(far: &mut FarImages)
    ensures { far.new.entries ≡ [] }
{
    if !far.is_empty() {
        far.clear();
    }
}

fn put_all_back(far: &mut FarImages, near: &mut NearImages, store: &mut Store)
    requires kept { IsKept near.old (images_in far.old.entries) }
    requires there { AreThere (images_of (near.old ++ images_in far.old.entries)) store.old.pages }
    ensures store { let images = images_of (near.old ++ images_in far.old.entries) in
        store.new ≡ record store.old { pages = put_back images store.old.pages } }
    ensures far { far.new.entries ≡ [] }
    ensures near { near.new ≡ [] }
{
    while let Some(entry) = far.pop() {
        let (page, first) = entry;
        Image { page, first }.put_back(store);
    }
    while let Some(image) = near.pop() {
        image.put_back(store);
    }
}
