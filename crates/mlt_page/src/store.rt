//! Pages by their numbers.

ghost use Rattle.std.specs.Prelude.{◌≡◌, ◌<◌, ◌≤◌, ◌⊎◌, ◌↔◌, Err, IfErr, IfOk, IsOkUnless, IsTrue, None, OnErr, false, is_some, option_copied, true};
ghost use Rattle.std.specs.FinMap as map;
ghost use Rattle.mlt_page.specs.declared.page.Page.TheVariants as page;
ghost use Rattle.mlt_page.specs.Stores.{HasBucketAt, SetsSlot, page_at};

use crate::directory::{DirPage, HeadPage};
use crate::page::Page;
use crate::slot::Slot;
use mlt_types::{Limits, PageNo, Refusal};
use slab::Slab;
use std::alloc::Global;
use std::marker::Model;

/// Pages by their numbers, at most as many as the limit says. A contract sees a finite map, and the limit.
#[derive(Drop)]
pub struct Store {
    alloc: Global,
    pages: Slab<Page>,
    max_pages: u32,
}

impl Model for Store {
    ghost use Rattle.std.specs.Prelude.{◌≤◌};
    ghost use Rattle.slab.specs.Slab.{slab_len};
    ghost use Rattle.mlt_page.specs.Stores.{PageStore, coded_store};
    ghost use Rattle.mlt_page.specs.Numbered.{pages_of};

    ghost Value = { PageStore };

    ghost coded = { coded_store };

    ghost view = { λ s. record { pages = pages_of s.pages; max_pages = s.max_pages } };

    ghost invariant = { λ s. slab_len s.pages ≤ s.max_pages };
}

#[tactic(auto, using(crate::proofs::Numbered::page_in_slab, crate::proofs::Numbered::pages_counted, crate::proofs::Numbered::page_put, crate::proofs::Numbered::page_taken))]
impl Store {
    /// A store without pages, for as many as the limits allow.
    pub fn new(alloc: Global, limits: &Limits) -> Store
        ensures pages { result.pages ≡ map.empty }
        ensures limit { result.max_pages ≡ limits.now.max_pages }
    {
        Store {
            alloc,
            pages: Slab::new(alloc),
            max_pages: limits.max_pages,
        }
    }

    /// The page of a number, if there is one.
    pub fn read(&self, number: PageNo) -> Option<&Page>
        ensures { option_copied result ≡ page_at self.now.pages number }
    {
        self.pages.get(number.0 as usize)
    }

    /// Writes a page. Answers false where there is no page of this number; then nothing changes.
    pub fn write(&mut self, number: PageNo, page: Page) -> bool
        ensures written { IsTrue result ↔ IsTrue (map.contains_key self.old.pages number) }
        ensures pages { result ≡ true
            → self.new ≡ record self.old { pages = map.insert self.old.pages number page } }
        ensures absent { result ≡ false → self.new ≡ self.old }
    {
        self.replace(number, page).is_some()
    }

    /// Writes a page, and answers the page that stood there. Where there is none of this number, nothing changes.
    pub fn replace(&mut self, number: PageNo, page: Page) -> Option<Page>
        ensures old { result ≡ page_at self.old.pages number }
        ensures pages { is_some result ≡ true
            → self.new ≡ record self.old { pages = map.insert self.old.pages number page } }
        ensures absent { result ≡ None → self.new ≡ self.old }
    {
        match self.pages.get_mut(number.0 as usize) {
            Some(place) => Some(std::mem::replace(place, page)),
            None => None,
        }
    }

    /// A further page like that of a number, if there is one.
    ///
    /// # Errors
    /// `OutOfMemory`, where its room was refused.
    pub fn copy(&self, number: PageNo) -> Result<Option<Page>, Refusal>
        ensures copy { IfOk result (λ copy. copy ≡ page_at self.now.pages number) }
        ensures refusal { IsOkUnless result Refusal.OutOfMemory }
    {
        match self.read(number) {
            Some(page) => {
                let copy = page.copy(self.alloc)?;
                Ok(Some(copy))
            }
            None => Ok(None),
        }
    }

    /// A page of the directory as a page that may be put into the store.
    ///
    /// # Errors
    /// `OutOfMemory`, where its room was refused.
    pub fn dir_page(&self, dir: DirPage) -> Result<Page, Refusal>
        ensures page { IfOk result (λ made. made ≡ page.Dir dir) }
        ensures refusal { IsOkUnless result Refusal.OutOfMemory }
    {
        Page::dir(self.alloc, dir)
    }

    /// A header as a page that may be put into the store.
    ///
    /// # Errors
    /// `OutOfMemory`, where its room was refused.
    pub fn head_page(&self, head: HeadPage) -> Result<Page, Refusal>
        ensures page { IfOk result (λ made. made ≡ page.Head head) }
        ensures refusal { IsOkUnless result Refusal.OutOfMemory }
    {
        Page::head(self.alloc, head)
    }

    /// Sets one slot of a bucket that is there. It copies no page.
    pub fn set_slot(&mut self, number: PageNo, at: usize, slot: Slot)
        requires bucket { HasBucketAt self.old.pages number }
        requires at { at < 8 }
        ensures set { SetsSlot self.old self.new number at slot }
    {
        match self.pages.get_mut(number.0 as usize) {
            Some(page) => page.set_slot(at, slot),
            None => unreachable!(),
        }
    }

    /// Makes a further page, under a number that no page has.
    ///
    /// # Errors
    /// `NoRoom` exactly where there are as many pages as there may be. Else `OutOfMemory`, where a growth was
    /// refused. The store is then as before.
    pub fn grow(&mut self, page: Page) -> Result<PageNo, Refusal>
        ensures fresh { IfOk result (λ number. page_at self.old.pages number ≡ None) }
        ensures made { IfOk result (λ number.
            self.new ≡ record self.old { pages = map.insert self.old.pages number page }) }
        ensures err { OnErr result (self.new ≡ self.old) }
        ensures no_room { (result ≡ Err Refusal.NoRoom)
            ↔ (map.len self.old.pages ≡ self.old.max_pages) }
        ensures refusal { IfErr result (λ refusal.
            (refusal ≡ Refusal.NoRoom) ⊎ (refusal ≡ Refusal.OutOfMemory)) }
    {
        if self.is_full() {
            return Err(Refusal::NoRoom);
        }
        let Ok(number) = u32::try_from(self.pages.vacant_key()) else {
            return Err(Refusal::OutOfMemory);
        };
        self.pages.insert(page)?;
        Ok(PageNo(number))
    }

    /// Whether there are as many pages as there may be.
    pub fn is_full(&self) -> bool
        ensures { IsTrue result ↔ (map.len self.now.pages ≡ self.now.max_pages) }
    {
        self.pages.len() >= self.max_pages as usize
    }

    /// Takes a page away. Answers false where there is no page of this number; then nothing changes.
    pub fn drop_page(&mut self, number: PageNo) -> bool
        ensures dropped { IsTrue result ↔ IsTrue (map.contains_key self.old.pages number) }
        ensures pages { self.new ≡ record self.old { pages = map.remove self.old.pages number } }
    {
        self.pages.try_remove(number.0 as usize).is_some()
    }

    /// How many pages there are.
    pub fn len(&self) -> usize
        ensures len { result ≡ map.len self.now.pages }
        ensures limit { result ≤ self.now.max_pages }
    {
        self.pages.len()
    }
}
