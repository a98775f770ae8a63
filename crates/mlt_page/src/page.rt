//! Pages.

ghost use Rattle.std.specs.Prelude.{◌≡◌, ◌<◌, IfOk, IsOkUnless};
ghost use Rattle.mlt_page.specs.Pages.{IsBucket, page_with_slot};
ghost use Rattle.mlt_page.specs.Values.{BucketFields};
ghost use Rattle.mlt_page.specs.declared.page.Page.TheVariants as page;

use crate::boxed::{BoxedDir, BoxedHead};
use crate::bucket::Bucket;
use crate::directory::{DirPage, HeadPage};
use crate::slot::Slot;
use mlt_types::Refusal;
use std::alloc::Global;

/// A page of the file. Nearly all are buckets, so a bucket lies in the value itself. The other kinds, which take four times
/// the room, lie apart.
#[derive(Drop)]
pub enum Page {
    /// The header of the directory.
    Head(BoxedHead),
    /// A page of the directory.
    Dir(BoxedDir),
    /// A bucket.
    Bucket(Bucket),
}

impl Page {
    /// A header as a page.
    ///
    /// # Errors
    /// `OutOfMemory`, where its room was refused.
    pub fn head(alloc: Global, head: HeadPage) -> Result<Page, Refusal>
        ensures page { IfOk result (λ made. made ≡ page.Head head) }
        ensures refusal { IsOkUnless result Refusal.OutOfMemory }
    {
        let boxed = BoxedHead::new(alloc, head)?;
        Ok(Page::Head(boxed))
    }

    /// A page of the directory as a page.
    ///
    /// # Errors
    /// `OutOfMemory`, where its room was refused.
    pub fn dir(alloc: Global, dir: DirPage) -> Result<Page, Refusal>
        ensures page { IfOk result (λ made. made ≡ page.Dir dir) }
        ensures refusal { IsOkUnless result Refusal.OutOfMemory }
    {
        let boxed = BoxedDir::new(alloc, dir)?;
        Ok(Page::Dir(boxed))
    }

    /// A further page like this one.
    ///
    /// # Errors
    /// `OutOfMemory`, where its room was refused.
    pub fn copy(&self, alloc: Global) -> Result<Page, Refusal>
        ensures page { IfOk result (λ made. made ≡ self.now) }
        ensures refusal { IsOkUnless result Refusal.OutOfMemory }
    {
        match self {
            Page::Head(head) => Page::head(alloc, *head.get()),
            Page::Dir(dir) => Page::dir(alloc, *dir.get()),
            Page::Bucket(bucket) => Ok(Page::Bucket(*bucket)),
        }
    }

    /// Sets slot `at` of a bucket, where it lies.
    pub fn set_slot(&mut self, at: usize, slot: Slot)
        requires bucket { IsBucket self.old }
        requires at { at < 8 }
        ensures set { (bucket : BucketFields) → self.old ≡ page.Bucket bucket
            → self.new ≡ page_with_slot bucket at slot }
    {
        match self {
            Page::Bucket(bucket) => bucket.set_slot(at, slot),
            _ => unreachable!(),
        }
    }
}
