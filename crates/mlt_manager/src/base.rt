//! What the base of the committed transactions is made of: the clean pages and the undo lists.

ghost use Rattle.std.specs.Prelude.{◌≡◌, ◌<◌, ◌≤◌, ◌^◌, ℕ, IfOk, IsOkUnless};
ghost use Rattle.mlt_manager.specs.Bases.{HasDepth};
ghost use Rattle.mlt_manager.specs.CleanBuckets.{IsBucketOfPseudokey, IsCleanBucket, IsCleanDirectory, IsCleanHead};
ghost use Rattle.mlt_manager.specs.Images.{IsImageAt, ShowState};
ghost use Rattle.mlt_manager.specs.Managers.{IsManager};
ghost use Rattle.mlt_manager.specs.Parts.{fields_of};

use crate::image::BaseImage;
use crate::parts::Parts;
use mlt_hash_form::first_bits;
use mlt_page::{Bucket, DIR_ENTRIES, DirPage, HeadPage, Page, SLOTS, Slot};
use mlt_types::{Pseudo, Refusal};

impl<P: Pseudo> Parts<P> {
    /// What the base to which the committed transactions lead is made of: the slots of the clean pages, and what stands of open
    /// transactions. It only copies.
    ///
    /// # Errors
    /// `OutOfMemory`, where a growth was refused.
    pub(crate) fn image(&self) -> Result<BaseImage, Refusal>
        requires sound { IsManager P.bits_of (fields_of self.now) }
        ensures image { IfOk result (λ image. IsImageAt (fields_of self.now) image) }
        ensures refusal { IsOkUnless result Refusal.OutOfMemory }
    {
        let slots = self.clean_slots()?;
        let standing = self.txs.standing()?;
        Ok(BaseImage {
            alloc: self.shared.alloc,
            slots,
            standing,
            commits: self.commits,
        })
    }

    /// The slots of the clean buckets, by the places of the directory: those of a bucket as often as it stands there.
    ///
    /// # Errors
    /// `OutOfMemory`, where a growth was refused.
    fn clean_slots(&self) -> Result<Vec<Slot>, Refusal>
        requires sound { IsManager P.bits_of (fields_of self.now) }
        ensures slots { IfOk result (λ slots. ShowState (fields_of self.now) slots.items) }
        ensures refusal { IsOkUnless result Refusal.OutOfMemory }
    {
        let places = 1 << self.depth();
        let mut slots = Vec::with_capacity(self.shared.alloc, places * SLOTS)?;
        for number in 0..places.div_ceil(DIR_ENTRIES) {
            let first = number * DIR_ENTRIES;
            let directory = self.clean_directory(first);
            for place in first..places.min(first + DIR_ENTRIES) {
                let bucket = self.bucket_in(directory, place);
                slots.extend_from_slice(&bucket.slots)?;
            }
        }
        Ok(slots)
    }

    /// The header, on the clean pages.
    fn clean_head(&self) -> &HeadPage
        requires sound { IsManager P.bits_of (fields_of self.now) }
        ensures head { IsCleanHead (fields_of self.now) result.now }
    {
        let Some(page) = self.clean_page(self.root.page) else {
            unreachable!()
        };
        let Page::Head(head) = page else {
            unreachable!()
        };
        head.get()
    }

    /// The depth of the directory, by the clean header.
    pub(crate) fn depth(&self) -> u8
        requires sound { IsManager P.bits_of (fields_of self.now) }
        ensures depth { HasDepth (fields_of self.now) result }
        ensures most { result ≤ 16 }
    {
        let head = self.clean_head();
        head.depth
    }

    /// The page of the directory that has a place, on the clean pages.
    fn clean_directory(&self, place: usize) -> &DirPage
        requires sound { IsManager P.bits_of (fields_of self.now) }
        requires within { (depth : ℕ) × HasDepth (fields_of self.now) depth × (place < 2 ^ depth) }
        ensures directory { IsCleanDirectory (fields_of self.now) place result.now }
    {
        let head = self.clean_head();
        let Some(page) = self.clean_page(head.dir(place / DIR_ENTRIES)) else {
            unreachable!()
        };
        let Page::Dir(directory) = page else {
            unreachable!()
        };
        directory.get()
    }

    /// The bucket to which a place on this page of the directory leads, on the clean pages.
    fn bucket_in(&self, directory: &DirPage, place: usize) -> &Bucket
        requires sound { IsManager P.bits_of (fields_of self.now) }
        requires within { (depth : ℕ) × HasDepth (fields_of self.now) depth × (place < 2 ^ depth) }
        requires directory { IsCleanDirectory (fields_of self.now) place directory.now }
        ensures bucket { IsCleanBucket (fields_of self.now) place result.now }
    {
        let Some(page) = self.clean_page(directory.entry(place % DIR_ENTRIES)) else {
            unreachable!()
        };
        let Page::Bucket(bucket) = page else {
            unreachable!()
        };
        bucket
    }

    /// The bucket that a pseudokey leads to, on the clean pages.
    pub(crate) fn bucket_of(&self, pseudokey: u64) -> &Bucket
        requires sound { IsManager P.bits_of (fields_of self.now) }
        ensures bucket { IsBucketOfPseudokey P.bits_of (fields_of self.now) pseudokey result.now }
    {
        let place = first_bits(pseudokey, self.depth()) as usize;
        let directory = self.clean_directory(place);
        self.bucket_in(directory, place)
    }
}
