//! Room for the first two images.

ghost use Rattle.std.specs.Prelude.{◌≡◌, ◌<◌, ◌≤◌, ◌==◌, ◌++◌, [], ◌∷◌, length, true, None, Some, IfSome, IfNone};

use crate::image::Image;
use mlt_page::{Bucket, Page};
use mlt_types::PageNo;
use std::marker::Model;

/// Up to two images, in the order in which they came. A contract sees their list.
///
/// To put one in writes no more than the image takes, and to clear them writes a number: what stands behind the count
/// is of no account.
#[derive(Drop)]
pub(crate) struct NearImages {
    images: [Image; 2],
    count: usize,
}

impl Model for NearImages {
    ghost use Rattle.std.specs.Prelude.{List, ◌≤◌, ◌≡◌, length, take};
    ghost use Rattle.std.specs.Coded.{coded_list};
    ghost use Rattle.mlt_page_subtx.specs.declared.image.Image.{Image};
    ghost use Rattle.mlt_page_subtx.specs.contracts.image.Image.{the_row};

    ghost Value = { List Image };

    ghost coded = { coded_list the_row.coded };

    ghost view = { λ near. take near.count near.images };

    ghost invariant = { λ near. (near.count ≤ 2) × (length near.images ≡ 2) };
}

impl NearImages {
    /// No image.
    pub fn new() -> NearImages
        ensures { result ≡ [] }
    {
        NearImages {
            images: [Image::default(), Image::default()],
            count: 0,
        }
    }

    /// The images.
    pub fn as_slice(&self) -> &[Image]
        ensures { result.now ≡ self.now }
    {
        &self.images[..self.count]
    }

    /// Whether two stand; there are never more.
    pub fn is_full(&self) -> bool
        ensures value { result ≡ (length self.now == 2) }
        ensures fits { length self.now ≤ 2 }
    {
        self.count == 2
    }

    /// Puts an image behind the others.
    pub fn push(&mut self, page: PageNo, first: Option<Page>)
        requires { length self.old < 2 }
        ensures { self.new ≡ self.old ++ record { page = page; first = first } ∷ [] }
    {
        let image = &mut self.images[self.count];
        image.page = page;
        image.first = first;
        self.count += 1;
    }

    /// Puts the image of a bucket behind the others. The bucket is copied once.
    pub fn push_bucket(&mut self, page: PageNo, bucket: &Bucket)
        requires { length self.old < 2 }
        ensures { self.new
            ≡ self.old ++ record { page = page; first = Some (Page.Bucket bucket.now) } ∷ [] }
    {
        let image = &mut self.images[self.count];
        image.page = page;
        put_bucket(&mut image.first, bucket);
        self.count += 1;
    }

    /// Takes the last image off.
    pub fn pop(&mut self) -> Option<Image>
        ensures last { IfSome result (λ image. self.old ≡ self.new ++ image ∷ []) }
        ensures none { IfNone result ((self.old ≡ []) × (self.new ≡ [])) }
    {
        if self.count == 0 {
            return None;
        }
        self.count -= 1;
        let image = std::mem::take(&mut self.images[self.count]);
        Some(image)
    }

    /// Takes all off.
    pub fn clear(&mut self)
        ensures { self.new ≡ [] }
    {
        self.count = 0;
    }
}

// Puts a bucket where a page may stand.
fn put_bucket(place: &mut Option<Page>, bucket: &Bucket)
    ensures { place.new ≡ Some (Page.Bucket bucket.now) }
{
    match place {
        Some(Page::Bucket(old)) => *old = *bucket,
        _ => put_first_bucket(place, bucket),
    }
}

// Puts a bucket where none stood. It stands apart, so that no room for a page is cleared where a bucket takes the place of
// another.
#[cold]
#[inline(never)]
fn put_first_bucket(place: &mut Option<Page>, bucket: &Bucket)
    ensures { place.new ≡ Some (Page.Bucket bucket.now) }
{
    *place = Some(Page::Bucket(*bucket));
}
