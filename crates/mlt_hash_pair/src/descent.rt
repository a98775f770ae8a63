//! The descent of one key to its bucket.

ghost use Rattle.std.specs.Prelude.{◌≡◌, ◌<◌, ◌≤◌, ℕ};
ghost use Rattle.mlt_page.specs.Values.{HeadFields};
ghost use Rattle.mlt_page.specs.declared.page.Page.TheVariants as page;
ghost use Rattle.mlt_hash_pair.specs.Reading.{is_before, next_mode, next_page, descent_after, descent_by_header};

use mlt_hash_form::{DirSlot, Root, value_in};
use mlt_page::{HeadPage, Page};
use mlt_types::{Key, Mode, PageNo, Pseudo, Value};

/// How far a key is on its way.
#[derive(Clone, Copy, Debug, PartialEq, Eq)]
pub enum Descent {
    /// Nothing is read.
    Start,
    /// The header is read: the place there of the key's directory page, that page, and the key's entry on it.
    Headed {
        place: usize,
        dir: PageNo,
        row: usize,
    },
    /// The directory page is read: it, and the page of the key's bucket.
    Placed {
        dir: PageNo,
        bucket: PageNo,
    },
    /// The bucket is read: the directory page, the bucket's page, and the value that the key has there, if it has one.
    AtBucket {
        dir: PageNo,
        bucket: PageNo,
        found: Option<Value>,
    },
}

impl Descent {
    /// The page that is to be read next. At its bucket the descent is done. `root` is the header's page.
    pub(crate) fn next_page(&self, root: PageNo) -> PageNo
        ensures { result ≡ next_page root self.now }
    {
        match *self {
            Descent::Start => root,
            Descent::Headed { dir, .. } => dir,
            Descent::Placed { bucket, .. } | Descent::AtBucket { bucket, .. } => bucket,
        }
    }

    /// The mode of that page: only buckets are locked exclusively.
    pub(crate) fn next_mode(&self) -> Mode
        ensures { result ≡ next_mode self.now }
    {
        match self {
            Descent::Start | Descent::Headed { .. } => Mode::Shared,
            Descent::Placed { .. } | Descent::AtBucket { .. } => Mode::Exclusive,
        }
    }

    /// Whether its next page is to be locked before that of the other: the header, then the pages of the directory by
    /// their places, then the buckets by their pages.
    pub(crate) fn is_before(&self, other: &Descent) -> bool
        ensures { result ≡ is_before self.now other.now }
    {
        match *self {
            Descent::Start => true,
            Descent::Headed { place: own, .. } => match *other {
                Descent::Start => false,
                Descent::Headed { place, .. } => own <= place,
                Descent::Placed { .. } | Descent::AtBucket { .. } => true,
            },
            Descent::Placed { bucket: own, .. } => match *other {
                Descent::Start | Descent::Headed { .. } => false,
                Descent::Placed { bucket, .. } => own.0 <= bucket.0,
                Descent::AtBucket { .. } => true,
            },
            Descent::AtBucket { .. } => false,
        }
    }

    /// The descent of this key once a page is read: one page further, if it is the next one.
    pub(crate) fn after<P: Pseudo>(
        &self,
        key: &Key,
        number: PageNo,
        read: &Page,
        root: &Root<P>,
    ) -> Descent
        requires small { (header : HeadFields) → read.now ≡ page.Head header → header.depth ≤ 16 }
        requires row { (place dir row : ℕ) → self.now ≡ Descent.Headed place dir row → row < 256 }
        ensures { result
            ≡ descent_after (P.bits_of root.now.pseudo) root.now.page key.now self.now number
            read.now }
    {
        if number != self.next_page(root.page) {
            return *self;
        }
        match *self {
            Descent::Start => match read {
                Page::Head(header) => descent_by_header(header.get(), key, root),
                _ => *self,
            },
            Descent::Headed { dir, row, .. } => match read {
                Page::Dir(entries) => Descent::Placed {
                    dir,
                    bucket: entries.get().entry(row),
                },
                _ => *self,
            },
            Descent::Placed { dir, bucket } => match read {
                Page::Bucket(slots) => Descent::AtBucket {
                    dir,
                    bucket,
                    found: value_in(slots, *key),
                },
                _ => *self,
            },
            Descent::AtBucket { .. } => *self,
        }
    }
}

// The descent of a key once the header is read.
fn descent_by_header<P: Pseudo>(header: &HeadPage, key: &Key, root: &Root<P>) -> Descent
    requires { header.now.depth ≤ 16 }
    ensures { result ≡ descent_by_header (P.bits_of root.now.pseudo) key.now header.now }
{
    let place = DirSlot::of(root.pseudo.bits(key), header.depth);
    Descent::Headed {
        place: place.dir,
        dir: header.dir(place.dir),
        row: place.entry,
    }
}
