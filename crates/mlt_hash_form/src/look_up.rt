//! The way from a key to its bucket, and what the bucket has of the key.

ghost use Rattle.std.specs.Prelude.{◌≡◌, ℕ, MatchOption};
ghost use Rattle.mlt_page.specs.Values.{BucketFields};
ghost use Rattle.mlt_page.specs.Stores.{page_at};
ghost use Rattle.mlt_hash_form.specs.Changes.{IsHome};
ghost use Rattle.mlt_hash_form.specs.File.{HasForm, LeadsTo};
ghost use Rattle.mlt_hash_form.specs.Form.{value_in};

use crate::place::DirSlot;
use crate::root::Root;
use mlt_page::{Bucket, Page, Slot, Store};
use mlt_types::{Key, PageNo, Pseudo, Value};

/// The bucket that a key leads to, and its page, in any store. Where there is no header of a depth of at most 16, or no
/// directory page or bucket where the path leads, there is none. In a file of the form it is the key's home bucket.
pub fn home_bucket<'a, P: Pseudo>(
    store: &'a Store,
    root: &Root<P>,
    key: Key,
) -> Option<(PageNo, &'a Bucket)>
    ensures path { let pages = page_at store.now.pages in
        let Leads = LeadsTo pages root.now.page (P.bits_of root.now.pseudo key) in
        MatchOption result ((n : ℕ) (bucket : BucketFields) → Leads n bucket → ⊥)
        (λ home. Leads home.0 home.1.now) }
    ensures in_form { let pages = page_at store.now.pages in
        let bits = P.bits_of root.now.pseudo in
        HasForm bits pages root.now.page
        → MatchOption result ⊥ (λ home. IsHome bits pages root.now.page key home.0 home.1.now) }
{
    let Some(Page::Head(head)) = store.read(root.page) else {
        return None;
    };
    let head = head.get();
    if head.depth > 16 {
        return None;
    }
    let place = DirSlot::of(root.pseudo.bits(&key), head.depth);
    let Some(Page::Dir(dir)) = store.read(head.dir(place.dir)) else {
        return None;
    };
    let number = dir.get().entry(place.entry);
    let Some(Page::Bucket(bucket)) = store.read(number) else {
        return None;
    };
    Some((number, bucket))
}

/// The value of a key's record in its bucket, if it has one.
pub fn value_in(bucket: &Bucket, key: Key) -> Option<Value>
    ensures { result ≡ value_in key bucket.now.slots }
{
    let at = bucket.find_live(key)?;
    match bucket.slots[at] {
        Slot::Live(_, value) => Some(value),
        _ => unreachable!(),
    }
}
