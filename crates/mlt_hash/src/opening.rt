//! A hash file as it is opened.

ghost use Rattle.std.specs.Prelude.{◌≡◌, ◌≤◌, ℕ, IsOkUnless, IfOk, OnOk};
ghost use Rattle.std.specs.FinMap as map;
ghost use Rattle.mlt_page.specs.Stores.{page_at};
ghost use Rattle.mlt_hash_form.specs.Changes.{IsOpening};

use mlt_page::{Bucket, DirPage, HeadPage, Page, Store};
use mlt_types::{PageNo, Refusal};

/// Makes the pages of a file without records in a store without pages: a bucket, a page of the directory, which has
/// depth 0, and the header, whose number it answers.
///
/// # Errors
/// `OutOfMemory`, where room for a page or a growth was refused.
pub fn open_file(store: &mut Store) -> Result<PageNo, Refusal>
    requires no_page { store.old.pages ≡ map.empty }
    requires room { 3 ≤ store.old.max_pages }
    ensures opening { IfOk result (λ root.
        (dir : ℕ) × (bucket : ℕ) × IsOpening (page_at store.new.pages) root dir bucket) }
    ensures pages { OnOk result (map.len store.new.pages ≡ 3) }
    ensures limit { store.new.max_pages ≡ store.old.max_pages }
    ensures refusal { IsOkUnless result Refusal.OutOfMemory }
{
    let bucket = store.grow(Page::Bucket(Bucket::empty(0)))?;
    let listed = store.dir_page(DirPage::new(bucket))?;
    let dir = store.grow(listed)?;
    let header = store.head_page(HeadPage::new(dir))?;
    let head = store.grow(header)?;
    Ok(head)
}
