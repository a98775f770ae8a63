//! Where the ghost of a key is found.

ghost use Rattle.std.specs.Prelude.{◌≡◌, ℕ, ◌<◌, Bool, true, IfSome, None, Option, Some, option_map, position};
ghost use Rattle.std.specs.Ordering.{nat_cmp};
ghost use Rattle.std.specs.FinSet as set;
ghost use Rattle.mlt_page.specs.Slots.{is_ghost_of, is_live_of};
ghost use Rattle.mlt_page.specs.Values.{BucketFields};
ghost use Rattle.mlt_hash_form.specs.Form.{value_in};
ghost use Rattle.mlt_hash_form.specs.File.{FilePages, HasForm, LeadsTo, buckets_of, lead_of};
ghost use Rattle.mlt_page.specs.Stores.{page_at};
ghost use Rattle.mlt_hash_ghosts.specs.Ghosts.{IsGhostAt, PagesMatchOperations};
ghost use Rattle.mlt_hash_ghosts.specs.Ledgers.{IsOpenIn, Ledger, home_slots, last_by};
ghost use Rattle.mlt_hash_ghosts.specs.Operations.{Added, Removed};

use mlt_hash_form::{Root, home_bucket};
use mlt_page::Store;
use mlt_types::{Key, PageNo, Pseudo, TxId};

/// The ghost that `owner` left of the key, as the page and the slot where it stands: found exactly where the bucket
/// that the key's bits lead to has it. If there is no header of a depth of at most 16, or no directory page or
/// bucket where the path leads, there is none.
pub fn ghost_of<P: Pseudo>(
    store: &Store,
    root: &Root<P>,
    key: Key,
    owner: TxId,
) -> Option<(PageNo, usize)>
    ensures found { let pages = page_at store.now.pages in
        let x = P.bits_of root.now.pseudo key in
        (n : ℕ) (bucket : BucketFields) → LeadsTo pages root.now.page x n bucket
        → result ≡ option_map (λ i. (n, i)) (position (is_ghost_of key owner) bucket.slots) }
    ensures no_path { let pages = page_at store.now.pages in
        let x = P.bits_of root.now.pseudo key in
        ((n : ℕ) (bucket : BucketFields) → LeadsTo pages root.now.page x n bucket → ⊥)
        → result ≡ None }
    ensures in_form { let pages = page_at store.now.pages in
        let bits = P.bits_of root.now.pseudo in
        let n = lead_of pages root.now.page (bits key) in
        HasForm bits pages root.now.page
        → result ≡ option_map (λ i. (n, i))
        (position (is_ghost_of key owner) (buckets_of pages n).slots) }
    ensures within { IfSome result (λ at. at.1 < 8) }
{
    let Some((number, bucket)) = home_bucket(store, root, key) else {
        return None;
    };
    let at = bucket.find_ghost(key, owner)?;
    Some((number, at))
}

/// In a file of the form the look-up in a key's bucket is exact: it tells a ghost that the owner left of the key, and
/// where it tells none there is none in the whole file.
pub fn look_up_finds_the_ghost()
    ensures { (bits : ℕ → ℕ) (pages : FilePages) (root key owner : ℕ) → HasForm bits pages root
        → let n = lead_of pages root (bits key) in
        let found = position (is_ghost_of key owner) (buckets_of pages n).slots in
        ((i : ℕ) → found ≡ Some i → IsGhostAt pages owner key n i)
        × (found ≡ None → (m i : ℕ) → IsGhostAt pages owner key m i → ⊥) }
{}

/// What an open transaction takes back is there, in the bucket that the key leads to: of an addition the record, and of
/// a removal its ghost, and no record.
pub fn what_is_undone_is_found()
    ensures added { (ledger : Ledger) (owner key : ℕ)
        → PagesMatchOperations ledger → HasForm ledger.bits ledger.pages ledger.root
        → IsOpenIn ledger owner → last_by ledger owner key ≡ Some Added
        → (i : ℕ) × (position (is_live_of key) (home_slots ledger key) ≡ Some i) }
    ensures removed { (ledger : Ledger) (owner key : ℕ)
        → PagesMatchOperations ledger → HasForm ledger.bits ledger.pages ledger.root
        → IsOpenIn ledger owner → last_by ledger owner key ≡ Some Removed
        → ((i : ℕ) × (position (is_ghost_of key owner) (home_slots ledger key) ≡ Some i))
        × (value_in key (home_slots ledger key) ≡ None) }
{}
