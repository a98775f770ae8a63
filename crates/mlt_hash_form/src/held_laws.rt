//! Walks side by side: facts of a walk that are about the pages that it holds alone, so that they stay true
//! whatever other walks do to other pages.

ghost use Rattle.std.specs.Prelude.{ℕ, ◌≡◌, ◌⊎◌, true, Option, None, Some, is_some};
ghost use Rattle.std.specs.Ordering.{nat_cmp};
ghost use Rattle.std.specs.FinMap as map;
ghost use Rattle.std.specs.FinSet as set;
ghost use Rattle.mlt_page.specs.declared.page.Page.{Page};
ghost use Rattle.mlt_page.specs.declared.slot.Slot.{Slot};
ghost use Rattle.mlt_hash_form.specs.Changes.{ChangesRecord, IsSplit, slot_change};
ghost use Rattle.mlt_hash_form.specs.File.{FilePages, HasForm, Writes, bucket_of, buckets_of, look_up};
ghost use Rattle.mlt_hash_form.specs.Held.{Agrees, AreKeptToo, ChangesFile, KeepsFile, SeenPages, WhereverClean, over};

/// A walk that wrote nothing keeps the file.
pub fn walk_without_writes_keeps_the_file()
    ensures { (bits : ℕ → ℕ) (active : set.FinSet nat_cmp) (root : ℕ) (seen : SeenPages)
        → KeepsFile bits active root seen (λ _. None) }
{}

/// A walk that holds a further page still keeps the file.
pub fn further_page_keeps_the_file()
    ensures { (bits : ℕ → ℕ) (active : set.FinSet nat_cmp) (root : ℕ) (seen more : SeenPages)
        (own : FilePages)
        → ((n : ℕ) (p : Option Page) → seen n ≡ Some p → more n ≡ Some p)
        → KeepsFile bits active root seen own → KeepsFile bits active root more own }
{}

/// Owners may close, and others begin, while the walk runs: it keeps the file for the owners that are open now, if each
/// slot of a held page whose room they keep had its room kept for the owners that were open before.
pub fn fewer_open_owners_keep_the_file()
    ensures { (bits : ℕ → ℕ) (active fewer : set.FinSet nat_cmp) (root : ℕ) (seen : SeenPages)
        (own : FilePages)
        → ((n : ℕ) (p : Option Page) → seen n ≡ Some p → AreKeptToo fewer active (bucket_of p))
        → KeepsFile bits active root seen own → KeepsFile bits fewer root seen own }
{}

/// A split of what is written keeps the file, if the walk holds the bucket's page, and the split keeps each slot of
/// the bucket whose room is kept. The walk may have made the page itself, in an earlier split.
pub fn split_keeps_the_file()
    ensures { (bits : ℕ → ℕ) (active splitters : set.FinSet nat_cmp) (root n new : ℕ)
        (seen : SeenPages) (own own' : FilePages)
        → KeepsFile bits active root seen own
        → is_some (seen n) ≡ true
        → WhereverClean bits root seen own (λ clean.
        IsSplit bits splitters (over clean own) (over clean own') root n new
        × AreKeptToo active splitters (buckets_of (over clean own) n))
        → KeepsFile bits active root seen own' }
{}

/// A file that is kept has the values that it had.
pub fn kept_file_has_its_values()
    ensures { (bits : ℕ → ℕ) (active : set.FinSet nat_cmp) (root : ℕ) (seen : SeenPages)
        (own clean : FilePages)
        → KeepsFile bits active root seen own
        → Agrees seen clean → HasForm bits clean root
        → (key : ℕ) → look_up bits (over clean own) root key ≡ look_up bits clean root key }
{}

/// A change of one record in what is written, at the end of a walk that kept the file, changes the file.
pub fn change_of_a_kept_file()
    ensures { (bits : ℕ → ℕ) (active : set.FinSet nat_cmp) (root key n i : ℕ) (value : Option ℕ)
        (after : Slot) (seen : SeenPages) (rest own : FilePages)
        → KeepsFile bits active root seen rest
        → WhereverClean bits root seen rest (λ clean.
        ChangesRecord bits (over clean rest) (over clean own) root
        (slot_change key value n i after))
        → ChangesFile bits active root seen rest own (slot_change key value n i after) }
{}

/// A file that is changed has its form, the new value at the key, and at each other key the value that it had.
pub fn changed_file_has_its_values()
    ensures { (bits : ℕ → ℕ) (active : set.FinSet nat_cmp) (root key n i : ℕ) (value : Option ℕ)
        (after : Slot) (seen : SeenPages) (rest own clean : FilePages)
        → ChangesFile bits active root seen rest own (slot_change key value n i after)
        → Agrees seen clean → HasForm bits clean root
        → HasForm bits (over clean own) root
        × (look_up bits (over clean own) root key ≡ value)
        × ((k : ℕ) → (k ≡ key → ⊥)
        → look_up bits (over clean own) root k ≡ look_up bits clean root k) }
{}

/// Where another walk ends, its writes become clean: a walk that holds none of these pages saw what is there.
pub fn end_of_another_walk()
    ensures { (clean own : FilePages) (seen : SeenPages)
        → ((n : ℕ) → (seen n ≡ None) ⊎ (own n ≡ None))
        → Agrees seen clean → Agrees seen (over clean own) }
{}

/// What a walk reads of a page that it holds is the same over all clean pages that agree with what it saw.
pub fn held_page_reads_the_same()
    ensures { (clean other own : FilePages) (seen : SeenPages) (n : ℕ) (p : Option Page)
        → seen n ≡ Some p → Agrees seen clean → Agrees seen other
        → over clean own n ≡ over other own n }
{}

/// And what it writes is the same write over any of them.
pub fn own_write_is_a_write()
    ensures { (clean own own' : FilePages) (n : ℕ) (p : Page)
        → own' n ≡ Some p → ((m : ℕ) → (m ≡ n → ⊥) → own' m ≡ own m)
        → Writes (over clean own) (over clean own') n p }
{}

/// An insertion into a finite map of pages is a write.
pub fn insertion_is_a_write()
    ensures { (pages : map.FinMap nat_cmp Page) (n : ℕ) (p : Page)
        → Writes (map.get pages) (map.get (map.insert pages n p)) n p }
{}
