//! A split of a bucket, one page written at a time: it begins with its two buckets, goes on with the pages of the
//! directory, and closes with the last of these or with the header.

ghost use Rattle.std.specs.Prelude.{ℕ, ◌≡◌, ◌<◌, ◌≤◌, ◌+◌, ◌-◌, ◌*◌, ◌^◌, List, None, Some, length, slice_index, slice_set};
ghost use Rattle.mlt_page.specs.declared.page.Page.TheVariants as page;
ghost use Rattle.mlt_page.specs.Values.{HeadFields};
ghost use Rattle.mlt_hash_form.specs.File.{FilePages, Writes, entry};
ghost use Rattle.mlt_hash_form.specs.Splits.{BucketSplit, CanBegin, Completes, HasEntries, IsLonger, IsMidway, IsMidwayInPlace, WritesBothHalves, WritesDirPage, next_page, old_bucket, old_count, old_depth, old_dirs, run_begin, run_end};

/// A split that doubles the directory begins with the new bucket and the old one.
pub fn split_begins_to_double()
    ensures { (split : BucketSplit) (one two : FilePages) (deeper : ℕ) (made : List ℕ)
        → CanBegin split → WritesBothHalves split one two
        → IsMidway split deeper two made 0 0 }
{}

/// A split that leaves the directory as deep as it is begins so too. No page of the directory before the first
/// place of the new bucket is to be written.
pub fn split_begins_in_place()
    ensures { (split : BucketSplit) (one two : FilePages) (q : ℕ)
        → CanBegin split → WritesBothHalves split one two
        → 256 * q ≤ run_begin split → q ≤ old_count split
        → IsMidwayInPlace split two q }
{}

/// The next page of the old directory is written as the next page of the new one.
pub fn split_rewrites_a_page()
    ensures { (split : BucketSplit) (pages pages' : FilePages) (deeper j k m : ℕ)
        (made made' dir : List ℕ)
        → CanBegin split → IsMidway split deeper pages made j k
        → WritesDirPage split deeper pages pages' made made' (next_page j m dir)
        → k < old_count split → slice_index (old_dirs split) k ≡ m
        → IsMidway split deeper pages' made' (j + 1) (k + 1) }
{}

/// A page that was not there is made as the next page of the new directory.
pub fn split_makes_a_page()
    ensures { (split : BucketSplit) (pages pages' : FilePages) (deeper j k m : ℕ)
        (made made' dir : List ℕ)
        → CanBegin split → IsMidway split deeper pages made j k
        → WritesDirPage split deeper pages pages' made made' (next_page j m dir)
        → pages m ≡ None
        → IsMidway split deeper pages' made' (j + 1) k }
{}

/// With all pages of the deeper directory written, the header closes the split: no record and no ghost of an
/// open owner changed, and the form is kept.
pub fn split_closes_by_header()
    ensures { (split : BucketSplit) (pages pages' : FilePages) (k : ℕ) (header : HeadFields)
        → CanBegin split
        → IsMidway split header.depth pages header.dirs (2 ^ (header.depth - 8)) k
        → header.depth ≤ 16 → old_depth split ≤ header.depth
        → (old_bucket split).depth < header.depth
        → Writes pages pages' split.root (page.Head header)
        → Completes split pages' }
{}

/// In place the last page with a place of the new bucket closes the split.
pub fn split_closes_in_place()
    ensures { (split : BucketSplit) (pages : FilePages) (q : ℕ)
        → CanBegin split → IsMidwayInPlace split pages q
        → run_end split ≤ 256 * q → (old_bucket split).depth < old_depth split
        → Completes split pages }
{}

/// A page of the directory has the directory's entries at its places.
pub fn directory_page_has_its_entries()
    ensures { (pages : FilePages) (dirs : List ℕ) (q r : ℕ) (dir : List ℕ)
        → pages (slice_index dirs q) ≡ Some (page.Dir dir) → r < 256
        → slice_index dir r ≡ entry pages dirs (256 * q + r) }
{}

/// In the midst of a split each page of the old directory that is not written yet is as it was.
pub fn unwritten_page_is_as_it_was()
    ensures { (split : BucketSplit) (pages : FilePages) (deeper j k q : ℕ) (made : List ℕ)
        → IsMidway split deeper pages made j k → k ≤ q → q < old_count split
        → (dir : List ℕ) × (pages (slice_index (old_dirs split) q) ≡ Some (page.Dir dir))
        × (length dir ≡ 256) × HasEntries dir q (entry split.before (old_dirs split)) }
{}

/// Naming a page at a place of the header's list makes the list longer by it.
pub fn named_page_makes_the_list_longer()
    ensures { (made : List ℕ) (j n : ℕ) → j < length made → IsLonger made (slice_set made j n) j n }
{}

/// A directory of depth g has, where it doubles, one page while g is below 8, and else twice as many as before.
pub fn pages_of_a_doubled_directory()
    ensures { (g : ℕ)
        → (g < 8 → 2 ^ ((g + 1) - 8) ≡ 1) × (8 ≤ g → 2 ^ ((g + 1) - 8) ≡ 2 * 2 ^ (g - 8)) }
{}
