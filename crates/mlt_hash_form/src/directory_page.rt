//! Pages of a directory that is split: what each is to hold.

ghost use Rattle.std.specs.Prelude.{◌≡◌, ℕ, List, ◌+◌, ◌-◌, ◌*◌, ◌/◌, ◌^◌, ◌≤◌, ◌<◌, length};
ghost use Rattle.mlt_hash_form.specs.File.{FilePages, buckets_of, depth_of, dirs_of, entry};
ghost use Rattle.mlt_hash_form.specs.Changes.{MaySplit};
ghost use Rattle.mlt_hash_form.specs.Splits.{HasEntries, HasNewPlaces, IsDoubled, prefix_of, run_length, run_start, target_of};

use crate::place::NewPlaces;
use mlt_page::DirPage;
use mlt_types::PageNo;

/// Page `at` of the doubled directory, counted from 0: made of the old page whose entries it gets, page `at / 2`,
/// with a new bucket at one place of the doubled directory, where that place is on this page.
pub fn doubled_page(old: &DirPage, at: usize, place: u64, bucket: PageNo) -> DirPage
    requires { at < 256 }
    ensures size { length result ≡ 256 }
    ensures entries { IsDoubled old.now result at place bucket }
{
    let mut page = if at % 2 == 0 {
        old.first_half_doubled()
    } else {
        old.second_half_doubled()
    };
    if place / 256 == at as u64 {
        page.set_entry((place % 256) as usize, bucket);
    }
    page
}

/// Page `at` of a directory that keeps its depth, counted from 0, with a new bucket at those of its places that the
/// bucket gets.
pub fn page_with_new_places(old: &DirPage, at: usize, places: NewPlaces, bucket: PageNo) -> DirPage
    requires at { at < 256 }
    requires places { places.first + places.count ≤ 65536 }
    ensures size { length result ≡ 256 }
    ensures entries { HasNewPlaces old.now result at places.first places.count bucket }
{
    let start = 256 * at as u64;
    let from = places.first.clamp(start, start + 256);
    let end = (places.first + places.count).clamp(from, start + 256);
    let mut page = *old;
    page.set_entries((from - start) as usize, (end - from) as usize, bucket);
    page
}

/// A page that is made by doubling is as the split wants it, where the bucket is as deep as the directory.
pub fn doubled_page_is_right()
    ensures { (pages : FilePages) (root n new x j : ℕ) (old made : List ℕ)
        → (buckets_of pages n).depth ≡ depth_of pages root
        → HasEntries old (j / 2) (entry pages (dirs_of pages root))
        → IsDoubled old made j (prefix_of pages n x) new
        → HasEntries made j (target_of pages root n new x (depth_of pages root + 1)) }
{}

/// A page with the new bucket at its places is as the split wants it, where the directory keeps its depth.
pub fn page_with_new_places_is_right()
    ensures { (bits : ℕ → ℕ) (pages : FilePages) (root n new x j : ℕ) (old made : List ℕ)
        → MaySplit bits pages root x n new
        → HasEntries old j (entry pages (dirs_of pages root))
        → HasNewPlaces old made j (run_start pages root n x) (run_length pages root n) new
        → HasEntries made j (target_of pages root n new x (depth_of pages root)) }
{}

/// The places of a new bucket lie on one page, where the directory is at most 9 deeper than the bucket was.
pub fn new_places_on_one_page()
    ensures { (pages : FilePages) (root n x : ℕ)
        → depth_of pages root ≤ (buckets_of pages n).depth + 9
        → let first = run_start pages root n x in
        first + run_length pages root n ≤ 256 * (first / 256 + 1) }
{}

/// Else they are all places of `2^(g-l-9)` whole pages.
pub fn new_places_on_whole_pages()
    ensures { (pages : FilePages) (root n x : ℕ)
        → (buckets_of pages n).depth + 9 ≤ depth_of pages root
        → let count = 2 ^ (depth_of pages root - ((buckets_of pages n).depth + 9)) in
        (run_start pages root n x ≡ 256 * (prefix_of pages n x * count))
        × (run_length pages root n ≡ 256 * count) }
{}
