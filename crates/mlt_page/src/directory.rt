//! The directory: its header, and its pages of 256 entries.

ghost use Rattle.std.specs.Prelude.{◌≡◌, ℕ, ◌+◌, ◌/◌, ◌<◌, ◌≤◌, ◌⊎◌, length, replicate, slice_index, slice_set};

use mlt_types::PageNo;
use std::marker::Model;

/// The entries of a directory page, and the places for directory pages in the header.
pub const DIR_ENTRIES: usize = 256;

/// A page of the directory: the bucket pages of 256 neighboring places. While the directory has fewer places,
/// only the first ones count. A contract sees the list of the entries.
#[derive(Clone, Copy, Debug, PartialEq, Eq)]
pub struct DirPage {
    /// The bucket page of each place.
    pub entries: [PageNo; DIR_ENTRIES],
}

impl Model for DirPage {
    ghost use Rattle.std.specs.Prelude.{◌≡◌, ℕ, List, length};

    ghost Value = { List ℕ };

    ghost view = { λ page. page.entries };

    ghost invariant = { λ page. length page.entries ≡ 256 };

    ghost inverse = { λ entries. record { entries = entries } };
}

impl DirPage {
    /// The page with this bucket at each place.
    pub fn new(bucket: PageNo) -> DirPage
        ensures { result ≡ replicate 256 bucket }
    {
        DirPage {
            entries: [bucket; DIR_ENTRIES],
        }
    }

    /// The bucket page at a place.
    pub fn entry(&self, at: usize) -> PageNo
        requires { at < 256 }
        ensures { result ≡ slice_index self.now at }
    {
        self.entries[at]
    }

    /// Names another bucket page at a place. No other entry changes.
    pub fn set_entry(&mut self, at: usize, bucket: PageNo)
        requires { at < 256 }
        ensures { self.new ≡ slice_set self.old at bucket }
    {
        self.entries[at] = bucket;
    }

    /// Names a bucket page at the `count` places from `from` on. No other entry changes.
    pub fn set_entries(&mut self, from: usize, count: usize, bucket: PageNo)
        requires { from + count ≤ 256 }
        ensures size { length self.new ≡ 256 }
        ensures inside { (at : ℕ) → from ≤ at → at < from + count
            → slice_index self.new at ≡ bucket }
        ensures outside { (at : ℕ) → (at < from) ⊎ (from + count ≤ at)
            → slice_index self.new at ≡ slice_index self.old at }
    {
        for place in from..from + count {
            self.entries[place] = bucket;
        }
    }

    /// The page that the first 128 entries make where the directory doubles: each stands twice.
    pub fn first_half_doubled(&self) -> DirPage
        ensures size { length result ≡ 256 }
        ensures entries { (at : ℕ) → at < 256
            → slice_index result at ≡ slice_index self.now (at / 2) }
    {
        self.doubled(0)
    }

    /// The page that the last 128 entries make where the directory doubles: each stands twice.
    pub fn second_half_doubled(&self) -> DirPage
        ensures size { length result ≡ 256 }
        ensures entries { (at : ℕ) → at < 256
            → slice_index result at ≡ slice_index self.now (128 + at / 2) }
    {
        self.doubled(128)
    }

    fn doubled(&self, from: usize) -> DirPage
        requires { from ≤ 128 }
        ensures size { length result ≡ 256 }
        ensures entries { (at : ℕ) → at < 256
            → slice_index result at ≡ slice_index self.now (from + at / 2) }
    {
        let mut entries = self.entries;
        for at in 0..DIR_ENTRIES {
            entries[at] = self.entries[from + at / 2];
        }
        DirPage { entries }
    }
}

/// The header: the directory's depth and pages. A directory of depth `g` has `2^g` places; it has one page
/// while `g` is at most 8, and above that `2^(g-8)`.
#[derive(Clone, Copy, Debug, PartialEq, Eq)]
pub struct HeadPage {
    /// How many bits of a pseudokey lead to its place, 0 to 16.
    pub depth: u8,
    /// The pages of the directory, in order; only as many as there are count.
    pub dirs: [PageNo; DIR_ENTRIES],
}

impl Model for HeadPage {
    ghost use Rattle.std.specs.Prelude.{◌≡◌, length};
    ghost use Rattle.mlt_page.specs.Values.{HeadFields};

    ghost Value = { HeadFields };

    ghost view = { λ page. record { depth = page.depth; dirs = page.dirs } };

    ghost invariant = { λ page. length page.dirs ≡ 256 };

    ghost inverse = { λ head. record { depth = head.depth; dirs = head.dirs } };
}

impl HeadPage {
    /// The header of a directory of depth 0, with its one page.
    pub fn new(dir: PageNo) -> HeadPage
        ensures depth { result.depth ≡ 0 }
        ensures dirs { result.dirs ≡ replicate 256 dir }
    {
        HeadPage {
            depth: 0,
            dirs: [dir; DIR_ENTRIES],
        }
    }

    /// The directory page at a place, counted from 0.
    pub fn dir(&self, at: usize) -> PageNo
        requires { at < 256 }
        ensures { result ≡ slice_index self.now.dirs at }
    {
        self.dirs[at]
    }
}
