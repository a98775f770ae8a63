//! Marks of places by numbers: where to look, and where not.

ghost use Rattle.std.specs.Prelude.{◌≡◌, ◌<◌, ◌≤◌, ℕ, length, IsOkUnless, MatchOption};
ghost use Rattle.mlt_page_locks.specs.Marks.{mask_of, row_of, IsMarked, KeepsOthers, IsUnmarked, IsNextPlace};

use mlt_types::Refusal;
use std::alloc::Global;
use std::marker::Model;

/// Rows of numbers, each with a mask of 64 places. A contract sees the list of the masks.
#[derive(Drop)]
pub(crate) struct Marks {
    masks: Vec<u64>,
}

impl Model for Marks {
    ghost use Rattle.std.specs.Prelude.{List, ℕ, ◌<◌, length};

    ghost Value = { List ℕ };

    ghost view = { λ marks. marks.masks.items };

    ghost invariant = { λ marks. 0 < length marks.masks.items };
}

impl Marks {
    /// So many rows, a power of two best, with no mark. No other call takes memory.
    ///
    /// # Errors
    /// `OutOfMemory`, where a growth was refused.
    pub fn new(alloc: Global, count: usize) -> Result<Marks, Refusal>
        requires { 0 < count }
        ensures refusal { IsOkUnless result Refusal.OutOfMemory }
    {
        let masks = vec![in alloc; 0; count]?;
        Ok(Marks { masks })
    }

    /// The places that are marked at a number.
    pub fn mask(&self, number: u64) -> u64
        ensures { result ≡ mask_of self.now number }
    {
        self.masks[row(&self.masks, number)]
    }

    /// Marks a place at a number.
    pub fn mark(&mut self, number: u64, place: usize)
        requires { place < 64 }
        ensures marked { IsMarked self.new number place }
        ensures kept { (n p : ℕ) → IsMarked self.old n p → IsMarked self.new n p }
    {
        let at = row(&self.masks, number);
        self.masks[at] |= 1 << place;
    }

    /// Takes the mark of a place away at a number. Other numbers of its row lose it too.
    pub fn unmark(&mut self, number: u64, place: usize)
        requires { place < 64 }
        ensures gone { IsMarked self.new number place → ⊥ }
        ensures fewer { (n p : ℕ) → IsMarked self.new n p → IsMarked self.old n p }
        ensures others { KeepsOthers self.old self.new place }
    {
        let at = row(&self.masks, number);
        self.masks[at] &= !(1 << place);
    }
}

// The row of a number. It takes no division, which would be dearer than all else here.
fn row(masks: &[u64], number: u64) -> usize
    requires { 0 < length masks.now }
    ensures is { result ≡ row_of (length masks.now) number }
    ensures within { result < length masks.now }
{
    (number & (masks.len() as u64 - 1)) as usize
}

/// The first place in a mask from `start` on and below `end`, if there is one.
#[inline(always)]
pub(crate) fn next_place(mask: u64, start: usize, end: usize) -> Option<usize>
    requires { end ≤ 64 }
    ensures { let unmarked = IsUnmarked mask start end in
        MatchOption result unmarked (IsNextPlace mask start end) }
{
    if start >= end {
        return None;
    }
    let place = start + (mask >> start).trailing_zeros() as usize;
    if place < end { Some(place) } else { None }
}
