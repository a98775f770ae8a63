//! Pairs of keys.

ghost use Rattle.std.specs.Prelude.{◌≡◌, ◌≢◌, ℕ, Option, None};
ghost use Rattle.mlt_hash_access.specs.LocalStates.{local};
ghost use Rattle.mlt_hash_access.specs.PageSteps.{Leaves};
ghost use Rattle.mlt_hash_pair.specs.Reading.{next_descent};
ghost use Rattle.mlt_hash_pair.specs.Pairs.{IsUnderWay, MayFind, find_by};
ghost use Rattle.mlt_hash_pair.specs.Steps.{TellsOfStep, told_by};

use crate::answer::PairAnswer;
use crate::descent::Descent;
use mlt_hash_access::{LockedStore, lock, read_held};
use mlt_hash_form::{Root, SlotWrite};
use mlt_page_subtx::Subtx;
use mlt_types::{Key, Pseudo};
use std::marker::Model;

/// A pair of keys on the way to their buckets, which are then changed. A contract sees its fields.
#[derive(Clone, Copy, Debug)]
pub struct Pair {
    pub(crate) left: Key,
    pub(crate) right: Key,
    pub(crate) left_descent: Descent,
    pub(crate) right_descent: Descent,
    /// The change of the earlier bucket that is still to be written.
    pub(crate) owed: Option<SlotWrite>,
}

impl Model for Pair {
    ghost use Rattle.std.specs.Prelude.{option_map};
    ghost use Rattle.mlt_hash_pair.specs.Pairs.{PairFields};

    ghost Value = { PairFields };

    ghost view = { λ pair. record {
      left = pair.left;
      right = pair.right;
      left_descent = pair.left_descent;
      right_descent = pair.right_descent;
      owed = pair.owed;
    } };

    ghost inverse = { λ fields. record {
      left = fields.left;
      right = fields.right;
      left_descent = fields.left_descent;
      right_descent = fields.right_descent;
      owed = fields.owed;
    } };
}

impl Pair {
    /// A pair that has read nothing. The keys are different.
    pub fn find(left: Key, right: Key) -> Pair
        requires apart { left ≢ right }
        ensures { result ≡ find_by left right }
    {
        Pair {
            left,
            right,
            left_descent: Descent::Start,
            right_descent: Descent::Start,
            owed: None,
        }
    }

    /// One step: locks the next page and reads it, for both keys where it is the next one of both. It takes no memory.
    pub fn advance<P: Pseudo>(
        &mut self,
        root: &Root<P>,
        subtx: &Subtx,
        pages: &mut LockedStore,
    ) -> PairAnswer
        requires under_way { IsUnderWay self.old }
        requires ready { MayFind (P.bits_of root.now.pseudo) root.now.page
            (local subtx.now pages.old) self.old }
        ensures leaves { Leaves (local subtx.now pages.old) (local subtx.now pages.new) }
        ensures tells { TellsOfStep (P.bits_of root.now.pseudo) root.now.page
            (local subtx.now pages.old) (local subtx.now pages.new) self.old self.new result }
    {
        let next = first_way(&self.left_descent, &self.right_descent);
        let number = next.next_page(root.page);
        if let Err(by) = lock(subtx, pages, number, next.next_mode()) {
            return PairAnswer::Waiting(number, by);
        }
        let page = read_held(subtx, pages, number);
        self.left_descent = self.left_descent.after(&self.left, number, page, root);
        self.right_descent = self.right_descent.after(&self.right, number, page, root);
        found(&self.left_descent, &self.right_descent)
    }
}

// The descent whose next page is locked first.
fn first_way(left: &Descent, right: &Descent) -> Descent
    ensures { result ≡ next_descent left.now right.now }
{
    if left.is_before(right) { *left } else { *right }
}

// What a step tells that has read its page.
fn found(left: &Descent, right: &Descent) -> PairAnswer
    ensures { result ≡ told_by left.now right.now }
{
    match (*left, *right) {
        (Descent::AtBucket { found: left, .. }, Descent::AtBucket { found: right, .. }) =>
            PairAnswer::Found(left, right),
        _ => PairAnswer::Going,
    }
}
