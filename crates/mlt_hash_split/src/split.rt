//! A split under way.

ghost use Rattle.std.specs.Prelude.{◌≡◌, ◌↔◌, ◌<◌, ◌==◌, ℕ, Option, if◌then◌else◌};
ghost use Rattle.std.specs.FinMap as map;
ghost use Rattle.mlt_page.specs.Bits.{bit_at};
ghost use Rattle.mlt_hash_access.specs.LocalStates.{local};
ghost use Rattle.mlt_hash_access.specs.PageSteps.{HasNoPageLeft, Leaves};
ghost use Rattle.mlt_hash_split.specs.Rests.{SplitTarget};
ghost use Rattle.mlt_hash_split.specs.Splits.{MayAdvance};
ghost use Rattle.mlt_hash_split.specs.Steps.{IsMaking, Touches};
ghost use Rattle.mlt_hash_split.specs.Tells.{Tells};

use crate::pages::{double_page, make_second_half, write_header, write_in_place, write_old_bucket};
use crate::phase::SplitPhase;
use mlt_hash_access::LockedStore;
use mlt_hash_form::first_bits;
use mlt_page::{Bucket, DirPage, HeadPage};
use mlt_page_subtx::Subtx;
use mlt_types::{PageNo, Refusal, TxId};
use std::marker::Model;

/// The answer to a step of a split.
#[derive(Clone, Copy, Debug, PartialEq, Eq)]
pub enum SplitAnswer {
    /// The split goes on.
    Going,
    /// The split is done, and the key that asked for room leads to this bucket.
    Closed(PageNo),
    /// The next page is held by this transaction, the lowest whose lock stands against the one asked for. Nothing has
    /// changed.
    Waiting(PageNo, TxId),
    /// There is no room for the page that was to be made (`NoRoom`), or no memory (`OutOfMemory`). The caller rolls back.
    Refused(Refusal),
}

/// A split of a bucket, one page per step. A contract sees its fields.
#[derive(Clone, Copy, Debug)]
pub struct Split {
    /// The pseudokey that asks for room.
    pub(crate) seed: u64,
    pub(crate) old_page: PageNo,
    pub(crate) new_page: PageNo,
    /// How deep the bucket was, 0 to 15.
    pub(crate) depth: u8,
    /// How deep the directory was, 0 to 16.
    pub(crate) directory_depth: u8,
    /// What stays in the old bucket.
    pub(crate) zeros: Bucket,
    /// The header of the doubled directory, as far as its pages are known.
    pub(crate) made: HeadPage,
    /// The second half of the directory page that was rewritten last.
    pub(crate) second: DirPage,
    pub(crate) phase: SplitPhase,
}

impl Model for Split {
    ghost use Rattle.mlt_hash_split.specs.Splits.{SplitFields};

    ghost Value = { SplitFields };

    ghost view = { λ split. record {
      seed = split.seed;
      old_page = split.old_page;
      new_page = split.new_page;
      depth = split.depth;
      directory_depth = split.directory_depth;
      zeros = split.zeros;
      made = split.made;
      second = split.second;
      phase = split.phase;
    } };

    ghost inverse = { λ fields. record {
      seed = fields.seed;
      old_page = fields.old_page;
      new_page = fields.new_page;
      depth = fields.depth;
      directory_depth = fields.directory_depth;
      zeros = fields.zeros;
      made = fields.made;
      second = fields.second;
      phase = fields.phase;
    } };
}

impl Split {
    /// One step: writes the next page, or makes it. `root` is the page of the header. The ghost says what the split is
    /// for, and which transactions are open now.
    pub fn advance(
        &mut self,
        root: PageNo,
        subtx: &mut Subtx,
        pages: &mut LockedStore,
    ) -> SplitAnswer
        ghost target: { SplitTarget }
        requires root { root ≡ target.root }
        requires ready { MayAdvance target (local subtx.old pages.old) self.old }
        ensures leaves { Leaves (local subtx.old pages.old) (local subtx.new pages.new) }
        ensures steps { Touches result target
            (local subtx.old pages.old) (local subtx.new pages.new) self.old }
        ensures no_room { (result ≡ SplitAnswer.Refused Refusal.NoRoom)
            ↔ (IsMaking self.old.phase × HasNoPageLeft pages.old.store) }
        ensures tells { Tells target
            (local subtx.old pages.old) (local subtx.new pages.new) self.old self.new result }
    {
        match self.phase {
            SplitPhase::OldBucket => write_old_bucket(self, subtx, pages),
            SplitPhase::InPlace(place, end) => {
                write_in_place(self, place, end, root, subtx, pages)
            }
            SplitPhase::Double(place) => double_page(self, place, root, subtx, pages),
            SplitPhase::SecondHalf(place) => make_second_half(self, place, subtx, pages),
            SplitPhase::Header => write_header(self, root, subtx, pages),
        }
    }

    /// The bucket that the key leads to, once the split is done.
    pub(crate) fn key_bucket(&self) -> PageNo
        requires { self.now.depth < 64 }
        ensures { result ≡ (if bit_at self.now.depth self.now.seed == 1
            then self.now.new_page else self.now.old_page) }
    {
        if first_bits(self.seed, self.depth + 1) % 2 == 1 {
            self.new_page
        } else {
            self.old_page
        }
    }
}
