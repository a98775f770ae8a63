//! What is copied of a manager at one moment, to make its base of later.

ghost use Rattle.std.specs.Prelude.{◌≡◌, IfOk, IsOkUnless};
ghost use Rattle.mlt_object_kinds.specs.Bases.{Base as ObjectBase};
ghost use Rattle.mlt_manager.specs.Images.{IsImageOf};

use mlt_manager_invariant::copy_slots;
use mlt_object_base::{Base, take_back};
use mlt_object_kinds::Done;
use mlt_page::Slot;
use mlt_types::Refusal;
use std::alloc::Global;
use std::marker::Model;

/// A copy of what the base of a manager is made of, at one moment between two events. To take it costs far less than to make the base,
/// which needs the manager no more.
#[derive(Drop)]
pub struct BaseImage {
    pub(crate) alloc: Global,
    /// The slots of all buckets, on the clean pages.
    pub(crate) slots: Vec<Slot>,
    /// What open transactions did and have not taken back, one transaction after another.
    pub(crate) standing: Vec<Done>,
    pub(crate) commits: u64,
}

impl Model for BaseImage {
    ghost use Rattle.mlt_manager.specs.Images.{AreOfSomeBase, ImageFields};

    ghost Value = { ImageFields };

    ghost view = { λ image. record {
      slots = image.slots.items;
      standing = image.standing.items;
      commits = image.commits;
    } };

    ghost invariant = { λ image. AreOfSomeBase image.slots.items };
}

impl BaseImage {
    /// The base to which the transactions lead that had committed then, run alone in commit order.
    ///
    /// # Errors
    /// `OutOfMemory`, where a growth was refused.
    pub fn base(&self) -> Result<Base, Refusal>
        ensures base { IfOk result
            (λ base. (committed : ObjectBase) → IsImageOf self.now committed → base ≡ committed) }
        ensures refusal { IsOkUnless result Refusal.OutOfMemory }
    {
        let mut base = Base::new(self.alloc);
        copy_slots(&mut base, &self.slots)?;
        take_back(&mut base, &self.standing)?;
        Ok(base)
    }

    /// How many transactions had committed then, 0 to 2^63 - 1.
    pub fn commits(&self) -> u64
        ensures { result ≡ self.now.commits }
    {
        self.commits
    }
}
