//! What a plan is made of.

use mlt_page::Slot;
use mlt_types::PageNo;
use std::marker::Model;

/// A slot of a bucket that is to be set. A plan for one key has at most one.
#[derive(Clone, Copy, Debug, PartialEq, Eq)]
pub struct SlotWrite {
    /// The number of the bucket's page.
    pub number: PageNo,
    /// Which slot it is, 0 to 7.
    pub at: usize,
    /// What the slot is to be.
    pub slot: Slot,
}

impl Model for SlotWrite {
    ghost use Rattle.mlt_hash_form.specs.Plans.{WriteFields};

    ghost Value = { WriteFields };

    ghost view = { λ write. record { number = write.number; at = write.at; slot = write.slot } };

    ghost inverse = { λ fields.
        record { number = fields.number; at = fields.at; slot = fields.slot } };
}
