//! Buckets of eight slots.

ghost use Rattle.std.specs.Prelude.{◌≡◌, ◌+◌, ◌<◌, IfSome, not, map, position, replicate};
ghost use Rattle.mlt_page.specs.Slots.{half, is_ghost_of, is_kept, is_live_of};
ghost use Rattle.mlt_page.specs.Values.{with_slot};
ghost use Rattle.mlt_page.specs.declared.slot.Slot.TheVariants.{Free};

use crate::slot::Slot;
use mlt_types::{Key, OpenSet, Pseudo, TxId};
use std::marker::Model;

/// The slots of a bucket.
pub const SLOTS: usize = 8;

/// A bucket: the pseudokeys of its keys agree in their first `depth` bits.
#[derive(Clone, Copy, Debug, PartialEq, Eq)]
pub struct Bucket {
    /// How many bits its pseudokeys agree in, 0 to 16.
    pub depth: u8,
    /// Its slots, in no order.
    pub slots: [Slot; SLOTS],
}

impl Model for Bucket {
    ghost use Rattle.std.specs.Prelude.{◌≡◌, length};
    ghost use Rattle.mlt_page.specs.Values.{BucketFields};

    ghost Value = { BucketFields };

    ghost view = { λ bucket. record { depth = bucket.depth; slots = bucket.slots } };

    ghost invariant = { λ bucket. length bucket.slots ≡ 8 };

    ghost inverse = { λ fields. record { depth = fields.depth; slots = fields.slots } };
}

impl Bucket {
    /// A bucket with free slots alone.
    pub fn empty(depth: u8) -> Bucket
        ensures depth { result.depth ≡ depth }
        ensures slots { result.slots ≡ replicate 8 Free }
    {
        Bucket {
            depth,
            slots: [Slot::Free; SLOTS],
        }
    }

    /// The first slot with the record of the key, if there is one.
    pub fn find_live(&self, key: Key) -> Option<usize>
        ensures place { result ≡ position (is_live_of key) self.now.slots }
        ensures within { IfSome result (λ at. at < 8) }
    {
        self.slots.iter().position(|slot| slot.is_live_of(key))
    }

    /// The first slot with a ghost that `owner` left of the key, if there is one.
    pub fn find_ghost(&self, key: Key, owner: TxId) -> Option<usize>
        ensures place { result ≡ position (is_ghost_of key owner) self.now.slots }
        ensures within { IfSome result (λ at. at < 8) }
    {
        self.slots
            .iter()
            .position(|slot| slot.is_ghost_of(key, owner))
    }

    /// The lowest slot that a record may be put into: free, or a ghost whose owner is not open.
    pub fn room(&self, active: &OpenSet) -> Option<usize>
        ensures place { result ≡ position (λ slot. not (is_kept active.now slot)) self.now.slots }
        ensures within { IfSome result (λ at. at < 8) }
    {
        self.slots.iter().position(|slot| !slot.is_kept(active))
    }

    /// Sets slot `at`. No other slot changes.
    pub fn set_slot(&mut self, at: usize, slot: Slot)
        requires at { at < 8 }
        ensures set { self.new ≡ with_slot self.old at slot }
    {
        self.slots[at] = slot;
    }

    /// The two halves of a split by the bit behind the first `place` of pseudokeys: of the keys with 0 there,
    /// and of those with 1. Records and ghosts of open owners go to the same place of their half, and all
    /// other slots of both are free.
    pub fn part<P: Pseudo>(&self, place: u8, pseudo: &P, active: &OpenSet) -> (Bucket, Bucket)
        requires { place < 64 }
        ensures zeros { let zero = half (P.bits_of pseudo.now) active.now place 0 in
            result.0 ≡ record { depth = place + 1; slots = map zero self.now.slots } }
        ensures ones { let one = half (P.bits_of pseudo.now) active.now place 1 in
            result.1 ≡ record { depth = place + 1; slots = map one self.now.slots } }
    {
        let mut zeros = [Slot::Free; SLOTS];
        let mut ones = [Slot::Free; SLOTS];
        for at in 0..SLOTS {
            let (zero, one) = self.slots[at].halves(place, pseudo, active);
            zeros[at] = zero;
            ones[at] = one;
        }
        let depth = place + 1;
        (
            Bucket {
                depth,
                slots: zeros,
            },
            Bucket { depth, slots: ones },
        )
    }
}
