//! One place of a bucket.

ghost use Rattle.std.specs.Prelude.{◌≡◌, ◌<◌};
ghost use Rattle.mlt_page.specs.Bits.{bit_at};
ghost use Rattle.mlt_page.specs.Slots.{half, is_ghost_of, is_kept, is_live_of};

use mlt_types::{Key, OpenSet, Pseudo, TxId, Value};

/// One place of a bucket.
#[derive(Clone, Copy, Debug, PartialEq, Eq)]
pub enum Slot {
    /// Nothing.
    Free,
    /// A record: a key and its value.
    Live(Key, Value),
    /// What a removed record leaves, so that its room is kept: its key, its value and the transaction that
    /// removed it.
    Ghost(Key, Value, TxId),
}

impl Slot {
    /// Whether the slot has the record of the key.
    pub fn is_live_of(&self, key: Key) -> bool
        ensures { result ≡ is_live_of key self.now }
    {
        match self {
            Slot::Live(own, _) => *own == key,
            _ => false,
        }
    }

    /// Whether the slot has the ghost that `owner` left of the key.
    pub fn is_ghost_of(&self, key: Key, owner: TxId) -> bool
        ensures { result ≡ is_ghost_of key owner self.now }
    {
        match self {
            Slot::Ghost(own, _, left_by) => *own == key && *left_by == owner,
            _ => false,
        }
    }

    /// Whether the slot's room is taken: by a record, or by a ghost whose owner is open.
    pub fn is_kept(&self, active: &OpenSet) -> bool
        ensures { result ≡ is_kept active.now self.now }
    {
        match self {
            Slot::Free => false,
            Slot::Live(_, _) => true,
            Slot::Ghost(_, _, owner) => active.contains(*owner),
        }
    }

    /// What stands at this place in the two halves of a split by the bit behind the first `place` of
    /// pseudokeys: in the half of the keys with 0 there, and in that of the keys with 1.
    pub(crate) fn halves<P: Pseudo>(&self, place: u8, pseudo: &P, active: &OpenSet) -> (Slot, Slot)
        requires { place < 64 }
        ensures zero { result.0 ≡ half (P.bits_of pseudo.now) active.now place 0 self.now }
        ensures one { result.1 ≡ half (P.bits_of pseudo.now) active.now place 1 self.now }
    {
        match self {
            Slot::Live(key, _) | Slot::Ghost(key, _, _) if self.is_kept(active) => {
                if bit_at(pseudo.bits(key), place) == 0 {
                    (*self, Slot::Free)
                } else {
                    (Slot::Free, *self)
                }
            }
            _ => (Slot::Free, Slot::Free),
        }
    }
}

/// The bit of a pseudokey behind its first `place`.
fn bit_at(bits: u64, place: u8) -> u64
    requires { place < 64 }
    ensures value { result ≡ bit_at place bits }
    ensures bit { result < 2 }
{
    (bits >> (63 - place)) % 2
}
