//! Hints where the entries of transactions stand in a list.

use crate::number::TxId;

/// Where the entries of transactions were put in a list of at most 256, by the last eight bits of their numbers. A place is only
/// a hint, since two transactions may share these bits: whoever looks there checks whose entry it is.
#[derive(Debug, Drop)]
pub struct PlaceHints {
    places: [u8; 256],
}

impl PlaceHints {
    /// Hints at the first place. They take no memory of their own.
    pub fn new() -> PlaceHints {
        PlaceHints { places: [0; 256] }
    }

    /// The place, 0 to 255, at which to look first for the transaction's entry.
    #[inline(always)]
    pub fn of(&self, tx: TxId) -> usize {
        usize::from(self.places[(tx.0 % 256) as usize])
    }

    /// The transaction's entry was put at this place.
    #[inline(always)]
    pub fn note(&mut self, tx: TxId, place: usize) {
        self.places[(tx.0 % 256) as usize] = (place % 256) as u8;
    }
}
