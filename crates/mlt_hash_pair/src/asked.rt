//! What is asked of the records of two keys.

use mlt_types::Value;

/// A change of a key's record in its bucket.
#[derive(Clone, Copy, Debug, PartialEq, Eq)]
pub enum RecordChange {
    /// The key, which has no record, gets one of this value: in the place of the first ghost of the key that the
    /// transaction left, else in the lowest slot with room.
    Insert(Value),
    /// The record gets this value.
    Update(Value),
    /// The record becomes a ghost of the transaction.
    Remove,
}

/// At most one change for each key.
#[derive(Clone, Copy, Debug, PartialEq, Eq)]
pub struct PairChanges {
    /// The change of the left key's record.
    pub left: Option<RecordChange>,
    /// The change of the right key's record.
    pub right: Option<RecordChange>,
}
