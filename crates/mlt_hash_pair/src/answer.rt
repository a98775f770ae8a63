//! What a pair answers.

use mlt_types::{PageNo, TxId, Value};

/// The answer to a step of a pair on its way to its buckets.
#[derive(Clone, Copy, Debug, PartialEq, Eq)]
pub enum PairAnswer {
    /// The pair goes on.
    Going,
    /// This page is held by this transaction, the lowest whose lock stands against the one asked for. Nothing has
    /// changed.
    Waiting(PageNo, TxId),
    /// Both buckets are read: the value of the left key, and of the right one, each if it has one.
    Found(Option<Value>, Option<Value>),
}

/// One of the two keys.
#[derive(Clone, Copy, Debug, PartialEq, Eq)]
pub enum Side {
    Left,
    Right,
}

/// The answer to the changes of a pair.
#[derive(Clone, Copy, Debug, PartialEq, Eq)]
pub enum ChangeAnswer {
    /// All that was asked for is written.
    Changed,
    /// What was asked for of the later bucket is written. The change of the earlier one is to be written in a step of its
    /// own, by `write_earlier`.
    OneLeft,
    /// The bucket of this key has no room for its record. Nothing is written.
    Full(Side),
}
