//! What a walk answers.

use mlt_types::{PageNo, Refusal, TxId, Value};

/// The answer to a step of a walk, or to a change that it makes.
#[derive(Clone, Copy, Debug, PartialEq, Eq)]
pub enum WalkAnswer {
    /// The walk goes on.
    Going,
    /// This page is held by this transaction, the lowest whose lock stands against the one asked for. Nothing has
    /// changed.
    Waiting(PageNo, TxId),
    /// The walk is at the key's bucket, and the key has this value there, or none.
    Found(Option<Value>),
    /// The change is written.
    Changed,
    /// The bucket has no room. In a first pass the caller rolls back and goes on with `again`, and in a later one with
    /// `advance`, which splits and puts.
    NeedSplit,
    /// A narrow pass has to be wide: the caller rolls back and goes on with `again`.
    Widen,
    /// There is no room (`NoRoom`) or no memory (`OutOfMemory`). The caller rolls back.
    Refused(Refusal),
}
