//! What a desk is asked, and what it answers.

use mlt_object_kinds::{ObjOp, ObjReply};
use mlt_types::{Refusal, TxId};

/// What a desk is asked.
#[derive(Clone, Copy, Debug, PartialEq, Eq)]
pub enum DeskCall {
    /// A transaction is to begin.
    Begin,
    /// The transaction's operation.
    Operation(TxId, ObjOp),
    /// The transaction is to commit.
    Commit(TxId),
    /// The transaction is to be taken back.
    Abort(TxId),
}

/// What a desk answers.
#[derive(Clone, Copy, Debug, PartialEq, Eq)]
pub enum DeskAnswer {
    /// The number of the transaction that began.
    Begun(u64),
    /// What the operation was told.
    Replied(ObjReply),
    /// The number of the commit.
    Committed(u64),
    /// The transaction was taken back.
    Aborted,
    /// Why the call was refused.
    Refused(Refusal),
}
