//! Events.

use mlt_object_kinds::ObjOp;
use mlt_types::TxId;

/// One event of a manager: what is asked of it at one time.
#[derive(Clone, Copy, Debug, PartialEq, Eq)]
pub enum Event {
    /// A transaction begins, under the next number.
    Begin,
    /// The transaction is called with an operation, which is pending from then on.
    Call(TxId, ObjOp),
    /// One step of the pending operation of the transaction, or of its abort.
    Step(TxId),
    /// The pending operation of the transaction is dropped.
    Cancel(TxId),
    /// The transaction commits.
    Commit(TxId),
    /// The abort of the transaction begins.
    Abort(TxId),
    /// A call, and its steps up to the end.
    Whole(TxId, ObjOp),
    /// The steps of an abort, up to its end.
    WholeUndo(TxId),
}
