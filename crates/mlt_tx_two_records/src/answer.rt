//! What a step of an operation on two records answers.

use mlt_object_kinds::ObjReply;
use mlt_types::{PageNo, Refusal, TxId};

/// The answer to a step of an operation on two records.
#[derive(Clone, Copy, Debug, PartialEq, Eq)]
pub enum TwoRecordAnswer {
    /// It goes on.
    Going,
    /// This page is held by this transaction, the lowest whose lock stands against the one asked for. Nothing has
    /// changed.
    Waiting(PageNo, TxId),
    /// All changes are written, and this is the reply: only the final step is left.
    Told(ObjReply),
    /// There is no room (`NoRoom`) or no memory (`OutOfMemory`). All is rolled back.
    Refused(Refusal),
}
