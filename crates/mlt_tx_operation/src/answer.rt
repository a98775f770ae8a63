//! What a step of an operation answers.

use mlt_types::{PageNo, Refusal, TxId};

/// The answer to a step of an operation, up to its last one before the end.
#[derive(Clone, Copy, Debug, PartialEq, Eq)]
pub enum StepAnswer {
    /// It goes on.
    Going,
    /// This page is held by this transaction, the lowest whose lock stands against the one asked for. Nothing has
    /// changed.
    Waiting(PageNo, TxId),
    /// There is no room (`NoRoom`) or no memory (`OutOfMemory`). All is rolled back.
    Refused(Refusal),
}
