//! What a session notes.

ghost use Rattle.std.specs.Prelude.{◌<◌};
ghost use Rattle.std.specs.Option.{ForSome};

use crate::receipts::Receipts;
use mlt_object_kinds::Done;
use mlt_types::TxId;
use std::alloc::Global;

/// How far a session is.
#[derive(Clone, Copy)]
pub struct SessionProgress {
    /// The transaction that is open.
    pub tx: Option<TxId>,
    /// How many lines were answered.
    pub lines: u64,
    /// How many commits the desk answered.
    pub commits: u64,
    /// How many transactions were begun.
    pub begun: u64,
    /// Whether a line ended the session.
    pub over: bool,
    /// Whether a line was too long.
    pub long: bool,
}

/// How far a session is, and its outcomes. While a transaction is open its outcome is not among them yet,
/// but there is room for it.
#[derive(Drop)]
pub struct SessionRecord<K: Receipts> {
    /// How far it is.
    pub progress: SessionProgress,
    /// What was done in the transaction that is open, in order.
    pub done: Vec<Done>,
    /// Where the outcomes of the transactions that ended are.
    pub outcomes: K,
    pub alloc: Global,
    ghost room: { ForSome progress.tx (λ _. 0 < K.room outcomes) },
}
