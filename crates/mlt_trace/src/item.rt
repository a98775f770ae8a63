//! Items of a history.

use mlt_object_kinds::Done;
use mlt_types::TxId;
use std::fmt;

/// What happened to a transaction. Operations that were cancelled, refused or blocked leave no item.
#[derive(Clone, Copy, Debug, PartialEq, Eq)]
pub enum TraceItem {
    /// It was begun.
    Begin(TxId),
    /// It did this operation.
    Op(TxId, Done),
    /// The last of its operations that stood was taken back.
    Back(TxId),
    /// It was committed, under this commit number, from 1.
    Commit(TxId, u64),
    /// It was closed by an abort, with no operation left.
    Abort(TxId),
}

impl fmt::Display for TraceItem {
    ghost use Rattle.std.specs.Prelude.{Some};
    ghost use Rattle.mlt_trace.specs.Items.{item_text};

    ghost output = { λ item. Some (item_text item) };

    fn fmt<W: fmt::Write>(&self, f: &mut fmt::Formatter<W>) -> fmt::Result {
        match *self {
            TraceItem::Begin(TxId(tx)) => write!(f, "begin {tx}"),
            TraceItem::Op(TxId(tx), done) => write!(f, "op {tx} {done}"),
            TraceItem::Back(TxId(tx)) => write!(f, "back {tx}"),
            TraceItem::Commit(TxId(tx), number) => write!(f, "commit {tx} {number}"),
            TraceItem::Abort(TxId(tx)) => write!(f, "abort {tx}"),
        }
    }
}
