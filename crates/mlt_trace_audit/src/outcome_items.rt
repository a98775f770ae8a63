//! Items of transactions, and outcomes without a transaction.

ghost use Rattle.std.specs.Prelude.{◌≡◌, ◌↔◌, IsTrue, All};
ghost use Rattle.mlt_trace_audit.specs.Ordered.{is_told, tx_of};
ghost use Rattle.mlt_trace_audit.specs.Outcomes.{IsRefusedEmpty, IsWithoutTx};

use mlt_script_serial::{End, Outcome};
use mlt_trace::TraceItem;

/// The transaction of which the item is.
pub(crate) fn tx_of(item: &TraceItem) -> u64
    ensures { result ≡ tx_of item.now }
{
    match item {
        TraceItem::Begin(tx) => tx.0,
        TraceItem::Op(tx, _) => tx.0,
        TraceItem::Back(tx) => tx.0,
        TraceItem::Commit(tx, _) => tx.0,
        TraceItem::Abort(tx) => tx.0,
    }
}

/// Whether outcomes tell of the item: it is an operation, or a close.
pub(crate) fn is_told(item: &TraceItem) -> bool
    ensures { result ≡ is_told item.now }
{
    match item {
        TraceItem::Op(_, _) | TraceItem::Commit(_, _) | TraceItem::Abort(_) => true,
        TraceItem::Begin(_) | TraceItem::Back(_) => false,
    }
}

fn is_refused_empty(outcome: &Outcome) -> bool
    ensures { IsTrue result ↔ IsRefusedEmpty outcome.now }
{
    match outcome.end {
        End::Refused(_) => outcome.done.as_slice().is_empty(),
        _ => false,
    }
}

fn may_be_without_tx(outcome: &Outcome) -> bool
    ensures { IsTrue result ↔ IsWithoutTx outcome.now }
{
    outcome.tx != 0 || is_refused_empty(outcome)
}

/// Whether the outcomes without a transaction are refused and empty.
pub(crate) fn are_refused_without_tx(outcomes: &[Outcome]) -> bool
    ensures { IsTrue result ↔ All IsWithoutTx outcomes.now }
{
    outcomes.iter().all(|outcome| may_be_without_tx(outcome))
}
