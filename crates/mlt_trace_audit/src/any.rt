//! Outcomes against any history. It goes over all of it for each outcome.

ghost use Rattle.std.specs.Prelude.{◌≡◌, ◌↔◌, ℕ, IsTrue, All, Contains};
ghost use Rattle.mlt_trace.specs.Numbers.{begun_txs};
ghost use Rattle.mlt_trace_audit.specs.Agreement.{AreOfHistory, IsOfBegunTx, IsOnce, NumbersAgree, count_of};
ghost use Rattle.mlt_trace_audit.specs.Outcomes.{IsOfHistory};

use crate::outcome_items::tx_of;
use crate::progress::Progress;
use mlt_script_serial::Outcome;
use mlt_trace::{KeptItem, TraceItem};

fn is_begun(tx: u64, history: &[KeptItem]) -> bool
    ensures { IsTrue result ↔ Contains (begun_txs history.now) tx }
{
    for item in history {
        let item = item.get();
        if let TraceItem::Begin(own) = item {
            if own.0 == tx {
                return true;
            }
        }
    }
    false
}

fn may_have_tx(outcome: &Outcome, history: &[KeptItem]) -> bool
    ensures { IsTrue result ↔ IsOfBegunTx history.now outcome.now }
{
    outcome.tx == 0 || is_begun(outcome.tx, history)
}

/// Whether the numbers of the outcomes, but for 0, are begun.
fn are_begun(outcomes: &[Outcome], history: &[KeptItem]) -> bool
    ensures { IsTrue result ↔ All (IsOfBegunTx history.now) outcomes.now }
{
    outcomes.iter().all(|outcome| may_have_tx(outcome, history))
}

/// How many of the outcomes have this number.
fn count_of(tx: u64, outcomes: &[Outcome]) -> usize
    ensures { result ≡ count_of tx outcomes.now }
{
    outcomes.iter().filter(|outcome| outcome.tx == tx).count()
}

fn is_once(tx: u64, outcomes: &[Outcome]) -> bool
    ensures { IsTrue result ↔ IsOnce outcomes.now tx }
{
    tx != 0 && count_of(tx, outcomes) == 1
}

/// Whether each number begun stands in one of the outcomes.
fn are_once(outcomes: &[Outcome], history: &[KeptItem]) -> bool
    ensures { IsTrue result
        ↔ ((tx : ℕ) → Contains (begun_txs history.now) tx → IsOnce outcomes.now tx) }
{
    for item in history {
        let item = item.get();
        if let TraceItem::Begin(tx) = item {
            if !is_once(tx.0, outcomes) {
                return false;
            }
        }
    }
    true
}

/// Whether the outcome tells what the history has of its transaction.
fn is_of_history(outcome: &Outcome, history: &[KeptItem]) -> bool
    ensures { IsTrue result ↔ IsOfHistory history.now outcome.now }
{
    if outcome.tx == 0 {
        return true;
    }
    let mut progress = Progress::new();
    for item in history {
        let item = item.get();
        if tx_of(&item) == outcome.tx && !progress.goes_on(outcome, &item) {
            return false;
        }
    }
    progress.is_whole(outcome)
}

/// Whether each of the outcomes tells what the history has of its transaction.
fn are_each_of_history(outcomes: &[Outcome], history: &[KeptItem]) -> bool
    ensures { IsTrue result ↔ All (IsOfHistory history.now) outcomes.now }
{
    outcomes
        .iter()
        .all(|outcome| is_of_history(outcome, history))
}

/// Whether the numbers of the outcomes, but for 0, are those begun, each once.
pub(crate) fn numbers_agree(outcomes: &[Outcome], history: &[KeptItem]) -> bool
    ensures { IsTrue result ↔ NumbersAgree outcomes.now history.now }
{
    are_begun(outcomes, history) && are_once(outcomes, history)
}

/// Whether the outcomes tell just what the history has of each transaction begun.
pub(crate) fn are_of_any(outcomes: &[Outcome], history: &[KeptItem]) -> bool
    ensures { IsTrue result ↔ AreOfHistory outcomes.now history.now }
{
    numbers_agree(outcomes, history) && are_each_of_history(outcomes, history)
}
