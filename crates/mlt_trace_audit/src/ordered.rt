//! Outcomes against a history in which transactions begin in order. It goes over the history twice.

ghost use Rattle.std.specs.Prelude.{◌≡◌, ◌≤◌, ◌<◌, ◌-◌, ◌↔◌, IsTrue, IfSome, All, Some, length, replicate, slice_get, slice_index_or};
ghost use Rattle.mlt_trace.specs.Numbers.{begin_count};
ghost use Rattle.mlt_trace_audit.specs.Agreement.{AreOfHistory, NumbersAgree};
ghost use Rattle.mlt_trace_audit.specs.{Ordered.AreOrdered, Ordered.StandsBehind, Outcomes.IsOfHistory, Telling.ArePlacesOf, Telling.IsWholeIn, Telling.nothing_told};

use crate::any::are_of_any;
use crate::numbers::{are_at_most, are_each_once};
use crate::outcome_items::{is_told, tx_of};
use crate::progress::Progress;
use mlt_script_serial::Outcome;
use mlt_trace::{KeptItem, TraceItem};
use std::alloc::Global;

/// Whether the item stands behind so many begins in order.
fn stands_behind(begun: u64, item: &TraceItem) -> bool
    ensures { IsTrue result ↔ StandsBehind begun item.now }
{
    let tx = tx_of(item);
    match item {
        TraceItem::Begin(_) => 0 < tx && tx - 1 == begun,
        _ => 0 < tx && tx <= begun,
    }
}

/// How many transactions begin, if the items are in order.
pub(crate) fn begins_in_order(history: &[KeptItem]) -> Option<usize>
    ensures ordered { IfSome result (λ _. AreOrdered history.now) }
    ensures count { IfSome result (λ begun. begun ≡ begin_count history.now) }
{
    let mut begun = 0;
    for item in history {
        let item = item.get();
        if !stands_behind(begun as u64, &item) {
            return None;
        }
        if let TraceItem::Begin(_) = item {
            begun += 1;
        }
    }
    Some(begun)
}

/// Whether the numbers of the outcomes, but for 0, are those begun, each once. If so, it leaves the place of each one's outcome. No
/// place is set before.
fn numbers_agree(outcomes: &[Outcome], history: &[KeptItem], places: &mut [usize]) -> bool
    requires ordered { AreOrdered history.now }
    requires size { length places.old ≡ begin_count history.now }
    requires none { places.old ≡ replicate (length places.old) 0 }
    ensures size { length places.new ≡ length places.old }
    ensures agree { IsTrue result ↔ NumbersAgree outcomes.now history.now }
    ensures places { IsTrue result → ArePlacesOf places.new outcomes.now }
{
    are_at_most(outcomes, places.len() as u64) && are_each_once(outcomes, places)
}

/// The outcome of the transaction with this number, counted from 0.
fn outcome_at<'a>(outcomes: &'a [Outcome], places: &[usize], number: usize) -> &'a Outcome
    requires places { ArePlacesOf places.now outcomes.now }
    requires within { number < length places.now }
    ensures { slice_get outcomes.now (slice_index_or places.now number 0 - 1) ≡ Some result.now }
{
    &outcomes[places[number] - 1]
}

/// Whether each of the outcomes tells what the history has of its transaction. It reads each item once, and compares it with what
/// the outcome of its transaction tells next.
fn are_told(
    outcomes: &[Outcome],
    history: &[KeptItem],
    places: &[usize],
    told: &mut [Progress],
) -> bool
    requires ordered { AreOrdered history.now }
    requires numbers { NumbersAgree outcomes.now history.now }
    requires places { ArePlacesOf places.now outcomes.now }
    requires size { length places.now ≡ begin_count history.now }
    requires none { told.old ≡ replicate (length places.now) nothing_told }
    ensures { IsTrue result ↔ All (IsOfHistory history.now) outcomes.now }
{
    for item in history {
        let item = item.get();
        if is_told(&item) {
            let number = (tx_of(&item) - 1) as usize;
            let outcome = outcome_at(outcomes, places, number);
            if !told[number].goes_on(outcome, &item) {
                return false;
            }
        }
    }
    are_whole(outcomes, told)
}

/// Whether of each outcome all was told.
fn are_whole(outcomes: &[Outcome], told: &[Progress]) -> bool
    requires { All (λ o. o.tx ≤ length told.now) outcomes.now }
    ensures { IsTrue result ↔ All (IsWholeIn told.now) outcomes.now }
{
    for outcome in outcomes {
        if outcome.tx != 0 && !told[(outcome.tx - 1) as usize].is_whole(outcome) {
            return false;
        }
    }
    true
}

/// Whether the outcomes tell just what the history has of each transaction begun, of which there are so many. It takes 24 bytes
/// for each, and takes longer where these are refused.
pub(crate) fn are_of_ordered(
    alloc: Global,
    outcomes: &[Outcome],
    history: &[KeptItem],
    begun: usize,
) -> bool
    requires ordered { AreOrdered history.now }
    requires count { begun ≡ begin_count history.now }
    ensures { IsTrue result ↔ AreOfHistory outcomes.now history.now }
{
    let Ok(mut places) = vec![in alloc; 0; begun] else {
        return are_of_any(outcomes, history);
    };
    let Ok(mut told) = vec![in alloc; Progress::new(); begun] else {
        return are_of_any(outcomes, history);
    };
    numbers_agree(outcomes, history, &mut places) && are_told(outcomes, history, &places, &mut told)
}
