//! Outcomes against a history.

ghost use Rattle.std.specs.Prelude.{◌↔◌, IsTrue, OnOk, OnErr, IsOkUnless};
ghost use Rattle.mlt_trace_audit.specs.Agreement.{Agrees, AreOfHistory};

use crate::any::are_of_any;
use crate::ordered::{are_of_ordered, begins_in_order};
use crate::outcome_items::are_refused_without_tx;
use crate::rising::commits_rise;
use mlt_script_serial::Outcome;
use mlt_trace::KeptItem;
use mlt_types::Refusal;
use std::alloc::Global;

/// Whether the outcomes tell just what the history has of each transaction begun. Where transactions begin in order, it
/// goes over the history twice; of any other history, and where memory is refused, once for each outcome.
fn are_of_history(alloc: Global, outcomes: &[Outcome], history: &[KeptItem]) -> bool
    ensures { IsTrue result ↔ AreOfHistory outcomes.now history.now }
{
    match begins_in_order(history) {
        Some(begun) => are_of_ordered(alloc, outcomes, history, begun),
        None => are_of_any(outcomes, history),
    }
}

/// Whether the outcomes are those of the history: each transaction begun has one, which tells its operations
/// and how it was closed; no other outcome but a refused and empty one stands beside them; and the commits of
/// each client rise. It asks nothing of either list. It takes 24 bytes for each transaction begun, and takes longer where these
/// are refused.
///
/// # Errors
/// `Audit`, exactly where they are not.
pub fn audit(alloc: Global, outcomes: &[Outcome], history: &[KeptItem]) -> Result<(), Refusal>
    ensures ok { OnOk result (Agrees outcomes.now history.now) }
    ensures err { OnErr result (Agrees outcomes.now history.now → ⊥) }
    ensures refusal { IsOkUnless result Refusal.Audit }
{
    if are_of_history(alloc, outcomes, history)
        && are_refused_without_tx(outcomes)
        && commits_rise(outcomes)
    {
        Ok(())
    } else {
        Err(Refusal::Audit)
    }
}
