//! The outcomes, once all connections are served.

ghost use Rattle.std.specs.Prelude.{◌≡◌, ◌+◌, ◌≤◌, ◌↔◌, IfErr, IfOk, IsPermutation, IsTrue, OnOk, [], false};
ghost use Rattle.mlt_trace_audit.specs.Agreement.{Agrees};
ghost use Rattle.mlt_serve.specs.Clients.{AreByClientAndNumber, AreNumbered, AreOfClients, ComesNext, IsOfClient};
ghost use Rattle.mlt_serve.specs.Endings.{HasAccepted, IsOfServer, IsRefusedFor};

use crate::accepting::Accepting;
use crate::gathering::Gathered;
use mlt_manager::Manager;
use mlt_script_serial::{Outcome, Outcomes};
use mlt_trace_audit::audit;
use mlt_types::{Pseudo, Refusal};
use std::alloc::Global;

/// Whether the outcome is that of a connection up to the limit, and comes next after one of this client and number.
fn comes_next(outcome: &Outcome, limit: u64, client: u32, number: u64) -> bool
    ensures { IsTrue result
        ↔ IsOfClient limit outcome.now × ComesNext client number outcome.now }
{
    if outcome.client < 1 || limit < u64::from(outcome.client) || outcome.client < client {
        return false;
    }
    if outcome.client == client {
        number < outcome.number && outcome.number - number == 1
    } else {
        outcome.number == 1
    }
}

/// Whether each outcome is that of a connection up to the limit, and those of each have the numbers 1, 2, 3 and so on, in order.
fn are_numbered(outcomes: &[Outcome], limit: u64) -> bool
    ensures { IsTrue result ↔ AreOfClients limit outcomes.now × AreNumbered 0 0 outcomes.now }
{
    let mut client = 0;
    let mut number = 0;
    for outcome in outcomes {
        if !comes_next(outcome, limit, client, number) {
            return false;
        }
        client = outcome.client;
        number = outcome.number;
    }
    true
}

/// The outcomes by client, and those of a client by number.
fn in_order(outcomes: Vec<Outcome>) -> Vec<Outcome>
    ensures same { IsPermutation outcomes.items result.items }
    ensures order { AreByClientAndNumber result.items }
{
    let mut outcomes = outcomes;
    outcomes.sort_unstable_by_key(|outcome| (outcome.client, outcome.number));
    outcomes
}

/// The outcomes of all sessions, by client and then by number, where they agree with the manager's history.
///
/// # Errors
/// As those of `Gathered::served`, and then `Audit`, where the outcomes are not those of the history, or not numbered 1, 2, 3 for
/// each client.
pub(crate) fn outcomes_of<P: Pseudo>(
    alloc: Global,
    accepting: Accepting,
    loaded: u32,
    gathered: Gathered<Vec<Outcome>>,
    limit: u64,
    manager: &Manager<P>,
) -> Result<Outcomes, Refusal>
    requires { manager.now.shared.history.handed ≡ [] }
    ensures same { IfOk result (λ outcomes. IsPermutation gathered.outcomes.items outcomes) }
    ensures agrees { IfOk result (λ outcomes. Agrees outcomes manager.now.shared.history.items) }
    ensures clients { IfOk result
        (λ outcomes. AreOfClients (loaded + accepting.connections) outcomes) }
    ensures order { IfOk result (λ outcomes. AreNumbered 0 0 outcomes) }
    ensures ended { IfOk result
        (λ _. HasAccepted limit accepting.connections accepting.end) }
    ensures served { IfOk result
        (λ _. gathered.connections ≡ loaded + accepting.connections) }
    ensures whole { OnOk result (gathered.is_short ≡ false) }
    ensures why { IsRefusedFor accepting.end gathered.is_short result }
    ensures refusal { IfErr result IsOfServer }
{
    let served = gathered.served(accepting, loaded, limit)?;
    let outcomes = in_order(gathered.outcomes);
    if !are_numbered(outcomes.as_slice(), served) {
        return Err(Refusal::Audit);
    }
    let Some(history) = manager.history() else {
        unreachable!()
    };
    audit(alloc, outcomes.as_slice(), history)?;
    Ok(Outcomes::of(outcomes))
}
