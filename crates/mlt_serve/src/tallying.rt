//! The counts of the outcomes, once all connections are served.

ghost use Rattle.std.specs.Prelude.{◌≡◌, ◌+◌, ◌≤◌, IfErr, IfOk, OnOk, length, false};
ghost use Rattle.mlt_serve_session.specs.Tallies.{commits_told};
ghost use Rattle.mlt_serve.specs.Clients.{AreOfClients};
ghost use Rattle.mlt_serve.specs.Endings.{HasAccepted, IsOfServer, IsRefusedFor};
ghost use Rattle.mlt_serve.specs.Tellings.{HaveBegun, HaveCloses, TellsOutcomes};
ghost use Rattle.mlt_trace_audit.specs.Agreement.{NumbersAgree};

use crate::accepting::Accepting;
use crate::gathering::Gathered;
use mlt_manager::Manager;
use mlt_serve_session::Tally;
use mlt_types::{Pseudo, Refusal};

/// The tally of all sessions, where its counts are those of the manager.
///
/// # Errors
/// As those of `Gathered::served`, and then `Audit`, where not as many transactions were told begun or committed as the manager has, or
/// where one is open.
pub(crate) fn tally_of<P: Pseudo>(
    accepting: Accepting,
    loaded: u32,
    gathered: Gathered<Tally>,
    limit: u64,
    manager: &Manager<P>,
) -> Result<Tally, Refusal>
    requires clients { gathered.is_short ≡ false
        → AreOfClients gathered.last gathered.outcomes.told.items }
    requires told { gathered.is_short ≡ false
        → TellsOutcomes manager.now.shared.history.items gathered.outcomes.told.items }
    requires begun { gathered.is_short ≡ false
        → HaveBegun manager.now.shared.history.items gathered.outcomes.told.items }
    ensures same { IfOk result (λ tally. tally ≡ gathered.outcomes) }
    ensures begun { IfOk result (λ tally. length tally.told.items ≡ manager.now.begun) }
    ensures commits { IfOk result
        (λ tally. commits_told tally.told.items ≡ manager.now.commits) }
    ensures clients { IfOk result
        (λ tally. AreOfClients (loaded + accepting.connections) tally.told.items) }
    ensures told { IfOk result
        (λ tally. TellsOutcomes manager.now.shared.history.items tally.told.items) }
    ensures numbers { IfOk result
        (λ tally. NumbersAgree tally.told.items manager.now.shared.history.items) }
    ensures closes { IfOk result
        (λ tally. HaveCloses manager.now.shared.history.items tally.told.items) }
    ensures ended { IfOk result
        (λ _. HasAccepted limit accepting.connections accepting.end) }
    ensures served { IfOk result
        (λ _. gathered.connections ≡ loaded + accepting.connections) }
    ensures whole { OnOk result (gathered.is_short ≡ false) }
    ensures why { IsRefusedFor accepting.end gathered.is_short result }
    ensures refusal { IfErr result IsOfServer }
{
    let served = gathered.served(accepting, loaded, limit)?;
    if u64::from(gathered.last) > served {
        return Err(Refusal::Audit);
    }
    let tally = gathered.outcomes;
    if !tally.has_counted(manager.begun(), manager.commits()) || manager.open_count() > 0 {
        return Err(Refusal::Audit);
    }
    manager.keeps_its_invariant();
    manager.keeps_its_promises();
    manager.keeps_a_placed_history();
    Ok(tally)
}
