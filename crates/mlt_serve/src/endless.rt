//! Connections without end, of which nothing is kept.

ghost use Rattle.std.specs.Prelude.{◌≡◌, ◌+◌, ◌<◌, ◌≤◌, [], IfErr, IfOk, length, true};
ghost use Rattle.mlt_manager.specs.Openings.{IsMadeWith};
ghost use Rattle.mlt_serve_session.specs.Tallies.{commits_told};
ghost use Rattle.mlt_serve.specs.Clients.{AreOfClients};
ghost use Rattle.mlt_serve.specs.Desks.{AreGiven};
ghost use Rattle.mlt_serve.specs.Endings.{HasAccepted, IsOfServer};
ghost use Rattle.mlt_serve.specs.Loads.{HasLoaded};
ghost use Rattle.mlt_serve.specs.Tellings.{HaveCloses, TellsOutcomes};
ghost use Rattle.mlt_trace_audit.specs.Agreement.{NumbersAgree};
ghost use Rattle.mlt_work_desk.specs.Playing.{IsMade};
ghost use Rattle.mlt_work_desk.specs.declared.tries.Tries.TheVariants.{PerOperation};

use crate::operating::{BaseFile, BaseSource, EndSignal, Operating, TraceFile};
use crate::options::ServeOptions;
use crate::serving::{Ended, serve_with};
use crate::tallying::tally_of;
use mio::Poll;
use mlt_manager::Manager;
use mlt_serve_connections::ListenerEnd;
use mlt_serve_session::Tally;
use mlt_types::{Pseudo, Refusal};
use mlt_work_desk::BlankRecords;
use std::alloc::Global;
use std::io;
use std::io::Write;
use std::marker::Brand;
use std::net::TcpListener;
use std::sync::Wait;
use std::thread::Threads;
use std::time::Clock;

/// What became of the connections, of which the outcomes were counted and not kept.
#[derive(Drop)]
pub struct ServedEndless<P: Pseudo, B> {
    /// The base, which was loaded.
    pub base: B,
    /// How many transactions clients were told begun, and committed.
    pub tally: Tally,
    /// The manager. What it did was taken out of it.
    pub manager: Manager<P>,
    /// How many connections were accepted, and served. Those that have loaded the base are not among them.
    pub connections: u64,
    /// How the accepting ended: by the limit, or since the server was to end.
    pub end: ListenerEnd,
    /// Why the trace was not written whole, if so.
    pub trace_failure: Option<io::Error>,
}

/// Serves connections as `serve_on` does, but a connection may have several sessions, one after the other. It keeps neither what clients
/// were told nor what the manager did: each outcome is counted as it comes, and the history is taken out of the manager four times a
/// second, or sooner where much is there, and is written into the trace, if there is a file for it, and then dropped. So of all that was
/// done the server holds the objects alone; the record of a counter, and of the size of a set, stays once it was made.
///
/// At the end as many transactions were told begun as the manager has begun, and as many told committed as it has committed, and none is
/// open. So the manager's history, which clauses know whole, has one outcome for each transaction that it has begun: the operations of the
/// outcome with their replies, in order, and its commit, or its abort. The outcomes of the tally are those of all sessions, as clauses see
/// them.
///
/// # Errors
/// `Io` and `OutOfMemory`, as `serve_on`. `Audit`, where neither came, and the counts are not those of the manager, a transaction is
/// open, or not all connections were served.
pub fn serve_endless<P: Pseudo + Drop + Send, R, N, T, S, F, B>(
    rt: &R,
    alloc: Global,
    listener: &TcpListener,
    pseudo: P,
    options: &ServeOptions,
    operating: Operating<'_, N, T, S, F>,
    base: B,
    poll: Poll,
) -> Result<ServedEndless<P, B>, Refusal>
where
    R: Threads + Wait + Clock + Sync + Send + Copy + 'static,
    N: Write + Send + Drop + 'static,
    T: TraceFile + Send + Drop + 'static,
    S: EndSignal + Send + Drop,
    F: BaseFile + Send,
    B: BaseSource + Drop,
    requires some { 0 < options.now.sessions }
    requires most { options.now.sessions ≤ 64 }
    requires base { B.given base ≡ [] }
    // the manager has these limits and this function from keys to pseudokeys
    ensures made { IfOk result (λ got. IsMadeWith got.manager options.now.limits pseudo) }
    // events have made it from a new one
    ensures made_by { IfOk result (λ got. IsMade got.manager) }
    // as many transactions were told begun as the manager has begun
    ensures begun { IfOk result
        (λ got. length got.tally.told.items ≡ got.manager.begun) }
    // as many were told committed as it has committed
    ensures commits { IfOk result
        (λ got. commits_told got.tally.told.items ≡ got.manager.commits) }
    // the history of the manager tells all that is in an outcome: that the transaction has begun, its operations with their
    // replies, in order, and its commit
    ensures told { IfOk result
        (λ got. TellsOutcomes got.manager.shared.history.items got.tally.told.items) }
    // each was told at a desk with the tries of the options for each operation
    ensures given { IfOk result
        (λ got. AreGiven P.bits_of (PerOperation options.now.tries) got.tally.told.items) }
    // no two outcomes are of one transaction, and each that was begun has one
    ensures numbers { IfOk result
        (λ got. NumbersAgree got.tally.told.items got.manager.shared.history.items) }
    // the history has the commit of an outcome, or else its abort
    ensures closes { IfOk result
        (λ got. HaveCloses got.manager.shared.history.items got.tally.told.items) }
    // each outcome was that of a connection, one for each piece of the base or one that was accepted
    ensures clients { IfOk result (λ got. AreOfClients
        (length (B.given got.base) + got.connections) got.tally.told.items) }
    // those accepted are no more than the options say, and as many where the accepting ended by that
    ensures ended { IfOk result
        (λ got. HasAccepted options.now.connections got.connections got.end) }
    // connections 1, 2, 3 and so on heard all lines of one piece of the base each and were told just its answers, and their outcomes are
    // among these
    ensures loaded { IfOk result (λ got. HasLoaded (B.given got.base) got.tally.told.items) }
    // no more pieces follow
    ensures over { IfOk result (λ got. B.is_over got.base ≡ true) }
    ensures refusal { IfErr result IsOfServer }
{
    let Ended {
        ran,
        gathered,
        manager,
    } = serve_with::<P, Brand, Tally, R, N, T, S, F, B>(
        rt,
        alloc,
        BlankRecords::new(alloc, 131)?,
        listener,
        pseudo,
        options,
        operating,
        base,
        true,
        Some(poll),
    )?;
    match tally_of(
        ran.accepting,
        ran.loaded,
        gathered,
        options.connections,
        &manager,
    ) {
        Ok(tally) => Ok(ServedEndless {
            base: ran.base,
            tally,
            manager,
            connections: ran.accepting.connections,
            end: ran.accepting.end,
            trace_failure: ran.trace_failure,
        }),
        Err(refusal) => {
            manager.close();
            Err(refusal)
        }
    }
}
