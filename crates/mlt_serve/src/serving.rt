//! Connections that are accepted and served.

ghost use Rattle.std.specs.Prelude.{◌≡◌, ◌+◌, ◌<◌, ◌≤◌, IfErr, IfOk, IsOkUnless, Some, [], false, length, true};
ghost use Rattle.mlt_manager.specs.Openings.{IsMadeWith};
ghost use Rattle.mlt_work_desk.specs.LogHandles.{id_of};
ghost use Rattle.mlt_work_desk.specs.Makings.{making_by};
ghost use Rattle.mlt_work_desk.specs.Playing.{IsMade};
ghost use Rattle.mlt_work_desk.specs.declared.tries.Tries.TheVariants.{PerOperation};
ghost use Rattle.mlt_trace_audit.specs.Agreement.{Agrees};
ghost use Rattle.mlt_serve.specs.Clients.{AreNumbered, AreOfClients};
ghost use Rattle.mlt_serve.specs.Desks.{AreGiven};
ghost use Rattle.mlt_serve.specs.Endings.{HasAccepted, IsOfServer};
ghost use Rattle.mlt_serve.specs.Loads.{AreHeard, HasLoaded};
ghost use Rattle.mlt_serve.specs.Tellings.{HaveBegun, TellsOutcomes};

use crate::door::Door;
use crate::gathering::{Gathered, gather, new_threads};
use crate::lobby::Lobby;
use crate::operating::{BaseFile, BaseSource, EndSignal, Operating, TraceFile};
use crate::options::ServeOptions;
use crate::reporting::outcomes_of;
use crate::service::Service;
use crate::session_thread::SessionThread;
use crate::threads_beside::Ran;
use mio::{Poll, Registry};
use mlt_manager::Manager;
use mlt_script_serial::{Outcome, Outcomes};
use mlt_serve_connections::{ListenerEnd, Notes, Seats, SpinPolicy, session_queue};
use mlt_serve_session::Receipts;
use mlt_types::{Pseudo, Refusal};
use mlt_work_desk::{BlankRecords, LockedState, MadeWith, Shared};
use std::alloc::Global;
use std::io;
use std::io::Write;
use std::marker::Brand;
use std::net::TcpListener;
use std::sync::Wait;
use std::sync::atomic::{AtomicBool, AtomicU64};
use std::thread::Threads;
use std::time::Clock;

/// What became of the connections.
#[derive(Drop)]
pub struct Served<P: Pseudo, B> {
    /// The base, which was loaded.
    pub base: B,
    /// What clients were told, by client and then by number.
    pub outcomes: Outcomes,
    /// The manager, with the history of all that was done.
    pub manager: Manager<P>,
    /// How many connections were accepted, and served. Those that have loaded the base are not among them.
    pub connections: u64,
    /// How the accepting ended: by the limit, or since the server was to end.
    pub end: ListenerEnd,
    /// Why the trace was not written whole, if so.
    pub trace_failure: Option<io::Error>,
}

/// What became of the connections, before it is looked at whether the manager knows of it.
pub(crate) struct Ended<P: Pseudo, K: Receipts, B> {
    pub(crate) ran: Ran<B>,
    /// What all sessions have done.
    pub(crate) gathered: Gathered<K>,
    /// The manager, with the history of all that was done and not taken out of it.
    pub(crate) manager: Manager<P>,
}

/// The registry of a poll, if there is one.
///
/// # Errors
/// `OutOfMemory`, where the system has no memory or no descriptor for it.
fn registry_of(poll: &Option<Poll>) -> Result<Option<Registry>, Refusal>
    ensures { IsOkUnless result Refusal.OutOfMemory }
{
    match poll {
        Some(poll) => match poll.registry().try_clone() {
            Ok(registry) => Ok(Some(registry)),
            Err(_) => Err(Refusal::OutOfMemory),
        },
        None => Ok(None),
    }
}

/// Loads a base by the loader and serves connections by these threads, on a manager behind this lock. What connections pass through is
/// made here, and is gone at the end.
///
/// # Errors
/// As those of `Service::run`.
fn serve_over<P, L, K, R, N, T, S, F, B>(
    rt: &R,
    alloc: Global,
    shared: &Shared<P, L>,
    listener: &TcpListener,
    options: &ServeOptions,
    operating: Operating<'_, N, T, S, F>,
    base: B,
    loader: SessionThread<P, L, K>,
    threads: &mut [SessionThread<P, L, K>],
    is_endless: bool,
    poll: Option<Poll>,
) -> Result<(Ran<B>, SessionThread<P, L, K>), Refusal>
where
    P: Pseudo + Send,
    L: MadeWith<P> + Send + Sync,
    K: Receipts + Send + Drop,
    R: Threads + Wait + Clock + Sync + Send + Copy + 'static,
    N: Write + Send + Drop + 'static,
    T: TraceFile + Send + Drop + 'static,
    S: EndSignal + Send + Drop,
    F: BaseFile + Send,
    B: BaseSource + Drop,
    requires some { 0 < length threads.old }
    requires loader { K.receipts loader.outcomes ≡ [] }
    requires base { B.given base ≡ [] }
    requires endless { is_endless ≡ true → L.hands_out ≡ true }
    requires tries { PerOperation options.now.tries ≡ L.tries }
    ensures heard { IfOk result
        (λ got. AreHeard 1 (B.given got.0.base) (K.receipts got.1.outcomes)) }
    ensures over { IfOk result (λ got. B.is_over got.0.base ≡ true) }
    ensures count { IfOk result (λ got. got.0.loaded ≡ length (B.given got.0.base)) }
    ensures refusal { IsOkUnless result Refusal.OutOfMemory }
{
    let (notes, outlet) = Notes::new(alloc)?;
    let registry = registry_of(&poll)?;
    let door = Door::new(listener);
    let lobby = Lobby::new(
        alloc,
        registry,
        &door,
        &notes,
        options.idle,
        threads.len() as u64,
    );
    let service = Service {
        shared,
        admission_queue: &session_queue(),
        spin_policy: &SpinPolicy::new(rt),
        options,
        door: &door,
        lobby: if poll.is_some() { Some(&lobby) } else { None },
        seats: &Seats::default(),
        notes: &notes,
        running: &AtomicU64::new(0),
        has_trace: operating.trace.is_some(),
        is_endless,
        is_loading: &AtomicBool::new(true),
        refuses_begins: &AtomicBool::new(false),
    };
    let ran = service.run(rt, alloc, outlet, operating, base, loader, threads, poll);
    let ended_there = lobby.close();
    notes.end(rt);
    let (ran, loader) = ran?;
    Ok((Ran { ended_there, ..ran }, loader))
}

/// Loads a base and serves connections on a new manager, by sessions whose outcomes these receipts take. The history is taken out of it as it goes, or
/// stays in it.
///
/// # Errors
/// `OutOfMemory`, where a growth or a thread was refused, or a base not loaded, before a connection was accepted.
#[tactic(auto, using(crate::proofs::Loading::among))]
pub(crate) fn serve_with<P, L, K, R, N, T, S, F, B>(
    rt: &R,
    alloc: Global,
    records: BlankRecords,
    listener: &TcpListener,
    pseudo: P,
    options: &ServeOptions,
    operating: Operating<'_, N, T, S, F>,
    base: B,
    is_endless: bool,
    poll: Option<Poll>,
) -> Result<Ended<P, K, B>, Refusal>
where
    P: Pseudo + Drop + Send,
    L: MadeWith<P> + Send + Sync,
    K: Receipts + Send + Drop,
    R: Threads + Wait + Clock + Sync + Send + Copy + 'static,
    N: Write + Send + Drop + 'static,
    T: TraceFile + Send + Drop + 'static,
    S: EndSignal + Send + Drop,
    F: BaseFile + Send,
    B: BaseSource + Drop,
    requires base { B.given base ≡ [] }
    requires name { records.blank.name ≡ L.name }
    requires parts { records.blank.parts ≡ L.parts }
    requires log { id_of records.log ≡ L.log_id }
    requires made { Some (making_by options.now.limits pseudo) ≡ L.made_with }
    requires endless { is_endless ≡ true → L.hands_out ≡ true }
    requires tries { PerOperation options.now.tries ≡ L.tries }
    requires all { records.blank.parts ≡ 131 }
    requires some { 0 < options.now.sessions }
    requires most { options.now.sessions ≤ 64 }
    ensures made { IfOk result (λ ended. IsMadeWith ended.manager options.now.limits pseudo) }
    ensures history { L.hands_out ≡ false
        → IfOk result (λ ended. ended.manager.shared.history.handed ≡ []) }
    ensures made_by { IfOk result (λ ended. IsMade ended.manager) }
    ensures events { IfOk result (λ ended. ended.manager.events ≡ ended.gathered.events) }
    ensures clients { IfOk result (λ ended. ended.gathered.is_short ≡ false
        → AreOfClients ended.gathered.last (K.receipts ended.gathered.outcomes)) }
    ensures given { IfOk result (λ ended. ended.gathered.is_short ≡ false
        → AreGiven P.bits_of (PerOperation options.now.tries)
        (K.receipts ended.gathered.outcomes)) }
    ensures told { IfOk result (λ ended. ended.gathered.is_short ≡ false
        → TellsOutcomes ended.manager.shared.history.items
        (K.receipts ended.gathered.outcomes)) }
    ensures begun { IfOk result (λ ended. ended.gathered.is_short ≡ false
        → HaveBegun ended.manager.shared.history.items
        (K.receipts ended.gathered.outcomes)) }
    ensures loaded { IfOk result (λ ended. ended.gathered.is_short ≡ false
        → HasLoaded (B.given ended.ran.base) (K.receipts ended.gathered.outcomes)) }
    ensures over { IfOk result (λ ended. B.is_over ended.ran.base ≡ true) }
    ensures count { IfOk result (λ ended. ended.ran.loaded ≡ length (B.given ended.ran.base)) }
    ensures refusal { IsOkUnless result Refusal.OutOfMemory }
{
    let BlankRecords {
        blank,
        log,
        mut writer,
    } = records;
    let (book, mut all) = blank.open::<L>();
    let mut threads = new_threads(alloc, &mut all, &log, &mut writer, options.sessions)?;
    let loader = SessionThread::new(alloc, &mut all, &log, &mut writer);
    let state = LockedState::new(alloc, options.limits, pseudo, book, writer)?;
    let shared = Shared::new(log, state);
    let ran = serve_over(
        rt,
        alloc,
        &shared,
        listener,
        options,
        operating,
        base,
        loader,
        threads.as_mut_slice(),
        is_endless,
        poll,
    );
    match ran {
        Ok((ran, loader)) => {
            let mut desks = shared.unlock();
            let mut gathered = gather(alloc, &mut all, loader, threads, &mut desks);
            gathered.connections = gathered.connections.saturating_add(ran.ended_there);
            let manager = desks.close(&mut all);
            Ok(Ended {
                ran,
                gathered,
                manager,
            })
        }
        Err(refusal) => {
            shared.unlock().into_manager().close();
            Err(refusal)
        }
    }
}

/// Loads a base into a new manager, and then serves connections on it, with these options: accepts as many as they say, or fewer where the server is to end before,
/// and hands them to the session threads by a bounded channel. Each piece of the base is a connection too. Connections have the numbers
/// 1, 2, 3, first those of the base and then others in the order in which they are accepted, and 1 again after 4,294,967,295; each is
/// served by one session, whose transactions have that number as their client. An
/// operation that waits or is blocked gets `GaveUp` once its tries are used up, or it has waited for too long. The outcomes stand by
/// client and then by number.
///
/// A connection that gives no line to answer, or takes nothing that is written, for the idle time, if there is one, ends as by a
/// fault of it. An operation that waits is not idle. Where a session ends by a fault of its connection or by a line that is too
/// long, the others go on. One whose client leaves before it is served, or that is not served yet as the server is to end, is closed,
/// and counts as served. After a session at most a second is spent on reading away what its client still sends.
///
/// Once no more connections are accepted the listener is shut down, so that clients are refused. Where the server is to end, sessions
/// hear nothing more: they answer what has come, and those that are not done after some seconds are cut. What else happens is
/// written as log messages. The trace, if there is a file for it, is written as the server goes, and whole at any end.
///
/// # Errors
/// `Io`, where an accept failed by the listener; others are tried again. `OutOfMemory`, where a growth or a thread
/// was refused, in a session too, or the base was not loaded. Either ends the accepting, and the connections that were taken are served. `Audit`, where
/// neither came, and the outcomes do not agree with the manager's history or not all connections were served. All threads are
/// joined but those that write notes and the trace: they are waited for 5 seconds at most, and have nothing of the others.
#[tactic(auto, using(crate::proofs::Loading::reordered, crate::proofs::Receiving::reordered_given))]
pub fn serve_on<P: Pseudo + Drop + Send, R, N, T, S, F, B>(
    rt: &R,
    alloc: Global,
    listener: &TcpListener,
    pseudo: P,
    options: &ServeOptions,
    operating: Operating<'_, N, T, S, F>,
    base: B,
) -> Result<Served<P, B>, Refusal>
where
    R: Threads + Wait + Clock + Sync + Send + Copy + 'static,
    N: Write + Send + Drop + 'static,
    T: TraceFile + Send + Drop + 'static,
    S: EndSignal + Send + Drop,
    F: BaseFile + Send,
    B: BaseSource + Drop,
    requires some { 0 < options.now.sessions }
    requires most { options.now.sessions ≤ 64 }
    requires base { B.given base ≡ [] }
    // the manager has these limits and this function from keys to pseudokeys
    ensures made { IfOk result (λ got. IsMadeWith got.manager options.now.limits pseudo) }
    // all of its history is there
    ensures history { IfOk result (λ got. got.manager.shared.history.handed ≡ []) }
    // events have made it from a new one
    ensures made_by { IfOk result (λ got. IsMade got.manager) }
    // what clients were told is what the manager has done
    ensures outcomes { IfOk result
        (λ got. Agrees got.outcomes got.manager.shared.history.items) }
    // each was told at a desk with the tries of the options for each operation
    ensures given { IfOk result
        (λ got. AreGiven P.bits_of (PerOperation options.now.tries) got.outcomes) }
    // each outcome is that of a connection, one for each piece of the base or one that was accepted
    ensures clients { IfOk result
        (λ got. AreOfClients (length (B.given got.base) + got.connections) got.outcomes) }
    // those accepted are no more than the options say, and as many where the accepting ended by that
    ensures ended { IfOk result
        (λ got. HasAccepted options.now.connections got.connections got.end) }
    // they stand by client, and those of each client have the numbers 1, 2, 3 and so on
    ensures order { IfOk result (λ got. AreNumbered 0 0 got.outcomes) }
    // connections 1, 2, 3 and so on heard all lines of one piece of the base each and were told just its answers, and their outcomes are
    // among these
    ensures loaded { IfOk result (λ got. HasLoaded (B.given got.base) got.outcomes) }
    // no more pieces follow
    ensures over { IfOk result (λ got. B.is_over got.base ≡ true) }
    ensures refusal { IfErr result IsOfServer }
{
    let Ended {
        ran,
        gathered,
        manager,
    } = serve_with::<P, Brand, Vec<Outcome>, R, N, T, S, F, B>(
        rt,
        alloc,
        BlankRecords::new(alloc, 131)?,
        listener,
        pseudo,
        options,
        operating,
        base,
        false,
        None,
    )?;
    match outcomes_of(
        alloc,
        ran.accepting,
        ran.loaded,
        gathered,
        options.connections,
        &manager,
    ) {
        Ok(outcomes) => Ok(Served {
            base: ran.base,
            outcomes,
            manager,
            connections: ran.accepting.connections,
            end: ran.accepting.end,
            trace_failure: ran.trace_failure,
        }),
        Err(refusal) => {
            manager.close();
            Err(refusal)
        }
    }
}
