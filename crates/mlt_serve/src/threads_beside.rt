//! The threads of a server: those of sessions, the one that accepts, and those beside them for notes, for the trace, for the operator, and
//! one that looks after all sessions.

ghost use Rattle.std.specs.Prelude.{◌≡◌, ◌<◌, [], IfOk, IfSome, IsOkUnless, length, true};
ghost use Rattle.mlt_serve.specs.Loads.{AreHeard};

use crate::accepting::{Accepting, Connection, Destination, accept_all};
use crate::ending::DoneSignal;
use crate::lobby::LobbyKeeper;
use crate::operating::{BaseFile, BaseSource, EndSignal, Operating, TraceFile};
use crate::operator::Operator;
use crate::service::Service;
use crate::session_thread::SessionThread;
use crate::supervising::supervise;
use crate::trace_keeping::TraceKeeper;
use crossbeam_channel::Receiver;
use mio::Poll;
use mlt_serve_connections::{Outlet, write_notes};
use mlt_serve_session::Receipts;
use mlt_types::{Pseudo, Refusal};
use mlt_work_desk::MadeWith;
use std::alloc::{AllocError, Global};
use std::io::Write;
use std::sync::atomic::Ordering;
use std::sync::{Mutex, Wait};
use std::thread::{Scope, Threads};
use std::time::Clock;
use std::{io, thread};

/// What became of the base, of the connections, and of the trace.
#[derive(Drop)]
pub(crate) struct Ran<B> {
    /// The base, which was loaded.
    pub(crate) base: B,
    /// How many connections have loaded it.
    pub(crate) loaded: u32,
    pub(crate) accepting: Accepting,
    /// How many connections have ended in the lobby.
    pub(crate) ended_there: u64,
    /// Why the trace was not written whole, if so.
    pub(crate) trace_failure: Option<io::Error>,
}

/// Starts the thread that writes notes, behind what is unsaid. No thread joins it: if the reader of the notes has stopped, it stays in
/// its write. It has all that it needs.
///
/// # Errors
/// Where the thread is refused.
fn start_to_write<R, N>(
    rt: &R,
    alloc: Global,
    outlet: Outlet,
    unsaid: String,
    mut writer: N,
) -> Result<(), AllocError>
where
    R: Threads + Wait + Clock + Sync + Send + Copy + 'static,
    N: Write + Send + Drop + 'static,
{
    let own = *rt;
    let write = move || write_notes(&own, alloc, &outlet, unsaid.as_str(), &mut writer);
    thread::spawn(rt, write)?;
    Ok(())
}

impl<'a, P: Pseudo + Send, L: MadeWith<P> + Send + Sync> Service<'a, P, L> {
    /// Loads a base by the loader, and serves connections: accepts them in one thread and serves them in others, or in this one where they
    /// are refused. Meanwhile others write notes and the trace, keep the trace or take the history out of the manager, look after the
    /// sessions, and answer the operator. All are joined but the two that write.
    ///
    /// # Errors
    /// `OutOfMemory`, where the base is not loaded, or memory or one of the threads is refused that neither serve connections nor are the
    /// second for the operator. Nothing is accepted then.
    pub(crate) fn run<
        K: Receipts + Send + Drop,
        R: Threads + Wait + Clock + Sync + Send + Copy + 'static,
        N: Write + Send + Drop + 'static,
        T: TraceFile + Send + Drop + 'static,
        S: EndSignal + Send + Drop,
        F: BaseFile + Send,
        B: BaseSource + Drop,
    >(
        &self,
        rt: &R,
        alloc: Global,
        outlet: Outlet,
        operating: Operating<'_, N, T, S, F>,
        base: B,
        loader: SessionThread<P, L, K>,
        threads: &mut [SessionThread<P, L, K>],
        poll: Option<Poll>,
    ) -> Result<(Ran<B>, SessionThread<P, L, K>), Refusal>
        requires some { 0 < length threads.old }
        requires loader { K.receipts loader.outcomes ≡ [] }
        requires base { B.given base ≡ [] }
        ensures heard { IfOk result
            (λ got. AreHeard 1 (B.given got.0.base) (K.receipts got.1.outcomes)) }
        ensures over { IfOk result (λ got. B.is_over got.0.base ≡ true) }
        ensures count { IfOk result (λ got. got.0.loaded ≡ length (B.given got.0.base)) }
        ensures refusal { IsOkUnless result Refusal.OutOfMemory }
    {
        let Operating {
            notes,
            unsaid,
            trace,
            signal,
            admin,
            save,
        } = operating;
        start_to_write(rt, alloc, outlet, unsaid, notes)?;
        let keeper = TraceKeeper::start(rt, alloc, self, trace)?;
        let operator = match admin {
            Some(admin) => Some(Operator::new(rt, self, admin, save)),
            None => None,
        };
        let ran = self.serve_connections(
            rt, alloc, keeper, signal, &operator, base, loader, threads, poll,
        );
        match ran {
            Some(ran) => Ok(ran),
            None => Err(Refusal::OutOfMemory),
        }
    }

    /// Where connections go once they are accepted, where so many session threads take them, and what takes them from the lobby to these,
    /// if they are parked. There is nothing where memory is refused.
    fn ways(
        &self,
        alloc: Global,
        count: usize,
        poll: Option<Poll>,
    ) -> Option<
        (
            Destination<'a>,
            Receiver<Connection, Global>,
            Option<LobbyKeeper<'a>>,
        ),
    > {
        let (Some(lobby), Some(poll)) = (self.lobby, poll) else {
            let (to, from) = crossbeam_channel::bounded(alloc, count).ok()?;
            return Some((Destination::Queue(to), from, None));
        };
        self.door.widen();
        let (to, from) = crossbeam_channel::unbounded(alloc).ok()?;
        let keeper = LobbyKeeper::new(alloc, lobby, poll, to).ok()?;
        Some((Destination::Lobby(lobby), from, Some(keeper)))
    }

    /// Accepts connections in one thread, behind so many that have loaded the base, and serves them in others, or in this one where they
    /// are refused. There is nothing where the first is refused.
    fn accept_and_serve<K: Receipts + Send + Drop, R: Threads + Wait + Clock + Sync>(
        &self,
        rt: &R,
        alloc: Global,
        destination: Destination<'a>,
        from: Receiver<Connection, Global>,
        threads: &mut [SessionThread<P, L, K>],
        loaded: u32,
    ) -> Option<Accepting>
        requires some { 0 < length threads.old }
    {
        let service = self;
        let count = threads.len();
        let connections = &from;
        thread::scope(
            thread::scope_env(),
            rt,
            move |scope| -> Option<Accepting>
                requires some { 0 < count }
            {
                let accept = move || accept_all(rt, alloc, service, destination, count, loaded);
                let accepting = scope.spawn(accept).ok()?;
                thread::for_each_mut(
                    rt,
                    threads,
                    count,
                    &|number, own: &mut SessionThread<P, L, K>| {
                        own.serve_all(rt, alloc, service, number, connections)
                    },
                );
                Some(accepting.join(rt))
            },
        )
    }

    /// Starts the threads beside those of sessions: they look after these, keep the trace and the lobby, and answer the operator. It answers
    /// whether one was refused that has to be there: the second for the operator may be.
    fn start_beside<
        's,
        'o,
        R: Threads + Wait + Clock + Sync,
        S: EndSignal + Send + Drop + 's,
        F: BaseFile + Send,
        E,
    >(
        &'s self,
        rt: &'s R,
        alloc: Global,
        scope: &Scope<'s, E>,
        ending: &'s DoneSignal,
        failure: &'s Mutex<Option<io::Error>>,
        keeper: Option<TraceKeeper<'s, 'a, P, L>>,
        signal: S,
        parking: Option<LobbyKeeper<'a>>,
        operator: &'s Option<Operator<'o, 's, 'a, 'o, P, L, R, F>>,
    ) -> bool {
        let service = self;
        let look = move || supervise(rt, service, ending, signal);
        let mut is_short = scope.spawn(look).is_err();
        if let Some(keeper) = keeper {
            let keep = move || keeper.keep_on(rt, alloc, ending, failure);
            is_short = scope.spawn(keep).is_err() || is_short;
        }
        if let Some(parking) = parking {
            let park = move || parking.keep(rt);
            is_short = scope.spawn(park).is_err() || is_short;
        }
        if let Some(operator) = operator {
            // With two there are twice as many places for connections.
            let answer = move || operator.answer(alloc);
            let more = move || operator.answer(alloc);
            is_short = scope.spawn(answer).is_err() || is_short;
            let _ = scope.spawn(more);
        }
        is_short
    }

    /// Loads a base and serves connections, with these threads beside those of sessions. There is nothing where the base is not loaded, or
    /// a thread or memory was refused, and nothing was accepted.
    fn serve_connections<
        K: Receipts + Send + Drop,
        R: Threads + Wait + Clock + Sync,
        S: EndSignal + Send + Drop,
        F: BaseFile + Send,
        B: BaseSource + Drop,
    >(
        &self,
        rt: &R,
        alloc: Global,
        keeper: Option<TraceKeeper<'_, '_, P, L>>,
        signal: S,
        operator: &Option<Operator<'_, '_, '_, '_, P, L, R, F>>,
        mut base: B,
        mut loader: SessionThread<P, L, K>,
        threads: &mut [SessionThread<P, L, K>],
        poll: Option<Poll>,
    ) -> Option<(Ran<B>, SessionThread<P, L, K>)>
        requires some { 0 < length threads.old }
        requires loader { K.receipts loader.outcomes ≡ [] }
        requires base { B.given base ≡ [] }
        ensures heard { IfSome result
            (λ got. AreHeard 1 (B.given got.0.base) (K.receipts got.1.outcomes)) }
        ensures over { IfSome result (λ got. B.is_over got.0.base ≡ true) }
        ensures count { IfSome result (λ got. got.0.loaded ≡ length (B.given got.0.base)) }
    {
        let service = self;
        let ending = &DoneSignal::new();
        let failed = Mutex::new(None);
        let failure = &failed;
        let (destination, from, parking) = self.ways(alloc, threads.len(), poll)?;
        // It joins all threads that it has started.
        let ran = thread::scope(
            thread::scope_env(),
            rt,
            move |scope| -> Option<(Ran<B>, SessionThread<P, L, K>)>
                requires some { 0 < length threads.now }
                requires loader { K.receipts loader.outcomes ≡ [] }
                requires base { B.given base ≡ [] }
                ensures heard { IfSome result
                    (λ got. AreHeard 1 (B.given got.0.base) (K.receipts got.1.outcomes)) }
                ensures over { IfSome result (λ got. B.is_over got.0.base ≡ true) }
                ensures count { IfSome result
                    (λ got. got.0.loaded ≡ length (B.given got.0.base)) }
            {
                let is_short = service.start_beside(
                    rt, alloc, scope, ending, failure, keeper, signal, parking, operator,
                );
                let loaded = if is_short {
                    None
                } else {
                    loader.load(rt, alloc, service, &mut base)
                };
                service.is_loading.store(false, Ordering::SeqCst);
                let accepting = match loaded {
                    Some(loaded) => service.accept_and_serve(
                        rt,
                        alloc,
                        destination,
                        from,
                        threads,
                        loaded,
                    ),
                    None => None,
                };
                if let Some(lobby) = service.lobby {
                    lobby.expect_no_more();
                }
                if let Some(operator) = operator {
                    operator.end();
                }
                ending.end(rt);
                let ran = Ran {
                    base,
                    loaded: loaded?,
                    accepting: accepting?,
                    ended_there: 0,
                    trace_failure: None,
                };
                Some((ran, loader))
            },
        )?;
        let (ran, loader) = ran;
        let trace_failure = failed.into_inner();
        Some((
            Ran {
                trace_failure,
                ..ran
            },
            loader,
        ))
    }
}
