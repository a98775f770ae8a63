//! One session thread.

ghost use Rattle.std.specs.Prelude.{◌≡◌, ◌≤◌, ◌+◌, ◌-◌, ◌^◌, [], Err, IsOk, None, OnOk, Some, false, min, true};
ghost use Rattle.mlt_serve.specs.Clients.{AreOfClients, GrowsFor};
ghost use Rattle.mlt_serve.specs.Desks.{AreGiven, IsSessionAt};
ghost use Rattle.mlt_serve.specs.Loads.{Heard, ends};
ghost use Rattle.mlt_serve.specs.Tellings.{TellsOutcomes, txs_of};
ghost use Rattle.mlt_work_desk.specs.declared.tries.Tries.TheVariants.{PerOperation};
ghost use Rattle.mlt_work_desk.specs.Prefixes.{StartsWith};
ghost use Rattle.mlt_work_desk.specs.LogHandles.{IsOf, IsWriterOf, begun_by, first_items, id_of, past_of};

use crate::accepting::Connection;
use crate::guarded_desk::GuardedDesk;
use crate::service::Service;
use crossbeam_channel::Receiver;
use mlt_serve_connections::{Admission, Cut, Outside, Remains, Seat, Socket, SocketFailure};
use mlt_serve_session::{LineSource, Receipts, Summary, session};
use mlt_types::{Pseudo, Refusal};
use mlt_work_desk::{HistoryLog, LockDesk, LogSnapshot, LogWriter, MadeWith, Tries};
use std::alloc::Global;
use std::io::Write;
use std::marker::PhantomData;
use std::mem;
use std::net::TcpStream;
use std::sync::Wait;
use std::sync::atomic::Ordering;
use std::sync::ledger::Share;
use std::time::Clock;

/// A session thread, and what it has served so far. Its share of the ledger has two parts: one for itself, and one for the desk that it is
/// at work at.
#[derive(Drop)]
pub(crate) struct SessionThread<P: Pseudo, L: MadeWith<P>, K: Receipts> {
    pub(crate) share: Share<L>,
    /// The number of its events; it stays at 2^64 - 1.
    pub(crate) events: u64,
    /// Who has taken the outcomes of its sessions, one session after the other.
    pub(crate) outcomes: K,
    /// How many connections it has served.
    pub(crate) connections: u64,
    /// The greatest number of a connection that it has served, 0 where there is none.
    pub(crate) last: u32,
    /// Whether a session was refused a growth.
    pub(crate) is_short: bool,
    /// What the history was after the last hold of its desks, which have begun the transactions of its outcomes.
    pub(crate) snapshot: LogSnapshot,
    /// The manager's function from keys to pseudokeys, by its type.
    pub(crate) pseudo: PhantomData<P>,
    ghost two_parts: { share.parts ≡ 2 },
    ghost counted: { events ≡ min share.amount (2 ^ 64 - 1) },
    ghost of_clients: { AreOfClients last (K.receipts outcomes) },
    ghost of_log: { IsOf L.log_id snapshot },
    ghost told: { TellsOutcomes (first_items snapshot) (K.receipts outcomes) },
    ghost begun: { begun_by snapshot ≡ txs_of (K.receipts outcomes) },
    ghost given: { AreGiven P.bits_of L.tries (K.receipts outcomes) },
}

impl<P: Pseudo, L: MadeWith<P>, K: Receipts + Drop> SessionThread<P, L, K> {
    /// Nothing was served yet. It takes two parts of the ledger.
    #[tactic(auto, using(crate::proofs::Counting::none_begun_yet, crate::proofs::Numbering::none_of, crate::proofs::Receiving::none_given, crate::proofs::Telling::none_told))]
    pub(crate) fn new(
        alloc: Global,
        all: &mut Share<L>,
        log: &HistoryLog,
        writer: &mut LogWriter,
    ) -> SessionThread<P, L, K>
        requires parts { 2 ≤ all.old.parts }
        requires amount { all.old.amount ≡ 0 }
        requires log { id_of log.now ≡ L.log_id }
        requires writer { IsWriterOf L.log_id writer.old }
        ensures parts { all.new.parts + 2 ≡ all.old.parts }
        ensures amount { all.new.amount ≡ 0 }
        ensures writer { IsWriterOf L.log_id writer.new }
        ensures past { past_of writer.new ≡ past_of writer.old }
        ensures outcomes { K.receipts result.outcomes ≡ [] }
        ensures connections { result.connections ≡ 0 }
    {
        SessionThread {
            share: all.split_off(2, 0),
            events: 0,
            outcomes: K::none(alloc),
            connections: 0,
            last: 0,
            is_short: false,
            snapshot: log.snapshot(writer),
            pseudo: PhantomData,
        }
    }

    /// Serves a client by a session at a desk of its own, with the tries of the options for each operation, so that no desk is counted
    /// while there is nothing to serve. It adds outcomes of this client alone: the history that the desk has seen then tells all that is in them. While the session waits for the client
    /// it is not at work, nor at the end.
    ///
    /// # Errors
    /// As those of `session`.
    pub(crate) fn serve<R: Wait + Clock, I: LineSource, O: Write>(
        &mut self,
        rt: &R,
        alloc: Global,
        service: &Service<'_, P, L>,
        admission: &Admission<'_, R>,
        client: u32,
        timestamp: &mut Option<u64>,
        reader: &mut I,
        writer: &mut O,
    ) -> Result<Summary, Refusal>
        requires { 1 ≤ client }
        ensures session { IsSessionAt P.bits_of
            (PerOperation service.now.options.now.tries) client
            self.old.snapshot self.new.snapshot
            (ends (I.remaining reader.old) (O.contents writer.old))
            (ends (I.remaining reader.new) (O.contents writer.new))
            (K.receipts self.old.outcomes) (K.receipts self.new.outcomes) result }
        ensures outcomes { GrowsFor (first_items self.new.snapshot) client
            (K.receipts self.old.outcomes) (K.receipts self.new.outcomes) }
        ensures heard { OnOk result (Heard client
            (ends (I.remaining reader.old) (O.contents writer.old))
            (ends (I.remaining reader.new) (O.contents writer.new))
            (K.receipts self.old.outcomes) (K.receipts self.new.outcomes)) }
        ensures sees { StartsWith (first_items self.new.snapshot)
            (first_items self.old.snapshot) }
        ensures connections { self.new.connections ≡ self.old.connections }
        ensures short { self.old.is_short ≡ true → self.new.is_short ≡ true }
        ensures memory { result ≡ Err Refusal.OutOfMemory → self.new.is_short ≡ true }
    {
        let SessionThread {
            share,
            events,
            outcomes,
            connections: _,
            last,
            is_short,
            snapshot,
            pseudo: _,
        } = self;
        let mine = share.split_off(1, 0);
        let copy = service.shared.copy_snapshot(snapshot);
        let seen = mem::replace(snapshot, copy);
        let tries = Tries::PerOperation(service.options.tries);
        let mut desk = LockDesk::after(rt, service.shared, admission, mine, seen, tries);
        desk.serve(client);
        desk.keep_timestamp(*timestamp);
        let mut guarded = GuardedDesk {
            desk,
            refuses_begins: service.refuses_begins,
        };
        let ended = session(alloc, reader, writer, &mut guarded, client, outcomes);
        let GuardedDesk {
            desk,
            refuses_begins: _,
        } = guarded;
        *timestamp = desk.kept_timestamp();
        let (mine, more, seen) = desk.close();
        share.merge(mine);
        *snapshot = seen;
        *events = events.saturating_add(more);
        *last = (*last).max(client);
        *is_short = is_short_after(*is_short, ended);
        ended
    }

    /// Serves a client at its seat by one session. It answers why that has ended before its client did, if so, and what the next session of
    /// the client begins with, if this one has left.
    fn hold_session<R: Wait + Clock>(
        &mut self,
        rt: &R,
        alloc: Global,
        service: &Service<'_, P, L>,
        seat: &Seat,
        client: u32,
        stream: &TcpStream,
        remains: Remains,
    ) -> (Option<Cut>, Option<Remains>)
        requires { 1 ≤ client }
        ensures outcomes { GrowsFor (first_items self.new.snapshot) client
            (K.receipts self.old.outcomes) (K.receipts self.new.outcomes) }
        ensures connections { self.new.connections ≡ self.old.connections }
        ensures short { self.old.is_short ≡ true → self.new.is_short ≡ true }
        ensures memory { result.0 ≡ Some Cut.Memory → self.new.is_short ≡ true }
    {
        let mut timestamp = remains.timestamp;
        let admission = service.admission(rt, seat, remains.is_to_pause);
        let may_park = service.lobby.is_some();
        let Service {
            spin_policy,
            options,
            ..
        } = service;
        let socket = Socket::new(rt, stream, spin_policy, options.idle, may_park, remains);
        let ended = self.serve(
            rt,
            alloc,
            service,
            &admission,
            client,
            &mut timestamp,
            &mut Outside::new(&socket, &admission),
            &mut Outside::new(&socket, &admission),
        );
        let cut = cut_of(ended, socket.failure());
        (cut, socket.close(admission.close(), timestamp))
    }

    /// Serves a connection at its seat by one session. Then it is parked where that has left, and else closed with the client. One that was
    /// cut in the queue counts as served.
    fn seat<R: Wait + Clock>(
        &mut self,
        rt: &R,
        alloc: Global,
        service: &Service<'_, P, L>,
        seat: &Seat,
        connection: Connection,
    )
        ensures outcomes { GrowsFor (first_items self.new.snapshot) connection.client
            (K.receipts self.old.outcomes) (K.receipts self.new.outcomes) }
        ensures connections { self.new.connections ≤ self.old.connections + 1 }
        ensures short { self.old.is_short ≡ true → self.new.is_short ≡ true }
    {
        let mut connection = connection;
        let client = connection.client;
        let cut = service.cut_in_queue(&connection.stream, connection.remains.has_begun);
        if cut.is_some() {
            self.connections = self.connections.saturating_add(1);
            service.end(rt, client, cut, None);
            return;
        }
        let Ok(handle) = connection.stream.clone() else {
            self.is_short = true;
            service.end(rt, client, None, None);
            return;
        };
        seat.enter(
            rt,
            client,
            connection.since,
            connection.queued_since,
            handle,
        );
        let remains = mem::replace(&mut connection.remains, Remains::new(Vec::new(alloc), None));
        let stream = &connection.stream;
        let (cut, remains) = self.hold_session(rt, alloc, service, seat, client, stream, remains);
        match (seat.leave(rt).or(cut), remains) {
            (None, Some(remains)) => {
                connection.remains = remains;
                connection.queued_since = None;
                service.park(rt, connection);
            }
            (cut, _) => {
                self.connections = self.connections.saturating_add(1);
                let Connection { stream, .. } = connection;
                service.end(rt, client, cut, Some(stream));
            }
        }
    }

    /// Serves one connection after the other at a seat, until no more come. Where memory is refused no more are let in.
    pub(crate) fn serve_all<R: Wait + Clock>(
        &mut self,
        rt: &R,
        alloc: Global,
        service: &Service<'_, P, L>,
        number: usize,
        connections: &Receiver<Connection, Global>,
    ) {
        service.running.fetch_add(1, Ordering::SeqCst);
        let seat = service.seats.seat(number);
        if let Some(limit) = service.limit() {
            limit.run();
        }
        for _ in rt.forever() {
            let Some(connection) = service.take(rt, connections) else {
                return;
            };
            service.door.count_taken();
            self.seat(&*rt, alloc, &*service, &*seat, connection);
            if self.is_short {
                service.door.run_short();
            }
        }
    }
}

/// Whether a session was refused a growth, where one was before or not, and the last one has ended so.
fn is_short_after(was_short: bool, ended: Result<Summary, Refusal>) -> bool
    ensures before { was_short ≡ true → result ≡ true }
    ensures memory { ended ≡ Err Refusal.OutOfMemory → result ≡ true }
{
    was_short || matches!(ended, Err(Refusal::OutOfMemory))
}

/// Why a session was cut that ended so, where its socket failed so, if it was cut.
fn cut_of(ended: Result<Summary, Refusal>, failure: Option<SocketFailure>) -> Option<Cut>
    ensures memory { ended ≡ Err Refusal.OutOfMemory → result ≡ Some Cut.Memory }
    ensures only { result ≡ Some Cut.Memory → ended ≡ Err Refusal.OutOfMemory }
    ensures line { ended ≡ Err Refusal.LineTooLong → result ≡ Some Cut.Line }
    ensures http { ended ≡ Err Refusal.Io → failure ≡ Some SocketFailure.Http
        → result ≡ Some Cut.Http }
    ensures none { IsOk ended → result ≡ None }
{
    match (ended, failure) {
        (Ok(_), _) => None,
        (Err(Refusal::OutOfMemory), _) => Some(Cut::Memory),
        (Err(Refusal::LineTooLong), _) => Some(Cut::Line),
        (Err(_), Some(SocketFailure::Idle)) => Some(Cut::Idle),
        (Err(_), Some(SocketFailure::Http)) => Some(Cut::Http),
        (Err(_), Some(SocketFailure::Broken)) => Some(Cut::Connection),
        (Err(_), None) => Some(Cut::Bytes),
    }
}
