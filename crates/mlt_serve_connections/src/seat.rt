//! Seats: what a session thread does, for others to see, and how they end its session.

ghost use Rattle.std.specs.Prelude.{◌<◌};

use crate::note::Cut;
use crate::presence::is_broken;
use crate::totals::{Totals, add_one};
use crossbeam_utils::CachePadded;
use mlt_event::{Answer, Told};
use mlt_object_kinds::{Done, ObjOp};
use mlt_types::{Refusal, TxId};
use mlt_work_waits::tuning::LAST_WRITES_SECONDS;
use std::alloc::{AllocError, Global};
use std::net::{Shutdown, SocketAddr, TcpStream};
use std::sync::atomic::{AtomicBool, Ordering};
use std::sync::{Arc, Mutex, MutexGuard, Wait};
use std::time::{Clock, Duration, Instant};

/// How many of the operations of a transaction are kept: the last ones.
const RECENT_OPS: usize = 16;

/// For how long others bear with a session.
#[derive(Clone, Copy)]
pub struct Patience {
    /// For how long an operation may wait, if that has an end.
    pub wait: Option<Duration>,
    /// For how long a transaction may be open, if that has an end.
    pub open: Option<Duration>,
}

/// The open transaction of a session.
#[derive(Clone, Copy)]
pub struct OpenTransaction {
    pub number: TxId,
    /// Since when its session has waited since it began, for its client or for others, if it has, and a clock could say so.
    pub since: Option<Instant>,
    /// How many operations it has done.
    pub operations: u64,
    /// The last of them, the operation with the number n, from 0, at n modulo their count.
    recent_ops: [Option<Done>; RECENT_OPS],
}

impl OpenTransaction {
    /// One that has just begun.
    fn new(number: TxId) -> OpenTransaction {
        OpenTransaction {
            number,
            since: None,
            operations: 0,
            recent_ops: [None; RECENT_OPS],
        }
    }

    /// Where its next operation is kept, in place of the oldest one.
    fn next(&self) -> usize
        ensures { result < 16 }
    {
        (self.operations % RECENT_OPS as u64) as usize
    }

    /// It has done an operation, with its reply.
    fn add(&mut self, done: Done) {
        self.recent_ops[self.next()] = Some(done);
        self.operations = self.operations.saturating_add(1);
    }

    /// The last operations that it has done, at most 16, the oldest first.
    ///
    /// # Errors
    /// Where a growth is refused.
    pub fn last(&self, alloc: Global) -> Result<Vec<Done>, AllocError> {
        let (newer, older) = self.recent_ops.split_at(self.next());
        let mut last = Vec::new(alloc);
        for done in older.iter().chain(newer).flatten() {
            last.push(*done)?;
        }
        Ok(last)
    }
}

/// The wait of an operation.
#[derive(Clone, Copy)]
pub struct OperationWait {
    pub op: Option<ObjOp>,
    /// Since when it was first told to wait, if a clock could say so.
    pub since: Option<Instant>,
}

/// What a session thread does: the session that it serves, if it serves one, and what it has counted in all of them. The thread alone
/// writes this, but that others cut the session.
#[derive(Default, Drop)]
pub struct SeatRecord {
    /// The number of the client that is served.
    pub client: u32,
    /// When that client came, if a clock could say so.
    pub since: Option<Instant>,
    /// The connection of that client, if one is served.
    stream: Option<Arc<TcpStream>>,
    /// Why others have cut the session, and when, if they have.
    cut: Option<(Cut, Option<Instant>)>,
    /// The open transaction of the session.
    pub transaction: Option<OpenTransaction>,
    /// The wait of its operation, if that has had to wait.
    pub wait: Option<OperationWait>,
    /// What the thread has counted.
    pub totals: Totals,
}

impl SeatRecord {
    /// Whether a session is served.
    pub fn is_served(&self) -> bool {
        self.stream.is_some()
    }

    /// Whether the session has this transaction open.
    pub fn has_open(&self, number: TxId) -> bool {
        matches!(&self.transaction, Some(open) if open.number == number)
    }

    /// The address of the client, if the system could say so.
    pub fn address(&self) -> Option<SocketAddr> {
        self.stream.as_ref()?.peer_addr().ok()
    }

    /// An event that begins or ends something was told this, in this operation, if it was in one.
    fn note<C: Clock>(&mut self, clock: &C, op: Option<ObjOp>, told: &Told) {
        if let Some(wait) = self.wait.take() {
            let now = Instant::now(clock).ok();
            self.totals.wait_times.add(wait.since, now);
        }
        let totals = &mut self.totals;
        match told {
            Told::Begun(tx) => {
                add_one(&mut totals.begun);
                self.transaction = Some(OpenTransaction::new(*tx));
            }
            Told::Answered(Answer::Done(reply)) => {
                add_one(&mut totals.operations);
                if let (Some(op), Some(transaction)) = (op, &mut self.transaction) {
                    transaction.add(Done::new(op, *reply));
                }
            }
            Told::Answered(Answer::Refused(Refusal::NoRoom)) => add_one(&mut totals.no_room),
            Told::Refused(Refusal::OutOfMemory)
            | Told::Answered(Answer::Refused(Refusal::OutOfMemory)) => {
                add_one(&mut totals.no_memory)
            }
            Told::Refused(Refusal::IdsSpent) => add_one(&mut totals.no_number),
            Told::Cancelled => add_one(&mut totals.gave_up),
            Told::Committed(_) => {
                add_one(&mut totals.commits);
                self.end_transaction(clock);
            }
            Told::Aborting(true) | Told::Answered(Answer::Aborted) => {
                add_one(&mut totals.aborts);
                self.end_transaction(clock);
            }
            _ => (),
        }
    }

    /// The transaction has ended.
    fn end_transaction<C: Clock>(&mut self, clock: &C) {
        if let Some(OpenTransaction { since, .. }) = self.transaction.take() {
            let now = since.and_then(|_| Instant::now(clock).ok());
            self.totals.transaction_times.add(since, now);
        }
    }

    /// The session hears nothing more from its client than what has come. It ends once that is answered.
    fn hear_no_more(&self) {
        if let Some(stream) = &self.stream {
            // It fails only where the connection is gone.
            let _ = stream.shutdown(Shutdown::Read);
        }
    }
}

/// What one session thread does, for others to see.
#[derive(Default, Drop)]
pub struct Seat {
    /// Whether an operation of the session that is to wait is given up.
    hurries: AtomicBool,
    record: Mutex<SeatRecord>,
}

impl Seat {
    /// What the thread does. It waits meanwhile.
    pub fn record<R: Wait>(&self, rt: &R) -> MutexGuard<'_, SeatRecord> {
        self.record.lock(rt)
    }

    /// A connection was taken that has waited for the session thread since then. A session begins with its client, which came then, if a
    /// clock could say so.
    pub fn enter<R: Wait + Clock>(
        &self,
        rt: &R,
        client: u32,
        since: Option<Instant>,
        queued_since: Option<Instant>,
        stream: Arc<TcpStream>,
    ) {
        let now = Instant::now(rt).ok();
        self.hurries.store(false, Ordering::Relaxed);
        let mut record = self.record.lock(rt);
        record.totals.queue_times.add(queued_since, now);
        record.client = client;
        record.since = since;
        record.stream = Some(stream);
        record.cut = None;
        record.transaction = None;
        record.wait = None;
    }

    /// The session has ended. It answers why others have cut it, if they have.
    pub fn leave<R: Wait>(&self, rt: &R) -> Option<Cut> {
        let mut record = self.record.lock(rt);
        record.stream = None;
        let (cut, _) = record.cut?;
        Some(cut)
    }

    /// Whether an operation of the session that is to wait is given up.
    #[inline(always)]
    pub(crate) fn hurries(&self) -> bool {
        self.hurries.load(Ordering::Relaxed)
    }

    /// An event that begins or ends something was told this, in this operation, if it was in one. An operation that has ended is not to
    /// be given up any more.
    pub(crate) fn note<R: Wait + Clock>(&self, rt: &R, op: Option<ObjOp>, told: &Told) {
        let mut record = self.record.lock(rt);
        if record.wait.is_some() {
            self.hurries.store(record.cut.is_some(), Ordering::Relaxed);
        }
        record.note(rt, op, told);
    }

    /// The operation is to wait.
    pub(crate) fn wait<R: Wait + Clock>(&self, rt: &R, op: Option<ObjOp>) {
        let since = Instant::now(rt).ok();
        let mut record = self.record.lock(rt);
        record.wait = record.wait.or(Some(OperationWait { op, since }));
    }

    /// The session is going to wait, for the first time since its transaction began.
    pub(crate) fn date<R: Wait + Clock>(&self, rt: &R) {
        let now = Instant::now(rt).ok();
        if let Some(transaction) = &mut self.record.lock(rt).transaction {
            transaction.since = now;
        }
    }

    /// The operation is given up since its transaction is the youngest of a cycle of waits.
    pub(crate) fn deadlock<R: Wait>(&self, rt: &R) {
        add_one(&mut self.record.lock(rt).totals.deadlocks);
    }

    /// The session hears nothing more from its client than what has come. It ends once that is answered.
    pub fn hear_no_more<R: Wait>(&self, rt: &R) {
        self.record.lock(rt).hear_no_more();
    }

    /// Cuts the session, if there is one, of this client, if one is named: it hears nothing more, and its operation waits no more. It answers
    /// whether there is.
    pub fn cut<R: Wait + Clock>(&self, rt: &R, client: Option<u32>, cut: Cut) -> bool {
        let now = Instant::now(rt).ok();
        let mut record = self.record.lock(rt);
        let is_it = record.is_served() && client.is_none_or(|client| client == record.client);
        if is_it {
            self.cut_at(&mut record, cut, now);
        }
        is_it
    }

    fn cut_at(&self, record: &mut SeatRecord, cut: Cut, now: Option<Instant>) {
        record.cut = record.cut.or(Some((cut, now)));
        self.hurries.store(true, Ordering::Relaxed);
        record.hear_no_more();
    }

    /// Looks after the session: one whose transaction is open for too long, or whose connection is reset while its operation
    /// waits, is cut; an operation that waits for too long is to be given up. It answers the transaction that is to try again, if
    /// one is.
    pub fn look_after<R: Wait + Clock>(&self, rt: &R, patience: &Patience) -> Option<TxId> {
        let now = Instant::now(rt).ok();
        let mut record = self.record.lock(rt);
        let stream = record.stream.as_ref()?.clone().ok()?;
        let open = record.transaction.as_ref();
        if has_passed(patience.open, open.and_then(|open| open.since), now) {
            self.cut_at(&mut record, Cut::Open, now);
        }
        let last_writes = Some(Duration::from_secs(LAST_WRITES_SECONDS));
        if has_passed(last_writes, record.cut.and_then(|(_, since)| since), now) {
            let _ = stream.shutdown(Shutdown::Both);
        }
        let wait = record.wait?;
        if is_broken(&stream) {
            self.cut_at(&mut record, Cut::Connection, now);
        }
        if has_passed(patience.wait, wait.since, now) {
            self.hurries.store(true, Ordering::Relaxed);
        }
        let number = record.transaction.as_ref()?.number;
        self.hurries().then_some(number)
    }
}

/// Whether so much time has passed, if there is a limit, and the clock could be read.
fn has_passed(limit: Option<Duration>, since: Option<Instant>, now: Option<Instant>) -> bool {
    match (limit, since, now) {
        (Some(limit), Some(since), Some(now)) => now.saturating_duration_since(since) >= limit,
        _ => false,
    }
}

/// The seats of all session threads. A thread that notes something at its seat does not take the cache lines of another.
#[derive(Default, Drop)]
pub struct Seats {
    seats: [CachePadded<Seat>; 64],
}

impl Seats {
    /// The seat of the thread with this number, from 0 to 63.
    pub fn seat(&self, number: usize) -> &Seat {
        &self.seats[number % 64]
    }

    /// All seats.
    pub fn all(&self) -> &[CachePadded<Seat>] {
        self.seats.as_slice()
    }

    /// What was counted at all seats.
    pub fn totals<R: Wait>(&self, rt: &R) -> Totals {
        let mut totals = Totals::default();
        for seat in self.all() {
            totals.add(&seat.record(rt).totals);
        }
        totals
    }
}
