//! What an operator sees and does.

use crate::operating::{Admin, BaseFile};
use crate::service::{Service, elapsed};
use mlt_object_base::Base;
use mlt_object_kinds::Done;
use mlt_page::SLOTS;
use mlt_script_serial::Outcome;
use mlt_serve_admin::{
    Counts, NotSaved, ObjectView, ObjectsView, Operated, ServerView, SessionView, TransactionView,
    WaitReason, WaitView, WantedObjects, serve_admin,
};
use mlt_serve_connections::{Cut, Note, SeatRecord, refuse_all};
use mlt_trace::KeptItem;
use mlt_types::{Pseudo, Refusal};
use mlt_work_desk::{DeskStatistics, ListedRecord, MadeWith};
use mlt_work_waits::Waiting;
use mlt_work_waits::tuning::{
    BUCKETS_PER_HOLD, HOLDS_PER_LIST, LIST_PAUSE_MICROSECONDS, MOST_CLIENTS_LISTED,
};
use std::alloc::{AllocError, Global};
use std::io::ErrorKind;
use std::mem::size_of;
use std::net::{SocketAddr, TcpListener};
use std::sync::atomic::{AtomicBool, Ordering};
use std::sync::{Mutex, Wait};
use std::thread;
use std::time::{Clock, Duration, Instant};

/// How many bytes an item of the history takes, an outcome, and an operation of one.
const ITEM_BYTES: u64 = size_of::<KeptItem>() as u64;

const OUTCOME_BYTES: u64 = size_of::<Outcome>() as u64;

const OPERATION_BYTES: u64 = size_of::<Done>() as u64;

/// What an operator sees, and can do.
#[derive(Drop)]
pub(crate) struct Operator<'a, 'b, 'c, 'd, P: Pseudo, L: MadeWith<P>, R: Wait + Clock, F> {
    rt: &'a R,
    service: &'b Service<'c, P, L>,
    /// Where it connects.
    admin: Admin<'d>,
    /// Where the base is saved, if it may be.
    save: Option<&'d Mutex<F>>,
    /// Since when the server listens, if a clock could say so.
    since: Option<Instant>,
    /// Whoever has it copies records for a list.
    listing: Mutex<()>,
    /// Whether the server is over.
    is_over: AtomicBool,
}

impl<'a, 'b, 'c, 'd, P: Pseudo, L: MadeWith<P>, R: Wait + Clock, F: BaseFile> Operator<
    'a,
    'b,
    'c,
    'd,
    P,
    L,
    R,
    F,
> {
    /// One that connects there, to a server that listens from now on, whose base may be saved there. A note tells if others than this
    /// machine can.
    pub(crate) fn new(
        rt: &'a R,
        service: &'b Service<'c, P, L>,
        admin: Admin<'d>,
        save: Option<&'d Mutex<F>>,
    ) -> Operator<'a, 'b, 'c, 'd, P, L, R, F> {
        if let Some(address) = open_address(admin.listener) {
            service.notes.tell(rt, Note::OpenAdmin(address));
        }
        Operator {
            rt,
            service,
            admin,
            save,
            since: Instant::now(rt).ok(),
            listing: Mutex::new(()),
            is_over: AtomicBool::new(false),
        }
    }

    /// Answers requests, until the server is over.
    pub(crate) fn answer(&self, alloc: Global) {
        let Admin { listener, keys, .. } = self.admin;
        serve_admin(self.rt, alloc, keys, listener, self, &self.is_over);
    }

    /// The server is over.
    pub(crate) fn end(&self) {
        self.is_over.store(true, Ordering::SeqCst);
        refuse_all(self.admin.listener);
    }

    /// The base to which the transactions lead that have committed now, and how many these are. The manager's lock is held while what it is
    /// made of is copied, and no longer.
    ///
    /// # Errors
    /// `OutOfMemory`, where a growth was refused.
    fn committed(&self) -> Result<(Base, u64), Refusal> {
        let image = self.service.shared.image(self.rt)?;
        Ok((image.base()?, image.commits()))
    }

    /// Adds the next records from this place on, and pauses: so all lists together have the manager's lock for a small part of the time,
    /// however many are asked for. Returns the place behind them, if there is one.
    ///
    /// # Errors
    /// Where a growth is refused.
    fn copy_records(
        &self,
        from: u32,
        records: &mut Vec<ListedRecord>,
    ) -> Result<Option<u32>, AllocError> {
        let shared = self.service.shared;
        let listing = self.listing.lock(self.rt);
        let next = shared.copy_records(self.rt, from, BUCKETS_PER_HOLD, records);
        thread::sleep(self.rt, Duration::from_micros(LIST_PAUSE_MICROSECONDS));
        drop(listing);
        next
    }

    /// How many clients are connected to a server without an end, or else so many, that session threads serve.
    fn clients(&self, served: usize) -> u64 {
        match self.service.lobby {
            Some(_) => self.service.door.inside(),
            None => served as u64,
        }
    }

    /// A wait, with what the session of the transaction shows of it. A session that loads the base shows nothing.
    fn wait_view(&self, wait: &Waiting, awaited: WaitReason, now: Option<Instant>) -> WaitView {
        let mut view = WaitView {
            waiter: wait.waiter,
            client: 0,
            holder: wait.holder,
            awaited,
            operation: None,
            milliseconds: 0,
        };
        for seat in self.service.seats.all() {
            let record = seat.record(self.rt);
            if record.is_served() && record.has_open(wait.waiter) {
                view.client = record.client;
                // One that has just begun to wait has not shown that.
                if let Some(shown) = record.wait {
                    view.operation = shown.op;
                    view.milliseconds = milliseconds(shown.since, now);
                }
            }
        }
        view
    }

    fn counts(&self, statistics: &DeskStatistics, sessions: u64, now: Option<Instant>) -> Counts {
        let Service {
            options,
            door,
            seats,
            notes,
            running,
            ..
        } = self.service;
        let totals = seats.totals(self.rt);
        let items = statistics.items as u64;
        Counts {
            server: self.admin.number,
            build: self.admin.build,
            address: door.address(),
            seconds: milliseconds(self.since, now) / 1_000,
            sessions,
            session_threads: running.load(Ordering::SeqCst),
            queued: self.service.queued(),
            parked: self.service.parked(),
            connections: door.accepted(),
            refused: door.refused(),
            limit: options.connections,
            totals,
            most_begun: options.limits.max_ids,
            events: statistics.events,
            items,
            bytes: self.bytes_kept(items, totals.ended(), totals.operations),
            pages: statistics.pages as u64,
            most_pages: options.most_pages(),
            depth: u64::from(statistics.depth),
            room: options.room(),
            has_trace: self.service.has_trace,
            trace_failed: notes.has_trace_failed(),
            can_save: self.save.is_some(),
            is_loading: self.service.is_loading.load(Ordering::SeqCst),
            is_stopping: door.stops(),
            process: self.admin.process.figures(),
        }
    }

    /// How many bytes are kept of so many items, and of the outcomes of so many transactions, of so many operations, if these are.
    fn bytes_kept(&self, items: u64, outcomes: u64, operations: u64) -> u64 {
        let kept = items.saturating_mul(ITEM_BYTES);
        if self.service.is_endless {
            return kept;
        }
        let told = outcomes.saturating_mul(OUTCOME_BYTES);
        let done = operations.saturating_mul(OPERATION_BYTES);
        kept.saturating_add(told).saturating_add(done)
    }
}

impl<P: Pseudo, L: MadeWith<P>, R: Wait + Clock, F: BaseFile> Operated
    for Operator<'_, '_, '_, '_, P, L, R, F> {
    fn view(&self, alloc: Global) -> Result<ServerView, AllocError> {
        let now = Instant::now(self.rt).ok();
        let statistics = self.service.shared.statistics(self.rt);
        let mut sessions = Vec::new(alloc);
        for seat in self.service.seats.all() {
            let record = seat.record(self.rt);
            if record.is_served() {
                sessions.push(session_view(alloc, &record, now)?)?;
            }
        }
        let clients = self.clients(sessions.len());
        if let Some(lobby) = self.service.lobby {
            lobby.push_views(self.rt, &mut sessions, MOST_CLIENTS_LISTED, now)?;
        }
        let mut waits = Vec::new(alloc);
        for wait in &statistics.for_objects {
            let awaited = match wait.timestamp {
                Some(_) => WaitReason::Object,
                None => WaitReason::Turn,
            };
            waits.push(self.wait_view(wait, awaited, now))?;
        }
        for wait in &statistics.for_pages {
            waits.push(self.wait_view(wait, WaitReason::Page, now))?;
        }
        Ok(ServerView {
            counts: self.counts(&statistics, clients, now),
            sessions,
            waits,
        })
    }

    fn objects(&self, alloc: Global, wanted: &WantedObjects) -> Result<ObjectsView, AllocError> {
        let mut objects = Vec::new(alloc);
        let mut records = Vec::with_capacity(alloc, BUCKETS_PER_HOLD * SLOTS)?;
        let mut next = Some(wanted.from);
        for _ in 0..HOLDS_PER_LIST {
            let Some(from) = next else {
                break;
            };
            if objects.len() >= wanted.enough {
                break;
            }
            records.clear();
            next = self.copy_records(from, &mut records)?;
            push_objects(&mut objects, &records, wanted)?;
        }
        Ok(ObjectsView { objects, next })
    }

    fn save(&self) -> Result<u64, NotSaved> {
        let file = self.save.ok_or(NotSaved::NoFile)?;
        if self.service.is_loading.load(Ordering::SeqCst) {
            return Err(NotSaved::Loading);
        }
        let mut file = file.try_lock().ok_or(NotSaved::Busy)?;
        let Ok((base, commits)) = self.committed() else {
            return Err(NotSaved::Failed(ErrorKind::OutOfMemory.into()));
        };
        match file.save(&base, commits) {
            Ok(()) => Ok(commits),
            Err(error) => Err(NotSaved::Failed(error)),
        }
    }

    fn stop(&self) {
        self.service.door.stop();
    }

    fn end_session(&self, client: u32) -> bool {
        for seat in self.service.seats.all() {
            if seat.cut(self.rt, Some(client), Cut::Operator) {
                return true;
            }
        }
        match self.service.lobby {
            Some(lobby) => lobby.cut_client(self.rt, client, Cut::Operator),
            None => false,
        }
    }
}

/// The address of a listener, if others than this machine can reach it.
fn open_address(listener: &TcpListener) -> Option<SocketAddr> {
    let address = listener.local_addr().ok()?;
    let is_loopback = address.ip().to_canonical().is_loopback();
    (!is_loopback).then_some(address)
}

/// Adds the objects of these records that are wanted.
fn push_objects(
    objects: &mut Vec<ObjectView>,
    records: &[ListedRecord],
    wanted: &WantedObjects,
) -> Result<(), AllocError> {
    for ListedRecord { key, value } in records {
        if (wanted.first..=wanted.last).contains(key) {
            objects.push(ObjectView {
                key: *key,
                value: *value,
            })?;
        }
    }
    Ok(())
}

fn session_view(
    alloc: Global,
    record: &SeatRecord,
    now: Option<Instant>,
) -> Result<SessionView, AllocError> {
    Ok(SessionView {
        client: record.client,
        address: record.address(),
        milliseconds: milliseconds(record.since, now),
        transaction: match &record.transaction {
            Some(transaction) => Some(TransactionView {
                number: transaction.number,
                milliseconds: milliseconds(transaction.since, now),
                operations: transaction.operations,
                did: transaction.last(alloc)?,
                calls: record.wait.and_then(|wait| wait.op),
            }),
            None => None,
        },
    })
}

/// How many milliseconds have passed, as far as the clock can say so.
pub(crate) fn milliseconds(since: Option<Instant>, now: Option<Instant>) -> u64 {
    elapsed(since, now).map_or(0, |time| {
        u64::try_from(time.as_millis()).unwrap_or(u64::MAX)
    })
}
