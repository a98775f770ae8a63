//! How many session threads run at a time, and whether there are too few of them.

use mlt_work_waits::tuning::{MOST_RUNNING, TAKES_PER_ROUND};
use std::cell::Cell;
use std::sync::atomic::{AtomicBool, AtomicU64, Ordering};
use std::sync::{Condvar, Mutex, Wait};

/// Which sleeping threads are to go on.
#[derive(Default, Drop)]
struct Wakes {
    /// How many are, and do not yet.
    count: u64,
    /// Whether all are, since nothing is left to do.
    is_over: bool,
}

/// Lets few session threads run at a time where there are more connections to serve than threads. The others sleep: a thread that is going
/// to block lets another one go, which takes the next connection. So connections queue, and threads do not. An I/O completion port of
/// Windows NT does so by its concurrency value (Russinovich, Solomon and Ionescu, Windows Internals, 6th edition 2012, part 2, chapter 8).
#[derive(Drop)]
pub struct ThreadLimit {
    /// How many session threads there are.
    threads: u64,
    /// How many connections have something to read and wait for a thread.
    queued: AtomicU64,
    /// How many connections threads serve.
    served: AtomicU64,
    /// Whether threads are short: more connections had something to do lately than there are threads.
    is_short: AtomicBool,
    /// The number of the round of takes. While threads are short each round has so many takes, one behind the other.
    round: AtomicU64,
    /// How many takes there were in this round.
    takes: AtomicU64,
    /// Of how many clients these were.
    clients: AtomicU64,
    /// How many threads sleep.
    free: AtomicU64,
    /// How many threads run, with those that are to.
    running: AtomicU64,
    wakes: Mutex<Wakes>,
    condvar: Condvar,
}

impl ThreadLimit {
    /// So many threads, none of which has begun.
    pub fn new(threads: u64) -> ThreadLimit {
        ThreadLimit {
            threads,
            queued: AtomicU64::new(0),
            served: AtomicU64::new(0),
            is_short: AtomicBool::new(false),
            round: AtomicU64::new(0),
            takes: AtomicU64::new(0),
            clients: AtomicU64::new(0),
            free: AtomicU64::new(0),
            running: AtomicU64::new(0),
            wakes: Mutex::default(),
            condvar: Condvar::new(),
        }
    }

    /// How many connections wait for a thread.
    pub fn queued(&self) -> u64 {
        self.queued.load(Ordering::SeqCst)
    }

    /// One more connection is going to wait for a thread.
    pub fn queue(&self) {
        let queued = self.queued.fetch_add(1, Ordering::SeqCst);
        let served = self.served.load(Ordering::SeqCst);
        if queued.saturating_add(served) >= self.threads
            && !self.is_short.swap(true, Ordering::SeqCst)
        {
            self.begin_round();
        }
    }

    /// A connection that has waited is not served.
    pub fn leave_queue(&self) {
        self.queued.fetch_sub(1, Ordering::SeqCst);
    }

    /// A thread has taken a connection that has waited, and serves it. Its client was last counted in this round, and is counted anew. If
    /// threads are short no more, one goes on for each connection that waits.
    pub fn take<R: Wait>(&self, rt: &R, last_round: &mut u64) {
        self.queued.fetch_sub(1, Ordering::SeqCst);
        self.served.fetch_add(1, Ordering::SeqCst);
        if self.is_short() {
            self.count(last_round);
            if !self.is_short() {
                for _ in 0..self.queued() {
                    self.wake_one(rt);
                }
            }
        }
    }

    /// A thread serves a connection no more.
    pub fn give_back(&self) {
        self.served.fetch_sub(1, Ordering::SeqCst);
    }

    /// Whether more connections had something to do lately than there are threads.
    fn is_short(&self) -> bool {
        self.is_short.load(Ordering::SeqCst)
    }

    /// Counts a take, and its client, if that was not counted in this round. At the end of a round threads are short no more if it had no
    /// more clients than there are threads.
    fn count(&self, last_round: &mut u64) {
        let round = self.round.load(Ordering::SeqCst);
        if *last_round != round {
            *last_round = round;
            self.clients.fetch_add(1, Ordering::SeqCst);
        }
        if self.takes.fetch_add(1, Ordering::SeqCst) == TAKES_PER_ROUND {
            let clients = self.clients.load(Ordering::SeqCst);
            self.is_short
                .store(clients > self.threads, Ordering::SeqCst);
            self.begin_round();
        }
    }

    /// No take was in the next round yet.
    fn begin_round(&self) {
        self.round.fetch_add(1, Ordering::SeqCst);
        self.clients.store(0, Ordering::SeqCst);
        self.takes.store(0, Ordering::SeqCst);
    }

    /// A thread runs that did not.
    pub fn run(&self) {
        self.running.fetch_add(1, Ordering::SeqCst);
    }

    /// A thread that runs does not from now on, and another one may.
    fn block<R: Wait>(&self, rt: &R) {
        self.running.fetch_sub(1, Ordering::SeqCst);
        self.wake_one(rt);
    }

    /// Whether more run than should.
    pub fn is_exceeded(&self) -> bool {
        self.is_short() && self.running.load(Ordering::SeqCst) > MOST_RUNNING
    }

    /// Whether a connection waits that one more thread may take.
    fn has_work(&self) -> bool {
        let may_run = !self.is_short() || self.running.load(Ordering::SeqCst) < MOST_RUNNING;
        self.queued() > 0 && may_run
    }

    /// A thread that sleeps goes on, if there is one, and there is work for it.
    pub fn wake_one<R: Wait>(&self, rt: &R) {
        if self.free.load(Ordering::SeqCst) > 0 && self.has_work() {
            let mut wakes = self.wakes.lock(rt);
            if self.free.load(Ordering::SeqCst) > wakes.count && self.has_work() {
                self.run();
                wakes.count = wakes.count.saturating_add(1);
                drop(wakes);
                self.condvar.notify_one();
            }
        }
    }

    /// A thread that runs has nothing to do. It sleeps until it is to go on, and answers whether there is anything left to do.
    pub fn sleep<R: Wait>(&self, rt: &R) -> bool {
        let mut wakes = self.wakes.lock(rt);
        self.running.fetch_sub(1, Ordering::SeqCst);
        self.free.fetch_add(1, Ordering::SeqCst);
        // For what came just now no thread was woken that had not slept yet.
        if self.has_work() {
            self.run();
            wakes.count = wakes.count.saturating_add(1);
        }
        let mut wakes = self
            .condvar
            .wait_while(rt, wakes, |wakes| wakes.count == 0 && !wakes.is_over);
        self.free.fetch_sub(1, Ordering::SeqCst);
        let is_woken = wakes.count > 0;
        wakes.count = wakes.count.saturating_sub(1);
        is_woken
    }

    /// Nothing is left to do.
    pub fn end<R: Wait>(&self, rt: &R) {
        self.wakes.lock(rt).is_over = true;
        self.condvar.notify_all();
    }
}

/// The thread of a session, which counts as one that runs, or does not while it blocks.
#[derive(Drop)]
pub struct RunningThread<'a, R: Wait> {
    rt: &'a R,
    /// By which it may leave its session, if there is one.
    limit: Option<&'a ThreadLimit>,
    runs: Cell<bool>,
}

impl<'a, R: Wait> RunningThread<'a, R> {
    /// One that runs.
    pub fn new(rt: &'a R, limit: Option<&'a ThreadLimit>) -> RunningThread<'a, R> {
        RunningThread {
            rt,
            limit,
            runs: Cell::new(true),
        }
    }

    /// Whether its session is to leave it to others.
    pub(crate) fn is_short(&self) -> bool {
        self.limit.is_some_and(|limit| limit.is_short())
    }

    /// It is going to block. If it is counted, another thread may run in its place.
    pub(crate) fn block(&self) {
        if let Some(limit) = self.limit {
            if self.runs.replace(false) {
                limit.block(self.rt);
            }
        }
    }

    /// It goes on.
    pub fn go_on(&self) {
        if let Some(limit) = self.limit {
            if !self.runs.replace(true) {
                limit.run();
            }
        }
    }
}
