//! Connections of operators.

use crate::operated::Operated;
use crate::service::OperatorService;
use http_server::{Config, Connection};
use mlt_work_waits::tuning::{
    ACCEPT_PAUSE_MILLISECONDS, FIRST_READ_MILLISECONDS, LONGEST_BODY, LONGEST_REQUEST_SECONDS,
    LONGEST_VISIT_SECONDS, MOST_VISITS, REQUEST_RESERVE,
};
use std::alloc::Global;
use std::hash::RandomState;
use std::io::ErrorKind;
use std::net::{TcpListener, TcpStream};
use std::os::fd::OwnedFd;
use std::sync::Wait;
use std::sync::atomic::{AtomicBool, Ordering};
use std::time::{Clock, Duration, Instant};
use std::{io, thread};

/// Accepts connections, and answers one request of each, until the server is over.
///
/// After each accept it looks whether that is so, and then returns. An accept waits for a tenth of a second at most. After one that
/// failed otherwise it pauses, and goes on.
///
/// A connection is closed whose request has not come whole within a second, or that is not done after five, the time aside in which its
/// thread made answers, as while it saved a base. Meanwhile others are
/// answered: there are 32 places, and one more takes that of the oldest, so that slow clients keep out nobody. A connection that is
/// refused memory is closed too; while there is none some memory is kept for the next. Threads may share a listener.
///
/// The keys are for the names of headers, which clients choose.
pub fn serve_admin<R: Wait + Clock, O: Operated>(
    rt: &R,
    alloc: Global,
    keys: RandomState,
    listener: &TcpListener,
    operated: &O,
    is_over: &AtomicBool,
) {
    let mut service = OperatorService { alloc, operated };
    let mut visits = Visits::new(alloc, keys);
    // Where this fails an accept waits for a connection, and slow ones until then.
    let _ = limit_accepts(listener);
    for _ in rt.forever() {
        visits.keep_memory();
        let accepted = listener.accept();
        if is_over.load(Ordering::SeqCst) {
            return;
        }
        match accepted {
            Ok((stream, _)) => visits.admit(rt, stream),
            Err(error) if error.kind() == ErrorKind::WouldBlock => (),
            Err(_) => thread::sleep(rt, Duration::from_millis(ACCEPT_PAUSE_MILLISECONDS)),
        }
        visits.go_on(rt, &mut service);
    }
}

// Lets accepts wait no longer than that. It is an option of the socket, which std sets by a stream alone.
fn limit_accepts(listener: &TcpListener) -> io::Result<()> {
    let socket = OwnedFd::from(listener.try_clone()?);
    TcpStream::from(socket).set_read_timeout(Some(Duration::from_millis(ACCEPT_PAUSE_MILLISECONDS)))
}

/// The connections of a thread that are not done, the oldest first.
#[derive(Drop)]
struct Visits {
    alloc: Global,
    keys: RandomState,
    visits: Vec<Visit>,
    /// Memory for a request that comes where no more can be had.
    reserve: Vec<u8>,
}

impl Visits {
    fn new(alloc: Global, keys: RandomState) -> Visits {
        Visits {
            alloc,
            keys,
            visits: Vec::new(alloc),
            reserve: Vec::new(alloc),
        }
    }

    /// Keeps some memory for the next connection, where there is none.
    fn keep_memory(&mut self) {
        if self.visits.is_empty() {
            // Where this fails the next connection has to do without.
            let _ = self.reserve.reserve_exact(REQUEST_RESERVE);
        }
    }

    /// Closes the oldest, where all places are taken.
    fn make_room(&mut self) {
        self.reserve.shrink_to(0);
        if self.visits.len() >= MOST_VISITS {
            self.visits.remove(0);
        }
    }

    /// Takes in the connection of a client that has just connected.
    fn admit<C: Clock>(&mut self, clock: &C, stream: TcpStream) {
        self.make_room();
        // What fails here is its client's loss alone.
        if let Ok(visit) = Visit::begin(clock, self.alloc, self.keys, stream) {
            let _ = self.visits.push(visit);
        }
    }

    /// Goes on with each, and closes those that are done or late. The time that this takes, as while an answer is made, is not theirs.
    fn go_on<C: Clock, O: Operated>(&mut self, clock: &C, service: &mut OperatorService<'_, O>) {
        let Ok(now) = Instant::now(clock) else {
            self.visits.clear();
            return;
        };
        self.visits.retain_mut(|visit| visit.goes_on(now, service));
        let taken = now.elapsed(clock).unwrap_or(Duration::ZERO);
        for visit in &mut self.visits {
            visit.forgive(taken);
        }
    }
}

/// A connection that is not done.
#[derive(Drop)]
struct Visit {
    connection: Connection,
    stream: TcpStream,
    since: Instant,
}

impl Visit {
    /// That of a client that has just connected. Most send their request at once, so it waits a little for that.
    fn begin<C: Clock>(
        clock: &C,
        alloc: Global,
        keys: RandomState,
        stream: TcpStream,
    ) -> io::Result<Visit> {
        let since = Instant::now(clock)?;
        stream.set_read_timeout(Some(Duration::from_millis(FIRST_READ_MILLISECONDS)))?;
        let config = Config {
            max_body_len: LONGEST_BODY,
            ..Config::default()
        };
        let mut visit = Visit {
            connection: Connection::new(alloc, keys, config),
            stream,
            since,
        };
        // If nothing has come, or this failed, the next read says so.
        let _ = visit.connection.read_from(&mut &visit.stream);
        visit.stream.set_nonblocking(true)?;
        Ok(visit)
    }

    /// Reads, answers and writes what it can without a wait. Returns whether something is left to do, and there was time for it.
    fn goes_on<O: Operated>(&mut self, now: Instant, service: &mut OperatorService<'_, O>) -> bool {
        for _ in 0..u64::MAX {
            self.connection.advance(service);
            if self.connection.is_done() || self.is_late(now) {
                return false;
            }
            match self.transfer() {
                Ok(()) => (),
                Err(error) if error.kind() == ErrorKind::WouldBlock => return true,
                Err(error) if error.kind() == ErrorKind::Interrupted => (),
                Err(_) => return false,
            }
        }
        false
    }

    fn is_late(&self, now: Instant) -> bool {
        let longest = if self.connection.wants_write() {
            LONGEST_VISIT_SECONDS
        } else {
            LONGEST_REQUEST_SECONDS
        };
        now.saturating_duration_since(self.since) >= Duration::from_secs(longest)
    }

    // So much time counts for nothing.
    fn forgive(&mut self, time: Duration) {
        self.since = self.since.checked_add(time).unwrap_or(self.since);
    }

    // Writes once, if there is something to write, or else reads once.
    fn transfer(&mut self) -> io::Result<()> {
        let mut socket = &self.stream;
        if !self.connection.wants_write() {
            self.connection.read_from(&mut socket)?;
        } else if self.connection.write_to(&mut socket)? == 0 {
            return Err(ErrorKind::WriteZero.into());
        }
        Ok(())
    }
}
