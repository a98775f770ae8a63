//! Where connections are parked: those that no session serves, since their clients are silent with no transaction open.

use crate::accepting::Connection;
use crate::door::Door;
use crate::operator::milliseconds;
use crate::service::elapsed;
use crossbeam_channel::{Receiver, Sender};
use mio::event::Event;
use mio::unix::SourceFd;
use mio::{Events, Interest, Poll, Registry, Token};
use mlt_serve_admin::SessionView;
use mlt_serve_connections::{
    Cut, Note, Notes, ThreadLimit, is_broken, is_read_out, is_readable, read_away_now,
};
use mlt_work_waits::tuning::{
    EVENTS_PER_POLL, LINGER_SECONDS, STOP_SECONDS, SUPERVISION_MILLISECONDS,
};
use slab::Slab;
use std::alloc::{AllocError, Global};
use std::net::{Shutdown, TcpStream};
use std::os::fd::AsRawFd;
use std::sync::atomic::{AtomicBool, AtomicU64, Ordering};
use std::sync::{Arc, Mutex, Wait};
use std::thread;
use std::time::{Clock, Duration, Instant};

/// A connection that no session serves.
#[derive(Drop)]
enum Guest {
    /// Its client is silent. Once it sends something, a session thread serves it.
    Parked(Connection),
    /// No more answers follow, and what it still sends is read away. It is so since then, if a clock could say so.
    Leaving(Arc<TcpStream>, Option<Instant>),
}

impl Guest {
    fn stream(&self) -> &TcpStream {
        match self {
            Guest::Parked(connection) => &connection.stream,
            Guest::Leaving(stream, _) => stream,
        }
    }
}

/// The connections that no session serves. The system tells which of them have something to read, and these go to the session threads.
#[derive(Drop)]
pub(crate) struct Lobby<'a> {
    door: &'a Door<'a>,
    notes: &'a Notes,
    /// For how long a client may send nothing, if that has an end.
    idle: Option<Duration>,
    /// By which the system tells who has something to read. Without it nobody is parked.
    registry: Option<Registry>,
    guests: Mutex<Slab<Guest>>,
    pub(crate) limit: ThreadLimit,
    /// How many connections are parked.
    parked: AtomicU64,
    /// How many are leaving.
    leaving: AtomicU64,
    /// How many connections have ended here.
    ended: AtomicU64,
    /// Whether no more connections are accepted.
    is_last: AtomicBool,
}

impl<'a> Lobby<'a> {
    /// Nobody is here. The registry is that of the poll of `keep_lobby`, and there are so many session threads.
    pub(crate) fn new(
        alloc: Global,
        registry: Option<Registry>,
        door: &'a Door<'a>,
        notes: &'a Notes,
        idle: Option<Duration>,
        threads: u64,
    ) -> Lobby<'a> {
        Lobby {
            door,
            notes,
            idle,
            registry,
            guests: Mutex::new(Slab::new(alloc)),
            limit: ThreadLimit::new(threads),
            parked: AtomicU64::new(0),
            leaving: AtomicU64::new(0),
            ended: AtomicU64::new(0),
            is_last: AtomicBool::new(false),
        }
    }

    /// How many connections are parked.
    pub(crate) fn parked(&self) -> u64 {
        self.parked.load(Ordering::SeqCst)
    }

    /// No more connections are accepted.
    pub(crate) fn expect_no_more(&self) {
        self.is_last.store(true, Ordering::SeqCst);
    }

    /// Nobody comes any more. It returns how many connections have ended here.
    pub(crate) fn close(self) -> u64 {
        self.ended.load(Ordering::SeqCst)
    }

    fn count_ended(&self) {
        self.ended.fetch_add(1, Ordering::SeqCst);
        self.door.count_ended();
    }

    /// Parks a connection until it has something to read. Where memory is refused, it is closed. Where the server is to stop, a client hears
    /// that no more answers follow, once all that it has sent is answered.
    pub(crate) fn park<R: Wait + Clock>(&self, rt: &R, connection: Connection) {
        if self.door.stops() && !is_readable(&connection.stream) {
            self.dismiss(rt, connection);
            return;
        }
        let client = connection.client;
        self.parked.fetch_add(1, Ordering::SeqCst);
        if !self.let_in(rt, Guest::Parked(connection)) {
            self.parked.fetch_sub(1, Ordering::SeqCst);
            self.count_ended();
            self.notes.tell(rt, Note::SessionCut(client, Cut::Memory));
        }
    }

    /// A connection ends that is not parked.
    fn dismiss<R: Wait + Clock>(&self, rt: &R, connection: Connection) {
        let Connection { stream, .. } = connection;
        self.see_out(rt, stream);
        self.count_ended();
    }

    /// Tells a client that no more answers follow, and closes its connection once it has closed it too, or after a second.
    pub(crate) fn see_out<R: Wait + Clock>(&self, rt: &R, stream: Arc<TcpStream>) {
        end_answers(&stream);
        self.leaving.fetch_add(1, Ordering::SeqCst);
        if !self.let_in(rt, Guest::Leaving(stream, Instant::now(rt).ok())) {
            self.leaving.fetch_sub(1, Ordering::SeqCst);
        }
    }

    /// Lets one in, or drops it. It answers which.
    fn let_in<R: Wait>(&self, rt: &R, guest: Guest) -> bool {
        let Some(registry) = &self.registry else {
            return false;
        };
        let fd = guest.stream().as_raw_fd();
        let Ok(key) = self.guests.lock(rt).insert(guest) else {
            return false;
        };
        // Nobody takes it out meanwhile: only what is reported is taken, or what has been leaving for a second.
        let is_registered = registry
            .register(&mut SourceFd(&fd), Token(key), Interest::READABLE)
            .is_ok();
        if !is_registered {
            let _ = self.guests.lock(rt).try_remove(key);
        }
        is_registered
    }

    /// Takes out the parked one of this key. One that is leaving is taken out if it has gone.
    fn take<R: Wait>(&self, rt: &R, key: usize) -> Option<Connection> {
        let mut guests = self.guests.lock(rt);
        if let Guest::Leaving(stream, _) = guests.get(key)? {
            let stream = stream.clone().ok()?;
            drop(guests);
            if read_away_now(&stream) {
                self.remove_leaving(rt, key);
            }
            return None;
        }
        match guests.try_remove(key)? {
            Guest::Parked(connection) => {
                self.parked.fetch_sub(1, Ordering::SeqCst);
                Some(connection)
            }
            Guest::Leaving(..) => None,
        }
    }

    /// One has gone that was leaving.
    fn remove_leaving<R: Wait>(&self, rt: &R, key: usize) {
        if self.guests.lock(rt).try_remove(key).is_some() {
            self.leaving.fetch_sub(1, Ordering::SeqCst);
        }
    }

    /// One has something to read, or has gone: a session thread is to take it, unless there is only its end, or it is late, since the
    /// server was to stop some seconds ago.
    fn call<R: Wait + Clock>(
        &self,
        rt: &R,
        event: &Event,
        now: Option<Instant>,
        is_late: bool,
        to: &Sender<Connection, Global>,
    ) {
        let Token(key) = event.token();
        let Some(mut connection) = self.take(rt, key) else {
            return;
        };
        if let Some(registry) = &self.registry {
            let fd = connection.stream.as_raw_fd();
            let _ = registry.deregister(&mut SourceFd(&fd));
        }
        let client = connection.client;
        if event.is_read_closed() || event.is_error() {
            if is_broken(&connection.stream) {
                self.count_ended();
                self.notes
                    .tell(rt, Note::SessionCut(client, Cut::Connection));
                return;
            }
            if is_read_out(&connection.stream) {
                self.count_ended();
                return;
            }
        }
        if is_late {
            self.notes.tell(rt, Note::SessionCut(client, Cut::Stop));
            self.dismiss(rt, connection);
            return;
        }
        connection.queued_since = now;
        self.limit.queue();
        if to.send(rt, connection).is_ok() {
            self.limit.wake_one(rt);
        } else {
            self.limit.leave_queue();
            self.count_ended();
            self.notes.tell(rt, Note::SessionCut(client, Cut::Memory));
        }
    }

    /// The next connection that a session thread is to serve, once there is one, and few threads run; none, if no more come.
    pub(crate) fn next<R: Wait>(
        &self,
        rt: &R,
        connections: &Receiver<Connection, Global>,
    ) -> Option<Connection> {
        // One that was woken goes on in the place of another that blocks, however soon that goes on too.
        let mut may_go_on = !self.limit.is_exceeded();
        for _ in rt.forever() {
            if may_go_on {
                if let Ok(mut connection) = connections.try_recv(rt) {
                    self.limit.take(rt, &mut connection.round);
                    return Some(connection);
                }
            }
            if !self.limit.sleep(rt) {
                return None;
            }
            may_go_on = true;
        }
        unreachable!()
    }

    /// Looks after all: those that are idle for too long leave, and where the server is to stop all that have nothing to read. It answers
    /// whether nobody is left, and none comes.
    fn look<R: Wait + Clock>(&self, rt: &R, now: Option<Instant>) -> bool {
        let stops = self.door.stops();
        let is_any_leaving = self.leaving.load(Ordering::SeqCst) > 0;
        let mut guests = self.guests.lock(rt);
        if stops || self.idle.is_some() || is_any_leaving {
            for key in 0..guests.capacity() {
                let Some(guest) = guests.get_mut(key) else {
                    continue;
                };
                if self.look_after(rt, guest, stops, now) {
                    let _ = guests.try_remove(key);
                    self.leaving.fetch_sub(1, Ordering::SeqCst);
                }
            }
        }
        guests.is_empty() && self.is_last.load(Ordering::SeqCst) && self.door.inside() == 0
    }

    /// Looks after one. It answers whether that has gone.
    fn look_after<R: Wait + Clock>(
        &self,
        rt: &R,
        guest: &mut Guest,
        stops: bool,
        now: Option<Instant>,
    ) -> bool {
        let (client, idle_since) = match guest {
            Guest::Leaving(_, since) => {
                let linger = Duration::from_secs(LINGER_SECONDS);
                return elapsed(*since, now).is_none_or(|time| time >= linger);
            }
            Guest::Parked(connection) => (connection.client, connection.remains.idle_since),
        };
        let is_idle = match (self.idle, elapsed(idle_since, now)) {
            (Some(idle), Some(time)) => time >= idle,
            _ => false,
        };
        if is_idle {
            self.notes.tell(rt, Note::SessionCut(client, Cut::Idle));
        }
        if is_idle || (stops && !is_readable(guest.stream())) {
            self.end(guest, now);
        }
        false
    }

    /// A parked one ends: no more answers follow.
    fn end(&self, guest: &mut Guest, now: Option<Instant>) {
        let Guest::Parked(connection) = guest else {
            return;
        };
        let Ok(stream) = connection.stream.clone() else {
            return;
        };
        end_answers(&stream);
        *guest = Guest::Leaving(stream, now);
        self.leaving.fetch_add(1, Ordering::SeqCst);
        self.parked.fetch_sub(1, Ordering::SeqCst);
        self.count_ended();
    }

    /// Ends the connection of this client, if it is parked. It answers whether it is.
    pub(crate) fn cut_client<R: Wait + Clock>(&self, rt: &R, client: u32, cut: Cut) -> bool {
        let now = Instant::now(rt).ok();
        let mut guests = self.guests.lock(rt);
        for key in 0..guests.capacity() {
            let Some(guest) = guests.get_mut(key) else {
                continue;
            };
            let is_it = match guest {
                Guest::Parked(connection) => connection.client == client,
                Guest::Leaving(..) => false,
            };
            if is_it {
                self.end(guest, now);
                self.notes.tell(rt, Note::SessionCut(client, cut));
                return true;
            }
        }
        false
    }

    /// Adds what an operator sees of parked connections, until there are so many in all.
    ///
    /// # Errors
    /// Where a growth is refused.
    pub(crate) fn push_views<R: Wait>(
        &self,
        rt: &R,
        views: &mut Vec<SessionView>,
        most: usize,
        now: Option<Instant>,
    ) -> Result<(), AllocError> {
        let guests = self.guests.lock(rt);
        for key in 0..guests.capacity() {
            if views.len() >= most {
                break;
            }
            if let Some(Guest::Parked(connection)) = guests.get(key) {
                views.push(SessionView {
                    client: connection.client,
                    address: connection.stream.peer_addr().ok(),
                    milliseconds: milliseconds(connection.since, now),
                    transaction: None,
                })?;
            }
        }
        Ok(())
    }
}

/// Tells a client that no more answers follow. What is read of it from now on does not wait.
fn end_answers(stream: &TcpStream) {
    // Where these fail, the client is gone.
    let _ = stream.shutdown(Shutdown::Write);
    let _ = stream.set_nonblocking(true);
}

/// Keeps a lobby: it waits for all that are parked.
#[derive(Drop)]
pub(crate) struct LobbyKeeper<'a> {
    lobby: &'a Lobby<'a>,
    poll: Poll,
    events: Events<Global>,
    /// Where those go that have something to read.
    to: Sender<Connection, Global>,
}

impl<'a> LobbyKeeper<'a> {
    /// # Errors
    /// Where memory is refused.
    pub(crate) fn new(
        alloc: Global,
        lobby: &'a Lobby<'a>,
        poll: Poll,
        to: Sender<Connection, Global>,
    ) -> Result<LobbyKeeper<'a>, AllocError> {
        let events = Events::with_capacity(alloc, EVENTS_PER_POLL)?;
        Ok(LobbyKeeper {
            lobby,
            poll,
            events,
            to,
        })
    }

    /// Sends parked connections that have something to read to the session threads, in the order in which the system reports them, until
    /// nobody is left, and none comes.
    pub(crate) fn keep<R: Wait + Clock>(self, rt: &R) {
        let LobbyKeeper {
            lobby,
            mut poll,
            mut events,
            to,
        } = self;
        let pause = Duration::from_millis(SUPERVISION_MILLISECONDS);
        let late = Duration::from_secs(STOP_SECONDS);
        let mut last = Instant::now(rt).ok();
        let mut stops_since: Option<Instant> = None;
        for _ in rt.forever() {
            if poll.poll(&mut events, Some(pause)).is_err() {
                thread::sleep(rt, pause);
            }
            let now = Instant::now(rt).ok();
            if lobby.door.stops() {
                stops_since = stops_since.or(now);
            }
            let is_late = elapsed(stops_since, now).is_some_and(|time| time >= late);
            for event in events.iter() {
                lobby.call(rt, event, now, is_late, &to);
            }
            if elapsed(last, now).is_none_or(|time| time >= pause) {
                last = now;
                if lobby.look(rt, now) {
                    lobby.limit.end(rt);
                    return;
                }
            }
        }
    }
}
