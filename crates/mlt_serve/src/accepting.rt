//! Connections, as they come.

ghost use Rattle.std.specs.Prelude.{◌≡◌, ◌≤◌, ◌+◌, ◌-◌, ◌^◌, ◌%◌, IfErr, IfSome, IsOkUnless, false, true};
ghost use Rattle.mlt_serve.specs.Endings.{is_limit, result_of_accepting};

use crate::door::Door;
use crate::lobby::Lobby;
use crate::options::ServeOptions;
use crate::service::Service;
use crossbeam_channel::Sender;
use mlt_serve_connections::{Accepted, ListenerEnd, Note, Notes, Remains, make_ready};
use mlt_types::{Pseudo, Refusal};
use mlt_work_desk::MadeWith;
use mlt_work_waits::tuning::{ACCEPT_PAUSE_MILLISECONDS, ROOM_PAUSE_MILLISECONDS};
use std::alloc::Global;
use std::io::Write;
use std::net::{Shutdown, TcpStream};
use std::sync::{Arc, Wait};
use std::thread;
use std::time::{Clock, Duration, Instant};

/// What a client hears that is refused since all session threads serve others.
const TOO_MANY: &[u8] = b"error 7 TooManyOpen\n";

/// A connection that was accepted, with all that belongs to its client between two sessions.
#[derive(Drop)]
pub(crate) struct Connection {
    /// How many there were before, with those that have loaded the base.
    pub(crate) before: u64,
    /// Its number, from 1: 1, 2, 3 and so on, and 1 again after 4,294,967,295.
    pub(crate) client: u32,
    /// When it was accepted, if a clock could say so.
    pub(crate) since: Option<Instant>,
    /// Since when it waits for a session thread, if it does, and a clock could say so.
    pub(crate) queued_since: Option<Instant>,
    pub(crate) stream: Arc<TcpStream>,
    pub(crate) remains: Remains,
    /// In which round of takes it was counted last, from 1, or 0.
    pub(crate) round: u64,
    ghost numbered: { client ≡ before % (2 ^ 32 - 1) + 1 },
}

/// What was accepted, and how that ended.
#[derive(Clone, Copy)]
pub(crate) struct Accepting {
    /// How many connections were accepted and sent on.
    pub(crate) connections: u64,
    pub(crate) end: ListenerEnd,
}

impl Accepting {
    /// Whether no more were accepted than the limit says, and as many where it ended by that.
    pub(crate) fn is_within(self, limit: u64) -> bool
        ensures few { result ≡ true → self.connections ≤ limit }
        ensures whole { result ≡ true → is_limit self.end ≡ true
            → self.connections ≡ limit }
    {
        match self.end {
            ListenerEnd::Limit(_) => self.connections == limit,
            _ => self.connections <= limit,
        }
    }

    /// What is answered of it.
    ///
    /// # Errors
    /// `Io`, where an accept failed. `OutOfMemory`, where a sending or a session's growth was refused.
    pub(crate) fn result(self) -> Result<(), Refusal>
        ensures { result ≡ result_of_accepting self.end }
    {
        match self.end {
            ListenerEnd::Limit(_) | ListenerEnd::Stop => Ok(()),
            ListenerEnd::Accept(_) => Err(Refusal::Io),
            ListenerEnd::Memory => Err(Refusal::OutOfMemory),
        }
    }
}

/// Where connections go that are accepted.
#[derive(Drop)]
pub(crate) enum Destination<'a> {
    /// To the session threads.
    Queue(Sender<Connection, Global>),
    /// To the lobby.
    Lobby(&'a Lobby<'a>),
}

/// One that accepts connections, and whether accepts are failing.
#[derive(Drop)]
struct Acceptor<'a, R: Wait + Clock> {
    rt: &'a R,
    alloc: Global,
    door: &'a Door<'a>,
    notes: &'a Notes,
    options: &'a ServeOptions,
    destination: Destination<'a>,
    /// How many may be inside.
    most_inside: u64,
    /// Whether the last accept failed.
    is_failing: bool,
    /// Whether it was for want of descriptors or buffers.
    is_pausing: bool,
}

impl<'a, R: Wait + Clock> Acceptor<'a, R> {
    /// The next connection that is to be served. One that finds too many inside is refused.
    ///
    /// # Errors
    /// Why there is none.
    fn next(&mut self) -> Result<TcpStream, ListenerEnd>
        ensures { IfErr result (λ ended. is_limit ended ≡ false) }
    {
        for _ in self.rt.forever() {
            self.wait_for_room();
            let accepted = self.door.accept();
            if let Some(ended) = self.ended(&accepted) {
                return Err(ended);
            }
            match accepted {
                Accepted::Stream(stream) => {
                    if self.lets_in() {
                        return Ok(stream);
                    }
                    self.refuse(stream);
                }
                Accepted::Again(error) => self.try_again(false, Note::AcceptFailed(error)),
                Accepted::Pause(error) => self.try_again(true, Note::AcceptPauses(error)),
                Accepted::Closed(error) | Accepted::Failed(error) => {
                    return Err(ListenerEnd::Accept(error));
                }
            }
        }
        unreachable!()
    }

    /// Why nobody is to be let in any more, if so, as an accept has ended. One that has failed goes before want of memory, unless that
    /// itself has closed the listener.
    fn ended(&self, accepted: &Accepted) -> Option<ListenerEnd>
        ensures { IfSome result (λ ended. is_limit ended ≡ false) }
    {
        if self.door.stops() {
            Some(ListenerEnd::Stop)
        } else if self.door.is_short() && !matches!(accepted, Accepted::Failed(_)) {
            Some(ListenerEnd::Memory)
        } else {
            None
        }
    }

    /// An accept has succeeded. It returns whether the client is admitted.
    fn lets_in(&mut self) -> bool {
        if self.is_pausing {
            self.notes.tell(self.rt, Note::AcceptGoesOn);
        }
        self.is_failing = false;
        self.is_pausing = false;
        !self.options.refuses || self.has_room()
    }

    /// Whether fewer are inside than may be.
    fn has_room(&self) -> bool {
        self.door.inside() < self.most_inside
    }

    /// Waits until there is room, unless clients are refused where there is none, or until no more are let in.
    fn wait_for_room(&self) {
        for _ in self.rt.forever() {
            let is_over = self.door.stops() || self.door.is_short();
            if self.options.refuses || self.has_room() || is_over {
                return;
            }
            thread::sleep(self.rt, Duration::from_millis(ROOM_PAUSE_MILLISECONDS));
        }
    }

    /// A client is refused since as many are inside as may be. The first is logged.
    fn refuse(&self, stream: TcpStream) {
        if self.door.count_refused() == 0 {
            let note = match self.destination {
                Destination::Lobby(_) => Note::NoPlace(self.most_inside),
                Destination::Queue(_) => Note::NoSession,
            };
            self.notes.tell(self.rt, note);
        }
        turn_away(stream);
    }

    /// An accept has failed, for want of descriptors or buffers or not, and is to be tried again: after a pause if so, or if another
    /// has failed before. The first of either kind in a row is logged.
    fn try_again(&mut self, is_want: bool, note: Note) {
        let was_so = if is_want {
            self.is_pausing
        } else {
            self.is_failing
        };
        if !was_so {
            self.notes.tell(self.rt, note);
        }
        if is_want || self.is_failing {
            thread::sleep(self.rt, Duration::from_millis(ACCEPT_PAUSE_MILLISECONDS));
        }
        self.is_failing = true;
        self.is_pausing = self.is_pausing || is_want;
    }

    /// Accepts as many as the limit says, and sends each on as it comes. So many connections have loaded the base before.
    fn accept_all(&mut self, loaded: u32, limit: u64) -> (u64, ListenerEnd)
        ensures few { result.0 ≤ limit }
        ensures whole { is_limit result.1 ≡ true → result.0 ≡ limit }
    {
        for taken in 0..limit {
            let stream = match self.next() {
                Ok(stream) => stream,
                Err(ended) => return (taken, ended),
            };
            let before = taken.saturating_add(u64::from(loaded));
            if let Err(ended) = self.send_on(before, stream) {
                return (taken, ended);
            }
            self.warn(taken + 1, limit);
        }
        (limit, ListenerEnd::Limit(limit))
    }

    /// Sends a connection on, before which there were so many.
    ///
    /// # Errors
    /// `Memory`, where the sending was refused.
    fn send_on(&self, before: u64, stream: TcpStream) -> Result<(), ListenerEnd>
        ensures { IsOkUnless result ListenerEnd.Memory }
    {
        let parks = matches!(self.destination, Destination::Lobby(_));
        make_ready(&stream, self.options.idle, parks);
        let now = Instant::now(self.rt).ok();
        let stream = match Arc::new(self.alloc, stream) {
            Ok(stream) => stream,
            Err(_) => return Err(ListenerEnd::Memory),
        };
        self.door.count_accepted();
        let connection = Connection {
            before,
            client: number_of(before),
            since: now,
            queued_since: now,
            stream,
            // One that is parked is idle from now on, if that has an end.
            remains: Remains::new(
                Vec::new(self.alloc),
                now.filter(|_| parks && self.options.idle.is_some()),
            ),
            round: 0,
        };
        match &self.destination {
            Destination::Queue(to) => match to.send(self.rt, connection) {
                Ok(()) => Ok(()),
                Err(_) => Err(ListenerEnd::Memory),
            },
            Destination::Lobby(lobby) => {
                lobby.park(self.rt, connection);
                Ok(())
            }
        }
    }

    /// Tells once nine in ten of the connections are taken.
    fn warn(&self, taken: u64, limit: u64) {
        if limit >= 10 && taken == limit - limit / 10 {
            self.notes
                .tell(self.rt, Note::FewConnectionsLeft(taken, limit));
        }
    }
}

/// The number of a connection before which there were so many: 1, 2, 3 and so on, and 1 again after 4,294,967,295.
fn number_of(before: u64) -> u32
    ensures { result ≡ before % (2 ^ 32 - 1) + 1 }
{
    (before % u64::from(u32::MAX)) as u32 + 1
}

/// Tells a client that it is not served, as far as that can be told at once.
fn turn_away(stream: TcpStream) {
    let _ = stream.set_nonblocking(true);
    let mut writer = &stream;
    let _ = writer.write(TOO_MANY);
    let _ = stream.shutdown(Shutdown::Write);
}

/// Accepts as many connections as the limit says, numbers them behind those that have loaded the base, and sends each on as it comes, to so
/// many session threads or to the lobby. It accepts no more once an accept has failed by the listener, a sending was refused, a session was
/// refused a growth, or the server is to stop. Then clients are refused from now on, and a log message says why. What it has accepted it has
/// sent on, unless that was refused.
pub(crate) fn accept_all<P: Pseudo, L: MadeWith<P>, R: Wait + Clock>(
    rt: &R,
    alloc: Global,
    service: &Service<'_, P, L>,
    destination: Destination<'_>,
    threads: usize,
    loaded: u32,
) -> Accepting
    ensures few { result.connections ≤ service.now.options.now.connections }
    ensures whole { is_limit result.end ≡ true
        → result.connections ≡ service.now.options.now.connections }
{
    let Service {
        door,
        notes,
        options,
        ..
    } = service;
    let most_inside = match destination {
        Destination::Lobby(_) => options.clients,
        Destination::Queue(_) if options.refuses => threads as u64,
        Destination::Queue(_) => u64::MAX,
    };
    let mut acceptor = Acceptor {
        rt,
        alloc,
        door,
        notes,
        options,
        destination,
        most_inside,
        is_failing: false,
        is_pausing: false,
    };
    let (accepted, ended) = acceptor.accept_all(loaded, options.connections);
    door.close();
    if let Some(lobby) = service.lobby {
        lobby.expect_no_more();
    }
    notes.tell(rt, Note::AcceptEnded(ended));
    Accepting {
        connections: accepted,
        end: ended,
    }
}
