//! What the sessions of a server have in common.

ghost use Rattle.std.specs.Prelude.{◌≡◌, None, Some, false, true};
ghost use Rattle.mlt_work_desk.specs.declared.tries.Tries.TheVariants.{PerOperation};

use crate::accepting::Connection;
use crate::door::Door;
use crate::lobby::Lobby;
use crate::options::ServeOptions;
use crossbeam_channel::Receiver;
use mlt_serve_connections::{
    Admission, Cut, Note, Notes, RunningThread, Seat, Seats, SpinPolicy, ThreadLimit, is_broken,
    lingering_close,
};
use mlt_types::Pseudo;
use mlt_work_desk::{MadeWith, Shared};
use mlt_work_waits::AdmissionQueue;
use std::alloc::Global;
use std::net::TcpStream;
use std::sync::atomic::{AtomicBool, AtomicU64, Ordering};
use std::sync::{Arc, Wait};
use std::time::{Clock, Duration, Instant};

/// What all sessions work with.
#[derive(Drop)]
pub(crate) struct Service<'a, P: Pseudo, L: MadeWith<P>> {
    pub(crate) shared: &'a Shared<P, L>,
    pub(crate) admission_queue: &'a AdmissionQueue,
    pub(crate) spin_policy: &'a SpinPolicy,
    pub(crate) options: &'a ServeOptions,
    pub(crate) door: &'a Door<'a>,
    /// Where connections are parked, if they are.
    pub(crate) lobby: Option<&'a Lobby<'a>>,
    pub(crate) seats: &'a Seats,
    pub(crate) notes: &'a Notes,
    /// How many session threads run.
    pub(crate) running: &'a AtomicU64,
    /// Whether a trace is written.
    pub(crate) has_trace: bool,
    /// Whether the history is taken out of the manager as the server goes, and outcomes are not kept.
    pub(crate) is_endless: bool,
    /// Whether the base is still loaded.
    pub(crate) is_loading: &'a AtomicBool,
    /// Whether no transaction begins, since too much waits for the trace.
    pub(crate) refuses_begins: &'a AtomicBool,
    ghost endless: { is_endless ≡ true → L.hands_out ≡ true },
    ghost tries: { PerOperation options.now.tries ≡ L.tries },
}

impl<P: Pseudo, L: MadeWith<P>> Service<'_, P, L> {
    /// The way of a session at this seat. It pauses before its first transaction or not.
    pub(crate) fn admission<'b, R: Wait + Clock>(
        &'b self,
        rt: &'b R,
        seat: &'b Seat,
        is_to_pause: bool,
    ) -> Admission<'b, R> {
        let thread = RunningThread::new(rt, self.limit());
        Admission::new(rt, self.admission_queue, seat, thread, is_to_pause)
    }

    /// The way of a session that loads the base, which has the first seat, and leaves its thread to nobody.
    pub(crate) fn loading<'b, R: Wait + Clock>(&'b self, rt: &'b R) -> Admission<'b, R> {
        let thread = RunningThread::new(rt, None);
        Admission::new(rt, self.admission_queue, self.seats.seat(0), thread, false)
    }

    /// By what a session leaves its thread to others, if it may.
    pub(crate) fn limit(&self) -> Option<&ThreadLimit> {
        self.lobby.map(|lobby| &lobby.limit)
    }

    /// The next connection that a session thread is to serve, once there is one, unless no more come.
    pub(crate) fn take<R: Wait>(
        &self,
        rt: &R,
        connections: &Receiver<Connection, Global>,
    ) -> Option<Connection> {
        match self.lobby {
            Some(lobby) => lobby.next(rt, connections),
            None => connections.recv(rt).ok(),
        }
    }

    /// A session has left its connection, which is parked now. Only where there is a lobby does one leave.
    pub(crate) fn park<R: Wait + Clock>(&self, rt: &R, connection: Connection) {
        if let Some(lobby) = self.lobby {
            lobby.limit.give_back();
            lobby.park(rt, connection);
        }
    }

    /// A session thread serves a connection no more. A message tells why it was cut, if it was. It is closed with its client, here or in
    /// the lobby, if that was served.
    pub(crate) fn end<R: Wait + Clock>(
        &self,
        rt: &R,
        client: u32,
        cut: Option<Cut>,
        served: Option<Arc<TcpStream>>,
    ) {
        if let Some(cut) = cut {
            self.notes.tell(rt, Note::SessionCut(client, cut));
        }
        match (self.lobby, served) {
            (Some(lobby), Some(stream)) => lobby.see_out(rt, stream),
            (None, Some(stream)) => lingering_close(rt, &stream),
            (_, None) => (),
        }
        if let Some(limit) = self.limit() {
            limit.give_back();
        }
        self.door.count_ended();
    }

    /// How many connections wait for a session thread.
    pub(crate) fn queued(&self) -> u64 {
        match self.limit() {
            Some(limit) => limit.queued(),
            None => self.door.queued(),
        }
    }

    /// How many connections are parked.
    pub(crate) fn parked(&self) -> u64 {
        self.lobby.map_or(0, |lobby| lobby.parked())
    }

    /// Why a connection that was accepted is not to be served any more, if so. One whose first line has come is.
    pub(crate) fn cut_in_queue(&self, stream: &TcpStream, has_begun: bool) -> Option<Cut> {
        if has_begun {
            return None;
        }
        cut_of_queued(self.door.stops(), is_broken(stream))
    }
}

/// Why a connection in the queue is cut, if it is, where the server is to stop or not, and its client is gone or not.
fn cut_of_queued(stops: bool, is_gone: bool) -> Option<Cut>
    ensures stop { stops ≡ true → result ≡ Some Cut.Stop }
    ensures gone { stops ≡ false → is_gone ≡ true → result ≡ Some Cut.Connection }
    ensures none { stops ≡ false → is_gone ≡ false → result ≡ None }
{
    if stops {
        Some(Cut::Stop)
    } else if is_gone {
        Some(Cut::Connection)
    } else {
        None
    }
}

/// How much time has passed, if the clock could say so.
pub(crate) fn elapsed(since: Option<Instant>, now: Option<Instant>) -> Option<Duration> {
    Some(now?.saturating_duration_since(since?))
}
