//! Where connections come in.

use mlt_serve_connections::{Accepted, accept, refuse_all, widen_backlog};
use std::net::{SocketAddr, TcpListener};
use std::sync::atomic::{AtomicBool, AtomicU64, Ordering};

/// The listener, and how many have come in by it.
#[derive(Drop)]
pub(crate) struct Door<'a> {
    listener: &'a TcpListener,
    /// Whether the server is to stop.
    stops: AtomicBool,
    /// Whether a session was refused memory.
    is_short: AtomicBool,
    /// How many connections were accepted.
    accepted: AtomicU64,
    /// How often a session thread has taken one of these.
    taken: AtomicU64,
    /// How many of these have ended.
    ended: AtomicU64,
    /// How many clients were refused since all sessions were taken.
    refused: AtomicU64,
}

impl<'a> Door<'a> {
    /// Nobody has come yet.
    pub(crate) fn new(listener: &'a TcpListener) -> Door<'a> {
        Door {
            listener,
            stops: AtomicBool::new(false),
            is_short: AtomicBool::new(false),
            accepted: AtomicU64::new(0),
            taken: AtomicU64::new(0),
            ended: AtomicU64::new(0),
            refused: AtomicU64::new(0),
        }
    }

    /// The address of the listener, if the system could say so.
    pub(crate) fn address(&self) -> Option<SocketAddr> {
        self.listener.local_addr().ok()
    }

    /// From now on more clients may wait to come in.
    pub(crate) fn widen(&self) {
        widen_backlog(self.listener);
    }

    /// The next connection, once there is one.
    pub(crate) fn accept(&self) -> Accepted {
        accept(self.listener)
    }

    /// From now on clients are refused, and a thread that waits for the next connection fails.
    pub(crate) fn close(&self) {
        refuse_all(self.listener);
    }

    /// The server is to stop.
    pub(crate) fn stop(&self) {
        if !self.stops.swap(true, Ordering::SeqCst) {
            self.close();
        }
    }

    /// Whether the server is to stop.
    pub(crate) fn stops(&self) -> bool {
        self.stops.load(Ordering::SeqCst)
    }

    /// A session was refused memory.
    pub(crate) fn run_short(&self) {
        self.is_short.store(true, Ordering::SeqCst);
        self.close();
    }

    /// Whether a session was refused memory.
    pub(crate) fn is_short(&self) -> bool {
        self.is_short.load(Ordering::SeqCst)
    }

    /// A connection is to be sent on.
    pub(crate) fn count_accepted(&self) {
        self.accepted.fetch_add(1, Ordering::SeqCst);
    }

    /// A session thread has taken one.
    pub(crate) fn count_taken(&self) {
        self.taken.fetch_add(1, Ordering::SeqCst);
    }

    /// One that was taken has ended.
    pub(crate) fn count_ended(&self) {
        self.ended.fetch_add(1, Ordering::SeqCst);
    }

    /// A client is to be refused since all sessions are taken. It returns how many were before.
    pub(crate) fn count_refused(&self) -> u64 {
        self.refused.fetch_add(1, Ordering::SeqCst)
    }

    /// How many clients were refused since all sessions were taken.
    pub(crate) fn refused(&self) -> u64 {
        self.refused.load(Ordering::SeqCst)
    }

    /// How many connections were accepted.
    pub(crate) fn accepted(&self) -> u64 {
        self.accepted.load(Ordering::SeqCst)
    }

    /// How often a session thread has taken one.
    pub(crate) fn taken(&self) -> u64 {
        self.taken.load(Ordering::SeqCst)
    }

    /// How many wait to be taken, where each is taken once.
    pub(crate) fn queued(&self) -> u64 {
        self.accepted().saturating_sub(self.taken())
    }

    /// How many of these have not ended.
    pub(crate) fn inside(&self) -> u64 {
        let ended = self.ended.load(Ordering::SeqCst);
        self.accepted().saturating_sub(ended)
    }
}
