//! The order of the first clients, and of all others.

use std::sync::{Condvar, Mutex, Wait};

/// Has the scripts of the first clients executed one client after another, and those of the others after them.
#[derive(Drop)]
pub(crate) struct ClientOrder {
    /// How many clients are the first ones.
    first: u64,
    /// How many of these are done.
    done: Mutex<u64>,
    condvar: Condvar,
}

impl ClientOrder {
    /// One with so many first clients.
    pub(crate) fn new(first: u64) -> ClientOrder {
        ClientOrder {
            first,
            done: Mutex::new(0),
            condvar: Condvar::new(),
        }
    }

    /// Whether the client in this place, from 0, may have to wait for others.
    pub(crate) fn may_wait(&self, place: u64) -> bool {
        place.min(self.first) > 0
    }

    /// Waits until the scripts of the client in this place, from 0, may be executed. The clients before it were claimed before.
    pub(crate) fn wait<R: Wait>(&self, rt: &R, place: u64) {
        let before = place.min(self.first);
        let done = self.done.lock(rt);
        let _done = self.condvar.wait_while(rt, done, |done| *done < before);
    }

    /// The scripts of the client in this place were executed.
    pub(crate) fn end<R: Wait>(&self, rt: &R, place: u64) {
        if place < self.first {
            self.let_in(rt, place + 1);
        }
    }

    /// No client waits any more.
    pub(crate) fn release<R: Wait>(&self, rt: &R) {
        self.let_in(rt, self.first);
    }

    fn let_in<R: Wait>(&self, rt: &R, done: u64) {
        *self.done.lock(rt) = done;
        self.condvar.notify_all();
    }
}
