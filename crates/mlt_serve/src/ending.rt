//! How a thread that does something now and then is told that there is nothing left to do.

use std::sync::{Condvar, CondvarTimeouts, Mutex, Wait};
use std::time::{Clock, Duration};

/// Whether there is nothing left to do.
#[derive(Drop)]
pub(crate) struct DoneSignal {
    is_over: Mutex<bool>,
    condvar: Condvar,
}

impl DoneSignal {
    /// There is.
    pub(crate) fn new() -> DoneSignal {
        DoneSignal {
            is_over: Mutex::new(false),
            condvar: Condvar::new(),
        }
    }

    /// There is nothing left to do.
    pub(crate) fn end<R: Wait>(&self, rt: &R) {
        *self.is_over.lock(rt) = true;
        self.condvar.notify_all();
    }

    /// Sleeps for so long, or until there is nothing left to do. It answers whether that is so.
    pub(crate) fn sleep<R: Wait + Clock>(&self, rt: &R, time: Duration) -> bool {
        let is_over = self.is_over.lock(rt);
        let (is_over, _) = self
            .condvar
            .wait_timeout_while(rt, is_over, time, |over| !*over);
        *is_over
    }
}
