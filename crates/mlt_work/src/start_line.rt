//! How workers begin side by side.

use mlt_work_waits::tuning::START_MILLISECONDS;
use std::sync::{Condvar, CondvarTimeouts, Mutex, Wait};
use std::time::{Clock, Duration};

/// Has the first turn of workers begin once all of them have come, since a thread that begins late may find a short run at its end.
/// Where one does not come for some time they begin without it: if a thread was refused, its job waits for the end of another one.
#[derive(Drop)]
pub(crate) struct StartLine {
    /// How many workers are still to come.
    missing: Mutex<u64>,
    condvar: Condvar,
}

impl StartLine {
    /// So many workers are to come.
    pub(crate) fn new(workers: usize) -> StartLine {
        StartLine {
            missing: Mutex::new(workers as u64),
            condvar: Condvar::new(),
        }
    }

    /// A worker has come.
    pub(crate) fn come<R: Wait>(&self, rt: &R) {
        let mut missing = self.missing.lock(rt);
        *missing = missing.saturating_sub(1);
        drop(missing);
        self.condvar.notify_all();
    }

    /// Waits for those that are still to come.
    pub(crate) fn wait<R: Wait + Clock>(&self, rt: &R) {
        let missing = self.missing.lock(rt);
        let time = Duration::from_millis(START_MILLISECONDS);
        let (mut missing, _) = self
            .condvar
            .wait_timeout_while(rt, missing, time, |missing| *missing > 0);
        *missing = 0;
    }
}
