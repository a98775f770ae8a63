//! Notes on their way to who writes them.

use crate::note::Note;
use crossbeam_channel::{Receiver, RecvTimeoutError, Sender};
use mlt_work_waits::tuning::{LAST_WRITES_SECONDS, LOST_NOTES_SECONDS, MOST_NOTES_WAITING};
use std::alloc::{AllocError, Global};
use std::sync::atomic::{AtomicBool, AtomicU64, Ordering};
use std::sync::{Arc, Wait};
use std::time::{Clock, Duration, SystemTime};

/// A note with its time.
#[derive(Clone, Copy)]
pub(crate) struct TimedNote {
    pub(crate) note: Note,
    /// How many seconds after the start of 1970 it was sent, if a clock could say so.
    pub(crate) seconds: Option<u64>,
}

/// The sending end of the notes. A thread that sends one never waits: if too many are on their way it is lost, and only counted.
#[derive(Drop)]
pub struct Notes {
    to: Sender<TimedNote, Global>,
    lost: Arc<AtomicU64>,
    /// Whether one was sent that the trace can't be written.
    has_trace_failed: AtomicBool,
    /// Nothing comes by it. It is closed once the outlet is gone.
    outlet_is_gone: Receiver<(), Global>,
}

/// The receiving end of the notes. It needs nothing of the senders, so the thread that writes notes may outlive all others.
#[derive(Drop)]
pub struct Outlet {
    from: Receiver<TimedNote, Global>,
    /// How many were lost since this was written last.
    pub(crate) lost: Arc<AtomicU64>,
    _here: Sender<(), Global>,
}

impl Notes {
    /// Both ends of a queue of notes.
    ///
    /// # Errors
    /// Where a growth is refused.
    pub fn new(alloc: Global) -> Result<(Notes, Outlet), AllocError> {
        let (to, from) = crossbeam_channel::bounded(alloc, MOST_NOTES_WAITING)?;
        let (here, outlet_is_gone) = crossbeam_channel::bounded(alloc, 1)?;
        let lost = Arc::new(alloc, AtomicU64::new(0))?;
        let outlet = Outlet {
            from,
            lost: lost.clone()?,
            _here: here,
        };
        let notes = Notes {
            to,
            lost,
            has_trace_failed: AtomicBool::new(false),
            outlet_is_gone,
        };
        Ok((notes, outlet))
    }

    /// Sends a note, at once.
    pub fn tell<R: Wait + Clock>(&self, rt: &R, note: Note) {
        let seconds = seconds_now(rt);
        if matches!(note, Note::TraceFailed(_)) {
            self.has_trace_failed.store(true, Ordering::SeqCst);
        }
        if self.to.try_send(rt, TimedNote { note, seconds }).is_err() {
            self.lost.fetch_add(1, Ordering::SeqCst);
        }
    }

    /// Whether a note was sent that the trace can't be written.
    pub fn has_trace_failed(&self) -> bool {
        self.has_trace_failed.load(Ordering::SeqCst)
    }

    /// No more notes follow. It waits until those that were sent are written, but for 5 seconds at most: their reader may have
    /// stopped, and a thread in a write can't be called back.
    pub fn end<R: Wait + Clock>(self, rt: &R) {
        let Notes {
            to,
            outlet_is_gone,
            ..
        } = self;
        drop(to);
        // It fails, since the outlet is gone or the time is over.
        let _ = outlet_is_gone.recv_timeout(rt, Duration::from_secs(LAST_WRITES_SECONDS));
    }
}

impl Outlet {
    /// The next note, once there is one.
    ///
    /// # Errors
    /// `Timeout`, where some were lost and none came for a second. `Disconnected`, where no more follow.
    pub(crate) fn next<R: Wait + Clock>(&self, rt: &R) -> Result<TimedNote, RecvTimeoutError> {
        if self.lost.load(Ordering::SeqCst) > 0 {
            return self
                .from
                .recv_timeout(rt, Duration::from_secs(LOST_NOTES_SECONDS));
        }
        self.from
            .recv(rt)
            .map_err(|_| RecvTimeoutError::Disconnected)
    }
}

/// How many seconds have passed since the start of 1970, if the clock can say so.
fn seconds_now<R: Clock>(clock: &R) -> Option<u64> {
    let now = SystemTime::now(clock).ok()?;
    let since = now.duration_since(SystemTime::UNIX_EPOCH).ok()?;
    Some(since.as_secs())
}
