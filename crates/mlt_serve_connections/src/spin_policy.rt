//! Whether a session spins before it sleeps, that is looks again and again for what its client sends.

use std::sync::atomic::{AtomicU64, Ordering};
use std::thread;
use std::thread::Threads;

/// How many sessions there are. Each of them spins while they are fewer than the processors: so one processor is left for clients.
#[derive(Drop)]
pub struct SpinPolicy {
    sessions: AtomicU64,
    processors: u64,
}

impl SpinPolicy {
    /// No session yet.
    pub fn new<R: Threads>(rt: &R) -> SpinPolicy {
        let processors = thread::available_parallelism(rt).map_or(1, |count| count.get() as u64);
        SpinPolicy {
            sessions: AtomicU64::new(0),
            processors,
        }
    }

    /// A session comes.
    pub fn enter(&self) {
        self.sessions.fetch_add(1, Ordering::SeqCst);
    }

    /// A session ends.
    pub fn leave(&self) {
        self.sessions.fetch_sub(1, Ordering::SeqCst);
    }

    /// Whether sessions may spin at the moment.
    pub fn allows_spinning(&self) -> bool {
        self.sessions.load(Ordering::SeqCst) < self.processors
    }
}
