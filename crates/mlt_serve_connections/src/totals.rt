//! What session threads count.

ghost use Rattle.std.specs.Prelude.{◌≡◌, ◌+◌, ◌-◌, ◌^◌, min};

use crate::histogram::Histogram;

/// What one session thread has counted, or all of them. Each count stays at 2^64 - 1.
#[derive(Clone, Copy, Default)]
pub struct Totals {
    /// How many transactions were begun.
    pub begun: u64,
    /// How many operations were done.
    pub operations: u64,
    /// How many transactions have committed.
    pub commits: u64,
    /// How many were taken back.
    pub aborts: u64,
    /// How many operations gave up.
    pub gave_up: u64,
    /// How many of these did since their transaction was the youngest of a cycle of waits.
    pub deadlocks: u64,
    /// How many operations were refused for want of room.
    pub no_room: u64,
    /// How many operations and begins were refused for want of memory.
    pub no_memory: u64,
    /// How many begins were refused since all numbers of transactions are used.
    pub no_number: u64,
    /// How long transactions took, from when others first saw them, which is the first answer behind their begin; 0, where they did not.
    pub transaction_times: Histogram,
    /// How long operations waited, from when they were first told to.
    pub wait_times: Histogram,
    /// For how long connections waited for a session thread.
    pub queue_times: Histogram,
}

/// Counts one more.
pub(crate) fn add_one(count: &mut u64) {
    *count = count.saturating_add(1);
}

impl Totals {
    /// Adds what another thread has counted.
    pub(crate) fn add(&mut self, other: &Totals) {
        self.begun = self.begun.saturating_add(other.begun);
        self.operations = self.operations.saturating_add(other.operations);
        self.commits = self.commits.saturating_add(other.commits);
        self.aborts = self.aborts.saturating_add(other.aborts);
        self.gave_up = self.gave_up.saturating_add(other.gave_up);
        self.deadlocks = self.deadlocks.saturating_add(other.deadlocks);
        self.no_room = self.no_room.saturating_add(other.no_room);
        self.no_memory = self.no_memory.saturating_add(other.no_memory);
        self.no_number = self.no_number.saturating_add(other.no_number);
        self.transaction_times.add_all(&other.transaction_times);
        self.wait_times.add_all(&other.wait_times);
        self.queue_times.add_all(&other.queue_times);
    }

    /// How many transactions have ended; it stays at 2^64 - 1.
    pub fn ended(&self) -> u64
        ensures { result ≡ min (self.now.commits + self.now.aborts) (2 ^ 64 - 1) }
    {
        self.commits.saturating_add(self.aborts)
    }

    /// How many are open.
    pub fn open(&self) -> u64
        ensures { result
            ≡ self.now.begun - min (self.now.commits + self.now.aborts) (2 ^ 64 - 1) }
    {
        self.begun.saturating_sub(self.ended())
    }
}
