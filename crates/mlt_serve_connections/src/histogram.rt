//! How long transactions and waits take.

ghost use Rattle.std.specs.Prelude.{◌≤◌};

use std::time::{Duration, Instant};

/// How many buckets a histogram has: one for each bound, and one above them.
const BUCKETS: usize = 18;

/// The greatest time of each bucket but the last, in microseconds.
pub const BOUNDS: [u64; BUCKETS - 1] = [
    50, 100, 200, 500, 1_000, 2_000, 5_000, 10_000, 20_000, 50_000, 100_000, 200_000, 500_000,
    1_000_000, 2_000_000, 5_000_000, 10_000_000,
];

/// How many times fell into each bucket, and their sum in microseconds. Each count is modulo 2^64.
#[derive(Clone, Copy, Default)]
pub struct Histogram {
    /// How many times there were above the bound of the bucket before, and not above that of their own.
    pub counts: [u64; BUCKETS],
    /// The sum of all times.
    pub microseconds: u64,
}

impl Histogram {
    /// Adds the time that has passed; none, where a clock could not say when it began or ended.
    pub(crate) fn add(&mut self, since: Option<Instant>, now: Option<Instant>) {
        let elapsed = match (since, now) {
            (Some(since), Some(now)) => now.saturating_duration_since(since),
            _ => Duration::ZERO,
        };
        let microseconds = u64::try_from(elapsed.as_micros()).unwrap_or(u64::MAX);
        let count = &mut self.counts[bucket_of(microseconds)];
        *count = count.wrapping_add(1);
        self.microseconds = self.microseconds.wrapping_add(microseconds);
    }

    /// Adds the times of another.
    pub(crate) fn add_all(&mut self, other: &Histogram) {
        for (count, more) in self.counts.iter_mut().zip(other.counts.iter()) {
            *count = count.wrapping_add(*more);
        }
        self.microseconds = self.microseconds.wrapping_add(other.microseconds);
    }
}

/// The bucket of a time.
fn bucket_of(microseconds: u64) -> usize
    ensures { result ≤ 17 }
{
    BOUNDS
        .iter()
        .position(|bound| microseconds <= *bound)
        .unwrap_or(BUCKETS - 1)
}
