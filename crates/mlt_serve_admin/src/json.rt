//! What a server is, in JSON.

use crate::metrics::{Number, numbers};
use crate::view::{Counts, SessionView, WaitView};
use mlt_object_kinds::Done;
use mlt_serve_connections::{BOUNDS, Histogram};
use mlt_types::TxId;
use serde::{Described, Serialize, Serializer};
use std::fmt::Display;

/// Who waits for whom, as /waits tells it.
#[derive(Drop, Serialize)]
pub(crate) struct Waits {
    pub(crate) waits: Vec<WaitView>,
}

/// The sessions that are served, as /sessions tells them.
#[derive(Drop, Serialize)]
pub(crate) struct Sessions {
    pub(crate) sessions: Vec<SessionView>,
}

/// The objects that are listed, as /base tells them.
#[derive(Drop, Serialize)]
pub(crate) struct Objects {
    pub(crate) objects: Vec<NumberedObject>,
    /// The place from which the next ones are listed, if there may be more.
    pub(crate) next: Option<u32>,
}

/// An object of a kind.
#[derive(Clone, Copy, Serialize)]
pub(crate) struct NumberedObject {
    pub(crate) number: u64,
    #[serde(skip_serializing_if = "Option::is_none")]
    pub(crate) value: Option<u64>,
}

/// The times of a histogram, as /status tells them.
#[derive(Clone, Copy, Serialize)]
struct Times {
    /// The greatest time of each bucket but the last, in microseconds.
    bounds: [u64; 17],
    /// How many times are in each bucket.
    counts: [u64; 18],
    /// The sum of all times, in microseconds.
    microseconds: u64,
}

impl Times {
    fn of(times: &Histogram) -> Times {
        Times {
            bounds: BOUNDS,
            counts: times.counts,
            microseconds: times.microseconds,
        }
    }
}

impl Described for Counts {}

impl Serialize for Counts {
    fn serialize<S: Serializer>(&self, out: &mut S) -> Result<(), S::Error> {
        let numbers = numbers(self);
        let (server, others) = numbers.split_at(1);
        out.begin_map(None)?;
        all_numbers(server, out)?;
        out.key("version")?;
        out.collect_str(&self.build)?;
        out.key("address")?;
        text_or_null(&self.address, out)?;
        all_numbers(others, out)?;
        out.key("memory")?;
        self.process.resident.serialize(out)?;
        out.key("transaction_times")?;
        Times::of(&self.totals.transaction_times).serialize(out)?;
        out.key("wait_times")?;
        Times::of(&self.totals.wait_times).serialize(out)?;
        out.key("queue_times")?;
        Times::of(&self.totals.queue_times).serialize(out)?;
        out.end_map()
    }
}

// Each under its key.
fn all_numbers<S: Serializer>(numbers: &[Number], out: &mut S) -> Result<(), S::Error> {
    for number in numbers {
        out.key(number.key)?;
        out.u64(number.value)?;
    }
    Ok(())
}

// How fields are written whose types are not those of this crate: what is missing is null.

pub(crate) fn number<S: Serializer>(tx: &TxId, out: &mut S) -> Result<(), S::Error> {
    out.u64(tx.0)
}

pub(crate) fn text_or_null<T: Display, S: Serializer>(
    value: &Option<T>,
    out: &mut S,
) -> Result<(), S::Error> {
    match value {
        Some(value) => out.collect_str(value),
        None => out.unit(),
    }
}

// Each with its reply, as a trace has them.
pub(crate) fn all_done<S: Serializer>(did: &Vec<Done>, out: &mut S) -> Result<(), S::Error> {
    out.begin_seq(Some(did.len()))?;
    for done in did {
        out.collect_str(done)?;
    }
    out.end_seq()
}
