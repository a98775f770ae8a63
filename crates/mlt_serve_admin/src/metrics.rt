//! The numbers of a server, in the text format of Prometheus, version 0.0.4.

use crate::process::{push_build, push_process};
use crate::view::Counts;
use mlt_serve_connections::{BOUNDS, Histogram};
use std::alloc::{AllocError, Global};
use std::fmt::{self, Display};

/// One of the numbers of a server.
#[derive(Clone, Copy)]
pub(crate) struct Number {
    /// Its key in /status.
    pub(crate) key: &'static str,
    /// Its name in /metrics, behind `mltx_`.
    name: &'static str,
    /// `counter` where it never falls, and else `gauge`.
    kind: &'static str,
    /// What it is.
    words: &'static str,
    pub(crate) value: u64,
}

// The rows of a table as an array.
macro_rules! numbers {
    ($($key:ident $name:ident $kind:ident $words:literal $value:expr;)*) => {
        [$(Number {
            key: stringify!($key),
            name: stringify!($name),
            kind: stringify!($kind),
            words: $words,
            value: $value,
        }),*]
    };
}

// All numbers, in the order in which they are written.
pub(crate) fn numbers(counts: &Counts) -> [Number; 30] {
    let totals = &counts.totals;
    numbers! {
        server server gauge "A number that the server drew at random when it started." counts.server;
        seconds uptime_seconds gauge "Seconds since the server began to listen." counts.seconds;
        sessions sessions gauge "Clients that are connected to a server without an end, or else served." counts.sessions;
        session_threads session_threads gauge "Threads that serve sessions." counts.session_threads;
        queued queued_connections gauge "Connections that wait for a session thread." counts.queued;
        parked parked_connections gauge "Connections that are idle with no transaction open, and have no session thread." counts.parked;
        connections connections_total counter "Connections that were accepted." counts.connections;
        refused refused_connections_total counter "Clients that were refused since all sessions were taken." counts.refused;
        limit connection_limit gauge "Connections that the server accepts at most." counts.limit;
        open open_transactions gauge "Transactions that are open." totals.open();
        begun transactions_begun_total counter "Transactions that were begun." totals.begun;
        most_begun transaction_limit gauge "Transactions that can begin at most." counts.most_begun;
        operations operations_total counter "Operations that were done." totals.operations;
        commits commits_total counter "Transactions that committed." totals.commits;
        aborts aborts_total counter "Transactions that aborted." totals.aborts;
        gave_up gave_up_total counter "Operations that were answered GaveUp." totals.gave_up;
        deadlocks deadlocks_total counter "Operations that were answered GaveUp to end a deadlock." totals.deadlocks;
        no_room no_room_total counter "Operations that were answered NoRoom." totals.no_room;
        events events_total counter "Events of the transaction manager." counts.events;
        items history_items gauge "Items of the history that are in memory." counts.items;
        bytes history_bytes gauge "Bytes of the history and the outcomes in memory." counts.bytes;
        pages pages gauge "Pages that are in use." counts.pages;
        most_pages most_pages gauge "Pages that there can be at most." counts.most_pages;
        depth directory_depth gauge "Depth of the hash directory." counts.depth;
        room room gauge "Objects that there can be at most, if their pseudokeys spread evenly." counts.room;
        trace trace gauge "1 if there is a trace, else 0." u64::from(counts.has_trace);
        trace_failed trace_failed gauge "1 if the trace could not be written, else 0." u64::from(counts.trace_failed);
        saves saves gauge "1 if the server can save its base, else 0." u64::from(counts.can_save);
        loading loading gauge "1 if the server is loading its data, else 0." u64::from(counts.is_loading);
        stopping stopping gauge "1 if the server is shutting down, else 0." u64::from(counts.is_stopping);
    }
}

/// The numbers, as /metrics tells them.
pub(crate) fn metrics_text(alloc: Global, counts: &Counts) -> Result<String, AllocError> {
    let mut text = String::new(alloc);
    let totals = &counts.totals;
    push_build(&mut text, &counts.build)?;
    for number in &numbers(counts) {
        push_number(&mut text, number)?;
    }
    let words = "Seconds from the answer to begin to the end of the transaction.";
    push_times(
        &mut text,
        "transaction_seconds",
        words,
        &totals.transaction_times,
    )?;
    let words = "Seconds for which an operation waited for other transactions.";
    push_times(&mut text, "wait_seconds", words, &totals.wait_times)?;
    let words = "Seconds for which a connection waited for a session thread.";
    push_times(&mut text, "queue_seconds", words, &totals.queue_times)?;
    push_process(&mut text, &counts.process)?;
    Ok(text)
}

/// The lines in front of what is told under this name, which begins so.
pub(crate) fn push_head(
    text: &mut String,
    beginning: &str,
    name: &str,
    kind: &str,
    words: &str,
) -> Result<(), AllocError> {
    write!(text, "# HELP {beginning}{name} {words}\n")?;
    write!(text, "# TYPE {beginning}{name} {kind}\n")
}

// The lines of a number.
fn push_number(text: &mut String, number: &Number) -> Result<(), AllocError> {
    let Number {
        key: _,
        name,
        kind,
        words,
        value,
    } = number;
    push_head(text, "mltx_", name, kind, words)?;
    write!(text, "mltx_{name} {value}\n")
}

/// So many microseconds, in seconds.
#[derive(Clone, Copy)]
pub(crate) struct Seconds(pub(crate) u64);

impl Display for Seconds {
    fn fmt<W: fmt::Write>(&self, f: &mut fmt::Formatter<W>) -> fmt::Result {
        let (seconds, rest) = (self.0 / 1_000_000, self.0 % 1_000_000);
        write!(f, "{seconds}.{rest:06}")
    }
}

// The lines of a histogram.
fn push_times(
    text: &mut String,
    name: &str,
    words: &str,
    times: &Histogram,
) -> Result<(), AllocError> {
    push_head(text, "mltx_", name, "histogram", words)?;
    let mut sum: u64 = 0;
    for (count, bound) in times.counts.iter().zip(BOUNDS.iter()) {
        sum = sum.wrapping_add(*count);
        push_bucket(text, name, &Seconds(*bound), sum)?;
    }
    sum = sum.wrapping_add(times.counts[BOUNDS.len()]);
    push_bucket(text, name, &"+Inf", sum)?;
    let seconds = Seconds(times.microseconds);
    write!(text, "mltx_{name}_sum {seconds}\n")?;
    write!(text, "mltx_{name}_count {sum}\n")
}

// The line of a bucket: so many took no longer than its bound.
fn push_bucket<B: Display>(
    text: &mut String,
    name: &str,
    bound: &B,
    sum: u64,
) -> Result<(), AllocError> {
    write!(text, "mltx_{name}_bucket{{le=\"{bound}\"}} {sum}\n")
}
