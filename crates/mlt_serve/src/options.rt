//! How connections are served.

use mlt_page::{DIR_ENTRIES, SLOTS};
use mlt_types::Limits;
use std::time::Duration;

/// How connections are served.
#[derive(Clone, Copy)]
pub struct ServeOptions {
    /// The limits of the manager.
    pub limits: Limits,
    /// How many session threads there are, 1 to 64.
    pub sessions: usize,
    /// How many connections are accepted in all, from 1.
    pub connections: u64,
    /// How often an operation may be told to wait, or that it is blocked, 1 to 1,000,000. Then it is given up.
    pub tries: u64,
    /// For how long a connection may give no line to answer, or take nothing that is written, if that has an end.
    pub idle: Option<Duration>,
    /// For how long an operation may wait, if that has an end. Then it is given up.
    pub wait: Option<Duration>,
    /// For how long a transaction may be open, if that has an end. Then its session is cut.
    pub open: Option<Duration>,
    /// How many clients may be connected to a server without an end.
    pub clients: u64,
    /// Whether a client is refused that finds as many connected, or else all session threads taken. Else it waits.
    pub refuses: bool,
}

impl ServeOptions {
    /// How many buckets there can be: one for each entry of the deepest directory.
    fn most_buckets(&self) -> u64 {
        2_u64.saturating_pow(self.limits.max_depth)
    }

    /// How many pages there can be: the header, those of the deepest directory, and the buckets; or as many as there may be.
    pub(crate) fn most_pages(&self) -> u64 {
        let buckets = self.most_buckets();
        let pages = buckets.div_ceil(DIR_ENTRIES as u64).saturating_add(buckets);
        pages
            .saturating_add(1)
            .min(u64::from(self.limits.max_pages))
    }

    /// How many records the buckets have room for: one for each object.
    pub(crate) fn room(&self) -> u64 {
        self.most_buckets().saturating_mul(SLOTS as u64)
    }
}
