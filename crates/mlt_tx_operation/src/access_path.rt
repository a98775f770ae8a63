//! How an operation comes to its records.

use mlt_hash::Walk;
use mlt_tx_two_records::TwoRecordWalk;

/// How an operation comes to its records.
#[derive(Drop)]
pub enum AccessPath {
    /// By a walk, to the one that it has.
    One(Walk),
    /// To two: it adds an element or removes one, or takes that back, so it changes the size of a set too.
    Two(TwoRecordWalk),
}
