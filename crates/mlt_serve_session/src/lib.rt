//! Executes the lines of a session at any desk, and writes one answer for each. What `session`
//! writes, asks and records is a function of the bytes that it has read and of the desk's answers,
//! however the input was cut into reads. A transaction that is open at the end is aborted.
//! `Receipts` take the outcomes: a list keeps them, and a `Tally` counts
//! them. That an answer is written before the next read is only tested.
#![tactic(auto)]

mod line_source;
mod notes;
mod noting;
mod receipts;
mod said;
mod sessions;
mod tally;
mod turn;

pub use line_source::LineSource;
pub use receipts::{EndedTx, Receipts};
pub use sessions::{Summary, session};
pub use tally::Tally;
