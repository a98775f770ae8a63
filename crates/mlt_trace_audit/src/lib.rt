//! Compares outcomes with a history: `audit` returns Ok exactly if clients were told what the
//! manager has done, and nothing else was done. Otherwise it returns Audit. It requires nothing of
//! either list, and needs no memory: without memory it only takes longer. By
//! `committed_outcomes_are_the_committed_list` the committed outcomes, in the order of their
//! commits, are the committed transactions of the history, and lead to its base.
#![tactic(auto)]

mod any;
mod auditing;
mod laws;
mod numbers;
mod ordered;
mod outcome_items;
mod progress;
mod rising;

pub use auditing::audit;
pub use laws::committed_outcomes_are_the_committed_list;
