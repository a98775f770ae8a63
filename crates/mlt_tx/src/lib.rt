//! One transaction of a manager, and what each of its steps does to the pages, the object locks and
//! the history, which all transactions share. `call` of a `Transaction` reserves all memory for the
//! end of the operation and for undoing it, so no step of an abort is refused. An operation is done
//! only if no other transaction holds a clashing one; otherwise it is rolled back and runs again.
//! `OpenTransactions` finds transactions by their numbers.
#![tactic(auto)]

mod activity;
mod ending;
mod fast;
mod shared;
mod stepping;
mod table;
mod transaction;
mod tx_slot;

pub use activity::{Activity, ActivityState};
pub use shared::SharedState;
pub use table::OpenTransactions;
pub use transaction::{At, Transaction};
