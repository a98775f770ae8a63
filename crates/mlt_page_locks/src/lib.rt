//! Locks on pages: `ask` grants a lock exactly if it is compatible with all other holders of the
//! page, and otherwise returns the lowest holder in the way (Gray, Lorie, Putzolu and Traiger
//! 1976). `PageLocks` has a sorted list for each open transaction, and masks that show which lists
//! have to be searched. Only `new` can be refused memory. Waiting, fairness and deadlocks are left
//! to the caller.
#![tactic(auto)]

mod lock_list;
mod marks;
mod page_locks;

pub use page_locks::{Grant, PageLocks};
