//! Locks on objects: `ask` grants an operation with its reply exactly if no other transaction holds
//! one that clashes with it, and otherwise returns the lowest such transaction. `ObjectLocks` keeps
//! the classes of the operations that each transaction holds, by cell and set, until it ends. The
//! operations themselves exist only in contracts, as a `GhostList`. Only `reserve` can be refused
//! memory. The time that a call takes is only measured.
#![tactic(auto)]

mod cells;
mod classes;
mod holders;
mod locks;
mod noted;
mod places;
mod reserved;

pub use locks::ObjectLocks;
