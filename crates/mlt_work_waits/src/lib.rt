//! The waits-for graph of transactions, in which no cycle ever stands, and the queue of blocked
//! operations (Bernstein, Hadzilacos and Goodman 1987, section 3.4). `WaitsFor` adds a wait by
//! `join` exactly if that closes no cycle and there is room, and `youngest` returns the victim of a
//! cycle. `BlockedQueue` tells by `last_before` behind which operation a new one waits. `Desks` has
//! both, and says of each event whether its desk sleeps, and which others wake. A `Gate` can delay a
//! client. An `AdmissionQueue` admits few threads to work on a manager at a time, in the order in
//! which they come; a `PassHolder` is the way of one thread through it, which leaves where it would
//! wait. `tuning` has the constants of all waits. No call takes memory. That each wait ends is not
//! proved, nor that each thread is admitted.
#![tactic(auto)]

mod admission_queue;
mod blocked_queue;
mod clashing;
mod desks;
mod gate;
mod pass_holder;
pub mod tuning;
mod turn;
mod wait;
mod waits;

pub use admission_queue::{AdmissionQueue, AdmissionRules};
pub use blocked_queue::{Blocked, BlockedQueue};
pub use clashing::may_clash;
pub use desks::Desks;
pub use gate::{Gate, NoGate, Notice, is_to_wait};
pub use pass_holder::{AfterAnswer, PassHolder};
pub use turn::{SleepingThread, Turn, goes_on, is_done};
pub use wait::{Awaited, Waiting, Waker, Wakers, Whose};
pub use waits::WaitsFor;
