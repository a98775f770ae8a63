//! Accounts, sets and counters: their operations, replies and states, and the step that an
//! operation makes on one of them. `Kind` has `apply`, which is the step of the table, and `undo`,
//! which restores the state before it. The laws say the same of whole bases and of the sizes of
//! sets, and which numbers operations and replies can have. `Done` stores an operation with its
//! reply in 24 bytes. No call allocates memory.
#![tactic(auto)]

mod account;
mod counter;
mod done;
mod element;
mod kind;
mod laws;
mod operation;
mod packed;
mod ranges;

pub use account::{Account, AccountOp, MAX_BALANCE};
pub use counter::{Counter, CounterOp};
pub use done::Done;
pub use element::{Element, ElementOp};
pub use kind::Kind;
pub use laws::{sizes_follow_steps, steps_of_bases_are_fixed, steps_of_bases_commute};
pub use operation::{ObjOp, ObjReply};
pub use packed::{OpKind, Packed, ReplyKind};
pub use ranges::{done_fits, fits_16, fits_32, fits_64, op_fits, reply_fits};
