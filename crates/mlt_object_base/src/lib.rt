//! The state of all objects in memory, the meaning of records as objects, and undo lists. `Base`
//! makes the step of an operation by `apply`. `access`, `reply` and `inverse` say which record an
//! operation reads, what it returns and changes, and how it is undone (Weikum 1991). `UndoList` is
//! a list with reserved room, and `take_back` undoes a list of operations on a base, the last one
//! first. A caller of `inverse` has to know that the record is there.
#![tactic(auto)]

mod accounts;
mod base;
mod counters;
mod elements;
mod list;
mod meaning;
mod record;
mod request;
mod sizes;
mod taking_back;
mod text;

pub use base::Base;
pub use list::UndoList;
pub use meaning::{records_mean_bases, size_records_can_be_changed};
pub use record::{RecChange, RecordChanges, access, inverse, reply};
pub use request::Request;
pub use taking_back::take_back;
pub use text::write_base;
