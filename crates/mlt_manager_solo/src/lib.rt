//! Runs scripts from a reader, one after another, on a manager, and writes the text of their serial
//! run. By the contract of `solo` each begin, operation and end of a script is an event of the
//! manager, whose result the text shows. A script that is refused with OutOfMemory, NoRoom, LogFull
//! or IdsSpent leaves no change, and the next one follows. That `solo` goes on after a refusal of
//! memory is only tested.
#![tactic(auto)]

mod engine;
mod manager_desk;
mod running;

pub use engine::solo;
