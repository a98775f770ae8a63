//! The manager of transactions: for any interleaving of their steps, the committed transactions are
//! a serial run in commit order, and the pages mean its base. `Manager` has one call for each
//! event: `begin`, `call`, `step`, `commit` and `abort`, and `whole` to run an operation to its
//! end. The contract of `play`, which executes a list of events, is the main theorem;
//! `keeps_its_promises` gives a caller the same. An abort may leave splits, and records with the
//! value 0.
#![tactic(auto)]

mod base;
mod image;
mod manager;
mod parts;

pub use image::BaseImage;
pub use manager::Manager;
