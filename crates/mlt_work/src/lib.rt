//! Runs the scripts of many clients side by side, by workers in threads on one manager. By the
//! contract of `run` each script has an outcome, told at a desk with the tries of the options, the
//! outcomes agree with the manager's history, and the committed ones, run alone in commit order,
//! lead to the base of the report. `run_scripts` reads the scripts and writes the report. Each
//! client is claimed once, and none is left out: workers draw numbers from a `ClientCounter` by an
//! atomic addition, without a lock, and `collect` joins what they return. That workers take turns,
//! that blocked scripts get through or are undone, and that Audit is never returned is only tested,
//! and which worker runs which client is not specified.
#![tactic(auto)]

mod claim_handles;
mod client_order;
mod collecting;
mod counter;
mod engine;
mod forms;
mod reporting;
mod running;
mod start_line;
mod worker;
mod worker_gate;

pub use engine::run_scripts;
pub use mlt_work_desk::NoGate;
pub use running::{RunOptions, run};
