//! The command line: `read_words` returns the job that the arguments ask for, with all numbers in
//! range. `report_command_line` writes the help, the version or what is wrong with the arguments,
//! and `command_line_status` is the status of each. `report_fault` writes the line of a fault.
//! Which job the arguments ask for, and all texts of help, are only tested.
#![tactic(auto)]

mod commands;
mod fault;
mod report;
mod words;

pub use commands::VERSION;
pub use fault::{FaultLine, report_fault, status};
pub use report::{command_line_status, report_command_line};
pub use words::{
    Check, CommandLine, Connections, Full, Hash, Job, OperatorOptions, Run, Schedule, Serve, Times,
    Work, read_words,
};
