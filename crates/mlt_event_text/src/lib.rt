//! Reads schedules of events and the lines of sessions, and prints the results of events.
//! `parse_events` accepts exactly the texts of the grammar, and returns the first fault of any
//! other text. `next_line` returns the first line of a session's input as a `Command`, or says that
//! it is too long, wherever the input was cut into reads. `told_text` returns one line for each
//! result. Whether a number is that of an open transaction is checked by the manager.
#![tactic(auto)]

mod command;
mod forms;
mod line;
mod parser;
mod session_line;
mod tells;

pub use command::Command;
pub use forms::read_only_op;
pub use parser::parse_events;
pub use session_line::{SessionLine, next_line};
pub use tells::told_text;
