//! Reads and prints scripts: `parse` accepts exactly the texts of the grammar, and returns the
//! first fault of any other text. A `Script` is stored as its lines; a contract sees a tree of
//! statements, with at most 256 operations on a path. `print` writes a text that is read again as
//! the same scripts, and `by_client` groups scripts by client. `front_op`, `op_line` and
//! `front_reply` read lines as they are usually written; that they recognize these is only tested.
#![tactic(auto)]

mod clients;
mod forms;
mod frame;
mod line;
mod line_text;
mod open_script;
mod operations;
mod parser;
mod plain;
mod printer;
mod ranges;
mod script;
mod statement;

pub use clients::by_client;
pub use operations::{read_op, read_reply};
pub use parser::parse;
pub use plain::{front_op, front_reply, op_line};
pub use printer::print;
pub use script::Script;
pub use statement::{AmountOp, Asking, Ending, Line, Source, Statement, Wanted};
