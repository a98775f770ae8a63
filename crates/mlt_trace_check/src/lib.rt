//! Checks a trace: whether its committed transactions, run alone in the order of their commits, get
//! the replies that the trace has. `check_trace` accepts exactly the accepted traces, and reports
//! the first fault of any other text. `check_long_trace` does the same for a trace of any length;
//! it may write lines before a fault, and that its memory does not grow with the input is in no
//! clause. By `history_passes_the_checker` the text of each manager's history is accepted.
#![tactic(auto)]

mod check_engine;
mod checker;
mod first_line;
mod laws;
mod long_check;
mod plain;
mod progress;
mod ranges;
mod reading;
mod trace_check;
mod words;

pub use check_engine::check_trace;
pub use laws::{
    accepted_traces_have_one_answer, history_passes_the_checker, items_stay_placed,
    texts_are_accepted_or_faulty, texts_have_one_first_fault, transactions_stay_whole,
    written_items_are_read,
};
pub use long_check::check_long_trace;
pub use ranges::placed_items_are_writable;
pub use trace_check::{Order, check};
