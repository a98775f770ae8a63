//! Runs scripts, one after another on a base or at any desk, and writes the report of what became
//! of them. `serial` returns the report of a serial run. `run_script` returns an outcome whose
//! replies are the answers of the `Desk` to just the operations that the script asks for. `Cursor`
//! holds what a script asks next. `write_report` writes the text of the report. If memory is
//! refused while `serial` undoes a script, the whole call fails.
#![tactic(auto)]

mod answering;
mod base_desk;
mod call;
mod client;
mod cursor;
mod desk;
mod desk_run;
mod fake;
mod fake_desk;
mod most;
mod outcome;
mod playing;
mod report;
mod run;
mod skipping;

pub use answering::Answering;
pub use call::{DeskAnswer, DeskCall};
pub use client::run_client;
pub use cursor::{Cursor, Next};
pub use desk::Desk;
pub use desk_run::run_script;
pub use fake_desk::FakeDesk;
pub use most::most_asked;
pub use outcome::{End, Outcome, Outcomes, Transcript};
pub use playing::play;
pub use report::{Report, ReportForm, push_reply, write_outcomes, write_report};
pub use run::{scripts_and_marks_fix_the_run, serial, serial_with_marks};
