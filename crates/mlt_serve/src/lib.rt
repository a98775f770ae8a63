//! A server over TCP: threads serve connections side by side on one manager. The outcomes that
//! `serve_on` returns agree with the manager's history. `serve_endless` keeps no outcomes: each
//! transaction has one, of which the history has the replies, in order, and the commit or the abort. A
//! base was loaded piece by piece, as its lines and answers say, and its outcomes are among these. That these are the
//! outcomes of all sessions, that sessions run at once, that slow or silent clients stop nobody else,
//! that log messages and traces are written, and that memory stays flat is only tested.
#![tactic(auto)]

mod accepting;
mod door;
mod ending;
mod endless;
mod gathering;
mod guarded_desk;
mod loader;
mod lobby;
mod operating;
mod operator;
mod options;
mod reporting;
mod service;
mod serving;
mod session_thread;
mod supervising;
mod tallying;
mod threads_beside;
mod trace_keeping;

pub use endless::{ServedEndless, serve_endless};
pub use mlt_serve_admin::{Build, ProcessFiles};
pub use operating::{
    Admin, BaseFile, BaseSource, EndSignal, LoadFailure, NoBase, NoBaseFile, NoSignal, Operating,
    Piece, TraceFile,
};
pub use options::ServeOptions;
pub use serving::{Served, serve_on};
