//! Connections of a server, its session threads, and the log. A `Socket` reads and writes, `accept`
//! sorts the errors of an accept, and `lingering_close` ends a connection without losing its last
//! answers. By a `ThreadLimit` few threads run at a time, and a session leaves its thread to others
//! between two transactions. By an `Admission` three sessions are at work at a time, and one more
//! bypasses the queue. A session thread notes what it does in the record at its `Seat`, where others
//! see and cut its session. `Notes` are log messages, written by a thread of their own, so a slow
//! reader of standard error delays no session. Only safety, that a read fits its buffer, which lines
//! count as HTTP, and two lists of errors are proved; all else is only tested.
#![tactic(auto)]

mod accepting;
mod admission;
mod closing;
mod histogram;
mod lines;
mod note;
mod notes;
mod presence;
mod seat;
mod socket;
mod spin_policy;
mod thread_limit;
mod totals;
mod writing;

pub use accepting::{Accepted, accept, refuse_all, widen_backlog};
pub use admission::{Admission, Outside, session_queue};
pub use closing::{lingering_close, read_away_now};
pub use histogram::{BOUNDS, Histogram};
pub use note::{Cut, ListenerEnd, Note};
pub use notes::{Notes, Outlet};
pub use presence::{is_broken, is_read_out};
pub use seat::{OpenTransaction, OperationWait, Patience, Seat, SeatRecord, Seats};
pub use socket::{Remains, Socket, SocketFailure, is_readable, make_ready};
pub use spin_policy::SpinPolicy;
pub use thread_limit::{RunningThread, ThreadLimit};
pub use totals::Totals;
pub use writing::write_notes;
