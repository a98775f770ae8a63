//! Notes.

ghost use Rattle.std.specs.Prelude.{◌<◌};

use std::io;
use std::net::SocketAddr;
use thiserror::Error;

/// Why no more connections are taken.
#[derive(Clone, Copy, Debug, Error)]
pub enum ListenerEnd {
    /// As many were taken as may be.
    #[error("the limit of {0} is reached")]
    Limit(u64),
    /// An accept failed by a fault of the listener, of which the system says this.
    #[error("could not accept a connection: {0}")]
    Accept(io::Error),
    /// A session was refused memory, or the connection that was to be handed on.
    #[error("out of memory")]
    Memory,
    /// The server is to stop.
    #[error("the server is shutting down")]
    Stop,
}

/// Why a session was cut.
#[derive(Clone, Copy, Debug, PartialEq, Eq, Error)]
pub enum Cut {
    /// Its client gave no line to answer, or took nothing that was written, for the idle time.
    #[error("idle for too long")]
    Idle,
    /// A line had more than 200 bytes.
    #[error("line too long")]
    Line,
    /// Its first line was that of an HTTP request.
    #[error("HTTP request received")]
    Http,
    /// It had more bytes than a session may have.
    #[error("too many bytes received")]
    Bytes,
    /// It was refused memory.
    #[error("out of memory")]
    Memory,
    /// Its connection broke.
    #[error("connection lost")]
    Connection,
    /// Its transaction was open for longer than one may be.
    #[error("transaction open for too long")]
    Open,
    /// An operator ended it.
    #[error("ended by the operator")]
    Operator,
    /// The server stopped, and the session did not end in time.
    #[error("the server is shutting down")]
    Stop,
}

/// A log message for an operator.
#[derive(Clone, Copy, Debug, Error)]
pub enum Note {
    /// An accept failed, of which the system says this, and is tried again at once.
    #[error("could not accept a connection, trying again: {0}")]
    AcceptFailed(io::Error),
    /// There are no descriptors or no buffers for a connection, and accepting is tried again ten times a second.
    #[error("could not accept connections, new clients wait: {0}")]
    AcceptPauses(io::Error),
    /// Accepting goes on after pauses.
    #[error("accepting connections again")]
    AcceptGoesOn,
    /// No more connections are taken.
    #[error("accepting no more connections: {0}")]
    AcceptEnded(ListenerEnd),
    /// The session of this client was cut.
    #[error("client {0} disconnected: {1}")]
    SessionCut(u32, Cut),
    /// So many connections were taken, of so many that may be: nine in ten.
    #[error("{0} of {1} connections are used")]
    FewConnectionsLeft(u64, u64),
    /// So many numbers of transactions were given out, of so many that there are: nine in ten.
    #[error("{0} of {1} transaction numbers are used")]
    FewNumbersLeft(u64, u64),
    /// There are so many pages, of so many that may be: nine in ten.
    #[error("{0} of {1} pages are used")]
    FewPagesLeft(u64, u64),
    /// The directory is as deep as it may be, which is so deep: buckets that are full can't be split.
    #[error("the directory has reached its greatest depth, {0}")]
    DeepestDirectory(u64),
    /// An operation was refused for want of room, the first one.
    #[error("the first operation was refused for lack of room (NoRoom)")]
    NoRoom,
    /// A transaction or an operation was refused for want of memory, the first one.
    #[error("the first operation was refused for lack of memory (OutOfMemory)")]
    NoMemory,
    /// All numbers of transactions are used, so a begin was refused, the first one.
    #[error("all transaction numbers are used, no transaction begins (IdsSpent)")]
    NoNumber,
    /// A client was refused since all sessions were taken, the first one.
    #[error("the first client was refused, all sessions are taken (TooManyOpen)")]
    NoSession,
    /// A client was refused since so many are connected, the first one.
    #[error("the first client was refused, {0} clients are connected (TooManyOpen)")]
    NoPlace(u64),
    /// So many clients wait for a session thread, and none was taken for a second.
    #[error("clients wait for a session, since all are busy: {0}")]
    ClientsWait(u64),
    /// The operator's address is not loopback.
    #[error("the admin address {0} is not loopback")]
    OpenAdmin(SocketAddr),
    /// So many session threads run, of so many that were asked for.
    #[error("only {0} of {1} session threads are running")]
    FewThreads(u64, u64),
    /// The trace can't be written, of which the system says this. It is written no further.
    #[error("could not write the trace, which ends here: {0}")]
    TraceFailed(io::Error),
    /// The trace has taken nothing for so many seconds.
    #[error("the trace has taken nothing for {0} seconds")]
    TraceWaits(u64),
    /// So many items wait to be written into the trace, and no transaction begins until they are.
    #[error("{0} items wait for the trace, no transaction begins")]
    BeginsRefused(u64),
    /// The trace takes bytes again, and transactions begin.
    #[error("writing the trace again")]
    TraceGoesOn,
}

/// How many kinds of log messages are told apart.
pub(crate) const NOTE_KINDS: usize = 5;

impl Note {
    /// The number of its kind. Those of the last kind come seldom, most of them once.
    pub(crate) fn kind(&self) -> usize
        ensures { result < 5 }
    {
        match self {
            Note::SessionCut(..) => 0,
            Note::AcceptFailed(_) => 1,
            Note::AcceptPauses(_) => 2,
            Note::AcceptGoesOn => 3,
            _ => 4,
        }
    }
}
