//! Why a call was refused.

ghost use Rattle.std.specs.Prelude.{◌≡◌, ◌≤◌};
ghost use Rattle.mlt_types.specs.Refusals.{number_of, name_of, script_cause_name, trace_cause_name};
ghost use Rattle.mlt_types.specs.declared.refusal.Refusal.TheVariants.{OutOfMemory};

use std::alloc::{AllocError, AllocFailed};
use thiserror::Error;

/// What is wrong with a line of a script or an event text, in the order in which faults of one line come.
#[derive(Clone, Copy, Debug, PartialEq, Eq)]
pub enum ScriptCause {
    /// More than 200 bytes, or outside a comment a byte that is not allowed.
    Line,
    /// None of the forms, or a number out of its range.
    Words,
    /// A form that may not stand there.
    Place,
    /// An `if` inside 16 others.
    Deep,
    /// The longest path to this operation has 257 operations.
    Long,
    /// The input ends inside a script.
    Unfinished,
}

/// What is wrong with a line of a trace, in the order in which faults of one line come.
#[derive(Clone, Copy, Debug, PartialEq, Eq)]
pub enum TraceCause {
    /// More than 200 bytes, or a byte that is not allowed.
    Line,
    /// The input ends inside the line.
    Cut,
    /// None of the forms.
    Words,
    /// A form that may not stand there.
    Place,
    /// A transcript that is not legal where it is committed.
    Reply,
}

/// Why a call was refused. Printed refusals are built from `number` and `name`.
#[derive(Clone, Copy, Debug, PartialEq, Eq, Error)]
pub enum Refusal {
    /// A growth or a thread was refused in this call.
    #[error("out of memory")]
    OutOfMemory,
    /// An insert needs a split past the depth limit, or a page past the page limit.
    #[error("no room")]
    NoRoom,
    /// The number is not that of an open transaction.
    #[error("no such transaction")]
    NoSuchTx,
    /// The transaction's abort has begun and not ended.
    #[error("the transaction is being undone")]
    Undoing,
    /// The transaction has a pending operation.
    #[error("the transaction has a pending operation")]
    Running,
    /// The transaction has nothing to step, to cancel or to undo.
    #[error("the transaction has no pending operation")]
    NotRunning,
    /// As many transactions are open as may be.
    #[error("too many transactions are open")]
    TooManyOpen,
    /// The transaction has as many operations as it may have.
    #[error("the transaction has too many operations")]
    LogFull,
    /// All numbers of transactions were given out.
    #[error("all transaction numbers are spent")]
    IdsSpent,
    /// A script or an event text is faulty.
    #[error("line {line} of the script is faulty: {cause:?}")]
    ScriptFault { line: u64, cause: ScriptCause },
    /// A trace is faulty.
    #[error("line {line} of the trace is faulty: {cause:?}")]
    TraceFault { line: u64, cause: TraceCause },
    /// A session line has more than 200 bytes.
    #[error("the line is too long")]
    LineTooLong,
    /// An open, bind, accept, read or write failed, or an input passed 16,777,216 bytes.
    #[error("input or output failed")]
    Io,
    /// The tries were spent.
    #[error("gave up")]
    GaveUp,
    /// An outcome differs from the history.
    #[error("an outcome differs from the history")]
    Audit,
    /// A limit is out of its range.
    #[error("a limit is out of its range")]
    BadLimits,
}

impl ScriptCause {
    /// The name that fault lines print.
    pub fn name(self) -> &'static str
        ensures { result.now ≡ script_cause_name self }
    {
        match self {
            ScriptCause::Line => "Line",
            ScriptCause::Words => "Words",
            ScriptCause::Place => "Place",
            ScriptCause::Deep => "Deep",
            ScriptCause::Long => "Long",
            ScriptCause::Unfinished => "Unfinished",
        }
    }
}

impl TraceCause {
    /// The name that fault lines print.
    pub fn name(self) -> &'static str
        ensures { result.now ≡ trace_cause_name self }
    {
        match self {
            TraceCause::Line => "Line",
            TraceCause::Cut => "Cut",
            TraceCause::Words => "Words",
            TraceCause::Place => "Place",
            TraceCause::Reply => "Reply",
        }
    }
}

impl Refusal {
    /// The number that is printed, 1 to 16.
    pub fn number(&self) -> u8
        ensures { result ≡ number_of self.now }
    {
        match self {
            Refusal::OutOfMemory => 1,
            Refusal::NoRoom => 2,
            Refusal::NoSuchTx => 3,
            Refusal::Undoing => 4,
            Refusal::Running => 5,
            Refusal::NotRunning => 6,
            Refusal::TooManyOpen => 7,
            Refusal::LogFull => 8,
            Refusal::IdsSpent => 9,
            Refusal::ScriptFault { .. } => 10,
            Refusal::TraceFault { .. } => 11,
            Refusal::LineTooLong => 12,
            Refusal::Io => 13,
            Refusal::GaveUp => 14,
            Refusal::Audit => 15,
            Refusal::BadLimits => 16,
        }
    }

    /// The name that is printed.
    pub fn name(&self) -> &'static str
        ensures { result.now ≡ name_of self.now }
    {
        match self {
            Refusal::OutOfMemory => "OutOfMemory",
            Refusal::NoRoom => "NoRoom",
            Refusal::NoSuchTx => "NoSuchTx",
            Refusal::Undoing => "Undoing",
            Refusal::Running => "Running",
            Refusal::NotRunning => "NotRunning",
            Refusal::TooManyOpen => "TooManyOpen",
            Refusal::LogFull => "LogFull",
            Refusal::IdsSpent => "IdsSpent",
            Refusal::ScriptFault { .. } => "ScriptFault",
            Refusal::TraceFault { .. } => "TraceFault",
            Refusal::LineTooLong => "LineTooLong",
            Refusal::Io => "Io",
            Refusal::GaveUp => "GaveUp",
            Refusal::Audit => "Audit",
            Refusal::BadLimits => "BadLimits",
        }
    }
}

impl From<AllocError> for Refusal {
    ghost from_gives = { λ _ refusal. refusal ≡ OutOfMemory };

    fn from(_refused: AllocError) -> Refusal {
        Refusal::OutOfMemory
    }
}

impl<T: Drop> From<AllocFailed<T>> for Refusal {
    ghost from_gives = { λ _ refusal. refusal ≡ OutOfMemory };

    fn from(_refused: AllocFailed<T>) -> Refusal {
        Refusal::OutOfMemory
    }
}
