//! What a desk does that would wait, and what wakes it.

ghost use Rattle.std.specs.Prelude.{◌≡◌};
ghost use Rattle.mlt_work_waits.specs.Turns.{given_back_by, given_back_by_step, goes_on, is_done, wait_for};

use crate::wait::{Waiting, Waker};
use mlt_event::{Answer, Event, Told};
use mlt_object_kinds::ObjOp;
use mlt_types::TxId;

/// What a desk does after an event.
#[derive(Clone, Copy, PartialEq, Eq)]
pub enum Turn {
    /// It goes on, and tries at once where it was to wait.
    Goes,
    /// It sleeps before its next event, and is counted as one that waits.
    Sleeps,
    /// It gives up: its transaction is the youngest of a cycle of waits for objects that its wait would close, and while that
    /// stands each try gets the same answer.
    Deadlock,
}

/// Whose locks an event has given back.
#[derive(Clone, Copy)]
pub(crate) enum GivenBack {
    Nothing,
    /// Those of pages that the transaction had.
    Pages(TxId),
    /// Those of pages, by the end of its operation: so it stands in the queue no longer.
    Operation(TxId),
    /// Those of pages and of objects.
    All(TxId),
}

/// One that may sleep: its transaction and the timestamp of that, what wakes it, and the operation that it is in, or was in last.
#[derive(Clone, Copy)]
pub struct SleepingThread {
    pub tx: TxId,
    pub timestamp: u64,
    pub waker: Waker,
    pub op: ObjOp,
}

/// Whose locks an event that was told this has given back. Desks make no others.
#[inline]
pub(crate) fn given_back(event: &Event, told: &Told) -> GivenBack
    ensures { result ≡ given_back_by event.now told.now }
{
    match (event, told) {
        (Event::Commit(tx), Told::Committed(_)) => GivenBack::All(*tx),
        (Event::Abort(tx), Told::Aborting(true)) => GivenBack::All(*tx),
        (Event::Step(tx), Told::Answered(answer)) => given_back_by_step(*tx, answer),
        (Event::Cancel(tx), Told::Cancelled) => GivenBack::Operation(*tx),
        _ => GivenBack::Nothing,
    }
}

/// Whose locks a step of a transaction has given back that was answered so.
fn given_back_by_step(tx: TxId, answer: &Answer) -> GivenBack
    ensures { result ≡ given_back_by_step tx answer.now }
{
    match answer {
        Answer::Aborted => GivenBack::All(tx),
        Answer::Done(_) | Answer::Refused(_) => GivenBack::Operation(tx),
        Answer::Blocked { .. } | Answer::Undone => GivenBack::Pages(tx),
        Answer::Going | Answer::Waiting { .. } => GivenBack::Nothing,
    }
}

/// Whether an operation is done that was told this.
#[inline(always)]
pub fn is_done(told: &Told) -> bool
    ensures { result ≡ is_done told.now }
{
    matches!(told, Told::Answered(Answer::Done(_)))
}

/// Whether an operation goes on that was told this.
#[inline(always)]
pub fn goes_on(told: &Told) -> bool
    ensures { result ≡ goes_on told.now }
{
    matches!(told, Told::Called | Told::Answered(Answer::Going))
}

/// The wait of a sleeping thread for a lock of this transaction.
#[inline]
pub(crate) fn wait_for(thread: &SleepingThread, holder: TxId) -> Waiting
    ensures { result ≡ wait_for thread.now holder }
{
    Waiting {
        waiter: thread.tx,
        holder,
        waker: thread.waker,
        timestamp: Some(thread.timestamp),
    }
}
