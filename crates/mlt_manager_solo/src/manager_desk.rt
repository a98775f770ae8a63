//! A desk over a manager alone.

ghost use Rattle.std.specs.Prelude.{◌≡◌, []};
ghost use Rattle.mlt_manager_solo.specs.Desks.{begun_told, committed_told, reply_told, undoing_told};

use mlt_event::{Answer, Event, Told};
use mlt_manager::Manager;
use mlt_object_kinds::{ObjOp, ObjReply};
use mlt_script_serial::{Answering, Desk};
use mlt_types::{Pseudo, Refusal, TxId};

/// A desk over a manager that nobody else asks. Each of its calls is one event, but for an abort that has something to take
/// back, which is two. All of the history stays in the manager.
pub(crate) struct ManagerDesk<P: Pseudo> {
    pub(crate) manager: Manager<P>,
    ghost history: { manager.shared.history.handed ≡ [] },
}

/// What an operation answers that was told this. One that is to wait, or is blocked, is given up.
fn reply_of(told: Told) -> Result<ObjReply, Refusal>
    ensures { result ≡ reply_told told }
{
    match told {
        Told::Answered(Answer::Done(reply)) => Ok(reply),
        Told::Answered(Answer::Refused(refusal)) => Err(refusal),
        Told::Refused(refusal) => Err(refusal),
        _ => Err(Refusal::GaveUp),
    }
}

/// The number of a transaction, from what its begin was told. No begin is told anything else than these two.
fn begun_of(told: Told) -> Result<TxId, Refusal>
    ensures { result ≡ begun_told told }
{
    match told {
        Told::Begun(tx) => Ok(tx),
        Told::Refused(refusal) => Err(refusal),
        _ => Err(Refusal::Audit),
    }
}

/// The number of a commit, from what that was told. No commit is told anything else than these two.
fn committed_of(told: Told) -> Result<u64, Refusal>
    ensures { result ≡ committed_told told }
{
    match told {
        Told::Committed(number) => Ok(number),
        Told::Refused(refusal) => Err(refusal),
        _ => Err(Refusal::Audit),
    }
}

/// Whether an abort that was told this has something to take back.
fn is_to_undo(told: Told) -> bool
    ensures { result ≡ undoing_told told }
{
    matches!(told, Told::Aborting(false))
}

impl<P: Pseudo> Answering for ManagerDesk<P> {
    ghost use Rattle.mlt_manager_solo.specs.Desks.{MeetsCall};

    ghost moves = { λ old call answer new.
        MeetsCall P.bits_of old.manager call answer new.manager };

    fn operation(&mut self, tx: TxId, op: ObjOp) -> Result<ObjReply, Refusal> {
        reply_of(self.manager.act(Event::Whole(tx, op)))
    }
}

impl<P: Pseudo> Desk for ManagerDesk<P> {
    fn begin(&mut self) -> Result<TxId, Refusal> {
        begun_of(self.manager.act(Event::Begin))
    }

    fn commit(&mut self, tx: TxId) -> Result<u64, Refusal> {
        committed_of(self.manager.act(Event::Commit(tx)))
    }

    fn abort(&mut self, tx: TxId) {
        if is_to_undo(self.manager.act(Event::Abort(tx))) {
            let _told = self.manager.act(Event::WholeUndo(tx));
        }
    }
}
