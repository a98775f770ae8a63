//! A desk at which begins may be refused.

use mlt_object_kinds::{ObjOp, ObjReply};
use mlt_script_serial::{Answering, Desk};
use mlt_types::{Pseudo, Refusal, TxId};
use mlt_work_desk::{LockDesk, MadeWith};
use mlt_work_waits::Gate;
use std::sync::Wait;
use std::sync::atomic::{AtomicBool, Ordering};

/// A desk at which a begin is refused, as one is to which memory is, while too much waits for the trace.
pub(crate) struct GuardedDesk<'a, 'b, P: Pseudo, L: MadeWith<P>, R: Wait, G: Gate> {
    pub(crate) desk: LockDesk<'a, P, L, R, G>,
    pub(crate) refuses_begins: &'b AtomicBool,
}

impl<P: Pseudo, L: MadeWith<P>, R: Wait, G: Gate> Answering for GuardedDesk<'_, '_, P, L, R, G> {
    ghost use Rattle.mlt_work_desk.specs.Views.{desk_view};
    ghost use Rattle.mlt_serve.specs.Desks.{AnswersOrHolds};

    ghost moves = { λ old call answer new. AnswersOrHolds P.bits_of
        (desk_view old.desk.snapshot old.desk.tries old.desk.share.amount) call
        answer (desk_view new.desk.snapshot new.desk.tries new.desk.share.amount) };

    fn operation(&mut self, tx: TxId, op: ObjOp) -> Result<ObjReply, Refusal> {
        self.desk.operation(tx, op)
    }
}

impl<P: Pseudo, L: MadeWith<P>, R: Wait, G: Gate> Desk for GuardedDesk<'_, '_, P, L, R, G> {
    #[tactic(auto, using(crate::proofs::Viewing::held_back))]
    fn begin(&mut self) -> Result<TxId, Refusal> {
        if self.refuses_begins.load(Ordering::Relaxed) {
            return Err(Refusal::OutOfMemory);
        }
        self.desk.begin()
    }

    fn commit(&mut self, tx: TxId) -> Result<u64, Refusal> {
        self.desk.commit(tx)
    }

    fn abort(&mut self, tx: TxId) {
        self.desk.abort(tx);
    }
}
