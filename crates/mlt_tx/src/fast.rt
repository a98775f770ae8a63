//! Operations that take all of their steps at once.

ghost use Rattle.std.specs.Prelude.{◌≡◌, ◌≤◌, IsOkUnless, IfNone, IfOk, IfSome, OnErr, Some};
ghost use Rattle.mlt_object_kinds.specs.Operations.{cell_of};
ghost use Rattle.mlt_object_locks.specs.Locks.{reservation_of};
ghost use Rattle.mlt_hash.specs.Walks.{context_in};
ghost use Rattle.mlt_tx.specs.Fast.{CallsFast, MayCallFast, StepsFast, called_with};
ghost use Rattle.mlt_tx.specs.Transactions.{IsNotCalled};

use crate::shared::SharedState;
use crate::transaction::Transaction;
use mlt_hash::Environment;
use mlt_object_kinds::{Done, ObjOp, ObjReply};
use mlt_trace::TraceItem;
use mlt_tx_operation::plan_fast;
use mlt_types::{Pseudo, Refusal};

impl Transaction {
    /// Calls the transaction, which is at nothing, with an operation, and takes all its steps at once, while nobody holds a page.
    /// It answers the reply, if the operation is done: where it is on one record that it reads, or gives another value, and nobody
    /// holds a clash. Else the operation is pending.
    ///
    /// # Errors
    /// `OutOfMemory`, where a growth was refused; the transaction is then still at nothing.
    pub fn call_fast<P: Pseudo>(
        &mut self,
        shared: &mut SharedState,
        op: ObjOp,
        environment: &Environment<P>,
    ) -> Result<Option<ObjReply>, Refusal>
        requires ready { MayCallFast (context_in P.bits_of environment.now self.old.subtx.tx) op
            self.old shared.old }
        ensures calls { IfOk result (λ told. CallsFast told
            (context_in P.bits_of environment.now self.old.subtx.tx) op
            self.old self.new shared.old shared.new) }
        ensures err { OnErr result (IsNotCalled self.old self.new shared.old shared.new) }
        ensures refusal { IsOkUnless result Refusal.OutOfMemory }
        ensures handed { shared.new.history.handed ≡ shared.old.history.handed }
    {
        self.make_room(shared, op)?;
        if let Some(reply) = self.step_fast(op, shared, environment) {
            return Ok(Some(reply));
        }
        self.at.call(op);
        Ok(None)
    }

    /// Takes all steps of an operation for which there is room, and answers its reply, if it is done; else nothing has changed. It
    /// takes no memory.
    fn step_fast<P: Pseudo>(
        &mut self,
        op: ObjOp,
        shared: &mut SharedState,
        environment: &Environment<P>,
    ) -> Option<ObjReply>
        requires ready { MayCallFast (context_in P.bits_of environment.now self.old.subtx.tx) op
            self.old shared.old }
        requires reserved { reservation_of shared.old.objects.reserved self.old.subtx.tx
            ≡ Some (cell_of op) }
        requires spare { 1 ≤ self.old.undo.spare }
        requires room { 1 ≤ shared.old.history.room }
        ensures done { IfSome result (λ reply.
            StepsFast (context_in P.bits_of environment.now self.old.subtx.tx)
            (called_with op self.old) self.new shared.old shared.new reply) }
        ensures none { IfNone result ((self.new ≡ self.old) × (shared.new ≡ shared.old)) }
        ensures handed { shared.new.history.handed ≡ shared.old.history.handed }
    {
        let plan = plan_fast(&op, environment, &self.subtx, &shared.pages)?;
        let done = Done::new(op, plan.reply);
        let tx = self.subtx.tx();
        if let Err(_) = shared.objects.ask(tx, &done) {
            return None;
        }
        plan.carry_out(&mut shared.pages.store);
        self.undo.push(done);
        shared.history.push(TraceItem::Op(tx, done));
        Some(plan.reply)
    }
}
