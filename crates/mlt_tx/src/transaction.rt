//! Transactions.

ghost use Rattle.std.specs.Prelude.{◌≡◌, ◌≤◌, ◌+◌, [], None, OnOk, OnErr, IsOkUnless};
ghost use Rattle.mlt_hash.specs.Walks.{context_in};
ghost use Rattle.mlt_page_subtx.specs.Images.{AreThere, started};
ghost use Rattle.mlt_tx.specs.Fast.{HasRoomFor};
ghost use Rattle.mlt_tx.specs.Transactions.{IsNotCalled, IsPending, MayStepIn, TellsOfCall, TellsOfCancel, TellsOfTransaction};

use crate::activity::Activity;
use crate::shared::SharedState;
use mlt_event::Answer;
use mlt_hash::Environment;
use mlt_object_base::UndoList;
use mlt_object_kinds::ObjOp;
use mlt_page_subtx::Subtx;
use mlt_tx_operation::Operation;
use mlt_types::{Pseudo, Refusal, TxId};
use std::alloc::Global;

/// What an open transaction is at. Contracts alone speak of it; no value of it is made.
pub enum At {
    /// Nothing is pending.
    Idle,
    /// An operation that was called and not told its reply, or was told to run anew.
    Pending(Operation),
    /// Its abort has begun: the inverse that runs, if one does.
    Undoing(Option<Operation>),
}

/// An open transaction.
#[derive(Drop)]
pub struct Transaction {
    /// Its subtransaction, which has written nothing where none runs.
    pub subtx: Subtx,
    /// What it did and has not taken back.
    pub undo: UndoList,
    /// What it is at.
    pub at: Activity,
}

impl Transaction {
    /// A transaction of this number that has done nothing. It takes no memory.
    pub fn begin(alloc: Global, tx: TxId) -> Transaction
        ensures subtx { result.subtx ≡ started tx }
        ensures entries { result.undo.entries ≡ [] }
        ensures at { result.at ≡ At.Idle }
    {
        Transaction {
            subtx: Subtx::start(alloc, tx),
            undo: UndoList::new(alloc),
            at: Activity::idle(alloc),
        }
    }

    /// Makes it a transaction of this number that has done nothing, as [`Transaction::begin`] does, in the place of this
    /// one. It takes no memory; the room of its undo list stays.
    pub fn restart(&mut self, alloc: Global, tx: TxId)
        ensures subtx { self.new.subtx ≡ started tx }
        ensures entries { self.new.undo.entries ≡ [] }
        ensures at { self.new.at ≡ At.Idle }
    {
        self.subtx.restart(alloc, tx);
        self.undo.clear();
        self.at.rest();
    }

    /// Calls the transaction, which is at nothing, with an operation, which is pending from then on. Room is made for its
    /// undo entry, its object lock, and its two items of the history: that it is done, and that it is taken back.
    ///
    /// # Errors
    /// `OutOfMemory`, where a growth was refused; the transaction is then still at nothing.
    #[inline(always)]
    pub fn call(&mut self, shared: &mut SharedState, op: ObjOp) -> Result<(), Refusal>
        requires idle { self.old.at ≡ At.Idle }
        ensures calls { OnOk result (TellsOfCall op self.old self.new shared.old shared.new) }
        ensures err { OnErr result (IsNotCalled self.old self.new shared.old shared.new) }
        ensures refusal { IsOkUnless result Refusal.OutOfMemory }
        ensures handed { shared.new.history.handed ≡ shared.old.history.handed }
    {
        self.make_room(shared, op)?;
        self.at.call(op);
        Ok(())
    }

    /// Makes room for the undo entry of an operation, its object lock, and its two items of the history.
    ///
    /// # Errors
    /// `OutOfMemory`, where a growth was refused.
    #[inline(always)]
    pub(crate) fn make_room(&mut self, shared: &mut SharedState, op: ObjOp) -> Result<(), Refusal>
        ensures room { OnOk result (HasRoomFor op self.old self.new shared.old shared.new) }
        ensures err { OnErr result (IsNotCalled self.old self.new shared.old shared.new) }
        ensures refusal { IsOkUnless result Refusal.OutOfMemory }
        ensures handed { shared.new.history.handed ≡ shared.old.history.handed }
    {
        self.undo.reserve()?;
        shared.objects.reserve(self.subtx.tx(), &op.cell())?;
        shared.history.reserve(2)?;
        Ok(())
    }

    /// One step of its pending operation, or of its abort. An operation that is done or refused is pending no more, and
    /// one that is refused gives up the room that it had in the history. A step of a first pass, or of an abort, takes no
    /// memory.
    #[inline(always)]
    pub fn step<P: Pseudo>(
        &mut self,
        shared: &mut SharedState,
        environment: &Environment<P>,
    ) -> Answer
        requires ready { MayStepIn (context_in P.bits_of environment.now self.old.subtx.tx)
            self.old shared.old }
        ensures tells { TellsOfTransaction (context_in P.bits_of environment.now self.old.subtx.tx)
            self.old self.new shared.old shared.new result }
        ensures handed { shared.new.history.handed ≡ shared.old.history.handed }
    {
        self.at
            .step(&mut self.subtx, &mut self.undo, shared, environment)
    }

    /// Drops the pending operation, rolls its pages back, and gives up the room that it had in the history. It takes no
    /// memory.
    pub fn cancel(&mut self, shared: &mut SharedState)
        requires pending { IsPending self.old.at }
        requires there { AreThere self.old.subtx.images shared.old.pages.store.pages }
        requires room { 2 ≤ shared.old.history.room }
        ensures tells { TellsOfCancel self.old self.new shared.old shared.new }
        ensures handed { shared.new.history.handed ≡ shared.old.history.handed }
    {
        self.subtx
            .roll_back(&mut shared.pages.store, &mut shared.pages.locks);
        self.at.rest();
        shared.history.release(2);
    }
}
