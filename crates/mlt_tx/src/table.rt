//! The table of open transactions.

ghost use Rattle.std.specs.Prelude.{◌≡◌, ◌≤◌, None, Some, IsSome, OnOk, OnErr, IsOkUnless, IfOk, IfSome, IfNone, option_copied};
ghost use Rattle.std.specs.FinMap as map;
ghost use Rattle.mlt_types.specs.Maps.{with_entry};
ghost use Rattle.mlt_page_subtx.specs.Images.{AreThere};
ghost use Rattle.mlt_hash.specs.Walks.{context_in};
ghost use Rattle.mlt_tx.specs.declared.transaction.Transaction.{Transaction as TransactionFields};
ghost use Rattle.mlt_tx.specs.declared.transaction.At.TheVariants as at;
ghost use Rattle.mlt_tx.specs.Fast.{MayCallFast};
ghost use Rattle.mlt_tx.specs.Transactions.{IsPending, MayStepIn};
ghost use Rattle.mlt_tx.specs.OpenAt.{MayStepIfBusy, TriesCall, TriesStep};
ghost use Rattle.mlt_tx.specs.Standing.{LeadsFromLeft};
ghost use Rattle.mlt_tx.specs.Tables.{BeginsOne, CallsNone, CallsOne, CallsOneFast, CancelsOne, KeepsImage, KeepsNoImage, PutsOneAt, StepsOne};

use crate::activity::ActivityState;
use crate::shared::SharedState;
use crate::transaction::Transaction;
use crate::tx_slot::{TxSlot, free_slot, image_in, slot_of, standing_of};
use mlt_event::Answer;
use mlt_hash::Environment;
use mlt_object_kinds::{Done, ObjOp, ObjReply};
use mlt_page::Page;
use mlt_types::{PageNo, PlaceHints, Pseudo, Refusal, TxId};
use std::alloc::Global;
use std::marker::Model;

/// The open transactions. A contract sees a finite map from their numbers.
///
/// The slot of one is looked for first where it was put, as its number's last bits tell. That of a transaction that has ended is
/// used again, with the room of its undo list.
#[derive(Drop)]
pub struct OpenTransactions {
    alloc: Global,
    slots: Vec<TxSlot>,
    /// How many slots are taken.
    taken: usize,
    hints: PlaceHints,
    /// The slot that was given up last.
    freed: usize,
}

impl Model for OpenTransactions {
    ghost use Rattle.std.specs.FinMap as map;
    ghost use Rattle.std.specs.Ordering.{nat_cmp};
    ghost use Rattle.std.specs.Coded.{coded_ℕ};
    ghost use Rattle.mlt_tx.specs.declared.transaction.Transaction.{Transaction};
    ghost use Rattle.mlt_tx.specs.contracts.transaction.Transaction.{the_row};
    ghost use Rattle.mlt_tx.specs.TxSlots.{AreTxSlots, table_of};

    ghost Value = { map.FinMap nat_cmp Transaction };

    ghost coded = { map.code coded_ℕ the_row.coded };

    ghost view = { λ table. table_of table.slots.items };

    ghost invariant = { λ table. AreTxSlots table.slots.items table.taken };
}

impl OpenTransactions {
    /// No transaction. It takes no memory.
    pub fn new(alloc: Global) -> OpenTransactions
        ensures { result ≡ map.empty }
    {
        OpenTransactions {
            alloc,
            slots: Vec::new(alloc),
            taken: 0,
            hints: PlaceHints::new(),
            freed: 0,
        }
    }

    /// How many are open.
    pub fn len(&self) -> usize
        ensures { result ≡ map.len self.now }
    {
        self.taken
    }

    /// The transaction of a number, if it is open.
    pub fn get(&self, tx: TxId) -> Option<&Transaction>
        ensures { option_copied result ≡ map.get self.now tx }
    {
        let place = slot_of(&self.slots, &self.hints, tx)?;
        Some(&self.slots[place].transaction)
    }

    /// The first image of a page that an open transaction keeps, if one does. It takes no memory.
    pub fn first_image(&self, page: PageNo) -> Option<&Option<Page>>
        ensures kept { IfSome result (λ first. KeepsImage self.now page first.now) }
        ensures none { IfNone result (KeepsNoImage self.now page) }
    {
        image_in(&self.slots, page)
    }

    /// What the open transactions did and have not taken back, one transaction after another. Taken back, the last operation first,
    /// it leaves the base without any of it.
    ///
    /// # Errors
    /// `OutOfMemory`, where a growth was refused.
    pub fn standing(&self) -> Result<Vec<Done>, Refusal>
        ensures leads { IfOk result (λ done. LeadsFromLeft self.now done.items) }
        ensures refusal { IsOkUnless result Refusal.OutOfMemory }
    {
        standing_of(self.alloc, &self.slots)
    }

    /// Opens a transaction of a number, which has done nothing.
    ///
    /// # Errors
    /// `OutOfMemory`, where a growth was refused; the table is then as before.
    pub fn begin(&mut self, tx: TxId) -> Result<(), Refusal>
        ensures begins { OnOk result (BeginsOne tx self.old self.new) }
        ensures err { OnErr result (self.new ≡ self.old) }
        ensures refusal { IsOkUnless result Refusal.OutOfMemory }
    {
        if let Some(place) = slot_of(&self.slots, &self.hints, tx) {
            self.slots[place].transaction.restart(self.alloc, tx);
            return Ok(());
        }
        if let Some(place) = free_slot(&self.slots, self.freed) {
            self.slots[place].give_to(self.alloc, tx);
            self.hints.note(tx, place);
            self.taken += 1;
            return Ok(());
        }
        let slot = TxSlot::new(self.alloc, tx)?;
        self.hints.note(tx, self.slots.len());
        self.slots.push(slot)?;
        self.taken += 1;
        Ok(())
    }

    /// Takes the transaction of a number out, if it is open. It takes no memory.
    pub fn remove(&mut self, tx: TxId)
        ensures { self.new ≡ with_entry self.old tx None }
    {
        if let Some(place) = slot_of(&self.slots, &self.hints, tx) {
            self.slots[place].is_free = true;
            self.freed = place;
            self.taken -= 1;
        }
    }

    /// Calls the transaction of a number with an operation, if it has fewer than so many that stand. It is looked for once.
    ///
    /// # Errors
    /// `NoSuchTx`, where it is not open; `Undoing`, where its abort has begun; `Running`, where an operation is pending; `LogFull`,
    /// where so many of its operations stand; else `OutOfMemory`, where a growth was refused: it is then still at nothing.
    #[inline(always)]
    pub fn try_call(
        &mut self,
        tx: TxId,
        shared: &mut SharedState,
        op: ObjOp,
        max_ops: usize,
    ) -> Result<(), Refusal>
        ensures tries { TriesCall tx op max_ops self.old self.new shared.old shared.new result }
        ensures handed { shared.new.history.handed ≡ shared.old.history.handed }
    {
        let Some(place) = slot_of(&self.slots, &self.hints, tx) else {
            return Err(Refusal::NoSuchTx);
        };
        let transaction = &self.slots[place].transaction;
        match transaction.at.state() {
            ActivityState::Idle => (),
            ActivityState::Pending => return Err(Refusal::Running),
            ActivityState::Undoing => return Err(Refusal::Undoing),
        }
        if transaction.undo.len() >= max_ops {
            return Err(Refusal::LogFull);
        }
        self.slots[place].transaction.call(shared, op)
    }

    /// Calls the transaction of a number, which is open and at nothing, with an operation, and takes all its steps at once, while
    /// nobody holds a page. It answers the reply, if the operation is done; else the operation is pending.
    ///
    /// # Errors
    /// `OutOfMemory`, where a growth was refused; the transaction is then still at nothing.
    pub fn call_fast<P: Pseudo>(
        &mut self,
        tx: TxId,
        shared: &mut SharedState,
        op: ObjOp,
        environment: &Environment<P>,
    ) -> Result<Option<ObjReply>, Refusal>
        requires is_open { (t : TransactionFields) × (map.get self.old tx ≡ Some t)
            × MayCallFast (context_in P.bits_of environment.now t.subtx.tx) op t shared.old }
        ensures calls { IfOk result (λ told. CallsOneFast told
            (context_in P.bits_of environment.now)
            tx op self.old self.new shared.old shared.new) }
        ensures err { OnErr result (CallsNone tx self.old self.new shared.old shared.new) }
        ensures refusal { IsOkUnless result Refusal.OutOfMemory }
        ensures handed { shared.new.history.handed ≡ shared.old.history.handed }
    {
        let Some(place) = slot_of(&self.slots, &self.hints, tx) else {
            unreachable!()
        };
        self.slots[place]
            .transaction
            .call_fast(shared, op, environment)
    }

    /// One step of the transaction of a number, which is open and not idle.
    pub fn step<P: Pseudo>(
        &mut self,
        tx: TxId,
        shared: &mut SharedState,
        environment: &Environment<P>,
    ) -> Answer
        requires is_open { (t : TransactionFields) × (map.get self.old tx ≡ Some t)
            × MayStepIn (context_in P.bits_of environment.now t.subtx.tx) t shared.old }
        ensures steps { StepsOne (context_in P.bits_of environment.now) tx self.old self.new
            shared.old shared.new result }
        ensures handed { shared.new.history.handed ≡ shared.old.history.handed }
    {
        match slot_of(&self.slots, &self.hints, tx) {
            Some(place) => self.slots[place].transaction.step(shared, environment),
            None => unreachable!(),
        }
    }

    /// One step of the transaction of a number. It is looked for once.
    ///
    /// # Errors
    /// `NoSuchTx`, where it is not open; `NotRunning`, where it is at nothing. Then nothing has changed.
    #[inline(always)]
    pub fn try_step<P: Pseudo>(
        &mut self,
        tx: TxId,
        shared: &mut SharedState,
        environment: &Environment<P>,
    ) -> Result<Answer, Refusal>
        requires may { MayStepIfBusy (context_in P.bits_of environment.now) tx self.old shared.old }
        ensures tries { TriesStep (context_in P.bits_of environment.now) tx self.old self.new
            shared.old shared.new result }
        ensures handed { shared.new.history.handed ≡ shared.old.history.handed }
    {
        let Some(place) = slot_of(&self.slots, &self.hints, tx) else {
            return Err(Refusal::NoSuchTx);
        };
        if let ActivityState::Idle = self.slots[place].transaction.at.state() {
            return Err(Refusal::NotRunning);
        }
        Ok(self.slots[place].transaction.step(shared, environment))
    }

    /// Drops the pending operation of the transaction of a number, which is open and has one. It takes no memory.
    pub fn cancel(&mut self, tx: TxId, shared: &mut SharedState)
        requires is_open { (t : TransactionFields) × (map.get self.old tx ≡ Some t)
            × IsPending t.at × AreThere t.subtx.images shared.old.pages.store.pages
            × (2 ≤ shared.old.history.room) }
        ensures cancels { CancelsOne tx self.old self.new shared.old shared.new }
        ensures handed { shared.new.history.handed ≡ shared.old.history.handed }
    {
        let Some(place) = slot_of(&self.slots, &self.hints, tx) else {
            unreachable!()
        };
        self.slots[place].transaction.cancel(shared);
    }

    /// Begins the abort of the transaction of a number, which is open. It takes no memory.
    pub fn undo(&mut self, tx: TxId)
        requires is_open { IsSome (map.get self.old tx) }
        ensures puts { PutsOneAt tx (at.Undoing None) self.old self.new }
    {
        let Some(place) = slot_of(&self.slots, &self.hints, tx) else {
            unreachable!()
        };
        self.slots[place].transaction.at.undo();
    }
}
