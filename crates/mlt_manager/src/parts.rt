//! The parts of a manager, and what each event does to them.

ghost use Rattle.std.specs.Prelude.{◌≡◌, ◌≤◌, ◌+◌, ◌++◌, IfErr, IsOkUnless, IfOk, OnErr, OnOk, option_copied};
ghost use Rattle.std.specs.FinMap as map;
ghost use Rattle.mlt_manager.specs.Answers.{AnswersAbort, AnswersBegin, AnswersCall, AnswersCancel, AnswersCommit, AnswersStep, HasEnded, HasStepped, IsBusy, IsCauseAtCall, IsCauseAtCancel, IsIdleWith, IsNotIdle, IsOpenAt, IsUndoing, MayCall, counted, active_after, txs_after};
ghost use Rattle.mlt_manager.specs.Bases.{HasCleanPage, HasDepth};
ghost use Rattle.mlt_manager.specs.HandingOut.{HandsOut};
ghost use Rattle.mlt_manager.specs.Wholes.{AnswersWhole, RunsToEnd, StandsIn, StepsOnUpTo};
ghost use Rattle.mlt_manager.specs.Undoings.{AnswersWholeUndo, IsCauseAtUndo, StepsBackUpTo};
ghost use Rattle.mlt_manager.specs.Openings.{IsNew};
ghost use Rattle.mlt_tx.specs.Transactions.{IsPending};
ghost use Rattle.mlt_manager.specs.Parts.{IsStageOf, fields_of};
ghost use Rattle.mlt_manager.specs.Managers.{IsManager};

use mlt_event::Answer;
use mlt_hash::{Environment, open_file};
use mlt_hash_access::LockedStore;
use mlt_hash_form::Root;
use mlt_object_kinds::ObjOp;
use mlt_object_locks::ObjectLocks;
use mlt_page::{Page, Store};
use mlt_page_locks::PageLocks;
use mlt_trace::{History, KeptItem, TraceItem};
use mlt_tx::{ActivityState, OpenTransactions, SharedState};
use mlt_tx_meaning::operation_is_in_range;
use mlt_types::{Limits, OpenSet, PageNo, Pseudo, Refusal, TxId};
use std::alloc::Global;

/// What a manager holds.
#[derive(Drop)]
pub(crate) struct Parts<P> {
    pub(crate) limits: Limits,
    pub(crate) root: Root<P>,
    pub(crate) shared: SharedState,
    pub(crate) txs: OpenTransactions,
    pub(crate) active: OpenSet,
    pub(crate) begun: u64,
    pub(crate) commits: u64,
    pub(crate) events: u64,
}

/// What the transaction of a number is at.
enum TxStage {
    NotOpen,
    /// Nothing, and this many of its operations stand.
    Idle(usize),
    Pending,
    Undoing,
}

impl<P: Pseudo> Parts<P> {
    pub(crate) fn new(alloc: Global, limits: Limits, pseudo: P) -> Result<Parts<P>, Refusal>
    where
        P: Drop,
        ensures opening { IfOk result (λ parts. IsNew (fields_of parts) limits pseudo) }
        ensures refusal { IsOkUnless result Refusal.OutOfMemory }
    {
        let mut store = Store::new(alloc, &limits);
        let page = open_file(&mut store)?;
        let locks = PageLocks::new(alloc, &limits)?;
        Ok(Parts {
            limits,
            root: Root {
                page,
                max_depth: limits.max_depth as u8,
                pseudo,
            },
            shared: SharedState {
                alloc,
                pages: LockedStore { store, locks },
                objects: ObjectLocks::new(alloc),
                history: History::new(alloc),
            },
            txs: OpenTransactions::new(alloc),
            active: OpenSet::new(),
            begun: 0,
            commits: 0,
            events: 0,
        })
    }

    /// One more event; at the greatest number they are counted no more.
    pub(crate) fn count(&mut self)
        ensures { fields_of self.new ≡ counted (fields_of self.old) }
    {
        self.events = self.events.saturating_add(1);
    }

    /// Hands out the items of the history that are kept.
    ///
    /// # Errors
    /// `OutOfMemory`, where a growth was refused; nothing is handed out then.
    pub(crate) fn hand_out(&mut self, list: &mut Vec<KeptItem>) -> Result<(), Refusal>
        ensures rest { HandsOut (fields_of self.old) (fields_of self.new) }
        ensures handed { OnOk result
            (self.new.shared.history.handed ≡ self.old.shared.history.items) }
        ensures list { OnOk result (self.old.shared.history.items
            ≡ self.old.shared.history.handed ++ list.new.items) }
        ensures err { OnErr result (fields_of self.new ≡ fields_of self.old) }
        ensures refusal { IsOkUnless result Refusal.OutOfMemory }
    {
        self.shared.history.hand_out(list)
    }

    /// What the transaction of a number is at.
    fn stage(&self, tx: TxId) -> TxStage
        ensures { IsStageOf result self.now.txs tx }
    {
        let Some(transaction) = self.txs.get(tx) else {
            return TxStage::NotOpen;
        };
        match transaction.at.state() {
            ActivityState::Idle => TxStage::Idle(transaction.undo.len()),
            ActivityState::Pending => TxStage::Pending,
            ActivityState::Undoing => TxStage::Undoing,
        }
    }

    /// How many operations stand of a transaction that is at nothing.
    ///
    /// # Errors
    /// `NoSuchTx`, where it is not open; `Undoing`, where its abort has begun; `Running`, where an operation is pending.
    fn idle(&self, tx: TxId) -> Result<usize, Refusal>
        ensures idle { IfOk result (λ count. IsIdleWith self.now.txs tx count) }
        ensures refusal { IfErr result (λ reason. IsNotIdle reason self.now.txs tx) }
    {
        match self.stage(tx) {
            TxStage::NotOpen => Err(Refusal::NoSuchTx),
            TxStage::Idle(count) => Ok(count),
            TxStage::Pending => Err(Refusal::Running),
            TxStage::Undoing => Err(Refusal::Undoing),
        }
    }

    /// That a transaction has a pending operation.
    ///
    /// # Errors
    /// `NoSuchTx`, where it is not open; `Undoing`, where its abort has begun; `NotRunning`, where it is at nothing.
    fn pending(&self, tx: TxId) -> Result<(), Refusal>
        ensures pending { OnOk result (IsOpenAt self.now.txs tx IsPending) }
        ensures refusal { IfErr result (λ reason. IsCauseAtCancel reason self.now.txs tx) }
    {
        match self.stage(tx) {
            TxStage::NotOpen => Err(Refusal::NoSuchTx),
            TxStage::Idle(_) => Err(Refusal::NotRunning),
            TxStage::Undoing => Err(Refusal::Undoing),
            TxStage::Pending => Ok(()),
        }
    }

    /// That the abort of a transaction has begun.
    ///
    /// # Errors
    /// `NoSuchTx`, where it is not open; `NotRunning`, where its abort has not begun.
    fn undoing(&self, tx: TxId) -> Result<(), Refusal>
        ensures undoing { OnOk result (IsOpenAt self.now.txs tx IsUndoing) }
        ensures refusal { IfErr result (λ reason. IsCauseAtUndo reason self.now.txs tx) }
    {
        match self.stage(tx) {
            TxStage::NotOpen => Err(Refusal::NoSuchTx),
            TxStage::Idle(_) => Err(Refusal::NotRunning),
            TxStage::Pending => Err(Refusal::NotRunning),
            TxStage::Undoing => Ok(()),
        }
    }

    /// A page as it was before the running subtransactions wrote it.
    pub(crate) fn clean_page(&self, number: PageNo) -> Option<&Page>
        requires sound { IsManager P.bits_of (fields_of self.now) }
        ensures clean { HasCleanPage (fields_of self.now) number (option_copied result) }
    {
        match self.txs.first_image(number) {
            Some(first) => first.as_ref(),
            None => self.shared.pages.store.read(number),
        }
    }

    pub(crate) fn begin(&mut self) -> Result<TxId, Refusal>
        requires sound { IsManager P.bits_of (fields_of self.old) }
        ensures answers { AnswersBegin (fields_of self.old) (fields_of self.new) result }
        ensures handed { self.new.shared.history.handed ≡ self.old.shared.history.handed }
    {
        if self.txs.len() >= self.limits.max_open as usize {
            return Err(Refusal::TooManyOpen);
        }
        if self.begun >= self.limits.max_ids {
            return Err(Refusal::IdsSpent);
        }
        self.shared.history.reserve(2)?;
        let tx = TxId(self.begun + 1);
        if let Err(refusal) = self.txs.begin(tx) {
            self.shared.history.release(2);
            return Err(refusal);
        }
        self.active.insert(tx);
        self.begun += 1;
        self.shared.history.push(TraceItem::Begin(tx));
        Ok(tx)
    }

    /// That a transaction may be called with an operation.
    ///
    /// # Errors
    /// `NoSuchTx`, where it is not open; `Undoing`, where its abort has begun; `Running`, where an operation is pending; `LogFull`,
    /// where it has as many operations as it may have.
    fn may_call(&self, tx: TxId) -> Result<(), Refusal>
        ensures may { OnOk result (MayCall (fields_of self.now) tx) }
        ensures refusal { IfErr result (λ reason. IsCauseAtCall reason (fields_of self.now) tx) }
    {
        if self.idle(tx)? >= self.limits.max_ops as usize {
            return Err(Refusal::LogFull);
        }
        Ok(())
    }

    #[inline(always)]
    pub(crate) fn call(&mut self, tx: TxId, op: ObjOp) -> Result<(), Refusal>
        ensures answers { AnswersCall (fields_of self.old) (fields_of self.new) tx op result }
        ensures handed { self.new.shared.history.handed ≡ self.old.shared.history.handed }
    {
        operation_is_in_range(&op);
        let max_ops = self.limits.max_ops as usize;
        self.txs.try_call(tx, &mut self.shared, op, max_ops)
    }

    #[inline(always)]
    pub(crate) fn step(&mut self, tx: TxId) -> Result<Answer, Refusal>
        requires sound { IsManager P.bits_of (fields_of self.old) }
        ensures answers { AnswersStep P.bits_of (fields_of self.old) (fields_of self.new)
            tx result }
        ensures handed { self.new.shared.history.handed ≡ self.old.shared.history.handed }
    {
        let environment = Environment {
            root: &self.root,
            active: &self.active,
        };
        let answer = self.txs.try_step(tx, &mut self.shared, &environment)?;
        leave_if_aborted(&mut self.txs, &mut self.active, tx, &answer);
        Ok(answer)
    }

    /// One step of a transaction that is not at nothing. After `Aborted` it is no longer open.
    fn step_open(&mut self, tx: TxId) -> Answer
        requires sound { IsManager P.bits_of (fields_of self.old) }
        requires busy { IsOpenAt self.old.txs tx IsBusy }
        ensures steps { HasStepped P.bits_of (fields_of self.old) (fields_of self.new) tx result }
        ensures handed { self.new.shared.history.handed ≡ self.old.shared.history.handed }
    {
        let environment = Environment {
            root: &self.root,
            active: &self.active,
        };
        let answer = self.txs.step(tx, &mut self.shared, &environment);
        leave_if_aborted(&mut self.txs, &mut self.active, tx, &answer);
        answer
    }

    pub(crate) fn whole(&mut self, tx: TxId, op: ObjOp) -> Result<Answer, Refusal>
        requires sound { IsManager P.bits_of (fields_of self.old) }
        ensures answers { AnswersWhole P.bits_of (fields_of self.old) (fields_of self.new)
            tx op result }
        ensures handed { self.new.shared.history.handed ≡ self.old.shared.history.handed }
    {
        if self.txs.len() <= 1 {
            return self.whole_alone(tx, op);
        }
        self.call(tx, op)?;
        Ok(self.run(tx))
    }

    /// A whole operation, where no other transaction is open, so that nobody holds a page: its steps are taken at once, if they
    /// can be.
    fn whole_alone(&mut self, tx: TxId, op: ObjOp) -> Result<Answer, Refusal>
        requires sound { IsManager P.bits_of (fields_of self.old) }
        requires alone { map.len self.old.txs ≤ 1 }
        ensures answers { AnswersWhole P.bits_of (fields_of self.old) (fields_of self.new)
            tx op result }
        ensures handed { self.new.shared.history.handed ≡ self.old.shared.history.handed }
    {
        self.may_call(tx)?;
        operation_is_in_range(&op);
        let environment = Environment {
            root: &self.root,
            active: &self.active,
        };
        match self.txs.call_fast(tx, &mut self.shared, op, &environment)? {
            Some(reply) => Ok(Answer::Done(reply)),
            None => Ok(self.run(tx)),
        }
    }

    /// The steps of a pending operation, which is dropped if it waits or is blocked.
    fn run(&mut self, tx: TxId) -> Answer
        requires sound { IsManager P.bits_of (fields_of self.old) }
        requires pending { IsOpenAt self.old.txs tx IsPending }
        ensures runs { RunsToEnd P.bits_of (fields_of self.old) (fields_of self.new) tx result }
        ensures handed { self.new.shared.history.handed ≡ self.old.shared.history.handed }
    {
        let answer = self.run_on(tx);
        match answer {
            Answer::Waiting { .. } => self.txs.cancel(tx, &mut self.shared),
            Answer::Blocked { .. } => self.txs.cancel(tx, &mut self.shared),
            _ => (),
        }
        answer
    }

    /// The steps of a pending operation, up to the first that does not go on.
    fn run_on(&mut self, tx: TxId) -> Answer
        requires sound { IsManager P.bits_of (fields_of self.old) }
        requires pending { IsOpenAt self.old.txs tx IsPending }
        ensures steps { StepsOnUpTo P.bits_of (fields_of self.old) (fields_of self.new) tx result }
        ensures pending { StandsIn (fields_of self.new) tx result }
        ensures handed { self.new.shared.history.handed ≡ self.old.shared.history.handed }
    {
        loop {
            match self.step_open(tx) {
                Answer::Going => (),
                answer => return answer,
            }
        }
    }

    pub(crate) fn whole_undo(&mut self, tx: TxId) -> Result<Answer, Refusal>
        requires sound { IsManager P.bits_of (fields_of self.old) }
        ensures answers { AnswersWholeUndo P.bits_of (fields_of self.old) (fields_of self.new)
            tx result }
        ensures handed { self.new.shared.history.handed ≡ self.old.shared.history.handed }
    {
        self.undoing(tx)?;
        Ok(self.undo_all(tx))
    }

    /// The steps of an abort, up to one that waits or is the last.
    fn undo_all(&mut self, tx: TxId) -> Answer
        requires sound { IsManager P.bits_of (fields_of self.old) }
        requires undoing { IsOpenAt self.old.txs tx IsUndoing }
        ensures steps { StepsBackUpTo P.bits_of (fields_of self.old) (fields_of self.new)
            tx result }
        ensures handed { self.new.shared.history.handed ≡ self.old.shared.history.handed }
    {
        loop {
            match self.step_open(tx) {
                Answer::Going | Answer::Undone => (),
                answer => return answer,
            }
        }
    }

    pub(crate) fn cancel(&mut self, tx: TxId) -> Result<(), Refusal>
        requires sound { IsManager P.bits_of (fields_of self.old) }
        ensures answers { AnswersCancel (fields_of self.old) (fields_of self.new) tx result }
        ensures handed { self.new.shared.history.handed ≡ self.old.shared.history.handed }
    {
        self.pending(tx)?;
        self.txs.cancel(tx, &mut self.shared);
        Ok(())
    }

    pub(crate) fn commit(&mut self, tx: TxId) -> Result<u64, Refusal>
        requires sound { IsManager P.bits_of (fields_of self.old) }
        ensures answers { AnswersCommit (fields_of self.old) (fields_of self.new) tx result }
        ensures handed { self.new.shared.history.handed ≡ self.old.shared.history.handed }
    {
        let count = self.idle(tx)?;
        let number = self.commits + 1;
        self.close(tx, count, TraceItem::Commit(tx, number));
        self.commits = number;
        Ok(number)
    }

    pub(crate) fn abort(&mut self, tx: TxId) -> Result<bool, Refusal>
        requires sound { IsManager P.bits_of (fields_of self.old) }
        ensures answers { AnswersAbort (fields_of self.old) (fields_of self.new) tx result }
        ensures handed { self.new.shared.history.handed ≡ self.old.shared.history.handed }
    {
        let count = self.idle(tx)?;
        if count == 0 {
            self.close(tx, 0, TraceItem::Abort(tx));
            return Ok(true);
        }
        self.txs.undo(tx);
        Ok(false)
    }

    /// Closes a transaction at nothing, of which this many operations stand.
    fn close(&mut self, tx: TxId, count: usize, item: TraceItem)
        requires idle { IsIdleWith self.old.txs tx count }
        requires room { 1 + count ≤ self.old.shared.history.room }
        ensures ends { HasEnded (fields_of self.old) (fields_of self.new) tx item }
        ensures rest { self.new ≡ record self.old {
          shared = self.new.shared;
          txs = self.new.txs;
          active = self.new.active;
        } }
        ensures handed { self.new.shared.history.handed ≡ self.old.shared.history.handed }
    {
        self.shared.history.push(item);
        self.shared.history.release(count);
        self.shared.objects.release_all(tx);
        self.txs.remove(tx);
        self.active.remove(tx);
    }
}

/// After `Aborted` a transaction is no longer open.
#[inline(always)]
fn leave_if_aborted(txs: &mut OpenTransactions, active: &mut OpenSet, tx: TxId, told: &Answer)
    ensures txs { txs.new ≡ txs_after told.now tx txs.old }
    ensures active { active.new ≡ active_after told.now tx active.old }
{
    if let Answer::Aborted = told {
        txs.remove(tx);
        active.remove(tx);
    }
}
