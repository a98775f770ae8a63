//! The manager of transactions.

ghost use Rattle.std.specs.Prelude.{◌≡◌, ◌≢◌, ◌≤◌, ◌++◌, [], IfNone, IfOk, IfSome, IsOkUnless, OnErr, OnOk};
ghost use Rattle.std.specs.FinSet as set;
ghost use Rattle.mlt_trace_check.specs.Traces.{ArePlaced};
ghost use Rattle.mlt_trace.specs.Numbers.{AreBegunInOrder};
ghost use Rattle.mlt_tx.specs.{Standing.standing_in, Tables.KeepsImage, Tables.KeepsNoImage};
ghost use Rattle.mlt_manager.specs.Answers.{AnswersAbort, AnswersBegin, AnswersCall, AnswersCancel, AnswersCommit, AnswersStep, IsByAnother, counted};
ghost use Rattle.mlt_manager.specs.Bases.{HasDepth, KeepsWhatCounts, LeavesBase, UndoingLeavesBase, WholeLeavesBase};
ghost use Rattle.mlt_manager.specs.CleanBuckets.{IsBucketOfPseudokey};
ghost use Rattle.mlt_manager.specs.Courses.{HasAdded, KeepsPromiseOver, Tells, TellsAll, course_of, opening_course};
ghost use Rattle.mlt_manager.specs.Events.{AreWholeEvents, Meets, NoneWaits, Plays, told_of};
ghost use Rattle.mlt_manager.specs.HandingOut.{HandsOut};
ghost use Rattle.mlt_manager.specs.Images.{IsImageAt};
ghost use Rattle.mlt_manager.specs.Managers.{IsManager};
ghost use Rattle.mlt_manager.specs.Openings.{IsNew};
ghost use Rattle.mlt_manager.specs.Undoings.{AnswersWholeUndo};
ghost use Rattle.mlt_manager.specs.Wholes.{AnswersWhole};
ghost use Rattle.mlt_manager.specs.Promises.{IsCommittedBaseOf, KeepsPromises, PassesTheChecker};

use crate::image::BaseImage;
use crate::parts::Parts;
use mlt_event::{Answer, Event, Told};
use mlt_hash_form::{form_is_extendible_hashing, records_are_a_map};
use mlt_object_base::Base;
use mlt_object_kinds::{Done, ObjOp};
use mlt_page::{Bucket, Page, Store};
use mlt_trace::KeptItem;
use mlt_trace_check::{history_passes_the_checker, placed_items_are_writable};
use mlt_types::{Key, Limits, PageNo, Pseudo, Refusal, TxId};
use std::alloc::Global;
use std::marker::Model;

/// A manager of transactions, with the pages that they work on. Each of its calls is one event.
#[derive(Drop)]
pub struct Manager<P: Pseudo> {
    parts: Parts<P>,
}

impl<P: Pseudo> Model for Manager<P> {
    ghost use Rattle.mlt_manager.specs.Managers.{IsManager, ManagerFields, manager_code};
    ghost use Rattle.mlt_manager.specs.Parts.{fields_of};

    ghost Value = { ManagerFields P };

    ghost coded = { manager_code P.code };

    ghost view = { λ m. fields_of m.parts };

    ghost invariant = { λ m. IsManager P.bits_of (fields_of m.parts) };
}

impl<P: Pseudo> Manager<P> {
    /// A manager without transactions, with a file without records: three pages, with a directory of depth 0.
    ///
    /// # Errors
    /// `OutOfMemory`, where a growth was refused.
    pub fn new(alloc: Global, limits: Limits, pseudo: P) -> Result<Manager<P>, Refusal>
    where
        P: Drop,
        ensures opening { IfOk result (λ manager. IsNew manager limits pseudo) }
        ensures course { IfOk result (λ manager. course_of manager ≡ opening_course) }
        ensures refusal { IsOkUnless result Refusal.OutOfMemory }
    {
        Ok(Manager {
            parts: Parts::new(alloc, limits, pseudo)?,
        })
    }

    /// Begins a transaction, under the next number, from 1.
    ///
    /// # Errors
    /// `TooManyOpen`, where as many are open as may be; else `IdsSpent`, where all numbers were given out; else
    /// `OutOfMemory`, where a growth was refused. Nothing is begun then.
    fn begin(&mut self) -> Result<TxId, Refusal>
        ensures answers { AnswersBegin (counted self.old) self.new result }
        ensures handed { self.new.shared.history.handed ≡ self.old.shared.history.handed }
    {
        self.parts.count();
        self.parts.begin()
    }

    /// Calls a transaction with an operation, which is pending from then on.
    ///
    /// # Errors
    /// `NoSuchTx`, where no transaction of this number is open; `Undoing`, where its abort has begun; `Running`, where an
    /// operation is pending; `LogFull`, where it has as many operations as it may have; else `OutOfMemory`, where a
    /// growth was refused. No operation is pending then that was not before.
    #[inline(always)]
    fn call(&mut self, tx: TxId, op: ObjOp) -> Result<(), Refusal>
        ensures answers { AnswersCall (counted self.old) self.new tx op result }
        ensures handed { self.new.shared.history.handed ≡ self.old.shared.history.handed }
    {
        self.parts.count();
        self.parts.call(tx, op)
    }

    /// One step of the pending operation of a transaction, or of its abort: at most one page is locked, read and written.
    /// In a first pass, and in an abort, it takes no memory.
    ///
    /// # Errors
    /// `NoSuchTx`, where no transaction of this number is open; `NotRunning`, where it is at nothing.
    fn step(&mut self, tx: TxId) -> Result<Answer, Refusal>
        ensures answers { AnswersStep P.bits_of (counted self.old) self.new tx result }
        ensures base { IfOk result (λ told. LeavesBase told (counted self.old) self.new tx) }
        ensures others { IfOk result (λ told. IsByAnother told self.new.txs tx) }
        ensures handed { self.new.shared.history.handed ≡ self.old.shared.history.handed }
    {
        self.parts.count();
        self.parts.step(tx)
    }

    /// Drops the pending operation of a transaction, and puts back the pages that it wrote. It takes no memory.
    ///
    /// # Errors
    /// `NoSuchTx`, where no transaction of this number is open; `Undoing`, where its abort has begun; `NotRunning`, where
    /// it is at nothing.
    fn cancel(&mut self, tx: TxId) -> Result<(), Refusal>
        ensures answers { AnswersCancel (counted self.old) self.new tx result }
        ensures base { OnOk result (KeepsWhatCounts (counted self.old) self.new) }
        ensures handed { self.new.shared.history.handed ≡ self.old.shared.history.handed }
    {
        self.parts.count();
        self.parts.cancel(tx)
    }

    /// Commits a transaction, and answers the number of its commit, from 1. It takes no memory.
    ///
    /// # Errors
    /// `NoSuchTx`, where no transaction of this number is open; `Undoing`, where its abort has begun; `Running`, where an
    /// operation is pending.
    fn commit(&mut self, tx: TxId) -> Result<u64, Refusal>
        ensures answers { AnswersCommit (counted self.old) self.new tx result }
        ensures handed { self.new.shared.history.handed ≡ self.old.shared.history.handed }
    {
        self.parts.count();
        self.parts.commit(tx)
    }

    /// Begins the abort of a transaction. One that has nothing to take back is closed at once, and then the answer is
    /// `true`; any other is to take its operations back, by steps. It takes no memory.
    ///
    /// # Errors
    /// `NoSuchTx`, where no transaction of this number is open; `Undoing`, where its abort has begun; `Running`, where an
    /// operation is pending.
    fn abort(&mut self, tx: TxId) -> Result<bool, Refusal>
        ensures answers { AnswersAbort (counted self.old) self.new tx result }
        ensures handed { self.new.shared.history.handed ≡ self.old.shared.history.handed }
    {
        self.parts.count();
        self.parts.abort(tx)
    }

    /// A call and its steps to the end, as one event. An operation that waits or is blocked is dropped.
    ///
    /// # Errors
    /// Those of [`call`](Manager::call).
    fn whole(&mut self, tx: TxId, op: ObjOp) -> Result<Answer, Refusal>
        ensures answers { AnswersWhole P.bits_of (counted self.old) self.new tx op result }
        ensures base { IfOk result
            (λ told. WholeLeavesBase told (counted self.old) self.new tx op) }
        ensures others { IfOk result (λ told. IsByAnother told self.new.txs tx) }
        ensures handed { self.new.shared.history.handed ≡ self.old.shared.history.handed }
    {
        self.parts.count();
        self.parts.whole(tx, op)
    }

    /// The steps of an abort, up to its end or to one that waits, as one event. It takes no memory.
    ///
    /// # Errors
    /// `NoSuchTx`, where no transaction of this number is open; `NotRunning`, where its abort has not begun.
    fn whole_undo(&mut self, tx: TxId) -> Result<Answer, Refusal>
        ensures answers { AnswersWholeUndo P.bits_of (counted self.old) self.new tx result }
        ensures base { IfOk result (λ told. UndoingLeavesBase told (counted self.old) self.new tx) }
        ensures others { IfOk result (λ told. IsByAnother told self.new.txs tx) }
        ensures handed { self.new.shared.history.handed ≡ self.old.shared.history.handed }
    {
        self.parts.count();
        self.parts.whole_undo(tx)
    }

    /// Executes one event and returns its answer.
    #[inline(always)]
    pub fn act(&mut self, event: Event) -> Told
        ensures course { Tells (course_of self.old) event result (course_of self.new) }
        ensures items { HasAdded (course_of self.old) event result (course_of self.new)
            self.old.shared.history.items self.new.shared.history.items }
        ensures meets { Meets P.bits_of event result (counted self.old) self.new }
        ensures handed { self.new.shared.history.handed ≡ self.old.shared.history.handed }
    {
        self.keeps_its_invariant();
        let told = self.execute(event);
        told
    }

    #[inline(always)]
    fn execute(&mut self, event: Event) -> Told
        ensures meets { Meets P.bits_of event result (counted self.old) self.new }
        ensures handed { self.new.shared.history.handed ≡ self.old.shared.history.handed }
    {
        match event {
            Event::Begin => match self.begin() {
                Ok(tx) => Told::Begun(tx),
                Err(refusal) => Told::Refused(refusal),
            },
            Event::Call(tx, op) => match self.call(tx, op) {
                Ok(()) => Told::Called,
                Err(refusal) => Told::Refused(refusal),
            },
            Event::Step(tx) => answered(self.step(tx)),
            Event::Cancel(tx) => match self.cancel(tx) {
                Ok(()) => Told::Cancelled,
                Err(refusal) => Told::Refused(refusal),
            },
            Event::Commit(tx) => match self.commit(tx) {
                Ok(number) => Told::Committed(number),
                Err(refusal) => Told::Refused(refusal),
            },
            Event::Abort(tx) => match self.abort(tx) {
                Ok(closed) => Told::Aborting(closed),
                Err(refusal) => Told::Refused(refusal),
            },
            Event::Whole(tx, op) => answered(self.whole(tx, op)),
            Event::WholeUndo(tx) => answered(self.whole_undo(tx)),
        }
    }

    /// Executes all events in order, on a new manager, and returns the answer to each.
    ///
    /// # Errors
    /// `OutOfMemory`, if memory was refused to the new manager or to the list of answers. An event that is refused memory
    /// is answered so, and the next one follows.
    pub fn play(
        alloc: Global,
        limits: Limits,
        pseudo: P,
        events: &[Event],
    ) -> Result<(Manager<P>, Vec<Told>), Refusal>
    where
        P: Drop,
        ensures plays { IfOk result (λ played.
            Plays P.bits_of limits pseudo events.now played.1.items played.0) }
        // what the events were told is a course of transactions and a history, and the promise is kept over the course
        ensures course { IfOk result (λ played.
            TellsAll opening_course events.now played.1.items (course_of played.0)
            played.0.shared.history.items
            × KeepsPromiseOver (course_of played.0) played.0) }
        // all of the history is there
        ensures history { IfOk result (λ played. played.0.shared.history.handed ≡ []) }
        // among whole events nobody waits
        ensures whole { AreWholeEvents events.now
            → IfOk result (λ played. NoneWaits played.1.items) }
        ensures refusal { IsOkUnless result Refusal.OutOfMemory }
    {
        let mut tolds = Vec::with_capacity(alloc, events.len())?;
        let mut manager = Manager::new(alloc, limits, pseudo)?;
        for event in events {
            match tolds.push(manager.act(*event)) {
                Ok(()) => (),
                Err(_) => return Err(Refusal::OutOfMemory),
            }
        }
        manager.keeps_its_promises();
        Ok((manager, tolds))
    }

    /// What transactions did, in order, where none of it was handed out.
    pub fn history(&self) -> Option<&[KeptItem]>
        ensures some { IfSome result (λ items. items.now ≡ self.now.shared.history.items) }
        ensures none { IfNone result (self.now.shared.history.handed ≢ []) }
    {
        self.parts.shared.history.items()
    }

    /// What transactions did and was not handed out yet, in order.
    pub fn kept_history(&self) -> &[KeptItem]
        ensures { self.now.shared.history.items
            ≡ self.now.shared.history.handed ++ result.now }
    {
        self.parts.shared.history.kept()
    }

    /// Hands out what transactions did since this was called last, in order: it is what the list has then, and what that had is
    /// gone. The manager keeps no more of it, and goes on in the memory of the list. It is no event, copies no item, and takes memory
    /// only where that of the list is less than the room that open transactions may need.
    ///
    /// # Errors
    /// `OutOfMemory`, where a growth was refused; nothing is handed out then.
    pub fn take_history(&mut self, list: &mut Vec<KeptItem>) -> Result<(), Refusal>
        ensures rest { HandsOut self.old self.new }
        ensures course { course_of self.new ≡ course_of self.old }
        ensures handed { OnOk result
            (self.new.shared.history.handed ≡ self.old.shared.history.items) }
        ensures list { OnOk result (self.old.shared.history.items
            ≡ self.old.shared.history.handed ++ list.new.items) }
        ensures err { OnErr result (self.new ≡ self.old) }
        ensures refusal { IsOkUnless result Refusal.OutOfMemory }
    {
        self.parts.hand_out(list)
    }

    /// The pages, with what running operations have written.
    pub fn pages(&self) -> &Store
        ensures { result.now ≡ self.now.shared.pages.store }
    {
        &self.parts.shared.pages.store
    }

    /// What a transaction did and has not taken back, in order, which is what it holds locks on; nothing if it is not open. It takes no
    /// memory.
    pub fn done_by(&self, tx: TxId) -> &[Done]
        ensures { result.now ≡ standing_in self.now.txs tx }
    {
        match self.parts.txs.get(tx) {
            Some(transaction) => transaction.undo.entries(),
            None => &[],
        }
    }

    /// The first image of a page that a running subtransaction has written: the page as it was before, or `None` where it was
    /// made then. Without such a subtransaction there is no answer. It takes no memory.
    pub fn first_image(&self, number: PageNo) -> Option<&Option<Page>>
        ensures kept { IfSome result (λ first. KeepsImage self.now.txs number first.now) }
        ensures none { IfNone result (KeepsNoImage self.now.txs number) }
    {
        self.parts.txs.first_image(number)
    }

    /// The depth of the directory, from 0 to 16, on the clean pages: those of the store, with what running operations have
    /// written put back. It differs from the header in the store while a split that doubled the directory runs. It takes no
    /// memory.
    pub fn depth(&self) -> u8
        ensures depth { HasDepth self.now result }
        ensures most { result ≤ 16 }
    {
        self.parts.depth()
    }

    /// The base to which the committed transactions lead, run alone in commit order: what the pages mean, once running
    /// operations are put back and open transactions are taken back. It is read from the pages and the undo lists, and no
    /// operation is done anew.
    ///
    /// # Errors
    /// `OutOfMemory`, where a growth was refused.
    pub fn base(&self) -> Result<Base, Refusal>
        ensures base { IfOk result (λ base. IsCommittedBaseOf self.now base) }
        ensures refusal { IsOkUnless result Refusal.OutOfMemory }
    {
        let image = self.image()?;
        image.base()
    }

    /// What the base to which the committed transactions lead is made of, so that it can be made later.
    ///
    /// # Errors
    /// `OutOfMemory`, where a growth was refused.
    pub fn image(&self) -> Result<BaseImage, Refusal>
        ensures image { IfOk result (λ image. IsImageAt self.now image) }
        ensures refusal { IsOkUnless result Refusal.OutOfMemory }
    {
        self.parts.image()
    }

    /// The bucket that a pseudokey leads to, on the clean pages: it has the records whose pseudokeys agree with this one in as many
    /// bits as its depth says, at most 32. It takes no memory.
    pub fn bucket_of(&self, pseudokey: u64) -> &Bucket
        ensures bucket { IsBucketOfPseudokey P.bits_of self.now pseudokey result.now }
    {
        self.parts.bucket_of(pseudokey)
    }

    /// The pseudokey of a key.
    pub fn pseudokey_of(&self, key: &Key) -> u64
        ensures { result ≡ P.bits_of self.now.root.pseudo key.now }
    {
        self.parts.root.pseudo.bits(key)
    }

    /// What is promised of every manager, between any two events.
    pub fn keeps_its_promises(&self)
        ensures { KeepsPromises P.bits_of self.now }
    {
        // What is always true of the parts is known where they are read.
        let _parts = &self.parts;
        form_is_extendible_hashing();
        records_are_a_map();
    }

    /// What is always true of a manager, between any two events.
    pub fn keeps_its_invariant(&self)
        ensures { IsManager P.bits_of self.now }
    {
        // What is always true of the parts is known where they are read.
        let _parts = &self.parts;
    }

    /// The text of the history passes the checker of traces, with the committed order and the base of what is committed: of all of
    /// it, handed out or not. It does nothing.
    pub fn passes_the_checker(&self)
        ensures { PassesTheChecker self.now }
    {
        self.parts.shared.history.items_fit();
        placed_items_are_writable();
        history_passes_the_checker();
    }

    /// Each item of the history has its place, and transactions begin under the numbers 1, 2, 3 and so on: what an audit of
    /// outcomes against the history asks.
    pub fn keeps_a_placed_history(&self)
        ensures placed { ArePlaced self.now.shared.history.items }
        ensures begun { AreBegunInOrder self.now.shared.history.items }
    {
        // What is always true of the parts is known where they are read.
        let _parts = &self.parts;
    }

    /// Ends the manager, and gives its memory back. The owner of a manager ends it by this call, and has no drop of its own.
    pub fn close(self)
    where
        P: Drop,
    {
        drop(self);
    }

    /// How many transactions have begun, 0 to 2^63 - 1.
    pub fn begun(&self) -> u64
        ensures { result ≡ self.now.begun }
    {
        self.parts.begun
    }

    /// How many transactions have committed, 0 to 2^63 - 1.
    pub fn commits(&self) -> u64
        ensures { result ≡ self.now.commits }
    {
        self.parts.commits
    }

    /// How many transactions are open, 0 to 64.
    pub fn open_count(&self) -> usize
        ensures { result ≡ set.len self.now.active }
    {
        self.parts.active.len()
    }

    /// How many events there were; it stays at 2^64 - 1.
    pub fn events(&self) -> u64
        ensures { result ≡ self.now.events }
    {
        self.parts.events
    }
}

fn answered(answer: Result<Answer, Refusal>) -> Told
    ensures { result ≡ told_of answer }
{
    match answer {
        Ok(answer) => Told::Answered(answer),
        Err(refusal) => Told::Refused(refusal),
    }
}
