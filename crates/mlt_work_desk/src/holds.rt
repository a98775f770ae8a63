//! What a desk does while it holds the lock.

ghost use Rattle.std.specs.Prelude.{◌≡◌, ◌++◌, ◌∷◌, ◌+◌, ◌<◌, ◌≤◌, ◌≢◌, ℕ, [], false, true, IsOkUnless, List, Some};
ghost use Rattle.mlt_event.specs.declared.event.Event.{Event};
ghost use Rattle.mlt_event.specs.declared.told.Told.{Told};
ghost use Rattle.mlt_manager.specs.Answers.{counted};
ghost use Rattle.mlt_manager.specs.Courses.{Tells, course_of};
ghost use Rattle.mlt_manager.specs.Events.{Meets};
ghost use Rattle.mlt_manager.specs.Managers.{IsManager};
ghost use Rattle.mlt_work_waits.specs.declared.wait.Waker.{Waker};
ghost use Rattle.mlt_work_desk.specs.Prefixes.{HasBegunWith, StartsWith, after_act, no_past, times};
ghost use Rattle.mlt_trace.specs.Numbers.{begun_txs};
ghost use Rattle.mlt_work_desk.specs.LogHandles.{IsOf, IsWriterOf, begun_by, first_items, id_of, past_of, seen_by};
ghost use Rattle.mlt_work_desk.specs.Holds.{EndsWithOp, HasBegun, IfReply, SeesEvent, txs_begun};
ghost use Rattle.mlt_work_desk.specs.Makings.{making_by};
ghost use Rattle.mlt_work_waits.specs.Turns.{given_back_by, queue_after, queue_if, TurnsIfWaits, wait_if, waits_after, woken_by};

use crate::locked_state::LockedState;
use crate::log_handles::{Growth, HistoryLog, LogSnapshot, LogWriter};
use crate::made_with::MadeWith;
use mlt_event::{Event, Told};
use mlt_manager::Manager;
use mlt_object_kinds::ObjOp;
use mlt_types::{Limits, Pseudo, Refusal};
use mlt_work_waits::{Desks, SleepingThread, Turn, Wakers};
use std::alloc::Global;
use std::marker::Brand;
use std::sync::ledger::{Book, Share};

impl<P: Pseudo, L: MadeWith<P>> LockedState<P, L> {
    /// No desk, over a new manager with these limits.
    ///
    /// # Errors
    /// `OutOfMemory`, where a growth was refused.
    pub fn new(
        alloc: Global,
        limits: Limits,
        pseudo: P,
        book: Book<L>,
        writer: LogWriter,
    ) -> Result<LockedState<P, L>, Refusal>
    where
        P: Drop,
        requires made { Some (making_by limits pseudo) ≡ L.made_with }
        requires total { book.total ≡ 0 }
        requires of_log { IsWriterOf L.log_id writer }
        requires none { past_of writer ≡ no_past }
        ensures refusal { IsOkUnless result Refusal.OutOfMemory }
    {
        let manager = Manager::new(alloc, limits, pseudo)?;
        Ok(LockedState {
            manager,
            book,
            desks: Desks::new(),
            writer,
        })
    }

    /// One event of a desk, which counts in the share. Where it is to wait, and may sleep, it does so as this thread. A desk that
    /// waits for what it released is awake then, and its waker is added. It returns the answer, and what the desk does next. The
    /// snapshot is one of the past after it.
    #[inline(always)]
    pub(crate) fn act(
        &mut self,
        event: Event,
        share: &mut Share<L>,
        may_sleep: bool,
        thread: &SleepingThread,
        log: &HistoryLog,
        snapshot: &mut LogSnapshot,
        wakers: &mut Wakers,
    ) -> (Told, Turn)
        requires part { 0 < share.old.parts }
        requires none { wakers.old.items ≡ [] }
        requires log { id_of log.now ≡ L.log_id }
        requires of_log { IsOf L.log_id snapshot.old }
        ensures of_log { IsOf L.log_id snapshot.new }
        ensures seen { seen_by snapshot.new ≡ past_of self.new.writer }
        ensures sees { SeesEvent (first_items snapshot.old) event result.0
            (first_items snapshot.new) }
        ensures begun { HasBegun (begun_by snapshot.old) event result.0 (begun_by snapshot.new) }
        ensures course { Tells (course_of self.old.manager) event result.0
            (course_of self.new.manager) }
        ensures before { IsManager P.bits_of self.old.manager }
        ensures after { IsManager P.bits_of self.new.manager }
        ensures meets { Meets P.bits_of event result.0
            (counted self.old.manager) self.new.manager }
        ensures acts { (past_of self.new.writer).acts
            ≡ (past_of self.old.writer).acts ++ (event, result.0) ∷ [] }
        ensures first { HasBegunWith (past_of self.old.writer) (seen_by snapshot.old) }
        ensures keeps { IfReply event result.0 (self.new.manager.shared.history.items
            ≢ self.new.manager.shared.history.handed) }
        ensures amount { share.new.amount ≡ share.old.amount + 1 }
        ensures parts { share.new.parts ≡ share.old.parts }
        ensures desks { self.new.desks.count ≡ self.old.desks.count }
        ensures turns { (woken : List Waker) × (wakers.new.items
            ≡ woken_by (given_back_by event result.0) self.old.desks.waits ++ woken)
            × TurnsIfWaits self.old.desks.count (wait_if may_sleep result.0 thread.now)
            (waits_after (given_back_by event result.0) self.old.desks.waits)
            result.1 self.new.desks.waits woken }
        ensures queue { self.new.desks.queue ≡ queue_if may_sleep result.0 thread.now
            (queue_after (given_back_by event result.0) self.old.desks.queue) }
    {
        let LockedState {
            manager,
            book,
            desks,
            writer,
        } = self;
        book.add(share, 1);
        manager.keeps_its_invariant();
        // What was handed out are the first items of the history.
        manager.kept_history();
        let told = manager.act(event);
        manager.keeps_its_invariant();
        see_act::<Brand, P>(log, writer, snapshot, manager, &event, &told);
        let turn = desks.turn_after(&event, &told, may_sleep, thread, wakers);
        (told, turn)
    }

    /// A thread is to call the operation that it is in. It answers whether it waits for its turn behind others from now on.
    pub(crate) fn queues(&mut self, thread: &SleepingThread) -> bool {
        self.desks.queues(thread, self.manager.done_by(thread.tx))
    }

    /// Whether the last item of the history tells of this operation. Of a history that was all handed out it does not know.
    #[inline(always)]
    pub(crate) fn ends_with(&self, op: &ObjOp) -> bool
        ensures is { result ≡ true → EndsWithOp self.now.manager.shared.history.items op.now }
        ensures is_not { result ≡ false
            → self.now.manager.shared.history.items ≢ self.now.manager.shared.history.handed
            → EndsWithOp self.now.manager.shared.history.items op.now → ⊥ }
    {
        let Some((last, _)) = self.manager.kept_history().split_last() else {
            return false;
        };
        last.is_op(op)
    }

    /// A snapshot of the history, whose holder has begun nothing.
    pub(crate) fn snapshot(&mut self, log: &HistoryLog) -> LogSnapshot
        requires { id_of log.now ≡ L.log_id }
        ensures of_log { IsOf L.log_id result }
        ensures begun { begun_by result ≡ [] }
        ensures same { self.new.manager ≡ self.old.manager }
        ensures desks { self.new.desks ≡ self.old.desks }
    {
        log.snapshot(&mut self.writer)
    }

    /// The holder of the snapshot has begun no transaction more often than the history has.
    pub(crate) fn count(&mut self, log: &HistoryLog, all: LogSnapshot)
        requires log { id_of log.now ≡ L.log_id }
        requires of_log { IsOf L.log_id all }
        ensures same { self.new.manager ≡ self.old.manager }
        ensures counted { (tx : ℕ) → times tx (begun_by all)
            ≤ times tx (begun_txs self.old.manager.shared.history.items) }
    {
        log.count(&mut self.writer, all);
    }

    /// The past has begun with that of a snapshot.
    pub(crate) fn compare(&mut self, log: &HistoryLog, snapshot: LogSnapshot)
        requires log { id_of log.now ≡ L.log_id }
        requires of_log { IsOf L.log_id snapshot }
        ensures same { self.new.manager ≡ self.old.manager }
        ensures past { past_of self.new.writer ≡ past_of self.old.writer }
        ensures first { HasBegunWith (past_of self.old.writer) (seen_by snapshot) }
    {
        let mut snapshot = snapshot;
        log.see::<Brand>(&mut self.writer, &mut snapshot);
    }
}

/// The past has one more event from now on, and the items of the manager's history, and the snapshot is one of all of it. The past before
/// had begun with that of the snapshot. If the event began a transaction, the holder of the snapshot has begun it.
#[inline(always)]
fn see_act<G: Growth, P: Pseudo>(
    log: &HistoryLog,
    writer: &mut LogWriter,
    snapshot: &mut LogSnapshot,
    manager: &Manager<P>,
    event: &Event,
    told: &Told,
)
    requires picked { G.past ≡ after_act (past_of writer.old) event.now told.now
        manager.now.shared.history.items }
    requires begun { G.begun ≡ txs_begun event.now told.now }
    requires writer { IsWriterOf (id_of log.now) writer.old }
    requires of_log { IsOf (id_of log.now) snapshot.old }
    requires grows { StartsWith manager.now.shared.history.items (past_of writer.old).items }
    requires begins { begun_txs manager.now.shared.history.items
        ≡ begun_txs (past_of writer.old).items ++ txs_begun event.now told.now }
    ensures writer { IsWriterOf (id_of log.now) writer.new }
    ensures of_log { IsOf (id_of log.now) snapshot.new }
    ensures past { past_of writer.new ≡ after_act (past_of writer.old) event.now told.now
        manager.now.shared.history.items }
    ensures seen { seen_by snapshot.new ≡ past_of writer.new }
    ensures begun { begun_by snapshot.new ≡ begun_by snapshot.old ++ txs_begun event.now told.now }
    ensures first { HasBegunWith (past_of writer.old) (seen_by snapshot.old) }
{
    log.see::<G>(writer, snapshot)
}
