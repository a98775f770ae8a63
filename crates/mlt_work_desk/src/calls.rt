//! The calls of a desk over a shared manager.

ghost use Rattle.std.specs.Prelude.{◌≡◌, ◌∷◌, ◌-◌, ◌^◌, [], min, true, false, IfSome};
ghost use Rattle.mlt_script_serial.specs.Calls.{answer_by};
ghost use Rattle.mlt_work_desk.specs.Prefixes.{StartsWith};
ghost use Rattle.mlt_work_desk.specs.LogHandles.{IsOf, begun_by, first_items};
ghost use Rattle.mlt_script_serial.specs.declared.call.DeskCall.TheVariants as call;
ghost use Rattle.mlt_event.specs.declared.event.Event.TheVariants as event;
ghost use Rattle.mlt_work_desk.specs.Holds.{EndsWithOp, HasBegun, IfReply, IsToldTo, MayAnswerOperation, SeesAnswer, SeesEvent};
ghost use Rattle.mlt_work_desk.specs.Acts.{EndsAbort, HasUndone};
ghost use Rattle.mlt_work_desk.specs.Tries.{GivesUp, IsYoungestOfCycle, StepsByTries, StepsWithoutWait, tries_of, tries_spent};
ghost use Rattle.mlt_work_desk.specs.Views.{HasMade, desk_view};

use crate::lock_desk::LockDesk;
use crate::log_handles::LogSnapshot;
use crate::made_with::MadeWith;
use crate::shared::Shared;
use crate::tries::{Tries, TriesLeft};
use mlt_event::{Answer, Event, Told};
use mlt_object_kinds::{ObjOp, ObjReply};
use mlt_script_serial::{Answering, Desk, DeskAnswer};
use mlt_types::{Pseudo, Refusal, TxId};
use mlt_work_waits::{Gate, Notice, SleepingThread, Turn, Wakers, goes_on, is_done};
use std::sync::Wait;
use std::sync::ledger::Share;

impl<'a, P: Pseudo, L: MadeWith<P>, R: Wait, G: Gate> LockDesk<'a, P, L, R, G> {
    /// A desk that has made no event yet.
    pub fn new(
        rt: &'a R,
        shared: &'a Shared<P, L>,
        gate: &'a G,
        share: Share<L>,
        tries: Tries,
    ) -> LockDesk<'a, P, L, R, G>
        requires part { share.parts ≡ 1 }
        requires amount { share.amount ≡ 0 }
        ensures tries { result.tries ≡ tries_of tries }
    {
        let snapshot = shared.snapshot(rt);
        LockDesk::after(rt, shared, gate, share, snapshot, tries)
    }

    /// A desk that has made no event yet, and comes after one that left this snapshot.
    pub fn after(
        rt: &'a R,
        shared: &'a Shared<P, L>,
        gate: &'a G,
        share: Share<L>,
        snapshot: LogSnapshot,
        tries: Tries,
    ) -> LockDesk<'a, P, L, R, G>
        requires part { share.parts ≡ 1 }
        requires amount { share.amount ≡ 0 }
        requires of_log { IsOf L.log_id snapshot }
        ensures snapshot { result.snapshot ≡ snapshot }
        ensures tries { result.tries ≡ tries_of tries }
        ensures events { result.share.amount ≡ 0 }
    {
        let waker = shared.lock(rt).desks.enter();
        LockDesk {
            rt,
            shared,
            gate,
            client: 0,
            tries: TriesLeft::new(tries),
            thread: SleepingThread {
                tx: TxId(0),
                timestamp: 0,
                waker,
                op: ObjOp::Size(0),
            },
            is_asleep: false,
            is_reply: false,
            keeps_timestamp: false,
            wakers: Wakers::new(),
            share,
            events: 0,
            snapshot,
        }
    }

    /// From now on it is at work for this client.
    pub fn serve(&mut self, client: u32)
        ensures snapshot { self.new.snapshot ≡ self.old.snapshot }
        ensures tries { self.new.tries ≡ self.old.tries }
        ensures events { self.new.share.amount ≡ self.old.share.amount }
    {
        self.client = client;
        self.keeps_timestamp = false;
    }

    /// The timestamp that the next transaction keeps, if it does.
    pub fn kept_timestamp(&self) -> Option<u64> {
        self.keeps_timestamp.then_some(self.thread.timestamp)
    }

    /// The next transaction keeps this timestamp, if there is one: that of the last one of its client, which another desk has served.
    pub fn keep_timestamp(&mut self, timestamp: Option<u64>)
        ensures snapshot { self.new.snapshot ≡ self.old.snapshot }
        ensures tries { self.new.tries ≡ self.old.tries }
        ensures events { self.new.share.amount ≡ self.old.share.amount }
    {
        if let Some(timestamp) = timestamp {
            self.thread.timestamp = timestamp;
            self.keeps_timestamp = true;
        }
    }

    /// Ends the desk, and gives its share, the number of its events, and what the history was after the last of them.
    pub fn close(self) -> (Share<L>, u64, LogSnapshot)
        ensures part { result.0.parts ≡ 1 }
        ensures counted { result.1 ≡ min result.0.amount (2 ^ 64 - 1) }
        ensures snapshot { result.2 ≡ self.entry.snapshot }
    {
        let LockDesk {
            rt,
            shared,
            gate: _,
            client: _,
            tries: _,
            thread,
            is_asleep: _,
            is_reply: _,
            keeps_timestamp: _,
            mut wakers,
            share,
            events,
            snapshot,
        } = self;
        shared.lock(rt).desks.leave(thread.waker, &mut wakers);
        shared.wake(&wakers);
        (share, events, snapshot)
    }

    /// One event, in one hold of the lock, which counts in the share. The desk may sleep before it; and where it is to wait it
    /// sleeps after it, if it may and the turn is so. Of a reply the desk looks whether it is to the operation that it is in. The gate
    /// is told the answer, with the lock free.
    #[inline(always)]
    fn hold(&mut self, event: Event, may_sleep: bool) -> (Told, Turn)
        ensures told { IsToldTo P.bits_of event result.0 }
        ensures sees { SeesEvent (first_items self.old.snapshot) event result.0
            (first_items self.new.snapshot) }
        ensures begun { HasBegun (begun_by self.old.snapshot) event result.0
            (begun_by self.new.snapshot) }
        ensures reply { self.new.is_reply ≡ true
            → EndsWithOp (first_items self.new.snapshot) self.old.thread.op }
        ensures another { self.new.is_reply ≡ false → IfReply event result.0
            (EndsWithOp (first_items self.new.snapshot) self.old.thread.op → ⊥) }
        ensures youngest { result.1 ≡ Turn.Deadlock → IsYoungestOfCycle self.old.thread.tx }
        ensures made { HasMade (desk_view self.old.snapshot self.old.tries self.old.share.amount)
            (desk_view self.new.snapshot self.new.tries self.new.share.amount)
            ((event, result.0) ∷ []) }
        ensures thread { self.new.thread ≡ self.old.thread }
        ensures tries { self.new.tries ≡ self.old.tries }
    {
        let LockDesk {
            rt,
            shared,
            gate,
            client,
            thread,
            is_asleep,
            is_reply,
            wakers,
            share,
            events,
            snapshot,
            ..
        } = self;
        *events = events.saturating_add(1);
        let mut state = shared.enter(*rt, thread, *is_asleep);
        *is_asleep = false;
        let log = &shared.log;
        let (told, turn) = state.act(event, share, may_sleep, thread, log, snapshot, wakers);
        if goes_on(&told) {
            // Nobody is awake or blocked by it.
            drop(state);
            *is_reply = false;
            gate.pause(*client, &told);
            return (told, turn);
        }
        *is_reply = is_done(&told) && state.ends_with(&thread.op);
        shared.note_blocked(state.desks.queue.count());
        drop(state);
        if !wakers.is_empty() {
            shared.wake(wakers);
            wakers.clear();
        }
        *is_asleep = turn == Turn::Sleeps;
        gate.pause(*client, &told);
        (told, turn)
    }

    /// From now on it sleeps as one of this transaction, which has not waited yet.
    fn is_in(&mut self, tx: TxId)
        ensures tx { self.new.thread.tx ≡ tx }
        ensures snapshot { self.new.snapshot ≡ self.old.snapshot }
        ensures tries { self.new.tries ≡ self.old.tries }
        ensures events { self.new.share.amount ≡ self.old.share.amount }
    {
        self.thread.tx = tx;
    }

    /// The transaction is to call the operation that it is in. Where somebody is blocked the desk looks whether it has to queue.
    #[inline(always)]
    fn wait_for_turn(&mut self)
        ensures snapshot { self.new.snapshot ≡ self.old.snapshot }
        ensures thread { self.new.thread ≡ self.old.thread }
        ensures tries { self.new.tries ≡ self.old.tries }
        ensures events { self.new.share.amount ≡ self.old.share.amount }
    {
        if self.shared.has_blocked() {
            self.queue_behind();
        }
    }

    /// Where others are blocked in operations that may clash with this one, and with none that the transaction holds, the desk sleeps
    /// behind the last of them before its next event. The gate hears of it, with the lock free.
    #[cold]
    #[inline(never)]
    fn queue_behind(&mut self)
        ensures snapshot { self.new.snapshot ≡ self.old.snapshot }
        ensures thread { self.new.thread ≡ self.old.thread }
        ensures tries { self.new.tries ≡ self.old.tries }
        ensures events { self.new.share.amount ≡ self.old.share.amount }
    {
        let mut state = self.shared.lock(self.rt);
        let queues = state.queues(&self.thread);
        drop(state);
        if queues {
            self.is_asleep = true;
            self.gate.notice(self.client, Notice::WaitsForTurn);
        }
    }

    /// The operation is to wait, which spends a try. It answers whether it gives up: where no tries are left, where its transaction is
    /// the youngest of a cycle, so that each would be told the same, and where the gate is out of patience.
    fn spends_last_try(&mut self, turn: Turn) -> bool
        requires youngest { turn ≡ Turn.Deadlock → IsYoungestOfCycle self.old.thread.tx }
        ensures spent { self.new.tries ≡ tries_spent self.old.tries }
        ensures reason { result ≡ true → GivesUp self.old.thread.tx self.new.tries }
        ensures snapshot { self.new.snapshot ≡ self.old.snapshot }
        ensures thread { self.new.thread ≡ self.old.thread }
        ensures events { self.new.share.amount ≡ self.old.share.amount }
    {
        self.tries.spend();
        self.tries.left == 0 || turn == Turn::Deadlock || !self.tries.is_patient
    }

    /// The operation is cancelled. The next transaction keeps the timestamp of this one.
    #[tactic(auto, using(crate::proofs::Seeing::sees_more))]
    fn cancel(&mut self, turn: Turn)
        ensures cancels { (cancelled : Told)
            × IsToldTo P.bits_of (event.Cancel self.old.thread.tx) cancelled }
        ensures more { StartsWith (first_items self.new.snapshot) (first_items self.old.snapshot) }
        ensures begun { begun_by self.new.snapshot ≡ begun_by self.old.snapshot }
        ensures made { StepsWithoutWait self.old.thread.tx
            (desk_view self.old.snapshot self.old.tries self.old.share.amount)
            (desk_view self.new.snapshot self.new.tries self.new.share.amount) }
        ensures thread { self.new.thread ≡ self.old.thread }
        ensures tries { self.new.tries ≡ self.old.tries }
    {
        if turn == Turn::Deadlock {
            self.gate.notice(self.client, Notice::IsVictim);
        }
        self.hold(Event::Cancel(self.thread.tx), false);
        self.keeps_timestamp = true;
    }

    /// The operation was to wait. Where it gives up it is cancelled, and else it goes on once the desk is awake. It answers whether it
    /// gave up.
    #[tactic(auto, using(crate::proofs::Seeing::no_more))]
    #[cold]
    #[inline(never)]
    fn gives_up(&mut self, turn: Turn) -> bool
        requires youngest { turn ≡ Turn.Deadlock → IsYoungestOfCycle self.old.thread.tx }
        ensures cancels { result ≡ true → (cancelled : Told)
            × IsToldTo P.bits_of (event.Cancel self.old.thread.tx) cancelled }
        ensures reason { result ≡ true → GivesUp self.old.thread.tx self.new.tries }
        ensures spent { self.new.tries ≡ tries_spent self.old.tries }
        ensures made { StepsWithoutWait self.old.thread.tx
            (desk_view self.old.snapshot self.old.tries self.old.share.amount)
            (desk_view self.new.snapshot self.new.tries self.new.share.amount) }
        ensures thread { self.new.thread ≡ self.old.thread }
        ensures more { StartsWith (first_items self.new.snapshot) (first_items self.old.snapshot) }
        ensures begun { begun_by self.new.snapshot ≡ begun_by self.old.snapshot }
    {
        let gives_up = self.spends_last_try(turn);
        if gives_up {
            self.cancel(turn);
        }
        gives_up
    }

    /// One step of the operation that the desk is in, which was called. It answers the operation's answer, if it has one: a reply that
    /// the history has as one to this operation. Where a step's answer comes only where another desk acts for the same transaction, the
    /// answer is `NoSuchTx`.
    #[inline(always)]
    fn step(&mut self) -> Option<Result<ObjReply, Refusal>>
        ensures told { IfSome result (λ reply. MayAnswerOperation P.bits_of self.old.thread.tx
            self.old.thread.op (answer_by DeskAnswer.Replied reply)
            (desk_view self.new.snapshot self.new.tries self.new.share.amount)) }
        ensures sees { IfSome result (λ reply. SeesAnswer (first_items self.old.snapshot)
            (call.Operation self.old.thread.tx self.old.thread.op)
            (answer_by DeskAnswer.Replied reply) (first_items self.new.snapshot)) }
        ensures more { StartsWith (first_items self.new.snapshot) (first_items self.old.snapshot) }
        ensures begun { begun_by self.new.snapshot ≡ begun_by self.old.snapshot }
        ensures made { StepsByTries self.old.thread.tx
            (desk_view self.old.snapshot self.old.tries self.old.share.amount)
            (desk_view self.new.snapshot self.new.tries self.new.share.amount) }
        ensures thread { self.new.thread ≡ self.old.thread }
    {
        self.tries.is_patient = self.gate.is_patient(self.client);
        // With its last try it does not wait, nor where the gate is out of patience.
        let may_sleep = self.tries.left > 1 && self.tries.is_patient;
        let (told, turn) = self.hold(Event::Step(self.thread.tx), may_sleep);
        match told {
            Told::Answered(Answer::Going) => None,
            Told::Answered(Answer::Waiting { .. } | Answer::Blocked { .. }) => {
                if self.gives_up(turn) {
                    Some(Err(Refusal::GaveUp))
                } else {
                    None
                }
            }
            Told::Answered(Answer::Done(reply)) if self.is_reply => Some(Ok(reply)),
            Told::Answered(Answer::Refused(refusal)) => Some(Err(refusal)),
            Told::Answered(Answer::Done(_) | Answer::Undone | Answer::Aborted) | Told::Refused(_) =>
                Some(Err(Refusal::NoSuchTx)),
            _ => unreachable!(),
        }
    }

    /// Steps of the operation that the desk is in, which was called, up to its answer.
    #[tactic(auto, using(crate::proofs::Seeing::more_than, crate::proofs::Seeing::no_more, crate::proofs::Seeing::sees_later, crate::proofs::Trying::spends_nothing, crate::proofs::Trying::spends_more))]
    fn steps(&mut self) -> Result<ObjReply, Refusal>
        ensures told { MayAnswerOperation P.bits_of self.old.thread.tx self.old.thread.op
            (answer_by DeskAnswer.Replied result)
            (desk_view self.new.snapshot self.new.tries self.new.share.amount) }
        ensures sees { SeesAnswer (first_items self.old.snapshot)
            (call.Operation self.old.thread.tx self.old.thread.op)
            (answer_by DeskAnswer.Replied result) (first_items self.new.snapshot) }
        ensures begun { begun_by self.new.snapshot ≡ begun_by self.old.snapshot }
        ensures made { StepsByTries self.old.thread.tx
            (desk_view self.old.snapshot self.old.tries self.old.share.amount)
            (desk_view self.new.snapshot self.new.tries self.new.share.amount) }
    {
        let rt = self.rt;
        for _ in rt.forever() {
            if let Some(answer) = self.step() {
                return answer;
            }
        }
        unreachable!()
    }

    /// One step of an abort. If it has to wait it goes on once it is awake, and uses up no try. It returns whether more are to
    /// come: the answer to the last one is that the transaction was aborted, or that the desk may not act for it.
    #[tactic(auto, using(crate::proofs::Seeing::sees_more))]
    fn undo_step(&mut self) -> bool
        ensures made { (told : Told) × HasMade
            (desk_view self.old.snapshot self.old.tries self.old.share.amount)
            (desk_view self.new.snapshot self.new.tries self.new.share.amount)
            ((event.Step self.old.thread.tx, told) ∷ []) × (result ≡ false → EndsAbort told) }
        ensures more { StartsWith (first_items self.new.snapshot) (first_items self.old.snapshot) }
        ensures begun { begun_by self.new.snapshot ≡ begun_by self.old.snapshot }
        ensures tx { self.new.thread.tx ≡ self.old.thread.tx }
        ensures tries { self.new.tries ≡ self.old.tries }
    {
        let (told, _) = self.hold(Event::Step(self.thread.tx), true);
        match told {
            Told::Answered(Answer::Aborted) => false,
            Told::Refused(_) => false,
            _ => true,
        }
    }

    /// Steps of an abort, up to its end.
    fn undo(&mut self)
        ensures made { HasUndone self.old.thread.tx
            (desk_view self.old.snapshot self.old.tries self.old.share.amount)
            (desk_view self.new.snapshot self.new.tries self.new.share.amount) }
        ensures more { StartsWith (first_items self.new.snapshot) (first_items self.old.snapshot) }
        ensures begun { begun_by self.new.snapshot ≡ begun_by self.old.snapshot }
        ensures tries { self.new.tries ≡ self.old.tries }
    {
        let rt = self.rt;
        for _ in rt.forever() {
            if !self.undo_step() {
                return;
            }
        }
        unreachable!()
    }
}

impl<'a, P: Pseudo, L: MadeWith<P>, R: Wait, G: Gate> Answering for LockDesk<'a, P, L, R, G> {
    ghost use Rattle.mlt_work_desk.specs.Holds.{Answers};
    ghost use Rattle.mlt_work_desk.specs.Views.{desk_view};

    ghost moves = { λ old call answer new. Answers P.bits_of
        (desk_view old.snapshot old.tries old.share.amount) call
        answer (desk_view new.snapshot new.tries new.share.amount) };

    fn operation(&mut self, tx: TxId, op: ObjOp) -> Result<ObjReply, Refusal> {
        self.tries.call();
        self.is_in(tx);
        self.thread.op = op;
        self.gate.call(self.client, &op);
        self.wait_for_turn();
        let (told, _) = self.hold(Event::Call(tx, op), false);
        match told {
            Told::Called => self.steps(),
            Told::Refused(refusal) => Err(refusal),
            _ => unreachable!(),
        }
    }
}

impl<'a, P: Pseudo, L: MadeWith<P>, R: Wait, G: Gate> Desk for LockDesk<'a, P, L, R, G> {
    fn begin(&mut self) -> Result<TxId, Refusal> {
        self.tries.begin();
        self.gate.begin(self.client);
        let (told, _) = self.hold(Event::Begin, false);
        match told {
            Told::Begun(tx) => {
                if !self.keeps_timestamp {
                    self.thread.timestamp = tx.0;
                }
                self.keeps_timestamp = false;
                Ok(tx)
            }
            Told::Refused(refusal) => Err(refusal),
            _ => unreachable!(),
        }
    }

    fn commit(&mut self, tx: TxId) -> Result<u64, Refusal> {
        let (told, _) = self.hold(Event::Commit(tx), false);
        match told {
            Told::Committed(number) => {
                self.keeps_timestamp = false;
                Ok(number)
            }
            Told::Refused(refusal) => Err(refusal),
            _ => unreachable!(),
        }
    }

    fn abort(&mut self, tx: TxId) {
        let (told, _) = self.hold(Event::Abort(tx), false);
        match told {
            Told::Aborting(true) => (),
            Told::Aborting(false) => {
                self.is_in(tx);
                self.undo();
            }
            Told::Refused(_) => (),
            _ => unreachable!(),
        }
    }
}
