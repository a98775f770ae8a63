//! Where a worker takes turns with the others.

use crate::start_line::StartLine;
use mlt_event::{Answer, Told};
use mlt_object_kinds::ObjOp;
use mlt_work_waits::tuning::{
    FIRST_TURN, LONGEST_TURN, MOST_ADMITTED_WORKERS, MOST_BYPASSING_WORKERS,
};
use mlt_work_waits::{AdmissionQueue, AdmissionRules, AfterAnswer, Gate, Notice, PassHolder};
use std::sync::Wait;
use std::time::Clock;

/// The queue of the workers of a run.
pub(crate) fn worker_queue() -> AdmissionQueue {
    AdmissionQueue::new(AdmissionRules {
        most_admitted: MOST_ADMITTED_WORKERS,
        most_bypassing: MOST_BYPASSING_WORKERS,
        first_turn: FIRST_TURN,
        longest_turn: LONGEST_TURN,
    })
}

/// The gate of a worker that takes turns. It tells another gate all that it is told, and then has the worker wait for its turn, or
/// end it. A turn ends in the midst of a transaction, which stays open while others have theirs. So transactions are interleaved,
/// and one worker is at work at a time: a transaction in memory takes microseconds, and to execute steps one after another takes
/// the least time (Stonebraker et al., The End of an Architectural Era, VLDB 2007, section 3.1).
pub(crate) struct WorkerGate<'a, R: Wait + Clock, G: Gate> {
    gate: &'a G,
    holder: PassHolder<'a, R>,
}

impl<'a, R: Wait + Clock, G: Gate> WorkerGate<'a, R, G> {
    /// That of a worker that has no turn yet.
    pub(crate) fn new(
        rt: &'a R,
        gate: &'a G,
        admission_queue: &'a AdmissionQueue,
    ) -> WorkerGate<'a, R, G> {
        let holder = PassHolder::new(rt, admission_queue);
        WorkerGate { gate, holder }
    }

    /// The worker begins: it queues for its first turn, in which it waits until the others have queued too.
    pub(crate) fn start(&self, rt: &R, start_line: &StartLine) {
        start_line.come(rt);
        self.holder.enter();
        start_line.wait(rt);
    }

    /// The worker ends.
    pub(crate) fn close(self) {
        let WorkerGate { gate: _, holder } = self;
        holder.close();
    }

    /// The event was told something else than that its operation goes on.
    #[inline(never)]
    fn pause_between(&self, told: Told) {
        match self.holder.count(&told) {
            AfterAnswer::GoesOn => (),
            AfterAnswer::Leaves => self.holder.leave(),
            // It ends its turn within a transaction, which so stays open in the turns of others.
            AfterAnswer::Queues if has_ended(&told) => (),
            AfterAnswer::Queues => self.holder.queue(),
        }
    }
}

/// Whether a transaction has ended that was told this.
fn has_ended(told: &Told) -> bool {
    matches!(
        told,
        Told::Committed(_) | Told::Aborting(true) | Told::Answered(Answer::Aborted)
    )
}

impl<R: Wait + Clock, G: Gate> Gate for WorkerGate<'_, R, G> {
    fn begin(&self, client: u32) {
        self.gate.begin(client);
        if self.holder.is_to_pause() {
            self.holder.leave();
            self.holder.pause();
        }
        self.holder.enter_if_outside();
    }

    #[inline(always)]
    fn call(&self, client: u32, op: &ObjOp) {
        self.gate.call(client, op);
    }

    fn notice(&self, client: u32, notice: Notice) {
        self.gate.notice(client, notice);
        if notice == Notice::WaitsForTurn {
            self.holder.leave();
        }
    }

    #[inline(always)]
    fn pause(&self, client: u32, told: &Told) {
        self.gate.pause(client, told);
        // Within an operation it goes on, since others may wait for its pages.
        if !matches!(told, Told::Called | Told::Answered(Answer::Going)) {
            self.pause_between(*told);
        }
    }

    #[inline(always)]
    fn is_patient(&self, client: u32) -> bool {
        self.gate.is_patient(client)
    }
}
