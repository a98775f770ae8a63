//! The way of one thread through the admission queue, and what it waits for before it begins a transaction.

ghost use Rattle.std.specs.Prelude.{◌≡◌, true};
ghost use Rattle.mlt_work_waits.specs.Gates.{is_to_wait};

use crate::admission_queue::{AdmissionPass, AdmissionQueue};
use crate::gate::is_to_wait;
use mlt_event::Told;
use std::cell::Cell;
use std::sync::Wait;
use std::time::Clock;

/// What a thread does after an answer.
#[derive(Clone, Copy, PartialEq, Eq)]
pub enum AfterAnswer {
    /// It goes on.
    GoesOn,
    /// It leaves, since its operation is to wait.
    Leaves,
    /// It leaves, and goes to work again in its turn, since this one is over.
    Queues,
}

/// The way of a thread. It leaves where an operation is to wait, which so keeps nobody from work. Once awake it goes on outside,
/// since it may have locks for which others wait.
pub struct PassHolder<'a, R: Wait> {
    rt: &'a R,
    admission_queue: &'a AdmissionQueue,
    /// None where it is outside.
    pass: Cell<Option<AdmissionPass>>,
    /// How many answers it has had since it went to work, but for those that its operation goes on.
    answers: Cell<u32>,
    /// After how many answers its turn is over.
    turn: Cell<u32>,
    /// Whether its last transaction gave up. Then it pauses outside before the next one: clients that try again at once would
    /// else take from one another what they need, again and again. First tries never wait.
    gave_up: Cell<bool>,
}

impl<'a, R: Wait> PassHolder<'a, R> {
    /// A thread that is outside.
    pub fn new(rt: &'a R, admission_queue: &'a AdmissionQueue) -> PassHolder<'a, R> {
        PassHolder {
            rt,
            admission_queue,
            pass: Cell::new(None),
            answers: Cell::new(0),
            turn: Cell::new(admission_queue.rules.first_turn),
            gave_up: Cell::new(false),
        }
    }

    /// The thread works no more.
    pub fn close(self) {
        let PassHolder {
            rt,
            admission_queue,
            pass,
            answers: _,
            turn: _,
            gave_up: _,
        } = self;
        if let Some(pass) = pass.into_inner() {
            admission_queue.leave(rt, pass);
        }
    }

    /// Has this pass from now on, and gives back the one that it had.
    fn take_pass(&self, pass: Option<AdmissionPass>) {
        if let Some(used) = self.pass.replace(pass) {
            self.admission_queue.leave(self.rt, used);
        }
    }

    /// Leaves, if it is at work.
    pub fn leave(&self) {
        self.take_pass(None);
    }

    /// Goes to work, at once where few do so at the moment, and else in its turn.
    pub fn enter(&self) {
        self.answers.set(0);
        self.take_pass(Some(self.admission_queue.enter(self.rt)));
    }

    /// Goes to work, if it is outside.
    pub fn enter_if_outside(&self) {
        match self.pass.replace(None) {
            Some(pass) => self.take_pass(Some(pass)),
            None => self.enter(),
        }
    }

    /// Leaves, if it is at work, and goes to work in its turn, which is longer than the last one, unless that was the longest.
    pub fn queue(&self) {
        self.leave();
        let longest = self.admission_queue.rules.longest_turn;
        self.turn
            .set(self.turn.get().saturating_mul(2).min(longest));
        self.answers.set(0);
        self.take_pass(Some(self.admission_queue.queue(self.rt)));
    }

    /// Counts an answer, which does not say that an operation goes on: within one a thread goes on, since others may wait for
    /// its pages.
    pub fn count(&self, told: &Told) -> AfterAnswer
        ensures waits { is_to_wait told.now ≡ true → result ≡ AfterAnswer.Leaves }
        ensures leaves { result ≡ AfterAnswer.Leaves → is_to_wait told.now ≡ true }
    {
        self.answers.set(self.answers.get().saturating_add(1));
        match told {
            Told::Cancelled => self.gave_up.set(true),
            Told::Committed(_) => self.gave_up.set(false),
            _ => (),
        }
        if is_to_wait(told) {
            AfterAnswer::Leaves
        } else if self.answers.get() >= self.turn.get() {
            AfterAnswer::Queues
        } else {
            AfterAnswer::GoesOn
        }
    }

    /// Its next transaction is a restarted one: it pauses before.
    pub fn pause_next(&self) {
        self.gave_up.set(true);
    }

    /// Whether it is to pause before its next transaction, which is told once.
    pub fn is_to_pause(&self) -> bool {
        self.gave_up.replace(false)
    }
}

impl<R: Wait + Clock> PassHolder<'_, R> {
    /// Pauses before a restarted transaction, outside.
    pub fn pause(&self) {
        self.admission_queue.pause(self.rt);
    }
}
