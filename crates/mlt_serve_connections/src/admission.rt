//! The way of one session through the admission queue, what it waits for before it begins a transaction, and what it notes at its seat.

use crate::seat::Seat;
use crate::socket::Socket;
use crate::thread_limit::RunningThread;
use mlt_event::{Answer, Told};
use mlt_object_kinds::ObjOp;
use mlt_serve_session::LineSource;
use mlt_work_waits::tuning::{ANSWERS_PER_TURN, MOST_ADMITTED_SESSIONS, MOST_BYPASSING_SESSIONS};
use mlt_work_waits::{
    AdmissionQueue, AdmissionRules, AfterAnswer, Gate, Notice, PassHolder, is_to_wait,
};
use std::cell::Cell;
use std::io;
use std::io::{Read, Write};
use std::sync::Wait;
use std::time::Clock;

/// The queue of the sessions of a server.
pub fn session_queue() -> AdmissionQueue {
    AdmissionQueue::new(AdmissionRules {
        most_admitted: MOST_ADMITTED_SESSIONS,
        most_bypassing: MOST_BYPASSING_SESSIONS,
        first_turn: ANSWERS_PER_TURN,
        longest_turn: ANSWERS_PER_TURN,
    })
}

/// The way of a session. It goes to work with the lines that it has read, and leaves before it writes their answers, before it reads on,
/// and where an operation is to wait. What it does it notes at its seat.
pub struct Admission<'a, R: Wait + Clock> {
    rt: &'a R,
    holder: PassHolder<'a, R>,
    seat: &'a Seat,
    thread: RunningThread<'a, R>,
    /// The operation that it is in.
    op: Cell<Option<ObjOp>>,
    /// Whether its transaction is open, and it has not waited since that began.
    is_new: Cell<bool>,
}

impl<'a, R: Wait + Clock> Admission<'a, R> {
    /// A session that is outside. It pauses before its first transaction, where the last one of its client gave up.
    pub fn new(
        rt: &'a R,
        admission_queue: &'a AdmissionQueue,
        seat: &'a Seat,
        thread: RunningThread<'a, R>,
        is_to_pause: bool,
    ) -> Admission<'a, R> {
        let holder = PassHolder::new(rt, admission_queue);
        if is_to_pause {
            holder.pause_next();
        }
        Admission {
            rt,
            holder,
            seat,
            thread,
            op: Cell::new(None),
            is_new: Cell::new(false),
        }
    }

    /// The session ends. It returns whether the next transaction of its client begins with a pause.
    pub fn close(self) -> bool {
        let Admission {
            rt: _,
            holder,
            seat: _,
            thread,
            op: _,
            is_new: _,
        } = self;
        thread.go_on();
        let is_to_pause = holder.is_to_pause();
        holder.close();
        is_to_pause
    }

    /// Leaves, if it is at work, and its thread is going to block.
    fn block(&self) {
        self.leave();
        self.thread.block();
    }

    /// Leaves, if it is at work. It may wait from now on.
    fn leave(&self) {
        self.holder.leave();
        if self.is_new.replace(false) {
            self.seat.date(self.rt);
        }
    }

    /// Notes what an event was told.
    fn note(&self, told: &Told) {
        if is_to_wait(told) {
            self.seat.wait(self.rt, self.op.get());
            return;
        }
        self.seat.note(self.rt, self.op.replace(None), told);
        match told {
            Told::Begun(_) => self.is_new.set(true),
            Told::Committed(_) | Told::Aborting(true) => self.is_new.set(false),
            _ => (),
        }
    }
}

impl<R: Wait + Clock> Gate for Admission<'_, R> {
    fn begin(&self, _client: u32) {
        if self.holder.is_to_pause() {
            self.block();
            self.holder.pause();
        }
    }

    #[inline(always)]
    fn call(&self, _client: u32, op: &ObjOp) {
        self.op.set(Some(*op));
    }

    fn notice(&self, _client: u32, notice: Notice) {
        match notice {
            Notice::WaitsForTurn => {
                self.seat.wait(self.rt, self.op.get());
                self.block();
            }
            Notice::IsVictim => self.seat.deadlock(self.rt),
        }
    }

    #[inline(always)]
    fn is_patient(&self, _client: u32) -> bool {
        !self.seat.hurries()
    }

    #[inline(always)]
    fn pause(&self, _client: u32, told: &Told) {
        // Within an operation it goes on, since others may wait for its pages.
        if !matches!(told, Told::Called | Told::Answered(Answer::Going)) {
            self.pause_between(told);
        }
    }
}

impl<R: Wait + Clock> Admission<'_, R> {
    /// The event was told something else than that its operation goes on.
    #[inline(never)]
    fn pause_between(&self, told: &Told) {
        self.note(told);
        match self.holder.count(told) {
            AfterAnswer::GoesOn => (),
            AfterAnswer::Leaves => self.block(),
            AfterAnswer::Queues => {
                self.leave();
                self.holder.queue();
            }
        }
    }
}

/// A connection whose reads and writes wait outside.
#[derive(Drop)]
pub struct Outside<'a, R: Wait + Clock> {
    socket: &'a Socket<'a, R>,
    admission: &'a Admission<'a, R>,
}

impl<'a, R: Wait + Clock> Outside<'a, R> {
    /// The connection of the session that has this admission.
    pub fn new(socket: &'a Socket<'a, R>, admission: &'a Admission<'a, R>) -> Outside<'a, R> {
        Outside { socket, admission }
    }
}

impl<R: Wait + Clock> Read for Outside<'_, R> {
    fn read(&mut self, buf: &mut [u8]) -> io::Result<usize> {
        self.admission.leave();
        let count = self.socket.read(&self.admission.thread, buf)?;
        if count > 0 {
            self.admission.holder.enter();
        }
        Ok(count)
    }
}

impl<R: Wait + Clock> LineSource for Outside<'_, R> {
    fn pause(&mut self, held: &[u8]) {
        self.socket.pause(held);
    }
}

impl<R: Wait + Clock> Write for Outside<'_, R> {
    fn write(&mut self, buf: &[u8]) -> io::Result<usize> {
        self.admission.leave();
        self.socket.write(&self.admission.thread, buf)
    }

    fn flush(&mut self) -> io::Result<()> {
        // A socket keeps nothing back.
        Ok(())
    }
}
