//! The desks over a lock, which of them wait, and who is blocked.

ghost use Rattle.std.specs.Prelude.{ℕ, ◌≡◌, ◌++◌, ◌+◌, ◌-◌, ◌<◌, ◌≤◌, ◌^◌, ◌⊎◌, [], List, true, false, None, Some, length, min};
ghost use Rattle.mlt_work_waits.specs.Waits.{joined, nobody_waits};
ghost use Rattle.mlt_work_waits.specs.Queues.{last_before};
ghost use Rattle.mlt_work_waits.specs.Turns.{AreInTurn, CanSleep, CantSleep, given_back_by, ObjectTurns, PageTurns, queue_after, queue_if, turn_behind, TurnsIfWaits, wait_for, wait_if, waiting, waits_after, waits_in_turn, waits_of_others, waits_without, woken_by, woken_by_end, woken_of};

use crate::blocked_queue::BlockedQueue;
use crate::turn::{GivenBack, SleepingThread, Turn, given_back, wait_for};
use crate::wait::{Awaited, Waiting, Waker, Wakers, Whose};
use crate::waits::WaitsFor;
use mlt_event::{Answer, Event, Told};
use mlt_object_kinds::Done;
use mlt_types::TxId;

/// How many desks there are, and whose transactions wait for which. Not all wait, and none in a cycle. Contracts name its fields, and
/// only its calls change them.
#[derive(Drop)]
pub struct Desks {
    pub count: u64,
    /// Which of the wakers 0 to 63 desks have, a bit for each.
    taken: u64,
    /// The transactions of the desks that sleep.
    pub waits: WaitsFor,
    /// The transactions that were blocked in the operation that they are in. Others wait for their turn behind them.
    pub queue: BlockedQueue,
    ghost awake: { waiting waits ≤ count - 1 },
    ghost turns: { AreInTurn waits.objects queue },
}

impl Desks {
    /// No desk.
    pub fn new() -> Desks
        ensures count { result.count ≡ 0 }
        ensures waits { result.waits ≡ nobody_waits }
        ensures queue { result.queue ≡ [] }
    {
        Desks {
            count: 0,
            taken: 0,
            waits: WaitsFor::new(),
            queue: BlockedQueue::new(),
        }
    }

    /// A desk comes, and is given a waker: one of its own, where there are no more than 64 desks.
    pub fn enter(&mut self) -> Waker
        ensures count { self.new.count ≡ min (self.old.count + 1) (2 ^ 64 - 1) }
        ensures waits { self.new.waits ≡ self.old.waits }
        ensures queue { self.new.queue ≡ self.old.queue }
    {
        let lowest = self.taken.trailing_ones();
        self.taken |= self.taken.wrapping_add(1);
        self.count = self.count.saturating_add(1);
        Waker(u8::try_from(lowest).unwrap_or(u8::MAX))
    }

    /// A desk ends, and gives its waker back. Where all others wait, all are woken.
    #[tactic(auto, using(crate::proofs::Fewer::fewer_wait, crate::proofs::Fewer::nobody_left))]
    pub fn leave(&mut self, waker: Waker, wakers: &mut Wakers)
        requires { wakers.old.items ≡ [] }
        ensures count { self.new.count ≡ self.old.count - 1 }
        ensures waits { self.new.waits ≡ waits_of_others self.old.count self.old.waits }
        ensures wakes { wakers.new.items ≡ woken_by_end self.old.count self.old.waits }
        ensures queue { self.new.queue ≡ self.old.queue }
    {
        let Waker(number) = waker;
        let own = 1u64.checked_shl(u32::from(number)).unwrap_or(0);
        self.taken &= !own;
        if self.waits.count() + 1 >= self.count {
            self.waits.release(Awaited::Objects, Whose::All, wakers);
            self.waits.release(Awaited::Pages, Whose::All, wakers);
        }
        self.count = self.count.saturating_sub(1);
    }

    /// What a desk does after an event that was told this. It may sleep or not; where it is to wait, and may sleep, it does so as this
    /// thread. If it is blocked it stands in the queue from now on. Each desk that waits for what the event has given back is awake
    /// then, and its waker is added.
    #[inline(always)]
    pub fn turn_after(
        &mut self,
        event: &Event,
        told: &Told,
        may_sleep: bool,
        thread: &SleepingThread,
        wakers: &mut Wakers,
    ) -> Turn
        requires { wakers.old.items ≡ [] }
        ensures turns { (woken : List Waker) × (wakers.new.items
            ≡ woken_by (given_back_by event.now told.now) self.old.waits ++ woken)
            × TurnsIfWaits self.old.count (wait_if may_sleep told.now thread.now)
            (waits_after (given_back_by event.now told.now) self.old.waits)
            result self.new.waits woken }
        ensures queue { self.new.queue ≡ queue_if may_sleep told.now thread.now
            (queue_after (given_back_by event.now told.now) self.old.queue) }
        ensures count { self.new.count ≡ self.old.count }
    {
        // Most events only go on with an operation: they give nothing back, and need not wait.
        if let Told::Called | Told::Answered(Answer::Going) = told {
            return Turn::Goes;
        }
        self.give_back(given_back(event, told), wakers);
        if !may_sleep {
            return Turn::Goes;
        }
        match told {
            Told::Answered(Answer::Blocked { by }) => {
                self.queue.push(thread.tx, thread.op);
                self.wait_for_object(wait_for(thread, *by), wakers)
            }
            Told::Answered(Answer::Waiting { by, .. }) => {
                self.wait_for_page(wait_for(thread, *by), wakers)
            }
            _ => Turn::Goes,
        }
    }

    /// Locks were released: each desk that waits for them is awake, and its waker is added. A desk whose operation has ended leaves
    /// the queue, and each desk that waits for its turn behind it is awake too.
    #[inline(always)]
    #[tactic(auto, using(crate::proofs::Fewer::fewer_wait, crate::proofs::Fewer::nobody_left))]
    fn give_back(&mut self, given: GivenBack, wakers: &mut Wakers)
        requires { wakers.old.items ≡ [] }
        ensures waits { self.new.waits ≡ waits_after given self.old.waits }
        ensures wakes { wakers.new.items ≡ woken_by given self.old.waits }
        ensures few { length wakers.new.items ≤ 128 }
        ensures queue { self.new.queue ≡ queue_after given self.old.queue }
        ensures count { self.new.count ≡ self.old.count }
    {
        match given {
            GivenBack::All(tx) => {
                self.queue.remove(tx);
                self.waits.release(Awaited::Objects, Whose::One(tx), wakers);
                self.waits.release(Awaited::Pages, Whose::One(tx), wakers);
            }
            GivenBack::Operation(tx) => {
                self.queue.remove(tx);
                self.waits
                    .release(Awaited::Objects, Whose::Turn(tx), wakers);
                self.waits.release(Awaited::Pages, Whose::One(tx), wakers);
            }
            GivenBack::Pages(tx) => self.waits.release(Awaited::Pages, Whose::One(tx), wakers),
            GivenBack::Nothing => (),
        }
    }

    /// A transaction waits no longer, if it does: its desk tries again, and its waker is added.
    pub fn wake_waiter(&mut self, tx: TxId, wakers: &mut Wakers)
        requires { wakers.old.items ≡ [] }
        ensures waits { self.new.waits ≡ waits_without tx self.old.waits }
        ensures wakes { wakers.new.items ≡ woken_of tx self.old.waits }
        ensures queue { self.new.queue ≡ self.old.queue }
        ensures count { self.new.count ≡ self.old.count }
    {
        self.waits.release(Awaited::Objects, Whose::Of(tx), wakers);
        self.waits.release(Awaited::Pages, Whose::Of(tx), wakers);
    }

    /// What a desk does that is to wait for an object.
    ///
    /// Where its wait would close a cycle of such waits, the youngest of the cycle gives way. If that is its own transaction it
    /// gives up; else the other one wakes: it tries again, and if it is blocked as before, it closes the cycle itself. Then the
    /// desk sleeps, and is counted; where all others sleep it tries at once.
    #[tactic(auto, using(crate::proofs::Fewer::fewer_wait))]
    fn wait_for_object(&mut self, wait: Waiting, wakers: &mut Wakers) -> Turn
        requires few { length wakers.old.items ≤ 128 }
        requires turn { waits_in_turn self.old.queue wait ≡ true }
        ensures turns { (woken : List Waker) × (wakers.new.items ≡ wakers.old.items ++ woken)
            × ObjectTurns self.old.count wait self.old.waits result self.new.waits woken }
        ensures queue { self.new.queue ≡ self.old.queue }
        ensures count { self.new.count ≡ self.old.count }
    {
        if let Some(youngest) = self.waits.youngest(&wait) {
            if youngest.waiter == wait.waiter {
                return Turn::Deadlock;
            }
            self.waits
                .release(Awaited::Objects, Whose::Of(youngest.waiter), wakers);
        }
        if self.join(Awaited::Objects, wait) {
            Turn::Sleeps
        } else {
            Turn::Goes
        }
    }

    /// What a desk does that is to wait for a page.
    ///
    /// The last desk that is awake tries at once, and so does one whose wait would close a cycle. It wakes those that want a page
    /// too: a pass that is to start anew gives its pages back as well, and goes on. Any other desk sleeps, and is counted.
    #[tactic(auto, using(crate::proofs::Fewer::fewer_wait))]
    fn wait_for_page(&mut self, wait: Waiting, wakers: &mut Wakers) -> Turn
        requires few { length wakers.old.items ≤ 128 }
        requires turn { waits_in_turn self.old.queue wait ≡ true }
        ensures turns { (woken : List Waker) × (wakers.new.items ≡ wakers.old.items ++ woken)
            × PageTurns self.old.count wait self.old.waits result self.new.waits woken }
        ensures queue { self.new.queue ≡ self.old.queue }
        ensures count { self.new.count ≡ self.old.count }
    {
        if self.join(Awaited::Pages, wait) {
            return Turn::Sleeps;
        }
        self.waits.release(Awaited::Pages, Whose::All, wakers);
        Turn::Goes
    }

    /// A thread is to call the operation that it is in, and its transaction holds these. Where others are blocked in operations with
    /// which it may clash, it waits for its turn behind the last of them, if another desk is awake and its wait can join. It answers
    /// whether it does. Those do not count that may be waiting for what it holds.
    pub fn queues(&mut self, thread: &SleepingThread, held: &[Done]) -> bool
        ensures queues { result ≡ true → (y : ℕ)
            × (last_before thread.now.op held.now self.old.queue ≡ Some y)
            × CanSleep self.old.count Awaited.Objects (turn_behind thread.now y) self.old.waits
            × (self.new.waits ≡ joined Awaited.Objects (turn_behind thread.now y) self.old.waits) }
        ensures goes { result ≡ false → (last_before thread.now.op held.now self.old.queue ≡ None)
            ⊎ ((y : ℕ) × (last_before thread.now.op held.now self.old.queue ≡ Some y)
            × CantSleep self.old.count Awaited.Objects (turn_behind thread.now y) self.old.waits) }
        ensures stays { result ≡ false → self.new.waits ≡ self.old.waits }
        ensures queue { self.new.queue ≡ self.old.queue }
        ensures count { self.new.count ≡ self.old.count }
    {
        let Some(holder) = self.queue.last_before(&thread.op, held) else {
            return false;
        };
        let wait = Waiting {
            waiter: thread.tx,
            holder,
            waker: thread.waker,
            timestamp: None,
        };
        self.join(Awaited::Objects, wait)
    }

    /// One more waits from now on, if another desk is awake and its wait can join. It answers whether it does.
    fn join(&mut self, awaited: Awaited, wait: Waiting) -> bool
        requires { waits_in_turn self.old.queue wait ≡ true }
        ensures can { result ≡ true → CanSleep self.old.count awaited wait self.old.waits }
        ensures joins { result ≡ true → self.new.waits ≡ joined awaited wait self.old.waits }
        ensures cant { result ≡ false → CantSleep self.old.count awaited wait self.old.waits }
        ensures stays { result ≡ false → self.new.waits ≡ self.old.waits }
        ensures queue { self.new.queue ≡ self.old.queue }
        ensures count { self.new.count ≡ self.old.count }
    {
        self.waits.count() + 1 < self.count && self.waits.join(awaited, wait)
    }
}
