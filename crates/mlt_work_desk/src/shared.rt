//! The manager under its lock.

ghost use Rattle.std.specs.Prelude.{◌≡◌, ◌-◌, ◌^◌, [], false, true, Some, min};
ghost use Rattle.mlt_work_desk.specs.LogHandles.{IsOf, begun_by, id_of, seen_by};
ghost use Rattle.mlt_work_desk.specs.Makings.{making_of};
ghost use Rattle.mlt_work_desk.specs.Playing.{IsMade};

use crate::listing::ListedRecord;
use crate::locked_state::LockedState;
use crate::log_handles::{HistoryLog, LogSnapshot};
use crate::made_with::MadeWith;
use crate::statistics::DeskStatistics;
use crate::unlocked::Unlocked;
use mlt_manager::{BaseImage, Manager};
use mlt_trace::KeptItem;
use mlt_types::{Pseudo, Refusal, TxId};
use mlt_work_waits::tuning::{LOCK_SPINS, PAUSES_PER_LOCK_SPIN};
use mlt_work_waits::{SleepingThread, Waker, Wakers};
use std::alloc::AllocError;
use std::array;
use std::hint::spin_loop;
use std::sync::atomic::{AtomicU64, Ordering};
use std::sync::ledger::Share;
use std::sync::{Condvar, Mutex, MutexGuard, Wait};

/// A lock over the manager, and the condition variables that desks sleep at.
pub struct Shared<P: Pseudo, L: MadeWith<P>> {
    state: Mutex<LockedState<P, L>>,
    condvars: [Condvar; 256],
    /// How many were blocked at the end of the last hold, for a desk that is to call an operation.
    blocked: AtomicU64,
    /// The log of the manager.
    pub(crate) log: HistoryLog,
    ghost of_log: { id_of log ≡ L.log_id },
}

impl<P: Pseudo, L: MadeWith<P>> Shared<P, L> {
    /// The state under a lock, whose history this log has.
    pub fn new(log: HistoryLog, state: LockedState<P, L>) -> Shared<P, L>
        requires { id_of log ≡ L.log_id }
    {
        Shared {
            state: Mutex::new(state),
            condvars: array::from_fn(|_| Condvar::new()),
            blocked: AtomicU64::new(0),
            log,
        }
    }

    /// The state, once nobody else has it.
    ///
    /// A hold takes some tenths of a microsecond, and to put a thread to sleep and wake it takes many. So a thread looks at a lock that is
    /// taken again a few times, each time after a wait in which its holder may take it for its next events: then what it works on stays in
    /// its processor. The thread that holds the lock may not be running, so in the end the other one sleeps.
    #[inline(always)]
    pub(crate) fn lock<R: Wait>(&self, rt: &R) -> MutexGuard<'_, LockedState<P, L>> {
        match self.state.try_lock() {
            Some(state) => state,
            None => self.lock_slowly(rt),
        }
    }

    /// The same, where another had it at the first look.
    #[cold]
    #[inline(never)]
    fn lock_slowly<R: Wait>(&self, rt: &R) -> MutexGuard<'_, LockedState<P, L>> {
        for _ in 0..LOCK_SPINS {
            pause();
            if let Some(state) = self.state.try_lock() {
                return state;
            }
        }
        self.state.lock(rt)
    }

    /// The state for a desk's next event, once nobody else has it and the desk is awake, if it sleeps.
    #[inline(always)]
    pub(crate) fn enter<R: Wait>(
        &self,
        rt: &R,
        thread: &SleepingThread,
        is_asleep: bool,
    ) -> MutexGuard<'_, LockedState<P, L>> {
        let state = self.lock(rt);
        if is_asleep {
            return self.sleep(rt, state, thread);
        }
        state
    }

    /// The state, once nobody else has it, and the sleeping thread is awake.
    fn sleep<'a, R: Wait>(
        &'a self,
        rt: &R,
        state: MutexGuard<'a, LockedState<P, L>>,
        thread: &SleepingThread,
    ) -> MutexGuard<'a, LockedState<P, L>> {
        let SleepingThread { tx, waker, .. } = *thread;
        self.condvar(waker)
            .wait_while(rt, state, |state| !state.desks.waits.is_awake(tx))
    }

    /// Whether somebody is blocked, or was a moment ago.
    #[inline(always)]
    pub(crate) fn has_blocked(&self) -> bool {
        self.blocked.load(Ordering::Relaxed) > 0
    }

    /// So many are blocked, at the end of a hold. It is written only where it changes, since all desks look at it.
    #[inline(always)]
    pub(crate) fn note_blocked(&self, blocked: u64) {
        if self.blocked.load(Ordering::Relaxed) != blocked {
            self.blocked.store(blocked, Ordering::Relaxed);
        }
    }

    /// A transaction waits no longer, if it does: its desk tries again. It takes the lock once, and is no event.
    pub fn wake_waiter<R: Wait>(&self, rt: &R, tx: TxId) {
        let mut wakers = Wakers::new();
        let mut state = self.lock(rt);
        state.desks.wake_waiter(tx, &mut wakers);
        drop(state);
        self.wake(&wakers);
    }

    /// The statistics of the manager, and which transaction waits for which. It takes the lock once, and is no event.
    pub fn statistics<R: Wait>(&self, rt: &R) -> DeskStatistics {
        let state = self.lock(rt);
        state.statistics()
    }

    /// What the base of the committed transactions is made of, at one moment. It takes the lock once, while it copies all records, and is
    /// no event.
    ///
    /// # Errors
    /// `OutOfMemory`, where a growth was refused.
    pub fn image<R: Wait>(&self, rt: &R) -> Result<BaseImage, Refusal> {
        let state = self.lock(rt);
        state.image()
    }

    /// Adds the records, as running operations found them, from a place on, of at most so many buckets. Returns the place behind
    /// them, from which a later call goes on, if there is one: so calls from place 0 to the end tell each record once that is there
    /// all the time. The place of a record is the first 32 bits of its pseudokey. It takes the lock once, and is no event.
    ///
    /// # Errors
    /// Where a growth is refused, then fewer are added.
    pub fn copy_records<R: Wait>(
        &self,
        rt: &R,
        from: u32,
        most: usize,
        records: &mut Vec<ListedRecord>,
    ) -> Result<Option<u32>, AllocError> {
        let state = self.lock(rt);
        state.copy_records(from, most, records)
    }

    /// Adds the items of the history that are kept, from this place among them on, at most so many. It takes the lock once, and is no
    /// event.
    ///
    /// # Errors
    /// Where a growth is refused, then fewer are added.
    pub fn copy_items<R: Wait>(
        &self,
        rt: &R,
        from: usize,
        most: usize,
        items: &mut Vec<KeptItem>,
    ) -> Result<(), AllocError> {
        let state = self.lock(rt);
        state.copy_items(from, most, items)
    }

    /// Hands out the items of the history that are kept: the list has them then, and what it had is gone. The history goes on in
    /// its memory. It takes the lock once, for no longer with many items than with one, and is no event.
    ///
    /// # Errors
    /// Where a growth is refused; nothing is handed out then.
    pub fn take_items<R: Wait>(&self, rt: &R, items: &mut Vec<KeptItem>) -> Result<(), Refusal>
        requires { L.hands_out ≡ true }
    {
        let mut state = self.lock(rt);
        state.take_items(items)
    }

    /// A snapshot of the history. It takes the lock once, and is no event.
    pub(crate) fn snapshot<R: Wait>(&self, rt: &R) -> LogSnapshot
        ensures { IsOf L.log_id result }
    {
        let mut state = self.lock(rt);
        state.snapshot(&self.log)
    }

    /// A snapshot once more, for a holder that has begun nothing. It takes no lock.
    pub fn copy_snapshot(&self, snapshot: &mut LogSnapshot) -> LogSnapshot
        requires { IsOf L.log_id snapshot.old }
        ensures of_log { IsOf L.log_id snapshot.new }
        ensures same { seen_by snapshot.new ≡ seen_by snapshot.old }
        ensures keeps { begun_by snapshot.new ≡ begun_by snapshot.old }
        ensures copy { IsOf L.log_id result }
        ensures past { seen_by result ≡ seen_by snapshot.old }
        ensures begun { begun_by result ≡ [] }
    {
        self.log.copy(snapshot)
    }

    /// Wakes the sleeping threads, with the lock free.
    pub(crate) fn wake(&self, wakers: &Wakers) {
        for waker in wakers {
            self.condvar(*waker).notify_all();
        }
    }

    fn condvar(&self, waker: Waker) -> &Condvar {
        let Waker(number) = waker;
        &self.condvars[usize::from(number)]
    }

    /// The manager, whose events are the amount of the whole share.
    pub fn close(self, all: &mut Share<L>) -> Manager<P>
        requires { all.old.parts ≡ L.parts }
        ensures events { result.events ≡ min all.old.amount (2 ^ 64 - 1) }
        ensures made { Some (making_of result) ≡ L.made_with }
        ensures history { L.hands_out ≡ false → result.shared.history.handed ≡ [] }
        ensures made_by { IsMade result }
        ensures amount { all.new.amount ≡ all.old.amount }
        ensures parts { all.new.parts ≡ all.old.parts }
    {
        self.unlock().close(all)
    }

    /// What lies under the lock, which no desk has any more.
    pub fn unlock(self) -> Unlocked<P, L> {
        let Shared {
            state,
            condvars: _,
            blocked: _,
            log,
        } = self;
        Unlocked {
            state: state.into_inner(),
            log,
        }
    }
}

fn pause() {
    for _ in 0..PAUSES_PER_LOCK_SPIN {
        spin_loop();
    }
}
