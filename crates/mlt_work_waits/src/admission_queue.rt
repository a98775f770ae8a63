//! The queue of threads that are to go to work.

use crate::tuning::RESTART_MICROSECONDS;
use std::sync::atomic::{AtomicU64, Ordering};
use std::sync::{Condvar, Mutex, Wait};
use std::thread;
use std::time::{Clock, Duration};

/// With it a thread is at work. It can't be dropped: the queue takes it back.
pub(crate) enum AdmissionPass {
    /// Of a thread that bypassed the queue.
    Bypassing,
    /// Of one that was admitted in its turn.
    Admitted,
}

/// How threads take turns at work.
#[derive(Clone, Copy, Drop)]
pub struct AdmissionRules {
    /// How many threads that queue are admitted at a time.
    pub most_admitted: u64,
    /// How many threads bypass the queue at a time.
    pub most_bypassing: u64,
    /// After how many answers the first turn of a thread is over. Each further one takes twice as many, up to those of the longest.
    pub first_turn: u32,
    /// After how many answers the longest turn is over.
    pub longest_turn: u32,
}

/// Lets a few threads go to work at once, and admits the others in the order in which they come, so that few are at work at a
/// time and the others sleep. With more at work than there are processors, the thread that has the lock over the manager may not be
/// running, and all others wait for it.
#[derive(Drop)]
pub struct AdmissionQueue {
    pub(crate) rules: AdmissionRules,
    /// How many have queued. Each has as its number how many did before it; numbers do not run out: at a million a second they last
    /// for half a million years.
    come: AtomicU64,
    /// How many of these have left. It grows under the lock, so that nobody falls asleep meanwhile.
    left: AtomicU64,
    lock: Mutex<()>,
    condvars: [Condvar; 64],
    /// How many threads are at work that have not queued.
    bypassing: AtomicU64,
    /// How many threads pause at the moment, each before a restarted transaction.
    pausing: AtomicU64,
}

impl AdmissionQueue {
    /// Nobody is at work. No more than 64 threads may come.
    pub fn new(rules: AdmissionRules) -> AdmissionQueue {
        AdmissionQueue {
            rules,
            come: AtomicU64::new(0),
            left: AtomicU64::new(0),
            lock: Mutex::new(()),
            condvars: Default::default(),
            bypassing: AtomicU64::new(0),
            pausing: AtomicU64::new(0),
        }
    }

    /// Goes to work, at once where few do so at the moment, and else in its turn.
    pub(crate) fn enter<R: Wait>(&self, rt: &R) -> AdmissionPass {
        if self.bypassing.fetch_add(1, Ordering::SeqCst) < self.rules.most_bypassing {
            return AdmissionPass::Bypassing;
        }
        self.bypassing.fetch_sub(1, Ordering::SeqCst);
        self.queue(rt)
    }

    /// Goes to work once there is room, and all threads that queued before are admitted or have left.
    pub(crate) fn queue<R: Wait>(&self, rt: &R) -> AdmissionPass {
        let number = self.come.fetch_add(1, Ordering::SeqCst);
        if !self.is_admitted(number) {
            let lock = self.lock.lock(rt);
            let _woken = self
                .condvar(number)
                .wait_while(rt, lock, |_| !self.is_admitted(number));
        }
        AdmissionPass::Admitted
    }

    /// Is at work no more. Where it had queued the next one that waits is admitted.
    pub(crate) fn leave<R: Wait>(&self, rt: &R, pass: AdmissionPass) {
        match pass {
            AdmissionPass::Bypassing => {
                self.bypassing.fetch_sub(1, Ordering::SeqCst);
            }
            AdmissionPass::Admitted => {
                let lock = self.lock.lock(rt);
                let left = self.left.fetch_add(1, Ordering::SeqCst);
                drop(lock);
                self.condvar(left.saturating_add(self.rules.most_admitted))
                    .notify_all();
            }
        }
    }

    /// Pauses before a restarted transaction, the longer the more threads do.
    pub(crate) fn pause<R: Wait + Clock>(&self, rt: &R) {
        let others = self.pausing.fetch_add(1, Ordering::SeqCst);
        let micros = RESTART_MICROSECONDS.saturating_mul(others.saturating_add(1));
        thread::sleep(rt, Duration::from_micros(micros));
        self.pausing.fetch_sub(1, Ordering::SeqCst);
    }

    // Whether the one of this number is admitted.
    fn is_admitted(&self, number: u64) -> bool {
        let left = self.left.load(Ordering::SeqCst);
        number < left.saturating_add(self.rules.most_admitted)
    }

    // What wakes the one of this number. No more than 64 threads wait, and their numbers follow one another.
    fn condvar(&self, number: u64) -> &Condvar {
        &self.condvars[(number % 64) as usize]
    }
}
