//! One wait: who waits, for what and for whom, and what wakes it.

ghost use Rattle.std.specs.Prelude.{◌≡◌};
ghost use Rattle.mlt_work_waits.specs.Waits.{is_for, is_younger};

use arrayvec::ArrayVec;
use mlt_types::TxId;

/// Which locks are waited for.
#[derive(Clone, Copy)]
pub enum Awaited {
    /// Those of objects, which are held to the end of a transaction.
    Objects,
    /// Those of pages, which are held to the end of an operation.
    Pages,
}

/// Which waits end.
#[derive(Clone, Copy)]
pub enum Whose {
    /// Those for one transaction.
    One(TxId),
    /// Those that are for a turn behind one transaction.
    Turn(TxId),
    /// Those of one transaction itself.
    Of(TxId),
    /// All.
    All,
}

/// What wakes one sleeping thread: the number of a condition variable, 0 to 255.
#[derive(Clone, Copy, Default)]
pub struct Waker(pub u8);

/// Those of sleeping threads that are to be woken, in turn: room for all that wait, and for those that wait for one kind of lock
/// once more.
pub type Wakers = ArrayVec<Waker, 192>;

/// One transaction waits for a lock of another, or for its turn behind it, and is woken by its waker.
#[derive(Clone, Copy)]
pub struct Waiting {
    pub waiter: TxId,
    pub holder: TxId,
    pub waker: Waker,
    /// The timestamp of a wait for a lock: a greater one is younger. A wait for a turn has none.
    pub timestamp: Option<u64>,
}

impl Waiting {
    /// Whether it is one of the waits that end.
    pub(crate) fn is_for(&self, whose: Whose) -> bool
        ensures { result ≡ is_for whose self.now }
    {
        match whose {
            Whose::One(holder) => self.holder == holder,
            Whose::Turn(holder) => self.holder == holder && self.timestamp.is_none(),
            Whose::Of(waiter) => self.waiter == waiter,
            Whose::All => true,
        }
    }

    /// Whether it is to give way before another: one that is for a turn does so before those for a lock, and of these the younger.
    pub(crate) fn is_younger(&self, other: &Waiting) -> bool
        ensures { result ≡ is_younger self.now other.now }
    {
        match (self.timestamp, other.timestamp) {
            (Some(own), Some(others)) => own > others,
            (own, others) => own.is_none() && others.is_some(),
        }
    }
}

impl Default for Waiting {
    fn default() -> Waiting {
        Waiting {
            waiter: TxId(0),
            holder: TxId(0),
            waker: Waker(0),
            timestamp: None,
        }
    }
}
