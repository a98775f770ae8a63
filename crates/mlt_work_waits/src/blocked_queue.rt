//! The queue.

ghost use Rattle.std.specs.Prelude.{◌≡◌, [], length};
ghost use Rattle.mlt_work_waits.specs.Queues.{last_before, stands, with_blocked, without};

use crate::clashing::{holds_clash, may_clash};
use arrayvec::ArrayVec;
use mlt_object_kinds::{Done, ObjOp};
use mlt_types::TxId;
use std::marker::Model;

/// A transaction, and the operation in which it was blocked.
#[derive(Clone, Copy)]
pub struct Blocked {
    pub tx: TxId,
    pub op: ObjOp,
}

impl Default for Blocked {
    fn default() -> Blocked {
        Blocked {
            tx: TxId(0),
            op: ObjOp::Size(0),
        }
    }
}

/// The transactions that were blocked in the operation that they are in, in the order in which they first were, at most 64. It
/// takes no memory. A contract sees the list.
#[derive(Drop)]
pub struct BlockedQueue {
    blocked: ArrayVec<Blocked, 64>,
}

impl Model for BlockedQueue {
    ghost use Rattle.std.specs.Prelude.{List};
    ghost use Rattle.mlt_work_waits.specs.declared.blocked_queue.Blocked.{Blocked};

    ghost Value = { List Blocked };

    ghost view = { λ queue. queue.blocked.items };
}

impl BlockedQueue {
    /// Nobody is blocked.
    pub fn new() -> BlockedQueue
        ensures { result ≡ [] }
    {
        BlockedQueue {
            blocked: ArrayVec::new(),
        }
    }

    /// How many stand in it, 0 to 64.
    #[inline(always)]
    pub fn count(&self) -> u64
        ensures { result ≡ length self.now }
    {
        self.blocked.len() as u64
    }

    /// A transaction was blocked in this operation. It stands in the queue from now on, as the last, unless it does already, or
    /// there is no room.
    pub fn push(&mut self, tx: TxId, op: ObjOp)
        ensures { self.new ≡ with_blocked tx op self.old }
    {
        if !self.has(tx) && !self.blocked.is_full() {
            self.blocked.push(Blocked { tx, op });
        }
    }

    /// The operation of a transaction has ended. It stands in the queue no longer, if it did.
    #[inline(always)]
    pub fn remove(&mut self, tx: TxId)
        ensures { self.new ≡ without tx self.old }
    {
        if !self.blocked.is_empty() {
            self.blocked.retain(|blocked| blocked.tx != tx);
        }
    }

    /// The last one that was blocked in an operation with which this one may clash, where it is done before, and none of these that
    /// are held.
    pub fn last_before(&self, op: &ObjOp, held: &[Done]) -> Option<TxId>
        ensures { result ≡ last_before op.now held.now self.now }
    {
        last_before(&self.blocked, op, held)
    }

    /// Whether the transaction stands in it.
    fn has(&self, tx: TxId) -> bool
        ensures { result ≡ stands tx self.now }
    {
        self.blocked.iter().any(|blocked| blocked.tx == tx)
    }
}

/// The last one of these with whose operation this one may clash, and none of those that are held.
fn last_before(queue: &[Blocked], op: &ObjOp, held: &[Done]) -> Option<TxId>
    ensures { result ≡ last_before op.now held.now queue.now }
{
    let mut last = None;
    for blocked in queue {
        if may_clash(op, &blocked.op) && !holds_clash(held, &blocked.op) {
            last = Some(blocked.tx);
        }
    }
    last
}
