//! What is told before each transaction, and of each event.

ghost use Rattle.std.specs.Prelude.{◌≡◌};
ghost use Rattle.mlt_work_waits.specs.Gates.{is_to_wait};

use mlt_event::{Answer, Told};
use mlt_object_kinds::ObjOp;

/// What is told of a client that is no event.
#[derive(Clone, Copy, PartialEq, Eq)]
pub enum Notice {
    /// It is to wait for its turn before it calls an operation, or begins its first transaction.
    WaitsForTurn,
    /// Its operation is given up, since its transaction is the youngest of a cycle of waits: the victim of the deadlock.
    IsVictim,
}

/// Is told what a client does, with the lock free. The client goes on once it returns.
pub trait Gate {
    /// The client is to begin a transaction, and has none. Most gates have nothing to do then.
    fn begin(&self, _client: u32) {}

    /// The client is to call this operation. Most gates have nothing to do then.
    #[inline(always)]
    fn call(&self, _client: u32, _op: &ObjOp) {}

    /// The client is told this beside its events. Most gates have nothing to do then.
    fn notice(&self, _client: u32, _notice: Notice) {}

    /// The event of this client was told this.
    fn pause(&self, client: u32, told: &Told);

    /// Whether the client's operation may wait. Where it may not and is to, it is given up. Most gates let it wait.
    #[inline(always)]
    fn is_patient(&self, _client: u32) -> bool {
        true
    }
}

/// Does nothing.
#[derive(Clone, Copy, Drop)]
pub struct NoGate;

impl Gate for NoGate {
    fn pause(&self, _client: u32, _told: &Told) {}
}

/// Whether one that was told this is to wait.
pub fn is_to_wait(told: &Told) -> bool
    ensures { result ≡ is_to_wait told.now }
{
    matches!(
        told,
        Told::Answered(Answer::Waiting { .. } | Answer::Blocked { .. })
    )
}
