//! The form of a desk over a shared manager.

ghost use Rattle.std.specs.Prelude.{◌≡◌, ◌-◌, ◌^◌, [], min};
ghost use Rattle.mlt_work_desk.specs.LogHandles.{IsOf};

use crate::log_handles::LogSnapshot;
use crate::made_with::MadeWith;
use crate::shared::Shared;
use crate::tries::TriesLeft;
use mlt_types::Pseudo;
use mlt_work_waits::{Gate, SleepingThread, Wakers};
use std::sync::Wait;
use std::sync::ledger::Share;

/// A desk over a shared manager. It counts its events in its share. It is counted as a desk until it is closed, so it can't
/// be dropped.
pub struct LockDesk<'a, P: Pseudo, L: MadeWith<P>, R: Wait, G: Gate> {
    pub(crate) rt: &'a R,
    pub(crate) shared: &'a Shared<P, L>,
    pub(crate) gate: &'a G,
    pub(crate) client: u32,
    pub(crate) tries: TriesLeft,
    /// As whom it sleeps where it waits: its transaction, and the operation that this is in.
    pub(crate) thread: SleepingThread,
    /// Whether it sleeps before its next event.
    pub(crate) is_asleep: bool,
    /// Whether its last event told a reply to the operation that it is in.
    pub(crate) is_reply: bool,
    /// Whether the next transaction keeps the timestamp of the last one, in which an operation gave up. A timestamp is the number
    /// under which the client first tried what it does, so one that is restarted is the oldest in the end, and gives way to nobody
    /// (Rosenkrantz, Stearns and Lewis, System Level Concurrency Control for Distributed Database Systems, TODS 1978, section 4).
    pub(crate) keeps_timestamp: bool,
    /// Those that its last event has to wake: none between two events.
    pub(crate) wakers: Wakers,
    pub(crate) share: Share<L>,
    pub(crate) events: u64,
    /// What the history was after its last hold.
    pub(crate) snapshot: LogSnapshot,
    ghost part: { share.parts ≡ 1 },
    ghost of_log: { IsOf L.log_id snapshot },
    ghost none: { wakers.items ≡ [] },
    ghost counted: { events ≡ min share.amount (2 ^ 64 - 1) },
}
