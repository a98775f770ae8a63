//! The manager, once no desk is left.

ghost use Rattle.std.specs.Prelude.{◌≡◌, ◌≤◌, ◌-◌, ◌++◌, ◌^◌, ℕ, [], false, Some, min};
ghost use Rattle.mlt_trace.specs.Numbers.{begun_txs};
ghost use Rattle.mlt_work_desk.specs.Prefixes.{StartsWith, times};
ghost use Rattle.mlt_work_desk.specs.LogHandles.{IsOf, begun_by, first_items, id_of};
ghost use Rattle.mlt_work_desk.specs.Makings.{making_of};
ghost use Rattle.mlt_work_desk.specs.Playing.{IsMade};

use crate::locked_state::LockedState;
use crate::log_handles::{HistoryLog, LogSnapshot};
use crate::made_with::MadeWith;
use mlt_manager::Manager;
use mlt_types::Pseudo;
use std::sync::ledger::Share;

/// What lay under a lock, and the log of the manager's history.
pub struct Unlocked<P: Pseudo, L: MadeWith<P>> {
    pub(crate) state: LockedState<P, L>,
    pub(crate) log: HistoryLog,
    ghost of_log: { id_of log ≡ L.log_id },
}

impl<P: Pseudo, L: MadeWith<P>> Unlocked<P, L> {
    /// A snapshot of the history, whose holder has begun nothing.
    pub fn snapshot(&mut self) -> LogSnapshot
        ensures of_log { IsOf L.log_id result }
        ensures begun { begun_by result ≡ [] }
        ensures same { self.new.state.manager ≡ self.old.state.manager }
    {
        self.state.snapshot(&self.log)
    }

    /// A snapshot that was taken under the lock had the first items of the manager's history. What its holder has begun is put to what
    /// others have.
    pub fn compare(&mut self, snapshot: LogSnapshot, all: &mut LogSnapshot)
        requires of_log { IsOf L.log_id snapshot }
        requires all { IsOf L.log_id all.old }
        ensures all { IsOf L.log_id all.new }
        ensures same { self.new.state.manager ≡ self.old.state.manager }
        ensures first { StartsWith self.old.state.manager.shared.history.items
            (first_items snapshot) }
        ensures begun { begun_by all.new ≡ begun_by all.old ++ begun_by snapshot }
    {
        let mut snapshot = snapshot;
        let copy = self.log.copy(&mut snapshot);
        self.state.compare(&self.log, copy);
        self.log.gather(all, snapshot);
    }

    /// The holder of the snapshot has begun no transaction more often than the history has.
    pub fn count(&mut self, all: LogSnapshot)
        requires { IsOf L.log_id all }
        ensures same { self.new.state.manager ≡ self.old.state.manager }
        ensures counted { (tx : ℕ) → times tx (begun_by all)
            ≤ times tx (begun_txs self.old.state.manager.shared.history.items) }
    {
        self.state.count(&self.log, all);
    }

    /// The manager, whose events are the amount of the whole share.
    pub fn close(self, all: &mut Share<L>) -> Manager<P>
        requires { all.old.parts ≡ L.parts }
        ensures same { result ≡ self.state.manager }
        ensures events { result.events ≡ min all.old.amount (2 ^ 64 - 1) }
        ensures made { Some (making_of result) ≡ L.made_with }
        ensures history { L.hands_out ≡ false → result.shared.history.handed ≡ [] }
        ensures made_by { IsMade result }
        ensures amount { all.new.amount ≡ all.old.amount }
        ensures parts { all.new.parts ≡ all.old.parts }
    {
        let Unlocked { state, log: _ } = self;
        let LockedState {
            manager,
            mut book,
            desks: _,
            writer: _,
        } = state;
        book.audit(all);
        manager
    }

    /// The manager, where the shares are not at hand.
    pub fn into_manager(self) -> Manager<P>
        ensures made { Some (making_of result) ≡ L.made_with }
        ensures made_by { IsMade result }
    {
        let Unlocked { state, log: _ } = self;
        let LockedState {
            manager,
            book: _,
            desks: _,
            writer: _,
        } = state;
        manager
    }
}
