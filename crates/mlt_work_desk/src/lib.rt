//! Many threads share one manager behind one mutex: each hold of the lock executes at most one
//! event, and none is lost. Each thread uses the manager through a `LockDesk`: `begin`,
//! `operation`, `commit`, `abort`. A call returns the manager's answer, or sleeps until what it
//! waits for is released. Only the youngest transaction of a cycle gives up for a deadlock. That a
//! thread sleeps, is woken, and looks at the queue of blocked operations is only tested.
//!
//! A `HistoryLog` tells contracts what threads have seen of the manager: the past that a
//! `LogSnapshot` has, the events with their answers and the items of the history, stays the
//! beginning of each later one, to which the thread that has the `LogWriter` adds. No transaction is
//! among those that the holders of two snapshots have begun. Nothing is stored there, and neither
//! takes memory.
#![tactic(auto)]

mod blank_records;
mod calls;
mod holds;
mod listing;
mod lock_desk;
mod locked_state;
mod log;
mod log_handles;
mod made_with;
mod shared;
mod statistics;
mod tries;
mod unlocked;

pub use blank_records::BlankRecords;
pub use listing::{ListedRecord, a_list_tells_each_key_once};
pub use lock_desk::LockDesk;
pub use locked_state::LockedState;
pub use log_handles::{Growth, HistoryLog, LogSnapshot, LogWriter};
pub use made_with::MadeWith;
pub use mlt_work_waits::{Gate, NoGate};
pub use shared::Shared;
pub use statistics::DeskStatistics;
pub use tries::Tries;
pub use unlocked::Unlocked;
