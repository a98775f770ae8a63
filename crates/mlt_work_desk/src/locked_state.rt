//! What lies under the lock.

ghost use Rattle.std.specs.Prelude.{◌≡◌, ◌-◌, ◌^◌, [], false, Some, min};
ghost use Rattle.mlt_work_desk.specs.Makings.{making_of};
ghost use Rattle.mlt_work_desk.specs.Playing.{HaveMade};
ghost use Rattle.mlt_work_desk.specs.LogHandles.{IsWriterOf, past_of};

use crate::log_handles::LogWriter;
use crate::made_with::MadeWith;
use mlt_manager::Manager;
use mlt_types::Pseudo;
use mlt_work_waits::Desks;
use std::sync::ledger::Book;

/// The manager, a book whose total is the number of its events, the desks, of which not all wait, and the writer of the log that has
/// its past. Its events made the course of the manager.
pub struct LockedState<P: Pseudo, L: MadeWith<P>> {
    pub(crate) manager: Manager<P>,
    pub(crate) book: Book<L>,
    pub(crate) desks: Desks,
    pub(crate) writer: LogWriter,
    ghost counted: { manager.events ≡ min book.total (2 ^ 64 - 1) },
    ghost made: { Some (making_of manager) ≡ L.made_with },
    ghost of_log: { IsWriterOf L.log_id writer },
    ghost logged: { (past_of writer).items ≡ manager.shared.history.items },
    ghost made_by: { HaveMade (past_of writer).acts manager },
    ghost history: { L.hands_out ≡ false → manager.shared.history.handed ≡ [] },
}
