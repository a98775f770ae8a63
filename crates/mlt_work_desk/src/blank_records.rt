//! What contracts know of desks, before it is known of which.

ghost use Rattle.std.specs.Prelude.{◌≡◌, IfOk};
ghost use Rattle.mlt_work_desk.specs.Prefixes.{no_past};
ghost use Rattle.mlt_work_desk.specs.LogHandles.{IsWriterOf, id_of, past_of};

use crate::log_handles::{HistoryLog, LogWriter};
use std::alloc::{AllocError, Global};
use std::sync::ledger::Blank;

/// A ledger in which no event counts yet, and the log of a manager that has done nothing yet, with its writer.
#[derive(Drop)]
pub struct BlankRecords {
    /// The ledger of the events.
    pub blank: Blank,
    /// The log of the manager.
    pub log: HistoryLog,
    /// The writer of the log.
    pub writer: LogWriter,
    ghost of_log: { IsWriterOf (id_of log) writer },
    ghost none: { past_of writer ≡ no_past },
}

impl BlankRecords {
    /// With so many parts of the ledger.
    ///
    /// # Errors
    /// Where a growth is refused.
    pub fn new(alloc: Global, parts: u64) -> Result<BlankRecords, AllocError>
        ensures { IfOk result (λ records. records.blank.parts ≡ parts) }
    {
        let (log, writer) = HistoryLog::new(alloc)?;
        Ok(BlankRecords {
            blank: Blank::new(parts),
            log,
            writer,
        })
    }
}
