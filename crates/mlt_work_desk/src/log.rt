//! The steps of the log.

ghost use Rattle.std.specs.Prelude.{◌≡◌, ◌≤◌, ◌++◌, [], ℕ, IfOk};
ghost use Rattle.mlt_trace.specs.Numbers.{begun_txs};
ghost use Rattle.mlt_work_desk.specs.Prefixes.{HasBegunWith, no_past, times};
ghost use Rattle.mlt_work_desk.specs.LogHandles.{IsOf, IsWriterOf, begun_by, id_of, past_of, seen_by};

use crate::log_handles::{
    Counts, Gathers, Grows, Growth, HandsOver, HistoryLog, LogSnapshot, LogWriter, Prefixes,
};
use atomic_table::Table;
use std::alloc::{AllocError, Global};
use std::mem;

impl HistoryLog {
    /// The log of a manager that has done nothing yet, and its writer.
    ///
    /// # Errors
    /// Where memory for the one word is refused.
    pub fn new(alloc: Global) -> Result<(HistoryLog, LogWriter), AllocError>
        ensures of { IfOk result (λ made. IsWriterOf (id_of made.0) made.1) }
        ensures none { IfOk result (λ made. past_of made.1 ≡ no_past) }
    {
        let (table, seat) = Table::of_words(alloc, &[0], &())?;
        Ok((HistoryLog { table }, LogWriter { seat }))
    }

    /// A snapshot of the whole past, whose holder has begun nothing.
    pub fn snapshot(&self, writer: &mut LogWriter) -> LogSnapshot
        requires writer { IsWriterOf (id_of self.now) writer.old }
        ensures writer { IsWriterOf (id_of self.now) writer.new }
        ensures same { past_of writer.new ≡ past_of writer.old }
        ensures of { IsOf (id_of self.now) result }
        ensures all { seen_by result ≡ past_of writer.old }
        ensures begun { begun_by result ≡ [] }
    {
        let seat = self.table.shared.split_seat::<Prefixes>(&mut writer.seat);
        LogSnapshot { seat }
    }

    /// The snapshot once more, for a holder that has begun nothing.
    pub fn copy(&self, snapshot: &mut LogSnapshot) -> LogSnapshot
        requires of { IsOf (id_of self.now) snapshot.old }
        ensures of { IsOf (id_of self.now) snapshot.new }
        ensures same { seen_by snapshot.new ≡ seen_by snapshot.old }
        ensures keeps { begun_by snapshot.new ≡ begun_by snapshot.old }
        ensures copy { IsOf (id_of self.now) result }
        ensures past { seen_by result ≡ seen_by snapshot.old }
        ensures begun { begun_by result ≡ [] }
    {
        let seat = self.table.shared.split_seat::<Prefixes>(&mut snapshot.seat);
        LogSnapshot { seat }
    }

    /// The one has begun what both have, from now on.
    pub fn gather(&self, all: &mut LogSnapshot, more: LogSnapshot)
        requires all { IsOf (id_of self.now) all.old }
        requires more { IsOf (id_of self.now) more }
        ensures all { IsOf (id_of self.now) all.new }
        ensures same { seen_by all.new ≡ seen_by all.old }
        ensures begun { begun_by all.new ≡ begun_by all.old ++ begun_by more }
    {
        self.table
            .shared
            .join_seat::<Gathers>(&mut all.seat, more.seat);
    }

    /// The holder of the snapshot has begun no transaction more often than the past has.
    pub fn count(&self, writer: &mut LogWriter, all: LogSnapshot)
        requires writer { IsWriterOf (id_of self.now) writer.old }
        requires of { IsOf (id_of self.now) all }
        ensures writer { IsWriterOf (id_of self.now) writer.new }
        ensures same { past_of writer.new ≡ past_of writer.old }
        ensures counted { (tx : ℕ)
            → times tx (begun_by all) ≤ times tx (begun_txs (past_of writer.old).items) }
    {
        self.table
            .shared
            .join_seat::<Prefixes>(&mut writer.seat, all.seat);
        self.table.shared.load::<Counts>(&mut writer.seat, 0);
    }

    /// The past is the picked one from now on, and the snapshot is one of all of it, whose holder has begun what began in what was added.
    /// The past before had begun with that of the snapshot.
    #[inline(always)]
    pub fn see<G: Growth>(&self, writer: &mut LogWriter, snapshot: &mut LogSnapshot)
        requires writer { IsWriterOf (id_of self.now) writer.old }
        requires of { IsOf (id_of self.now) snapshot.old }
        requires grows { HasBegunWith G.past (past_of writer.old) }
        requires begins { begun_txs G.past.items
            ≡ begun_txs (past_of writer.old).items ++ G.begun }
        ensures writer { IsWriterOf (id_of self.now) writer.new }
        ensures of { IsOf (id_of self.now) snapshot.new }
        ensures all { past_of writer.new ≡ G.past }
        ensures seen { seen_by snapshot.new ≡ G.past }
        ensures begun { begun_by snapshot.new ≡ begun_by snapshot.old ++ G.begun }
        ensures first { HasBegunWith (past_of writer.old) (seen_by snapshot.old) }
    {
        let fresh = self.snapshot(writer);
        let LogSnapshot { seat } = mem::replace(snapshot, fresh);
        self.table
            .shared
            .join_seat::<Prefixes>(&mut writer.seat, seat);
        self.table.shared.load::<Grows<G>>(&mut writer.seat, 0);
        let seat = self.table.shared.split_seat::<HandsOver>(&mut writer.seat);
        *snapshot = LogSnapshot { seat };
    }
}
