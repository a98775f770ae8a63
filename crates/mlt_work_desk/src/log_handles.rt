//! The log of a manager as contracts know it: what a handle of it knows, the rule of all that handles know, and the handles of who adds to
//! the past and of who has seen it.

ghost use Rattle.std.specs.Prelude.{◌≡◌, [], ℕ, List};
ghost use Rattle.mlt_work_desk.specs.Prefixes.{no_past, snapshot_view, writer_view};
ghost use Rattle.mlt_work_desk.specs.declared.log_handles.Past.{Past};

use atomic_table::{Join, Play, Seat, Split, Table, TableRule};
use mlt_event::{Event, Told};
use mlt_trace::TraceItem;
use std::alloc::Global;
use std::collections::LinkedList;
use std::marker::{Brand, PhantomData};

/// What a manager has done up to some time: its events with their answers, and the items of its history. Contracts alone speak of it; no
/// value of it is made.
pub struct Past {
    pub acts: LinkedList<(Event, Told)>,
    pub items: LinkedList<TraceItem>,
}

/// What a handle knows: whether it is the writer's, the past that it knows, that of a snapshot that it has taken in, and the transactions
/// that its holder has begun. No transaction is among those of two handles. Contracts alone speak of it; no value of it is made.
pub struct LogView {
    pub writes: bool,
    pub past: Past,
    pub taken: Past,
    pub begun: LinkedList<u64>,
}

/// The writer knows the whole past, and any other handle one that it began with.
pub struct Prefixes;

impl TableRule<(), LogView, ()> for Prefixes {
    ghost use Rattle.mlt_work_desk.specs.Prefixes.{AreKept, first_view};

    ghost holds = { λ _ state. AreKept state.views };

    ghost first = { λ _. first_view };
}

impl Split<LogView> for Prefixes {
    ghost use Rattle.mlt_work_desk.specs.Prefixes.{snapshot_view};

    ghost left = { λ v. v };

    ghost right = { λ v. snapshot_view v.past [] };
}

/// A snapshot that has what the writer has begun.
pub struct HandsOver;

impl Split<LogView> for HandsOver {
    ghost use Rattle.mlt_work_desk.specs.Prefixes.{snapshot_view, without_begun};

    ghost left = { λ v. without_begun v };

    ghost right = { λ v. snapshot_view v.past v.begun };
}

/// What several have begun, put together.
pub struct Gathers;

impl Join<LogView> for Gathers {
    ghost use Rattle.mlt_work_desk.specs.Prefixes.{after_gathering, spent_view};

    ghost both = { λ v w. after_gathering v w };

    ghost spent = { spent_view };
}

impl Join<LogView> for Prefixes {
    ghost use Rattle.mlt_work_desk.specs.Prefixes.{after_join, spent_view};

    ghost both = { λ v w. after_join v w };

    ghost spent = { spent_view };
}

/// The past once it has grown, and the transactions that have begun in what was added. No value of it is made: the caller that adds to the
/// past picks it.
pub trait Growth {
    ghost past: { Past };

    ghost begun: { List ℕ };
}

impl Growth for Brand {
    ghost past = { no_past };

    ghost begun = { [] };
}

/// The past has grown. It had begun with that of a snapshot that the writer had taken in.
pub struct Grows<G> {
    growth: PhantomData<G>,
}

impl<G: Growth> Play<(), LogView> for Grows<G> {
    ghost use Rattle.std.specs.Prelude.{◌≡◌};
    ghost use Rattle.mlt_work_desk.specs.Prefixes.{HasGrown};

    ghost then = { λ step me word after. HasGrown G.past G.begun me.0 after.0 × (after.1 ≡ me.1) };
}

/// What the writer has taken in has begun no transaction more often than the past has.
pub struct Counts;

impl Play<(), LogView> for Counts {
    ghost use Rattle.std.specs.Prelude.{◌≡◌};
    ghost use Rattle.mlt_work_desk.specs.Prefixes.{HasCounted};

    ghost then = { λ step me word after. HasCounted me.0 after.0 × (after.1 ≡ me.1) };
}

/// The log of a manager: a word that nobody writes. Contracts see which log it is.
#[derive(Drop)]
pub struct HistoryLog {
    pub(crate) table: Table<(), LogView, (), Prefixes, Global>,
    ghost one_word: { table.shared.table_id.words ≡ 1 },
}

/// The right to add to the past. It takes no bytes. Contracts see the whole past.
#[derive(Drop)]
pub struct LogWriter {
    pub(crate) seat: Seat<(), LogView>,
    ghost holds_nothing: { seat.me.1 ≡ [] },
    ghost knows_all: { seat.me.0 ≡ writer_view seat.me.0.past },
}

/// What the past was at some time, and the transactions that its holder has begun. It takes no bytes. Contracts see it.
#[derive(Drop)]
pub struct LogSnapshot {
    pub(crate) seat: Seat<(), LogView>,
    ghost holds_nothing: { seat.me.1 ≡ [] },
    ghost knows_first: { seat.me.0 ≡ snapshot_view seat.me.0.past seat.me.0.begun },
}
