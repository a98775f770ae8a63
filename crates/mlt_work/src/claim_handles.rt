//! What a claim handle knows, the rule of all that they know, the counter of clients, and the handles that draw from it.

ghost use Rattle.std.specs.Prelude.{◌≡◌, []};

use atomic_table::{Join, Play, Seat, Split, Table, TableRule};
use std::alloc::Global;
use std::collections::LinkedList;

/// What a claim handle knows: its parts of the nine that make the whole, how many numbers past the last client may still be
/// drawn by it or by handles that are split off it, how many clients there are, and the numbers that it drew. Contracts
/// alone speak of it; no value of it is made.
pub(crate) struct ClaimView {
    pub parts: u64,
    pub overruns: u64,
    pub clients: u64,
    pub drawn: LinkedList<u64>,
}

/// The numbers drawn are just those below the word, each once.
pub(crate) struct Draws;

impl TableRule<(), ClaimView, u64> for Draws {
    ghost use Rattle.std.specs.Prelude.{[]};
    ghost use Rattle.mlt_work.specs.Claims.{IsKept, first_view};

    ghost holds = { λ clients state. IsKept clients state.words state.views };

    ghost first = { λ clients. first_view clients };
}

impl Split<ClaimView> for Draws {
    ghost use Rattle.mlt_work.specs.Claims.{after_split, new_view};

    ghost left = { λ v. after_split v };

    ghost right = { λ v. new_view v.clients };
}

impl Join<ClaimView> for Draws {
    ghost use Rattle.mlt_work.specs.Claims.{after_join, spent_view};

    ghost both = { λ v w. after_join v w };

    ghost spent = { spent_view };
}

impl Play<(), ClaimView> for Draws {
    ghost use Rattle.std.specs.Prelude.{◌≡◌};
    ghost use Rattle.mlt_work.specs.Claims.{after_draw};

    ghost then = { λ step me word after. after ≡ (after_draw me.0 word, me.1) };
}

/// A word that counts the numbers drawn.
#[derive(Drop)]
pub(crate) struct ClientCounter {
    pub(crate) table: Table<(), ClaimView, u64, Draws, Global>,
    ghost one_word: { table.shared.table_id.words ≡ 1 },
    ghost no_slots: { table.shared.table_id.slots ≡ 0 },
}

/// What one thread draws numbers by. Contracts see what it knows.
#[derive(Drop)]
pub(crate) struct ClaimHandle {
    pub(crate) seat: Seat<(), ClaimView>,
    ghost holds_nothing: { seat.me.1 ≡ [] },
}
