//! What one more item makes of a history.

ghost use Rattle.std.specs.Prelude.{◌≡◌, ℕ, ◌+◌, ◌≤◌, ◌↔◌, List, [], ◌∷◌, ◌++◌, length, Contains};
ghost use Rattle.mlt_order.specs.Histories.{Entry, lists_of};
ghost use Rattle.mlt_trace.specs.Entries.{entries_of, entry_of};
ghost use Rattle.mlt_trace.specs.Numbers.{AreBegunInOrder, AreCounted, begin_count, begun_txs, commit_count, commit_numbers, committed_txs};

use crate::item::TraceItem;

/// One more item is one more entry, the last.
pub fn items_grow_by_entries()
    ensures { (items : List TraceItem) (item : TraceItem)
        → entries_of (items ++ item ∷ []) ≡ entries_of items ++ entry_of item ∷ [] }
{}

/// A commit under the next number keeps the commits counted, and is one more. Any other item keeps them and
/// their count.
pub fn commits_stay_counted()
    ensures commit { (items : List TraceItem) (tx : ℕ) → AreCounted items
        → AreCounted (items ++ TraceItem.Commit tx (commit_count items + 1) ∷ []) }
    ensures one_more { (items : List TraceItem) (tx number : ℕ)
        → commit_count (items ++ TraceItem.Commit tx number ∷ []) ≡ commit_count items + 1 }
    ensures other { (items : List TraceItem) (item : TraceItem) → commit_numbers (item ∷ []) ≡ []
        → AreCounted items → AreCounted (items ++ item ∷ []) }
    ensures no_more { (items : List TraceItem) (item : TraceItem) → commit_numbers (item ∷ []) ≡ []
        → commit_count (items ++ item ∷ []) ≡ commit_count items }
{}

/// A begin of the next number keeps the transactions begun in order, and is one more. Any other item keeps
/// them and their count.
pub fn items_begin_in_order()
    ensures begin { (items : List TraceItem) → AreBegunInOrder items
        → AreBegunInOrder (items ++ TraceItem.Begin (begin_count items + 1) ∷ []) }
    ensures one_more { (items : List TraceItem) (tx : ℕ)
        → begin_count (items ++ TraceItem.Begin tx ∷ []) ≡ begin_count items + 1 }
    ensures other { (items : List TraceItem) (item : TraceItem) → begun_txs (item ∷ []) ≡ []
        → AreBegunInOrder items → AreBegunInOrder (items ++ item ∷ []) }
    ensures no_more { (items : List TraceItem) (item : TraceItem) → begun_txs (item ∷ []) ≡ []
        → begin_count (items ++ item ∷ []) ≡ begin_count items }
{}

/// There are as many commits as transactions in the committed order, and as many as transcripts that the
/// lists have as committed.
pub fn items_count_the_committed()
    ensures txs { (items : List TraceItem) → length (committed_txs items) ≡ commit_count items }
    ensures transcripts { (items : List TraceItem)
        → length (lists_of (entries_of items)).committed ≡ commit_count items }
{}

/// Where transactions begin in order, the numbers begun are those from 1 up to their count.
pub fn begun_numbers_are_those_up_to_the_count()
    ensures { (items : List TraceItem) (tx : ℕ) → AreBegunInOrder items
        → Contains (entries_of items) (Entry.Begun tx) ↔ ((1 ≤ tx) × (tx ≤ begin_count items)) }
{}
