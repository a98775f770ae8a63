//! The laws of accepted traces, of the text of a history, and of the places of its items.

ghost use Rattle.std.specs.Prelude.{◌≡◌, ◌⊎◌, ℕ, List, [], map, ◌≢◌, ◌∷◌, ◌++◌};
ghost use Rattle.mlt_types.specs.declared.refusal.TraceCause.{TraceCause};
ghost use Rattle.mlt_text_words.specs.Lines.{lines};
ghost use Rattle.mlt_order.specs.Histories.{IsHistory};
ghost use Rattle.mlt_order.specs.Interleavings.{UndoneTo};
ghost use Rattle.mlt_order.specs.Runs.{IsSerialBase};
ghost use Rattle.mlt_object_kinds.specs.Bases.{Base, Step, empty_base};
ghost use Rattle.mlt_trace.specs.Items.{trace_text};
ghost use Rattle.mlt_trace.specs.Lines.{AreLinesOf};
ghost use Rattle.mlt_trace.specs.Entries.{entries_of};
ghost use Rattle.mlt_trace.specs.Numbers.{committed_txs};
ghost use Rattle.mlt_trace.specs.declared.item.TraceItem.TheVariants as trace;
ghost use Rattle.mlt_trace_check.specs.Traces.{IsAcceptedTrace, IsFirstFault, ArePlaced, told, HasPlace, IsWhole};
ghost use Rattle.mlt_trace_check.specs.Writable.{AreWritable};
ghost use Rattle.mlt_trace_check.specs.declared.reading.TraceReading.TheVariants.{Says};
ghost use Rattle.mlt_trace_check.specs.Readings.{reading};

use mlt_trace::TraceItem;

/// A text that is an accepted trace is one of one order and one base, and has no fault.
pub fn accepted_traces_have_one_answer()
    ensures one { (text txs others : List ℕ) (base other : Base)
        → IsAcceptedTrace text txs base → IsAcceptedTrace text others other
        → (txs ≡ others) × (base ≡ other) }
    ensures no_fault { (text txs : List ℕ) (base : Base) (line : ℕ) (fault : TraceCause)
        → IsAcceptedTrace text txs base → IsFirstFault text line fault → ⊥ }
{}

/// A text has one first fault at most.
pub fn texts_have_one_first_fault()
    ensures { (text : List ℕ) (line other : ℕ) (fault another : TraceCause)
        → IsFirstFault text line fault → IsFirstFault text other another
        → (line ≡ other) × (fault ≡ another) }
{}

/// Each text is an accepted trace or has a first fault.
pub fn texts_are_accepted_or_faulty()
    ensures { (text : List ℕ)
        → ((txs : List ℕ) × (base : Base) × IsAcceptedTrace text txs base)
        ⊎ ((line : ℕ) × (fault : TraceCause) × IsFirstFault text line fault) }
{}

/// The text of items that have their places is an accepted trace, with their committed order.
pub fn history_passes_the_checker()
    // its base is the one to which the committed transcripts lead
    ensures committed { (items : List TraceItem) (base : Base)
        → AreWritable items → ArePlaced items
        → IsSerialBase Step empty_base (told items).committed base
        → IsAcceptedTrace (trace_text items) (committed_txs items) base }
    // a history has that base: it is left when the open transcripts are undone
    ensures history { (items : List TraceItem) (state : Base)
        → AreWritable items → ArePlaced items
        → IsHistory Step empty_base (entries_of items) state
        → (base : Base) × IsAcceptedTrace (trace_text items) (committed_txs items) base
        × UndoneTo Step base (told items).transcripts state }
    // where nothing is open, it is the state to which the history leads
    ensures nothing_open { (items : List TraceItem) (state : Base)
        → AreWritable items → ArePlaced items
        → IsHistory Step empty_base (entries_of items) state
        → ((tx : ℕ) → (told items).transcripts tx ≡ [])
        → IsAcceptedTrace (trace_text items) (committed_txs items) state }
{}

/// The lines of the text of a history say its items, where these can be written. So do those that a server writes as it goes, which
/// may have spaces before their ends: none has more bytes than a line of a trace may have.
pub fn written_items_are_read()
    ensures whole { (items : List TraceItem) → AreWritable items
        → map reading (lines (trace_text items)) ≡ map Says items }
    ensures served { (items : List TraceItem) (text : List ℕ)
        → AreWritable items → AreLinesOf items text
        → map reading (lines text) ≡ map Says items }
{}

/// Where no item stands, all have their places; and they keep them where one more comes that has its place.
pub fn items_stay_placed()
    ensures nothing { ArePlaced [] }
    ensures one_more { (items : List TraceItem) (item : TraceItem)
        → ArePlaced items → HasPlace items item → ArePlaced (items ++ item ∷ []) }
{}

/// A transaction of which nothing was taken back stays so, whatever item comes but one that takes something of
/// it back. It is so when it begins.
pub fn transactions_stay_whole()
    ensures other { (items : List TraceItem) (item : TraceItem) (tx : ℕ)
        → item ≢ trace.Back tx → IsWhole items tx → IsWhole (items ++ item ∷ []) tx }
    ensures begin { (items : List TraceItem) (tx : ℕ)
        → ArePlaced items → HasPlace items (trace.Begin tx)
        → IsWhole (items ++ trace.Begin tx ∷ []) tx }
{}
