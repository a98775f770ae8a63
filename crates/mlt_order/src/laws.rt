//! What begin, done, undo and commit do to the base that is left when the open transcripts are undone.
//!
//! `before` and `after` give the transcript that is open under each number, before and after the event;
//! where none is open it is empty. `i` is the number of the transaction that acts.

ghost use Rattle.std.specs.Prelude.{◌≡◌, ◌≢◌, ◌↔◌, ℕ, List, [], Contains};
ghost use Rattle.mlt_order.specs.Interleavings.{IsInterleaving, TakesFirstItems, UndoneTo};
ghost use Rattle.mlt_order.specs.Runs.{IsSerialBase, RightCommutesBackward, Runs};
ghost use Rattle.mlt_order.specs.Tables.{AreFinitelyMany, Gains, IsEmptied};

use crate::steps::Steps;

/// A transaction that begins, or one that is closed with nothing done, leaves the base as it is.
pub fn begin_keeps_undone_to<T: Steps>()
    ensures { (base state : T.State) (i : ℕ) (before after : ℕ → List T.Item)
        → before i ≡ [] → IsEmptied before after i
        → UndoneTo T.step base before state → UndoneTo T.step base after state }
{}

/// An item that right commutes backward with all open items of others may be done, as the last one of
/// its transaction.
pub fn done_keeps_undone_to<T: Steps>()
    ensures { (base state next : T.State) (i : ℕ) (item : T.Item) (before after : ℕ → List T.Item)
        → ((j : ℕ) (earlier : T.Item) → j ≢ i → Contains (before j) earlier
        → RightCommutesBackward T.step earlier item)
        → Gains before after i item → T.step state item next
        → UndoneTo T.step base before state → UndoneTo T.step base after next }
{}

/// The last item of a transaction can be taken back: one state leads here by it, and of that state the
/// base is left.
pub fn undo_keeps_undone_to<T: Steps>()
    ensures keeps { (base state earlier : T.State) (i : ℕ) (item : T.Item)
        (before after : ℕ → List T.Item)
        → Gains after before i item → T.step earlier item state
        → UndoneTo T.step base before state → UndoneTo T.step base after earlier }
    ensures goes { (base state : T.State) (i : ℕ) (item : T.Item) (before after : ℕ → List T.Item)
        → Gains after before i item → AreFinitelyMany before → UndoneTo T.step base before state
        → (earlier : T.State) × T.step earlier item state
        × ((other : T.State) → T.step other item state → other ≡ earlier) }
{}

/// A transcript that commits runs alone from the base, and where it ends is the base of what stays open.
pub fn commit_keeps_undone_to<T: Steps>()
    ensures { (base state : T.State) (i : ℕ) (before after : ℕ → List T.Item)
        → IsEmptied before after i → AreFinitelyMany before → UndoneTo T.step base before state
        → (next : T.State) × Runs T.step base (before i) next × UndoneTo T.step next after state }
{}

/// At most one base is left when the open transcripts are undone, the state itself where none is open, and at
/// most one is reached by transcripts that run one after another.
pub fn one_base_fits<T: Steps>()
    ensures undone { (one other state : T.State) (transcripts : ℕ → List T.Item)
        → AreFinitelyMany transcripts
        → UndoneTo T.step one transcripts state → UndoneTo T.step other transcripts state
        → one ≡ other }
    ensures nothing_open { (base state : T.State) (transcripts : ℕ → List T.Item)
        → ((i : ℕ) → transcripts i ≡ [])
        → UndoneTo T.step base transcripts state → base ≡ state }
    ensures serial { (start one other : T.State) (transcripts : List (List T.Item))
        → IsSerialBase T.step start transcripts one → IsSerialBase T.step start transcripts other
        → one ≡ other }
{}

/// Lists have an interleaving just where all but finitely many are empty.
pub fn finitely_many_have_an_interleaving<T: Steps>()
    ensures { (lists : ℕ → List T.Item)
        → AreFinitelyMany lists ↔ ((mixed : List (ℕ × T.Item)) × IsInterleaving lists mixed) }
{}

/// An interleaving is what one gets by taking, again and again, the first item that is left of some list.
pub fn interleavings_take_first_items<T: Steps>()
    ensures { (lists : ℕ → List T.Item) (mixed : List (ℕ × T.Item))
        → IsInterleaving lists mixed ↔ TakesFirstItems lists mixed }
{}
