//! The laws over whole histories: what a manager of transactions keeps, entry by entry.

ghost use Rattle.std.specs.Prelude.{◌≡◌, ◌≢◌, ◌↔◌, ℕ, List, [], ◌∷◌, ◌++◌, Contains};
ghost use Rattle.mlt_order.specs.Histories.{Entry, IsCommitOrderSerializable, IsHistory, MayCome, after_entry, items_done, lists_of};
ghost use Rattle.mlt_order.specs.Histories.Entry.{Begun};
ghost use Rattle.mlt_order.specs.Histories.Stage.{Fresh, Running};
ghost use Rattle.mlt_order.specs.Interleavings.{items_of};
ghost use Rattle.mlt_order.specs.Tables.{AreFinitelyMany};

use crate::steps::Steps;

/// Whatever transactions begin, do, take back, commit and close: the committed ones, run one after another in
/// the order of their commits, lead from the start to the base that is left when the open ones are undone.
pub fn every_history_is_serializable<T: Steps>()
    ensures serializable { (start state : T.State) (history : List (Entry T.Item))
        → IsHistory T.step start history state
        → IsCommitOrderSerializable T.step start (lists_of history) state }
    ensures finite { (start state : T.State) (history : List (Entry T.Item))
        → IsHistory T.step start history state → AreFinitelyMany (lists_of history).transcripts }
{}

/// The last item of a running transaction can always be taken back, and that leads to one state.
pub fn last_item_can_be_taken_back<T: Steps>()
    ensures { (start state : T.State) (history : List (Entry T.Item)) (i : ℕ) (rest : List T.Item)
        (item : T.Item)
        → IsHistory T.step start history state
        → (lists_of history).transcripts i ≡ rest ++ item ∷ []
        → (earlier : T.State) × T.step earlier item state
        × ((other : T.State) → T.step other item state → other ≡ earlier) }
{}

/// A history grows at its end by an entry that may come, and its lists by that entry; each front of a history
/// is one.
pub fn history_grows<T: Steps>()
    ensures grows { (start state next : T.State) (history : List (Entry T.Item))
        (entry : Entry T.Item)
        → IsHistory T.step start history state → MayCome T.step (lists_of history) state entry next
        → IsHistory T.step start (history ++ entry ∷ []) next }
    ensures lists { (history : List (Entry T.Item)) (entry : Entry T.Item)
        → lists_of (history ++ entry ∷ []) ≡ after_entry (lists_of history) entry }
    ensures front { (start state : T.State) (history later : List (Entry T.Item))
        → IsHistory T.step start (history ++ later) state
        → (middle : T.State) × IsHistory T.step start history middle }
{}

/// A history and its start fix the state.
pub fn history_fixes_its_state<T: Steps>()
    ensures { (start one other : T.State) (history : List (Entry T.Item))
        → IsHistory T.step start history one → IsHistory T.step start history other → one ≡ other }
{}

/// A number is fresh just until its transaction begins, so that none begins twice. A running transaction
/// holds all that it did, taken back or not.
pub fn lists_tell_what_was_begun_and_done<T: Steps>()
    ensures fresh { (start state : T.State) (history : List (Entry T.Item)) (i : ℕ)
        → IsHistory T.step start history state
        → ((lists_of history).stage i ≡ Fresh) ↔ (Contains history (Begun i) → ⊥) }
    ensures held { (start state : T.State) (history : List (Entry T.Item)) (i : ℕ)
        → IsHistory T.step start history state → (lists_of history).stage i ≡ Running
        → (lists_of history).held i ≡ items_of i (items_done history) }
{}

/// What is open is held, and of a number that is not running nothing is open or held.
pub fn lists_hold_what_is_open<T: Steps>()
    ensures held { (start state : T.State) (history : List (Entry T.Item)) (i : ℕ) (item : T.Item)
        → IsHistory T.step start history state
        → Contains ((lists_of history).transcripts i) item
        → Contains ((lists_of history).held i) item }
    ensures running { (start state : T.State) (history : List (Entry T.Item)) (i : ℕ)
        → IsHistory T.step start history state → (lists_of history).stage i ≢ Running
        → ((lists_of history).transcripts i ≡ []) × ((lists_of history).held i ≡ []) }
{}
