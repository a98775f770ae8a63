//! The history of a manager passes the checker, and each event keeps that.

ghost use Rattle.std.specs.Prelude.{ℕ, ◌≡◌, None, ◌+◌, [], Some, Option};
ghost use Rattle.std.specs.FinMap as map;
ghost use Rattle.mlt_order.specs.Interleavings.{UndoneTo};
ghost use Rattle.mlt_object_kinds.specs.Bases.{Base, Step};
ghost use Rattle.mlt_object_kinds.specs.declared.operation.ObjOp.{ObjOp};
ghost use Rattle.mlt_object_kinds.specs.declared.operation.ObjReply.{ObjReply};
ghost use Rattle.mlt_event.specs.declared.answer.Answer.{Answer};
ghost use Rattle.mlt_event.specs.declared.answer.Answer.TheVariants as answer;
ghost use Rattle.mlt_trace.specs.Items.{trace_text};
ghost use Rattle.mlt_trace.specs.Numbers.{committed_txs, commit_count};
ghost use Rattle.mlt_trace.specs.Ranges.{AllFit};
ghost use Rattle.mlt_trace.specs.declared.item.TraceItem.TheVariants as trace;
ghost use Rattle.mlt_trace_check.specs.Traces.{IsAcceptedTrace, HasPlace, IsWhole};
ghost use Rattle.mlt_hash_access.specs.CleanPages.{RunningImages};
ghost use Rattle.mlt_hash.specs.Walks.{WalkContext};
ghost use Rattle.mlt_tx_operation.specs.Operating.{OperationFields};
ghost use Rattle.mlt_tx_meaning.specs.AbstractStates.{lists_in};
ghost use Rattle.mlt_tx.specs.declared.transaction.Transaction.{Transaction};
ghost use Rattle.mlt_tx.specs.declared.shared.SharedState.{SharedState};
ghost use Rattle.mlt_tx.specs.declared.transaction.At.TheVariants as at;
ghost use Rattle.mlt_tx.specs.Transactions.{StepsBack, StepsPending, TellsOfCancel};
ghost use Rattle.mlt_manager_invariant.specs.Sound.{IsSound};
ghost use Rattle.mlt_manager_invariant.specs.States.{State, abstract_state_of};
ghost use Rattle.mlt_manager_invariant.specs.Traced.{IsTraced};
ghost use Rattle.mlt_manager_invariant.specs.Events.{Calls, KeepsClean, with_transaction, EndsPending, with_end};
ghost use Rattle.mlt_manager_invariant.specs.Opening.{opening_state};
ghost use Rattle.mlt_manager_invariant.specs.Transactions.{BeginsAbort, Begins, Ends, with_next, without_transaction};
ghost use Rattle.mlt_manager_invariant.specs.Undoing.{TakesLastBack, with_aborted, with_undone};

/// The text of a manager's history is an accepted trace, with the committed order.
pub fn history_of_a_manager_passes_the_checker()
    // its base is left of the manager's base when what is open is undone
    ensures accepted { (s : State) → IsSound s → IsTraced s → AllFit s.shared.history.items
        → (base : Base)
        × IsAcceptedTrace (trace_text s.shared.history.items)
        (committed_txs s.shared.history.items) base
        × UndoneTo Step base (lists_in (abstract_state_of s)).transcripts s.base }
    // where nobody is open, it is the manager's base
    ensures nobody_open { (s : State) → IsSound s → IsTraced s → AllFit s.shared.history.items
        → ((i : ℕ) → map.get s.txs i ≡ None)
        → IsAcceptedTrace (trace_text s.shared.history.items)
        (committed_txs s.shared.history.items) s.base }
{}

/// In a sound state the next number may begin. An open transaction of which nothing was taken back may do an
/// operation and commit; one with something to take back may do so, and one with nothing may close.
pub fn sound_states_give_places()
    ensures begin { (s : State) → IsSound s
        → HasPlace s.shared.history.items (trace.Begin (s.begun + 1)) }
    ensures done { (s : State) (i : ℕ) (t : Transaction) (done : ObjOp × ObjReply)
        → IsSound s → map.get s.txs i ≡ Some t → IsWhole s.shared.history.items i
        → HasPlace s.shared.history.items (trace.Op i done) }
    ensures back { (s : State) (i : ℕ) (t : Transaction)
        → IsSound s → map.get s.txs i ≡ Some t → (t.undo.entries ≡ [] → ⊥)
        → HasPlace s.shared.history.items (trace.Back i) }
    ensures commit { (s : State) (i : ℕ) (t : Transaction)
        → IsSound s → map.get s.txs i ≡ Some t → IsWhole s.shared.history.items i
        → HasPlace s.shared.history.items
        (trace.Commit i (commit_count s.shared.history.items + 1)) }
    ensures close { (s : State) (i : ℕ) (t : Transaction)
        → IsSound s → map.get s.txs i ≡ Some t → t.undo.entries ≡ []
        → HasPlace s.shared.history.items (trace.Abort i) }
{}

/// A manager begins with no item.
pub fn opening_state_is_traced()
    ensures { (bits : ℕ → ℕ) (root max_depth max_ops : ℕ) (shared : SharedState)
        → shared.history.items ≡ []
        → IsTraced (opening_state bits root max_depth max_ops shared) }
{}

/// The items stay, and so do their places: where an event keeps the clean pages, an operation is called or
/// cancelled, a pending one is not done, an abort begins, or an inverse is not done.
pub fn events_without_an_item()
    ensures clean { (s : State) (i : ℕ) (before after : Transaction) (shared : SharedState)
        (images : RunningImages)
        → IsTraced s → map.get s.txs i ≡ Some before
        → KeepsClean s i before after shared images
        → IsTraced (with_transaction s i after shared images) }
    ensures called { (s : State) (i : ℕ) (before after : Transaction) (shared : SharedState)
        (images : RunningImages)
        → IsTraced s → map.get s.txs i ≡ Some before → Calls s i before after shared
        → IsTraced (with_transaction s i after shared images) }
    ensures cancelled { (s : State) (i : ℕ) (o : OperationFields) (before after : Transaction)
        (shared : SharedState) (images : RunningImages)
        → IsTraced s → map.get s.txs i ≡ Some before → before.at ≡ at.Pending o
        → TellsOfCancel before after s.shared shared
        → IsTraced (with_transaction s i after shared images) }
    ensures not_done { (s : State) (i : ℕ) (context : WalkContext) (o : OperationFields)
        (before after : Transaction) (shared : SharedState) (told : Answer) (images : RunningImages)
        → IsTraced s → map.get s.txs i ≡ Some before → before.at ≡ at.Pending o
        → StepsPending context o before after s.shared shared told
        → ((reply : ObjReply) → told ≡ answer.Done reply → ⊥)
        → IsTraced (with_transaction s i after shared images) }
    ensures abort_begins { (s : State) (i : ℕ) (before after : Transaction)
        (images : RunningImages)
        → IsTraced s → map.get s.txs i ≡ Some before → BeginsAbort before after
        → IsTraced (with_transaction s i after s.shared images) }
    ensures inverse { (s : State) (i : ℕ) (context : WalkContext)
        (inverting : Option OperationFields)
        (before after : Transaction) (shared : SharedState) (told : Answer) (images : RunningImages)
        → IsTraced s → map.get s.txs i ≡ Some before
        → StepsBack context inverting before after s.shared shared told
        → (told ≡ answer.Undone → ⊥) → (told ≡ answer.Aborted → ⊥)
        → IsTraced (with_transaction s i after shared images) }
{}

/// The begin of the next number has its place.
pub fn transaction_that_begins_is_traced()
    ensures { (s : State) (t : Transaction) (shared : SharedState)
        → IsSound s → IsTraced s → Begins s t shared → IsTraced (with_next s t shared) }
{}

/// An operation that is done has its place, and so has one that is taken back. Where it was the last, so has the
/// end of the transaction behind it.
pub fn operations_are_traced()
    ensures done { (s : State) (i : ℕ) (o : OperationFields) (before after : Transaction)
        (shared : SharedState) (told : ObjReply) (base : Base)
        → IsSound s → IsTraced s → map.get s.txs i ≡ Some before
        → EndsPending s i o before after shared told
        → IsTraced (with_end s i after shared base) }
    ensures undone { (s : State) (i : ℕ) (inverting : Option OperationFields)
        (before after : Transaction) (shared : SharedState) (base : Base)
        → IsSound s → IsTraced s → map.get s.txs i ≡ Some before
        → TakesLastBack s inverting before after shared answer.Undone
        → IsTraced (with_undone s i after shared base) }
    ensures last_undone { (s : State) (i : ℕ) (inverting : Option OperationFields)
        (before after : Transaction) (shared : SharedState) (base : Base)
        → IsSound s → IsTraced s → map.get s.txs i ≡ Some before
        → TakesLastBack s inverting before after shared answer.Aborted
        → IsTraced (with_aborted s i shared base) }
{}

/// A commit under the next number has its place, and so has a close where nothing stands.
pub fn ends_of_transactions_are_traced()
    ensures commit { (s : State) (i : ℕ) (before : Transaction) (shared : SharedState)
        → IsSound s → IsTraced s → map.get s.txs i ≡ Some before
        → Ends s i before shared (trace.Commit i (commit_count s.shared.history.items + 1))
        → IsTraced (without_transaction s i shared) }
    ensures close { (s : State) (i : ℕ) (before : Transaction) (shared : SharedState)
        → IsSound s → IsTraced s → map.get s.txs i ≡ Some before → before.undo.entries ≡ []
        → Ends s i before shared (trace.Abort i)
        → IsTraced (without_transaction s i shared) }
{}
