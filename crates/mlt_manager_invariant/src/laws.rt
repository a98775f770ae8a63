//! Each event of a manager keeps all that is always true.

ghost use Rattle.std.specs.Prelude.{ℕ, ◌≡◌, ◌≤◌, [], ◌≢◌, Some, Option, ◌<◌, ◌+◌};
ghost use Rattle.std.specs.FinMap as map;
ghost use Rattle.mlt_object_kinds.specs.Bases.{Base, Step};
ghost use Rattle.mlt_object_kinds.specs.declared.operation.ObjOp.{ObjOp};
ghost use Rattle.mlt_object_kinds.specs.declared.operation.ObjReply.{ObjReply};
ghost use Rattle.mlt_object_base.specs.declared.request.Request.TheVariants.{Do};
ghost use Rattle.mlt_object_locks.specs.Locks as objects;
ghost use Rattle.mlt_event.specs.declared.answer.Answer.{Answer};
ghost use Rattle.mlt_event.specs.declared.answer.Answer.TheVariants as answer;
ghost use Rattle.mlt_trace.specs.declared.item.TraceItem.TheVariants as trace;
ghost use Rattle.mlt_trace.specs.Numbers.{commit_count};
ghost use Rattle.mlt_page_locks.specs.LockTables.{no_locks};
ghost use Rattle.mlt_hash_form.specs.Changes.{IsOpening};
ghost use Rattle.mlt_hash_form.specs.File.{GivesPseudokeys};
ghost use Rattle.mlt_hash_access.specs.CleanPages.{RunningImages};
ghost use Rattle.mlt_tx_operation.specs.Operating.{OperationFields};
ghost use Rattle.mlt_tx_meaning.specs.AbstractStates.{context_of};
ghost use Rattle.mlt_tx.specs.declared.shared.SharedState.{SharedState};
ghost use Rattle.mlt_tx.specs.declared.transaction.At.TheVariants as at;
ghost use Rattle.mlt_tx.specs.declared.transaction.Transaction.{Transaction};
ghost use Rattle.mlt_tx.specs.Transactions.{MayStepIn, TellsOfCancel, StepsPending, StepsBack};
ghost use Rattle.mlt_manager_invariant.specs.Opening.{opening_state};
ghost use Rattle.mlt_manager_invariant.specs.Sound.{IsSound};
ghost use Rattle.mlt_manager_invariant.specs.States.{State, abstract_state_of};
ghost use Rattle.mlt_manager_invariant.specs.Events.{KeepsClean, with_transaction, Calls, KeepsCleanPages, EndsPending, with_end};
ghost use Rattle.mlt_manager_invariant.specs.Undoing.{LedBack, TakesLastBack, with_aborted, with_undone};
ghost use Rattle.mlt_manager_invariant.specs.Transactions.{Begins, BeginsAbort, Ends, with_next, without_transaction};

/// A manager with the pages of a file as it is opened, no lock and an empty history is as it always is.
pub fn opening_state_is_sound()
    ensures { (bits : ℕ → ℕ) (root max_depth max_ops max_open dir bucket : ℕ) (shared : SharedState)
        → GivesPseudokeys bits → max_depth ≤ 16
        → IsOpening (map.get shared.pages.store.pages) root dir bucket
        → shared.pages.locks ≡ no_locks max_open → shared.objects ≡ objects.no_locks
        → shared.history.items ≡ [] → shared.history.room ≡ 0
        → IsSound (opening_state bits root max_depth max_ops shared) }
{}

/// Each open transaction that is not idle may take a step.
pub fn transactions_may_step()
    ensures { (s : State) (i : ℕ) (t : Transaction)
        → IsSound s → map.get s.txs i ≡ Some t → t.at ≢ at.Idle
        → MayStepIn (context_of (abstract_state_of s) i) t s.shared }
{}

/// An event of one transaction that leaves the clean pages, the items of the history and what is held keeps all that is
/// always true, if it leaves the transaction where it may be.
pub fn event_that_keeps_clean_pages()
    ensures { (s : State) (i : ℕ) (before after : Transaction) (shared : SharedState)
        (images : RunningImages)
        → IsSound s → map.get s.txs i ≡ Some before
        → KeepsClean s i before after shared images
        → IsSound (with_transaction s i after shared images) }
{}

/// A call of an idle transaction, which makes an operation pending, keeps all that is always true.
pub fn operation_that_is_called()
    ensures { (s : State) (i : ℕ) (before after : Transaction) (shared : SharedState)
        → IsSound s → map.get s.txs i ≡ Some before → Calls s i before after shared
        → IsSound (with_transaction s i after shared s.images) }
{}

/// The cancel of a pending operation leaves the clean pages, the history and what is held as they were.
pub fn operation_that_is_cancelled()
    ensures { (s : State) (i : ℕ) (o : OperationFields) (before after : Transaction)
        (shared : SharedState)
        → IsSound s → map.get s.txs i ≡ Some before → before.at ≡ at.Pending o
        → TellsOfCancel before after s.shared shared
        → KeepsCleanPages s i before after shared }
{}

/// Where a pending operation goes on, waits, is blocked or is refused, the clean pages, the history and what is held are
/// as they were, and so all that is always true stays true.
pub fn operation_that_is_not_done()
    ensures { (s : State) (i : ℕ) (o : OperationFields) (before after : Transaction)
        (shared : SharedState) (told : Answer)
        → IsSound s → map.get s.txs i ≡ Some before → before.at ≡ at.Pending o
        → StepsPending (context_of (abstract_state_of s) i) o before after s.shared shared told
        → ((reply : ObjReply) → told ≡ answer.Done reply → ⊥)
        → KeepsCleanPages s i before after shared }
{}

/// The reply that a pending operation was told, once its next step is its end, is the one with which it is a step of the
/// base.
pub fn reply_of_a_pending_operation()
    ensures { (s : State) (i : ℕ) (o : OperationFields) (before : Transaction) (op : ObjOp)
        (reply : ObjReply)
        → IsSound s → map.get s.txs i ≡ Some before → before.at ≡ at.Pending o
        → o.request ≡ Do op → o.reply ≡ Some reply
        → (base : Base) × Step s.base (op, reply) base }
{}

/// Where an operation is done, the base makes its step, with the reply that it was told, and all that is always true
/// stays true: what it has written means that base.
pub fn operation_that_is_done()
    ensures { (s : State) (i : ℕ) (o : OperationFields) (before after : Transaction)
        (shared : SharedState) (told : ObjReply)
        → IsSound s → map.get s.txs i ≡ Some before
        → (ends : EndsPending s i o before after shared told)
        → (base : Base) × Step s.base (ends.ends.op, ends.ends.reply) base
        × IsSound (with_end s i after shared base) }
{}

/// Where an abort takes the last operation back and others stand, the base is one from which the operation leads to
/// what it was, and all that is always true stays true.
pub fn undone_operation_keeps_all()
    ensures { (s : State) (i : ℕ) (inverting : Option OperationFields) (before after : Transaction)
        (shared : SharedState)
        → IsSound s → map.get s.txs i ≡ Some before
        → TakesLastBack s inverting before after shared answer.Undone
        → LedBack s before after (with_undone s i after shared) }
{}

/// The same where it was the last operation that stands: the transaction is closed then, and holds nothing any more.
pub fn last_undone_operation_keeps_all()
    ensures { (s : State) (i : ℕ) (inverting : Option OperationFields) (before after : Transaction)
        (shared : SharedState)
        → IsSound s → map.get s.txs i ≡ Some before
        → TakesLastBack s inverting before after shared answer.Aborted
        → LedBack s before after (with_aborted s i shared) }
{}

/// A step of an inverse before its end, or one that waits, leaves the clean pages, the history and what is held as they
/// were.
pub fn inverse_that_is_not_done()
    ensures { (s : State) (i : ℕ) (inverting : Option OperationFields) (before after : Transaction)
        (shared : SharedState) (told : Answer)
        → IsSound s → map.get s.txs i ≡ Some before → before.at ≡ at.Undoing inverting
        → StepsBack (context_of (abstract_state_of s) i) inverting before after s.shared shared told
        → (told ≡ answer.Undone → ⊥) → (told ≡ answer.Aborted → ⊥)
        → KeepsCleanPages s i before after shared }
{}

/// The beginning of a transaction, where one more may be open, keeps all that is always true.
pub fn transaction_that_begins()
    ensures { (s : State) (t : Transaction) (shared : SharedState)
        → IsSound s → map.len s.txs < s.shared.pages.locks.max_open → Begins s t shared
        → IsSound (with_next s t shared) }
{}

/// So does the beginning of an abort that has something to take back.
pub fn abort_that_begins()
    ensures { (s : State) (i : ℕ) (before after : Transaction)
        → IsSound s → map.get s.txs i ≡ Some before → BeginsAbort before after
        → IsSound (with_transaction s i after s.shared s.images) }
{}

/// So does the end of a transaction: a commit, with the next number of commits, and a close where nothing is left that
/// it did.
pub fn transaction_that_ends()
    ensures commit { (s : State) (i : ℕ) (before : Transaction) (shared : SharedState)
        → IsSound s → map.get s.txs i ≡ Some before
        → Ends s i before shared (trace.Commit i (commit_count s.shared.history.items + 1))
        → IsSound (without_transaction s i shared) }
    ensures close { (s : State) (i : ℕ) (before : Transaction) (shared : SharedState)
        → IsSound s → map.get s.txs i ≡ Some before → before.undo.entries ≡ []
        → Ends s i before shared (trace.Abort i)
        → IsSound (without_transaction s i shared) }
{}
