//! Laws of the runs of a manager: between two steps of a transaction there may be any events of others.

ghost use Rattle.std.specs.Prelude.{ℕ, ◌≡◌, ◌++◌, List, Some};
ghost use Rattle.std.specs.FinMap as map;
ghost use Rattle.mlt_types.specs.declared.limits.Limits.{Limits};
ghost use Rattle.mlt_object_kinds.specs.declared.operation.ObjOp.{ObjOp};
ghost use Rattle.mlt_object_kinds.specs.declared.operation.ObjReply.{ObjReply};
ghost use Rattle.mlt_hash.specs.Walks.{context_by};
ghost use Rattle.mlt_event.specs.declared.event.Event.{Event};
ghost use Rattle.mlt_event.specs.declared.told.Told.{Told};
ghost use Rattle.mlt_tx.specs.declared.transaction.Transaction.{Transaction};
ghost use Rattle.mlt_tx_step_counts.specs.Counts.{IsToTakeBack};
ghost use Rattle.mlt_tx_step_counts.specs.CountsOfTwo.{TakesBackOf};
ghost use Rattle.mlt_tx_step_counts.specs.OwnSteps.{view_in};
ghost use Rattle.mlt_manager.specs.Events.{IsRun};
ghost use Rattle.mlt_manager.specs.Managers.{ManagerFields};
ghost use Rattle.mlt_manager.specs.Openings.{IsNew};
ghost use Rattle.mlt_manager.specs.Promises.{KeepsPromises};
ghost use Rattle.mlt_manager_laws.specs.Runs.{BeginsFirstPass, IsCutBehind, IsReached, OnlySteps, TakesOwnSteps, TakesPassInRun};

use mlt_hash_form::{form_is_extendible_hashing, records_are_a_map};
use mlt_types::Pseudo;

/// Each manager to which a run leads from a new one keeps its promises. So does each between two events of a run, for the
/// events before it are a run too.
pub fn managers_of_a_run_keep_their_promises<P: Pseudo>()
    ensures reached { (m : ManagerFields P) → IsReached P.bits_of m → KeepsPromises P.bits_of m }
    ensures between { (opening new : ManagerFields P) (limits : Limits) (pseudo : P)
        (before later : List Event) (tolds : List Told)
        → IsNew opening limits pseudo → IsRun P.bits_of opening (before ++ later) tolds new
        → IsCutBehind P.bits_of opening new before later tolds }
{
    form_is_extendible_hashing();
    records_are_a_map();
}

/// From its call on, or from a step on that was told Blocked, an operation on one record gets Done or Blocked at its fourth
/// step, and Going at the three before it, unless it is an addition that finds no room. That one gets Going at its third step
/// too, and then a narrow or a wide pass follows. An operation on two records gets Done or Blocked at its fourth to seventh
/// step; or it finds no room at its third to fifth, and then a wide pass follows.
pub fn operations_of_a_run_take_few_steps<P: Pseudo>()
    ensures { (old first new : ManagerFields P) (events : List Event) (tolds : List Told)
        (tx : ℕ) (op : ObjOp)
        → IsReached P.bits_of old → BeginsFirstPass P.bits_of old first tx op
        → OnlySteps tx events → IsRun P.bits_of first events tolds new
        → TakesPassInRun P.bits_of first tx op events tolds }
{}

/// The last operation of a transaction whose abort has begun is taken back at the fourth step, told Going at the three
/// before it, or at the fourth to seventh, where it was on two records; and at the first step, where it has no inverse.
pub fn aborts_of_a_run_take_few_steps<P: Pseudo>()
    ensures { (old new : ManagerFields P) (events : List Event) (tolds : List Told)
        (tx : ℕ) (t : Transaction) (last : ObjOp × ObjReply)
        → IsReached P.bits_of old → map.get old.txs tx ≡ Some t → IsToTakeBack t last
        → OnlySteps tx events → IsRun P.bits_of old events tolds new
        → TakesOwnSteps (context_by P.bits_of old.root old.active tx) t (view_in t old.shared)
        tx events tolds (TakesBackOf last) }
{}
