//! Laws of the steps of one transaction. Between two of them others may do anything that leaves what it sees of the pages
//! that it holds.

ghost use Rattle.std.specs.Prelude.{◌≡◌, List, None, IsSome};
ghost use Rattle.mlt_object_kinds.specs.declared.operation.ObjOp.{ObjOp};
ghost use Rattle.mlt_object_kinds.specs.declared.operation.ObjReply.{ObjReply};
ghost use Rattle.mlt_hash_access.specs.Views.{View};
ghost use Rattle.mlt_hash.specs.Walks.{WalkContext, one_key};
ghost use Rattle.mlt_hash.specs.declared.pass.Pass.TheVariants.{First, Narrow, Wide};
ghost use Rattle.mlt_object_base.specs.declared.request.Request.TheVariants.{Do, TakeBack};
ghost use Rattle.mlt_object_base.specs.Requests.{size_key_of};
ghost use Rattle.mlt_tx_operation.specs.Operating.{started_for};
ghost use Rattle.mlt_tx.specs.declared.transaction.At.TheVariants as at;
ghost use Rattle.mlt_tx.specs.declared.transaction.Transaction.{Transaction};
ghost use Rattle.mlt_tx_step_counts.specs.Counts.{IsToTakeBack, TakesBackInFour, TakesFirstPass, TakesLaterPass, TakesNarrowPass, started_in};
ghost use Rattle.mlt_tx_step_counts.specs.CountsOfTwo.{TakesBackInSeven, TakesFirstPassOfTwo, TakesWidePassOfTwo, started_wide};
ghost use Rattle.mlt_tx_step_counts.specs.OwnSteps.{AreOwnSteps, OwnStep};

/// From a call, or from a Blocked, an operation on one record gets Done or Blocked at its fourth step, and Going at the three
/// before it, unless it is an addition that finds no room. That one gets Going at its third step too, and then a narrow or a wide
/// pass follows, as the two laws below have it.
pub fn first_passes_take_four_steps()
    ensures { (context : WalkContext) (op : ObjOp) (t : Transaction) (seen : View)
        (steps : List OwnStep)
        → t.at ≡ at.Pending (started_in (Do op) First)
        → AreOwnSteps (one_key context) t seen steps → TakesFirstPass (one_key context) op steps }
{}

/// A narrow pass gets the same answers; or it is refused earlier; or it gets Going at its third step, and a wide one follows;
/// or it splits its bucket, k times, and gets Done or Blocked at its step 5 + 3 * k + c, or it is refused before
/// that.
pub fn narrow_passes_take_few_steps()
    ensures { (context : WalkContext) (op : ObjOp) (t : Transaction) (seen : View)
        (steps : List OwnStep)
        → t.at ≡ at.Pending (started_in (Do op) Narrow)
        → AreOwnSteps (one_key context) t seen steps → TakesNarrowPass (one_key context) op steps }
{}

/// So is a wide pass, which is never given up.
pub fn wide_passes_take_few_steps()
    ensures { (context : WalkContext) (op : ObjOp) (t : Transaction) (seen : View)
        (steps : List OwnStep)
        → t.at ≡ at.Pending (started_in (Do op) Wide)
        → AreOwnSteps (one_key context) t seen steps → TakesLaterPass (one_key context) steps }
{}

/// What was done to one record is taken back at the fourth step of its inverse, told Going at the three before it; and at the
/// first step, where it has none.
pub fn inverses_take_four_steps_or_one()
    ensures { (context : WalkContext) (t : Transaction) (last : ObjOp × ObjReply) (seen : View)
        (steps : List OwnStep)
        → size_key_of (TakeBack last) ≡ None
        → IsToTakeBack t last → AreOwnSteps (one_key context) t seen steps
        → TakesBackInFour last steps }
{}

/// From a call, or from a Blocked, an operation on two records gets Done or Blocked at its fourth to seventh step, and Going
/// at those before it, unless it finds no room. Then it gets Going also at the step that finds both buckets, its third to
/// fifth, and a wide pass follows, as the next law has it.
pub fn first_passes_on_two_take_four_to_seven_steps()
    ensures { (context : WalkContext) (op : ObjOp) (t : Transaction) (seen : View)
        (steps : List OwnStep)
        → IsSome (size_key_of (Do op)) → t.at ≡ at.Pending (started_for (Do op))
        → AreOwnSteps (one_key context) t seen steps
        → TakesFirstPassOfTwo (one_key context) op steps }
{}

/// A wide pass on two records gets Done or Blocked at its fourth step, where the element is there already; at its sixth,
/// where both buckets have room; at its step 7 + 3 * k + c, where one of them is split, and 8 + 3 * k + c where both are, k
/// times in all; and Going at those before it. Or it is refused before that.
pub fn wide_passes_on_two_take_few_steps()
    ensures { (context : WalkContext) (op : ObjOp) (t : Transaction) (seen : View)
        (steps : List OwnStep)
        → t.at ≡ at.Pending (started_wide (Do op))
        → AreOwnSteps (one_key context) t seen steps → TakesWidePassOfTwo (one_key context) steps }
{}

/// What was done to two records is taken back at the fourth to seventh step of its inverse, told Going at those before it.
pub fn inverses_on_two_take_four_to_seven_steps()
    ensures { (context : WalkContext) (t : Transaction) (last : ObjOp × ObjReply) (seen : View)
        (steps : List OwnStep)
        → IsSome (size_key_of (TakeBack last))
        → IsToTakeBack t last → AreOwnSteps (one_key context) t seen steps
        → TakesBackInSeven steps }
{}
