//! How long an operation goes on.

ghost use Rattle.std.specs.Prelude.{ℕ, ◌≡◌, ◌<◌, ◌≤◌, None, Some};
ghost use Rattle.mlt_object_base.specs.Requests.{size_key_of};
ghost use Rattle.mlt_hash_access.specs.LocalStates.{LocalState};
ghost use Rattle.mlt_hash_access.specs.Views.{View, view_of};
ghost use Rattle.mlt_hash.specs.Walks.{WalkContext, one_key};
ghost use Rattle.mlt_tx_operation.specs.Answers.{TellsOfStep};
ghost use Rattle.mlt_tx_operation.specs.MostSteps.{most_steps};
ghost use Rattle.mlt_tx_operation.specs.Operating.{OperationFields, started_for};
ghost use Rattle.mlt_tx_operation.specs.declared.answer.StepAnswer.TheVariants as answer;
ghost use Rattle.mlt_object_base.specs.declared.request.Request.{Request};

/// Each step of an operation that goes on leaves fewer up to its end. One that has taken none takes at most 587, its end
/// among them, and those aside that wait; and where it changes a size too, at most 1165.
pub fn operations_come_to_an_end()
    ensures fewer { (context : WalkContext) (old new : LocalState) (before after : OperationFields)
        → context.max_depth ≤ 16 → TellsOfStep (one_key context) old new before after answer.Going
        → most_steps context.root after (view_of new)
        < most_steps context.root before (view_of old) }
    ensures in_all { (root : ℕ) (request : Request) (view : View) → size_key_of request ≡ None
        → most_steps root (started_for request) view ≡ 587 }
    ensures in_all_of_two { (root : ℕ) (request : Request) (view : View) (size : ℕ)
        → size_key_of request ≡ Some size → most_steps root (started_for request) view ≡ 1165 }
{}
