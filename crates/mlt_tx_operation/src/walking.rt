//! The steps of an operation on one record.

ghost use Rattle.std.specs.Prelude.{◌≡◌, None};
ghost use Rattle.mlt_hash_access.specs.LocalStates.{local};
ghost use Rattle.mlt_hash.specs.Walks.{context_in};
ghost use Rattle.mlt_tx_operation.specs.Answers.{TellsOfStep};
ghost use Rattle.mlt_tx_operation.specs.AtBucket.{MayDecide, TellsAtBucket};
ghost use Rattle.mlt_tx_operation.specs.Operating.{on_one};
ghost use Rattle.mlt_tx_operation.specs.Walking.{MayWalkOn, walking};

use crate::answer::StepAnswer;
use crate::perform::perform;
use mlt_hash::{Environment, Walk, WalkAnswer};
use mlt_hash_access::LockedStore;
use mlt_object_base::Request;
use mlt_object_kinds::ObjReply;
use mlt_page_subtx::Subtx;
use mlt_types::{Pseudo, Value};

/// One step of an operation on one record, up to the one before its end: on the way to its bucket it locks a page and reads
/// it. At the bucket it determines its reply, and makes its change there. Where there is no room, the pass is rolled back
/// and another begins, which splits the bucket, one page a step.
#[inline(always)]
pub(crate) fn step_walk<P: Pseudo>(
    walk: &mut Walk,
    request: &Request,
    reply: &mut Option<ObjReply>,
    environment: &Environment<P>,
    subtx: &mut Subtx,
    pages: &mut LockedStore,
) -> StepAnswer
    requires untold { reply.old ≡ None }
    requires ready { MayWalkOn (context_in P.bits_of environment.now subtx.old.tx)
        (local subtx.old pages.old) (walking request.now reply.old walk.old) }
    ensures tells { TellsOfStep (context_in P.bits_of environment.now subtx.old.tx)
        (local subtx.old pages.old) (local subtx.new pages.new)
        (on_one (walking request.now reply.old walk.old))
        (on_one (walking request.now reply.new walk.new)) result }
{
    match walk.advance(environment, subtx, pages) {
        WalkAnswer::Going => StepAnswer::Going,
        WalkAnswer::Waiting(page, by) => StepAnswer::Waiting(page, by),
        WalkAnswer::Found(found) => act_on(walk, request, reply, found, environment, subtx, pages),
        WalkAnswer::Changed => {
            *reply = Some(request.decide(None).0);
            StepAnswer::Going
        }
        WalkAnswer::Refused(refusal) => {
            subtx.roll_back(&mut pages.store, &mut pages.locks);
            StepAnswer::Refused(refusal)
        }
        WalkAnswer::NeedSplit | WalkAnswer::Widen => unreachable!(),
    }
}

/// At the bucket, where the key has this value, or none.
#[inline(always)]
fn act_on<P: Pseudo>(
    walk: &mut Walk,
    request: &Request,
    reply: &mut Option<ObjReply>,
    found: Option<Value>,
    environment: &Environment<P>,
    subtx: &mut Subtx,
    pages: &mut LockedStore,
) -> StepAnswer
    requires ready { MayDecide (context_in P.bits_of environment.now subtx.old.tx)
        (local subtx.old pages.old) (walking request.now reply.old walk.old) found }
    ensures tells { TellsAtBucket (context_in P.bits_of environment.now subtx.old.tx)
        (local subtx.old pages.old) (local subtx.new pages.new)
        (walking request.now reply.old walk.old) (walking request.now reply.new walk.new) result }
{
    let (told, decided) = request.decide(found);
    let Some(change) = decided else {
        *reply = Some(told);
        return StepAnswer::Going;
    };
    match perform(walk, change, found, environment, subtx, pages) {
        WalkAnswer::Changed => {
            *reply = Some(told);
            StepAnswer::Going
        }
        WalkAnswer::NeedSplit if !walk.is_first() => StepAnswer::Going,
        WalkAnswer::NeedSplit | WalkAnswer::Widen => {
            subtx.roll_back(&mut pages.store, &mut pages.locks);
            walk.again();
            StepAnswer::Going
        }
        WalkAnswer::Refused(reason) => {
            subtx.roll_back(&mut pages.store, &mut pages.locks);
            StepAnswer::Refused(reason)
        }
        WalkAnswer::Going | WalkAnswer::Waiting(_, _) | WalkAnswer::Found(_) => unreachable!(),
    }
}
