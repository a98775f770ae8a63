//! The steps of a pending operation, and of an abort.

ghost use Rattle.std.specs.Prelude.{◌≡◌, ◌≤◌, ◌+◌, ◌++◌, [], ◌∷◌, List};
ghost use Rattle.mlt_hash_access.specs.LocalStates.{local};
ghost use Rattle.mlt_hash.specs.Walks.{context_in};
ghost use Rattle.mlt_tx_operation.specs.Operating.{MayOperate, started_for};
ghost use Rattle.mlt_object_kinds.specs.declared.operation.ObjOp.{ObjOp};
ghost use Rattle.mlt_object_kinds.specs.declared.operation.ObjReply.{ObjReply};
ghost use Rattle.mlt_tx.specs.Endings.{tx_state};
ghost use Rattle.mlt_tx.specs.Steps.{KeepsObjects, MayStepBack, MayStepOn, TakesBack, TellsOfBack, TellsOfPending, TellsOfStart, answer_of};

use crate::ending::finish;
use crate::shared::SharedState;
use mlt_event::Answer;
use mlt_hash::Environment;
use mlt_object_base::{Request, UndoList, inverse};
use mlt_object_kinds::{Done, ObjOp};
use mlt_page_subtx::Subtx;
use mlt_trace::TraceItem;
use mlt_tx_operation::{Operation, StepAnswer};
use mlt_types::{Pseudo, TxId};
use std::alloc::Global;

#[inline(always)]
fn answer_of(told: StepAnswer) -> Answer
    ensures { result ≡ answer_of told }
{
    match told {
        StepAnswer::Going => Answer::Going,
        StepAnswer::Waiting(page, by) => Answer::Waiting { page, by },
        StepAnswer::Refused(refusal) => Answer::Refused(refusal),
    }
}

/// One step of a pending operation: of its walk, or its end. Where its end is blocked, it is to be run anew.
#[inline(always)]
pub(crate) fn step_on<P: Pseudo>(
    operation: &mut Operation,
    subtx: &mut Subtx,
    undo: &mut UndoList,
    shared: &mut SharedState,
    environment: &Environment<P>,
) -> Answer
    requires ready { MayStepOn (context_in P.bits_of environment.now subtx.old.tx)
        operation.old subtx.old undo.old shared.old }
    ensures tells { TellsOfPending (context_in P.bits_of environment.now subtx.old.tx)
        operation.old operation.new
        (tx_state subtx.old undo.old shared.old) (tx_state subtx.new undo.new shared.new)
        result }
    ensures handed { shared.new.history.handed ≡ shared.old.history.handed }
{
    let Some(reply) = operation.reply() else {
        return answer_of(operation.step(environment, subtx, &mut shared.pages));
    };
    let Request::Do(op) = operation.request() else {
        unreachable!()
    };
    let answer = finish(Done::new(op, reply), subtx, undo, shared);
    if let Answer::Blocked { .. } = answer {
        start_anew(operation, shared.alloc, op);
    }
    answer
}

/// Puts a pending operation back to its start. It stands apart, so that no room for an operation is cleared in a step that
/// starts none.
#[cold]
#[inline(never)]
fn start_anew(operation: &mut Operation, alloc: Global, op: ObjOp)
    ensures { operation.new ≡ started_for (Request.Do op) }
{
    *operation = Operation::start(alloc, Request::Do(op));
}

/// Takes the last operation off, once its inverse is done, or where it has none.
fn take_back(tx: TxId, undo: &mut UndoList, shared: &mut SharedState) -> Answer
    requires entry { (front : List (ObjOp × ObjReply)) × (last : ObjOp × ObjReply)
        × (undo.old.entries ≡ front ++ last ∷ []) }
    requires room { 2 ≤ shared.old.history.room }
    ensures tells { TakesBack tx undo.old undo.new shared.old shared.new result }
    ensures handed { shared.new.history.handed ≡ shared.old.history.handed }
{
    undo.pop();
    shared.history.push(TraceItem::Back(tx));
    if undo.last().is_some() {
        return Answer::Undone;
    }
    shared.objects.release_all(tx);
    shared.history.push(TraceItem::Abort(tx));
    Answer::Aborted
}

/// One step of an abort: of the inverse that runs, or its end; or the first step of the next one, of the last operation
/// that stands. One without an inverse is taken back at once. It takes no memory.
#[inline(never)]
pub(crate) fn step_back<P: Pseudo>(
    inverting: &mut Option<Operation>,
    subtx: &mut Subtx,
    undo: &mut UndoList,
    shared: &mut SharedState,
    environment: &Environment<P>,
) -> Answer
    requires ready { MayStepBack (context_in P.bits_of environment.now subtx.old.tx)
        inverting.old subtx.old undo.old shared.old }
    ensures tells { TellsOfBack (context_in P.bits_of environment.now subtx.old.tx)
        inverting.old inverting.new
        (tx_state subtx.old undo.old shared.old) (tx_state subtx.new undo.new shared.new)
        result }
    ensures handed { shared.new.history.handed ≡ shared.old.history.handed }
{
    match inverting {
        Some(operation) => match operation.reply() {
            None => answer_of(operation.step(environment, subtx, &mut shared.pages)),
            Some(_) => {
                subtx.end(&mut shared.pages.locks);
                *inverting = None;
                take_back(subtx.tx(), undo, shared)
            }
        },
        None => {
            let Some(last) = undo.last() else {
                unreachable!()
            };
            match inverse(&last) {
                None => take_back(subtx.tx(), undo, shared),
                Some(_) => begin_inverse(last, inverting, subtx, shared, environment),
            }
        }
    }
}

/// Begins to take an operation back, and takes the first step.
fn begin_inverse<P: Pseudo>(
    last: Done,
    inverting: &mut Option<Operation>,
    subtx: &mut Subtx,
    shared: &mut SharedState,
    environment: &Environment<P>,
) -> Answer
    requires ready { MayOperate (context_in P.bits_of environment.now subtx.old.tx)
        (local subtx.old shared.old.pages) (started_for (Request.TakeBack last)) }
    ensures keeps { KeepsObjects shared.old shared.new }
    ensures tells { TellsOfStart (context_in P.bits_of environment.now subtx.old.tx) last
        inverting.new
        (local subtx.old shared.old.pages) (local subtx.new shared.new.pages) result }
    ensures handed { shared.new.history.handed ≡ shared.old.history.handed }
{
    let mut operation = Operation::start(shared.alloc, Request::TakeBack(last));
    let told = operation.step(environment, subtx, &mut shared.pages);
    *inverting = Some(operation);
    answer_of(told)
}
