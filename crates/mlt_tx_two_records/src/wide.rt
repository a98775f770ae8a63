//! The wide pass.

ghost use Rattle.std.specs.Prelude.{◌≡◌};
ghost use Rattle.mlt_hash_access.specs.LocalStates.{local};
ghost use Rattle.mlt_hash_access.specs.Views.{view_of};
ghost use Rattle.mlt_hash_access.specs.PageSteps.{Leaves};
ghost use Rattle.mlt_hash.specs.Changes.{MayChange, WritesIfChanged, page_of};
ghost use Rattle.mlt_hash.specs.Steps.{HasFound, steps_to_bucket};
ghost use Rattle.mlt_hash.specs.Walks.{WalkContext, Before, context_after, context_in};
ghost use Rattle.mlt_hash.specs.declared.pass.Pass.TheVariants as pass;
ghost use Rattle.mlt_tx_two_records.specs.Answers.{TellsOfTwoRecords};
ghost use Rattle.mlt_tx_two_records.specs.TwoRecordWalks.{MayGoOn};
ghost use Rattle.mlt_tx_two_records.specs.AtWideBuckets.{HasJustPut, MayActOnOwn, MayActOnSize, MayStepToSize, Raises, TellsAtOwn, TellsAtSize, TellsOfRaise};
ghost use Rattle.mlt_tx_two_records.specs.WidePass.{IsGoingToSize};
ghost use Rattle.mlt_tx_two_records.specs.declared.two_records.TwoRecordWalk.TheVariants.{Wide};

use crate::answer::TwoRecordAnswer;
use crate::two_records::WideStage;
use mlt_hash::{Environment, Walk, WalkAnswer};
use mlt_hash_access::LockedStore;
use mlt_object_base::{RecChange, Request};
use mlt_page_subtx::Subtx;
use mlt_types::{Pseudo, Value};

/// One step of a wide pass to its own key, and the stage that follows: once the record is put it goes on to the key of the
/// size.
pub(crate) fn step_own<P: Pseudo>(
    walk: &mut Walk,
    request: &Request,
    environment: &Environment<P>,
    subtx: &mut Subtx,
    pages: &mut LockedStore,
) -> (WideStage, TwoRecordAnswer)
    requires ready { MayGoOn (context_in P.bits_of environment.now subtx.old.tx)
        (local subtx.old pages.old) request.now (Wide WideStage.Own walk.old) }
    ensures tells { TellsOfTwoRecords (context_in P.bits_of environment.now subtx.old.tx)
        (local subtx.old pages.old) (local subtx.new pages.new)
        (Wide WideStage.Own walk.old) (Wide result.0 walk.new) request.now result.1 }
{
    match walk.advance(environment, subtx, pages) {
        WalkAnswer::Going => (WideStage::Own, TwoRecordAnswer::Going),
        WalkAnswer::Waiting(page, by) => (WideStage::Own, TwoRecordAnswer::Waiting(page, by)),
        WalkAnswer::Found(found) => act_on_own(walk, found, request, environment, subtx, pages),
        WalkAnswer::Changed => {
            go_over(walk, request, environment, subtx, pages);
            (WideStage::Size, TwoRecordAnswer::Going)
        }
        WalkAnswer::Refused(reason) => {
            subtx.roll_back(&mut pages.store, &mut pages.locks);
            (WideStage::Own, TwoRecordAnswer::Refused(reason))
        }
        WalkAnswer::NeedSplit | WalkAnswer::Widen => unreachable!(),
    }
}

/// At the bucket of its own key, which has this value there, or none.
fn act_on_own<P: Pseudo>(
    walk: &mut Walk,
    found: Option<Value>,
    request: &Request,
    environment: &Environment<P>,
    subtx: &mut Subtx,
    pages: &mut LockedStore,
) -> (WideStage, TwoRecordAnswer)
    requires ready { MayActOnOwn (context_in P.bits_of environment.now subtx.old.tx)
        (local subtx.old pages.old) request.now walk.old found }
    ensures tells { TellsAtOwn (context_in P.bits_of environment.now subtx.old.tx)
        (local subtx.old pages.old) (local subtx.new pages.new)
        request.now walk.old result.0 walk.new result.1 }
{
    let (reply, change) = request.decide(found);
    let Some(change) = change else {
        return (WideStage::Own, TwoRecordAnswer::Told(reply));
    };
    let RecChange::Add(value) = change else {
        unreachable!()
    };
    match walk.insert(value, environment, subtx, pages) {
        WalkAnswer::Changed => {
            go_over(walk, request, environment, subtx, pages);
            (WideStage::Size, TwoRecordAnswer::Going)
        }
        WalkAnswer::NeedSplit => (WideStage::Own, TwoRecordAnswer::Going),
        WalkAnswer::Refused(reason) => {
            subtx.roll_back(&mut pages.store, &mut pages.locks);
            (WideStage::Own, TwoRecordAnswer::Refused(reason))
        }
        _ => unreachable!(),
    }
}

/// Goes on to the key of the size, once the own record is put. It is no step. The ghost is what the walk goes by.
fn go_over<P: Pseudo>(
    walk: &mut Walk,
    request: &Request,
    environment: &Environment<P>,
    subtx: &Subtx,
    pages: &LockedStore,
)
    ghost context: { WalkContext }
    requires context { context_in P.bits_of environment.now subtx.now.tx ≡ context }
    requires ready { HasJustPut context (local subtx.now pages.now) request.now walk.old }
    ensures goes { IsGoingToSize context
        request.now walk.new (view_of (local subtx.now pages.now)) }
    ensures steps { steps_to_bucket walk.new.phase ≡ 2 }
{
    let Some(size) = request.size_key() else {
        unreachable!()
    };
    walk.go_on_to(size, environment.root, subtx, pages);
}

/// One step of a wide pass to the key of the size.
pub(crate) fn step_size<P: Pseudo>(
    walk: &mut Walk,
    request: &Request,
    environment: &Environment<P>,
    subtx: &mut Subtx,
    pages: &mut LockedStore,
) -> TwoRecordAnswer
    requires ready { MayGoOn (context_in P.bits_of environment.now subtx.old.tx)
        (local subtx.old pages.old) request.now (Wide WideStage.Size walk.old) }
    ensures tells { TellsOfTwoRecords (context_in P.bits_of environment.now subtx.old.tx)
        (local subtx.old pages.old) (local subtx.new pages.new)
        (Wide WideStage.Size walk.old) (Wide WideStage.Size walk.new) request.now result }
{
    walk_to_size(walk, request, environment, subtx, pages)
}

/// The same, where the ghost is what the pass did before it went on to this key.
fn walk_to_size<P: Pseudo>(
    walk: &mut Walk,
    request: &Request,
    environment: &Environment<P>,
    subtx: &mut Subtx,
    pages: &mut LockedStore,
) -> TwoRecordAnswer
    ghost since: { Before }
    requires ready { MayStepToSize (context_in P.bits_of environment.now subtx.old.tx)
        (local subtx.old pages.old) request.now walk.old since }
    ensures tells { TellsOfTwoRecords (context_in P.bits_of environment.now subtx.old.tx)
        (local subtx.old pages.old) (local subtx.new pages.new)
        (Wide WideStage.Size walk.old) (Wide WideStage.Size walk.new) request.now result }
{
    match walk.advance(environment, subtx, pages) {
        WalkAnswer::Going => TwoRecordAnswer::Going,
        WalkAnswer::Waiting(page, by) => TwoRecordAnswer::Waiting(page, by),
        WalkAnswer::Found(found) => act_on_size(walk, found, request, environment, subtx, pages),
        WalkAnswer::Changed => TwoRecordAnswer::Told(request.decide(None).0),
        WalkAnswer::Refused(reason) => {
            subtx.roll_back(&mut pages.store, &mut pages.locks);
            TwoRecordAnswer::Refused(reason)
        }
        WalkAnswer::NeedSplit | WalkAnswer::Widen => unreachable!(),
    }
}

/// At the bucket of the size's key, which has this value there, or none.
fn act_on_size<P: Pseudo>(
    walk: &mut Walk,
    found: Option<Value>,
    request: &Request,
    environment: &Environment<P>,
    subtx: &mut Subtx,
    pages: &mut LockedStore,
) -> TwoRecordAnswer
    ghost since: { Before }
    requires ready { MayActOnSize (context_in P.bits_of environment.now subtx.old.tx)
        (local subtx.old pages.old) request.now walk.old found since }
    ensures tells { TellsAtSize (context_in P.bits_of environment.now subtx.old.tx) since
        (local subtx.old pages.old) (local subtx.new pages.new)
        request.now walk.old walk.new result }
{
    let (reply, _) = request.decide(None);
    let Some(raise) = request.resize(reply, found) else {
        unreachable!()
    };
    match raise_size(walk, raise, found, environment, subtx, pages) {
        WalkAnswer::Changed => TwoRecordAnswer::Told(reply),
        WalkAnswer::NeedSplit => TwoRecordAnswer::Going,
        WalkAnswer::Refused(reason) => {
            subtx.roll_back(&mut pages.store, &mut pages.locks);
            TwoRecordAnswer::Refused(reason)
        }
        _ => unreachable!(),
    }
}

/// Makes the change that raises the size: adds its record where none was found, and else adds to its value.
fn raise_size<P: Pseudo>(
    walk: &mut Walk,
    raise: RecChange,
    found: Option<Value>,
    environment: &Environment<P>,
    subtx: &mut Subtx,
    pages: &mut LockedStore,
) -> WalkAnswer
    ghost since: { Before }
    requires ready { MayChange (context_after since
        (context_in P.bits_of environment.now subtx.old.tx))
        (local subtx.old pages.old) walk.old }
    requires wide { walk.old.pass ≡ pass.Wide }
    requires found { HasFound walk.old.phase found }
    requires raises { Raises found raise }
    ensures writes { WritesIfChanged (local subtx.old pages.old) (local subtx.new pages.new)
        (page_of walk.old.phase) result }
    ensures leaves { Leaves (local subtx.old pages.old) (local subtx.new pages.new) }
    ensures tells { TellsOfRaise (context_after since
        (context_in P.bits_of environment.now subtx.old.tx))
        (local subtx.new pages.new) walk.old walk.new raise found result }
{
    let Some(value) = raise.value_after(found) else {
        unreachable!()
    };
    match found {
        None => walk.insert(value, environment, subtx, pages),
        Some(_) => walk.update(value, subtx, pages),
    }
}
