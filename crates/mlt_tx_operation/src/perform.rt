//! How a walk makes the change that an operation decides on.

ghost use Rattle.std.specs.Prelude.{◌≡◌, Some};
ghost use Rattle.mlt_object_base.specs.Records.{CanChange};
ghost use Rattle.mlt_hash_access.specs.LocalStates.{local};
ghost use Rattle.mlt_hash_access.specs.PageSteps.{Leaves};
ghost use Rattle.mlt_hash_access.specs.Views.{view_of};
ghost use Rattle.mlt_hash.specs.Walks.{context_in};
ghost use Rattle.mlt_hash.specs.Changes.{HasOwnGhost, MayChange, WritesIfChanged, page_of};
ghost use Rattle.mlt_hash.specs.Steps.{HasFound};
ghost use Rattle.mlt_tx_operation.specs.Performing.{TellsOfDecision};

use mlt_hash::{Environment, Walk, WalkAnswer};
use mlt_hash_access::LockedStore;
use mlt_object_base::RecChange;
use mlt_page_subtx::Subtx;
use mlt_types::{Pseudo, Value};

/// Makes a change of the record that the walk has found with this value, or not found. Only an addition may lack room.
#[inline(always)]
pub(crate) fn perform<P: Pseudo>(
    walk: &mut Walk,
    decided: RecChange,
    found: Option<Value>,
    environment: &Environment<P>,
    subtx: &mut Subtx,
    pages: &mut LockedStore,
) -> WalkAnswer
    requires ready { MayChange (context_in P.bits_of environment.now subtx.old.tx)
        (local subtx.old pages.old) walk.old }
    requires found { HasFound walk.old.phase found }
    requires fits { CanChange (Some decided) found }
    requires ghost_found { decided ≡ RecChange.Revive
        → HasOwnGhost subtx.old.tx walk.old (view_of (local subtx.old pages.old)) }
    ensures writes { WritesIfChanged (local subtx.old pages.old) (local subtx.new pages.new)
        (page_of walk.old.phase) result }
    ensures leaves { Leaves (local subtx.old pages.old) (local subtx.new pages.new) }
    ensures tells { TellsOfDecision (context_in P.bits_of environment.now subtx.old.tx)
        (local subtx.new pages.new) walk.old walk.new decided found result }
{
    match (decided, decided.value_after(found)) {
        (RecChange::Add(value), _) => walk.insert(value, environment, subtx, pages),
        (RecChange::Revive, _) => walk.revive(0, subtx, pages),
        (_, Some(value)) => walk.update(value, subtx, pages),
        (_, None) => walk.remove(subtx, pages),
    }
}
