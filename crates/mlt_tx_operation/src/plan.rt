//! What an operation on one record is told, and what it changes in place.

ghost use Rattle.std.specs.Prelude.{◌≡◌, IfSome};
ghost use Rattle.mlt_object_base.specs.declared.request.Request.TheVariants.{Do};
ghost use Rattle.mlt_hash.specs.Walks.{context_in};
ghost use Rattle.mlt_hash_access.specs.LocalStates.{local};
ghost use Rattle.mlt_tx_operation.specs.Operating.{MayOperate, started_for};
ghost use Rattle.mlt_tx_operation.specs.Fast.{CanWrite, NobodyHolds, PassesFast, store_after};

use mlt_hash::Environment;
use mlt_hash_access::LockedStore;
use mlt_hash_form::{SlotWrite, home_bucket, update, value_in};
use mlt_object_base::Request;
use mlt_object_kinds::{ObjOp, ObjReply};
use mlt_page::Store;
use mlt_page_subtx::Subtx;
use mlt_types::Pseudo;

/// The reply to an operation on one record, and the slot that it sets, if it changes its record.
#[derive(Clone, Copy, Debug, PartialEq, Eq)]
pub struct PlanFast {
    pub reply: ObjReply,
    pub write: Option<SlotWrite>,
}

impl PlanFast {
    /// Sets the slot, if one is to be set.
    pub fn carry_out(&self, store: &mut Store)
        requires write { CanWrite self.now.write store.old }
        ensures { store.new ≡ store_after self.now.write store.old }
    {
        if let Some(write) = self.write {
            store.set_slot(write.number, write.at, write.slot);
        }
    }
}

/// Plans an operation that has taken no step, while nobody holds a page. With the slot set, the pages are as after the steps of
/// the operation up to its end, and its end. There is a plan where it is on one record, and reads it or gives it another value.
/// It takes no memory.
pub fn plan_fast<P: Pseudo>(
    op: &ObjOp,
    environment: &Environment<P>,
    subtx: &Subtx,
    pages: &LockedStore,
) -> Option<PlanFast>
    requires free { NobodyHolds pages.now.locks }
    requires ready { MayOperate (context_in P.bits_of environment.now subtx.now.tx)
        (local subtx.now pages.now) (started_for (Do op.now)) }
    ensures passes { IfSome result (λ plan.
        PassesFast (context_in P.bits_of environment.now subtx.now.tx) (local subtx.now pages.now)
        (started_for (Do op.now)) plan.reply (store_after plan.write pages.now.store)) }
    ensures writes { IfSome result (λ plan. CanWrite plan.write pages.now.store) }
{
    let request = Request::Do(*op);
    if request.size_key().is_some() {
        return None;
    }
    let (key, _) = request.target();
    let Some(home) = home_bucket(&pages.store, environment.root, key) else {
        return None;
    };
    let (number, bucket) = home;
    let found = value_in(bucket, key);
    let (reply, decided) = request.decide(found);
    let Some(change) = decided else {
        return Some(PlanFast { reply, write: None });
    };
    let (Some(_), Some(value)) = (found, change.value_after(found)) else {
        return None;
    };
    let write = update(number, bucket, key, value)?;
    Some(PlanFast {
        reply,
        write: Some(write),
    })
}
