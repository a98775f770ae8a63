//! The first pass.

ghost use Rattle.std.specs.Prelude.{◌≡◌};
ghost use Rattle.mlt_hash_access.specs.LocalStates.{local};
ghost use Rattle.mlt_hash_pair.specs.Pairs.{FileRoot};
ghost use Rattle.mlt_hash.specs.Walks.{context_in};
ghost use Rattle.mlt_tx_two_records.specs.TwoRecordWalks.{MayGoOn};
ghost use Rattle.mlt_tx_two_records.specs.FirstPass.{TellsOfFirst};
ghost use Rattle.mlt_tx_two_records.specs.AtBuckets.{MayActOnBoth, TellsAtBuckets};
ghost use Rattle.mlt_tx_two_records.specs.declared.two_records.TwoRecordWalk.TheVariants.{First};

use crate::asked::asked_for;
use mlt_hash::Environment;
use mlt_hash_access::LockedStore;
use mlt_hash_pair::{ChangeAnswer, Pair, PairAnswer, PairChanges};
use mlt_object_base::Request;
use mlt_object_kinds::ObjReply;
use mlt_page_subtx::Subtx;
use mlt_types::{PageNo, Pseudo, TxId, Value};

/// The answer to a step of a first pass, up to the one that finds both keys.
#[derive(Clone, Copy, Debug, PartialEq, Eq)]
pub(crate) enum FirstAnswer {
    /// It goes on.
    Going,
    /// This page is held by this transaction, the lowest whose lock stands against the one asked for. Nothing has
    /// changed.
    Waiting(PageNo, TxId),
    /// The later bucket is written, and the change of the earlier one is owed. The operation has this reply.
    OneLeft(ObjReply),
    /// All changes are written, and this is the reply.
    Told(ObjReply),
    /// A bucket has no room. All is rolled back.
    Full,
}

/// One step of a first pass to both keys: it locks a page and reads it. In the step that finds both keys it makes the changes
/// of their records, or that of the later bucket. It takes no memory.
pub(crate) fn step_first<P: Pseudo>(
    pair: &mut Pair,
    request: &Request,
    environment: &Environment<P>,
    subtx: &mut Subtx,
    pages: &mut LockedStore,
) -> FirstAnswer
    requires ready { MayGoOn (context_in P.bits_of environment.now subtx.old.tx)
        (local subtx.old pages.old) request.now (First pair.old) }
    ensures tells { TellsOfFirst (context_in P.bits_of environment.now subtx.old.tx)
        (local subtx.old pages.old) (local subtx.new pages.new)
        request.now pair.old pair.new result }
{
    match pair.advance(environment.root, subtx, pages) {
        PairAnswer::Going => FirstAnswer::Going,
        PairAnswer::Waiting(page, by) => FirstAnswer::Waiting(page, by),
        PairAnswer::Found(own, size) => {
            act_on_both(pair, own, size, request, environment, subtx, pages)
        }
    }
}

/// At both buckets, where the own key has this value, or none, and the key of the size that one. The ghost is what the pair
/// reads by.
fn act_on_both<P: Pseudo>(
    pair: &mut Pair,
    own: Option<Value>,
    size: Option<Value>,
    request: &Request,
    environment: &Environment<P>,
    subtx: &mut Subtx,
    pages: &mut LockedStore,
) -> FirstAnswer
    ghost read_by: { FileRoot }
    requires read_by { read_by ≡ record {
      bits = P.bits_of environment.now.root.now.pseudo;
      root = environment.now.root.now.page;
    } }
    requires ready { MayActOnBoth (context_in P.bits_of environment.now subtx.old.tx)
        (local subtx.old pages.old) request.now pair.old own size }
    ensures tells { TellsAtBuckets (context_in P.bits_of environment.now subtx.old.tx)
        (local subtx.old pages.old) (local subtx.new pages.new)
        request.now pair.old pair.new result }
{
    let (reply, change) = request.decide(own);
    let resize = request.resize(reply, size);
    let (Some(change), Some(resize)) = (change, resize) else {
        return FirstAnswer::Told(reply);
    };
    let changes = PairChanges {
        left: Some(asked_for(change, own)),
        right: Some(asked_for(resize, size)),
    };
    match pair.change(&changes, subtx, pages, environment.active) {
        ChangeAnswer::Changed => FirstAnswer::Told(reply),
        ChangeAnswer::OneLeft => FirstAnswer::OneLeft(reply),
        ChangeAnswer::Full(_) => {
            subtx.roll_back(&mut pages.store, &mut pages.locks);
            FirstAnswer::Full
        }
    }
}
