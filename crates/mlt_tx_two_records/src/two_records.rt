//! Operations on two records.

ghost use Rattle.std.specs.Prelude.{◌≡◌, ◌≢◌};
ghost use Rattle.mlt_hash_access.specs.LocalStates.{local};
ghost use Rattle.mlt_hash.specs.Walks.{context_in};
ghost use Rattle.mlt_tx_two_records.specs.Answers.{TellsOfTwoRecords};
ghost use Rattle.mlt_tx_two_records.specs.TwoRecordWalks.{MayGoOn, find_both};

use crate::answer::TwoRecordAnswer;
use crate::first::{FirstAnswer, step_first};
use crate::wide::{step_own, step_size};
use mlt_hash::{Environment, Walk};
use mlt_hash_access::LockedStore;
use mlt_hash_pair::Pair;
use mlt_object_base::Request;
use mlt_object_kinds::ObjReply;
use mlt_page_subtx::Subtx;
use mlt_types::{Key, Pseudo};
use std::alloc::Global;

/// Where an operation on two records is: its own record, which is an element's, and the record of the size of its set.
#[derive(Drop)]
pub enum TwoRecordWalk {
    /// Its first pass: both keys are found side by side, and both records are changed where they have room.
    First(Pair),
    /// The same pass: the later bucket is written, and the change of the earlier one is owed, or written by now. The
    /// operation has this reply.
    Owing(Pair, ObjReply),
    /// A wide pass, to one of the keys.
    Wide(WideStage, Walk),
}

/// The two stages of a wide pass.
#[derive(Clone, Copy, Debug, PartialEq, Eq)]
pub enum WideStage {
    /// To its own key.
    Own,
    /// Its own record is put, and the pass has gone on to the key of the size.
    Size,
}

impl TwoRecordWalk {
    /// An operation on the records of these two keys, which are different, that has taken no step.
    pub fn find(own: Key, size: Key) -> TwoRecordWalk
        requires apart { own ≢ size }
        ensures { result ≡ find_both own size }
    {
        TwoRecordWalk::First(Pair::find(own, size))
    }

    /// One step, up to the one before its end. In the first pass it locks a page, the next one of either key or of both, and
    /// reads it. Once it has found both keys it determines its reply, and changes both records: one step for each bucket.
    /// Where one of them has no room the pass is rolled back, and a wide one begins, which splits buckets, one page a step.
    ///
    /// It takes memory in a wide pass alone. Where it is refused all is rolled back.
    #[inline(never)]
    pub fn step<P: Pseudo>(
        &mut self,
        alloc: Global,
        request: &Request,
        environment: &Environment<P>,
        subtx: &mut Subtx,
        pages: &mut LockedStore,
    ) -> TwoRecordAnswer
        requires ready { MayGoOn (context_in P.bits_of environment.now subtx.old.tx)
            (local subtx.old pages.old) request.now self.old }
        ensures tells { TellsOfTwoRecords (context_in P.bits_of environment.now subtx.old.tx)
            (local subtx.old pages.old) (local subtx.new pages.new)
            self.old self.new request.now result }
    {
        match self {
            TwoRecordWalk::First(pair) => match step_first(
                pair,
                request,
                environment,
                subtx,
                pages,
            ) {
                FirstAnswer::Going => TwoRecordAnswer::Going,
                FirstAnswer::Waiting(page, by) => TwoRecordAnswer::Waiting(page, by),
                FirstAnswer::OneLeft(reply) => {
                    let pair = *pair;
                    *self = TwoRecordWalk::Owing(pair, reply);
                    TwoRecordAnswer::Going
                }
                FirstAnswer::Told(reply) => TwoRecordAnswer::Told(reply),
                FirstAnswer::Full => {
                    let (key, _) = request.target();
                    *self = TwoRecordWalk::Wide(WideStage::Own, Walk::wide(alloc, key));
                    TwoRecordAnswer::Going
                }
            },
            TwoRecordWalk::Owing(pair, reply) => {
                pair.write_earlier(subtx, pages);
                TwoRecordAnswer::Told(*reply)
            }
            TwoRecordWalk::Wide(wide_stage, walk) => match *wide_stage {
                WideStage::Own => {
                    let (next, answer) = step_own(walk, request, environment, subtx, pages);
                    *wide_stage = next;
                    answer
                }
                WideStage::Size => step_size(walk, request, environment, subtx, pages),
            },
        }
    }
}
