//! Operations.

ghost use Rattle.std.specs.Prelude.{◌≡◌, None};
ghost use Rattle.mlt_hash_access.specs.LocalStates.{local};
ghost use Rattle.mlt_hash.specs.Walks.{context_in};
ghost use Rattle.mlt_tx_operation.specs.Answers.{TellsOfStep};
ghost use Rattle.mlt_object_base.specs.Requests.{size_key_of};
ghost use Rattle.mlt_tx_operation.specs.Operating.{MayOperate, access_path_for, started_for};

use crate::access_path::AccessPath;
use crate::answer::StepAnswer;
use crate::walking::step_walk;
use mlt_hash::{Environment, Walk};
use mlt_hash_access::LockedStore;
use mlt_object_base::Request;
use mlt_object_kinds::ObjReply;
use mlt_page_subtx::Subtx;
use mlt_tx_two_records::{TwoRecordAnswer, TwoRecordWalk};
use mlt_types::Pseudo;
use std::alloc::Global;
use std::marker::Model;

/// An operation of a transaction that has begun and not ended.
#[derive(Drop)]
pub struct Operation {
    alloc: Global,
    request: Request,
    /// The reply, once only the final step is left.
    reply: Option<ObjReply>,
    access_path: AccessPath,
}

impl Model for Operation {
    ghost use Rattle.mlt_tx_operation.specs.Operating.{OperationFields};

    ghost Value = { OperationFields };

    ghost view = { λ o. record {
      request = o.request;
      reply = o.reply;
      access_path =
          o.access_path;
    } };
}

impl Operation {
    /// An operation that has taken no step. Only a pass that splits a bucket takes memory, or writes a third page.
    #[inline(always)]
    pub fn start(alloc: Global, request: Request) -> Operation
        ensures { result ≡ started_for request }
    {
        let (key, mode) = request.target();
        let access_path = match request.size_key() {
            None => AccessPath::One(Walk::find(alloc, key, mode)),
            Some(size) => AccessPath::Two(TwoRecordWalk::find(key, size)),
        };
        Operation {
            alloc,
            request,
            reply: None,
            access_path,
        }
    }

    /// Makes it an operation on this request that has taken no step, in the place of this one: so none is moved.
    #[inline(always)]
    pub fn restart(&mut self, request: Request)
        ensures { self.new ≡ started_for request }
    {
        match (request.size_key(), &mut self.access_path) {
            (None, AccessPath::One(walk)) => {
                let (key, mode) = request.target();
                *walk = Walk::find(self.alloc, key, mode);
            }
            (_, access_path) => begin_access_path(access_path, self.alloc, request),
        }
        self.request = request;
        self.reply = None;
    }

    /// What it is asked to do.
    #[inline(always)]
    pub fn request(&self) -> Request
        ensures { result ≡ self.now.request }
    {
        self.request
    }

    /// The reply, once all changes are written, so that only the final step is left.
    #[inline(always)]
    pub fn reply(&self) -> Option<ObjReply>
        ensures { result ≡ self.now.reply }
    {
        self.reply
    }

    /// One step, up to the one before its end: of its walk to its record, or on its way to two.
    ///
    /// It takes memory in a later pass than the first alone. Where it is refused all is rolled back.
    #[inline(always)]
    pub fn step<P: Pseudo>(
        &mut self,
        environment: &Environment<P>,
        subtx: &mut Subtx,
        pages: &mut LockedStore,
    ) -> StepAnswer
        requires untold { self.old.reply ≡ None }
        requires ready { MayOperate (context_in P.bits_of environment.now subtx.old.tx)
            (local subtx.old pages.old) self.old }
        ensures tells { TellsOfStep (context_in P.bits_of environment.now subtx.old.tx)
            (local subtx.old pages.old) (local subtx.new pages.new) self.old self.new result }
    {
        match &mut self.access_path {
            AccessPath::One(walk) => {
                step_walk(
                    walk,
                    &self.request,
                    &mut self.reply,
                    environment,
                    subtx,
                    pages,
                )
            }
            AccessPath::Two(two_records) => {
                match two_records.step(self.alloc, &self.request, environment, subtx, pages) {
                    TwoRecordAnswer::Going => StepAnswer::Going,
                    TwoRecordAnswer::Waiting(page, by) => StepAnswer::Waiting(page, by),
                    TwoRecordAnswer::Told(reply) => {
                        self.reply = Some(reply);
                        StepAnswer::Going
                    }
                    TwoRecordAnswer::Refused(reason) => StepAnswer::Refused(reason),
                }
            }
        }
    }
}

// Puts the access path of an operation that has taken no step in the place of another. It stands apart, so that no room for one is
// cleared where a walk follows a walk.
#[inline(never)]
fn begin_access_path(access_path: &mut AccessPath, alloc: Global, request: Request)
    ensures { access_path.new ≡ access_path_for request (size_key_of request) }
{
    let (key, mode) = request.target();
    *access_path = match request.size_key() {
        None => AccessPath::One(Walk::find(alloc, key, mode)),
        Some(size) => AccessPath::Two(TwoRecordWalk::find(key, size)),
    };
}
