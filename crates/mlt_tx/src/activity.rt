//! What an open transaction is at.

ghost use Rattle.std.specs.Prelude.{◌≡◌, None};
ghost use Rattle.mlt_object_base.specs.declared.request.Request.TheVariants.{Do};
ghost use Rattle.mlt_hash.specs.Walks.{context_in};
ghost use Rattle.mlt_tx_operation.specs.Operating.{started_for};
ghost use Rattle.mlt_tx.specs.declared.transaction.At.TheVariants as at;
ghost use Rattle.mlt_tx.specs.Transactions.{IsPending, IsUndoing, MayStepAt, TellsAt, transaction_at};

use crate::shared::SharedState;
use crate::stepping::{step_back, step_on};
use mlt_event::Answer;
use mlt_hash::Environment;
use mlt_object_base::{Request, UndoList};
use mlt_object_kinds::ObjOp;
use mlt_page_subtx::Subtx;
use mlt_tx_operation::Operation;
use mlt_types::Pseudo;
use std::alloc::Global;
use std::marker::Model;

/// The state of an open transaction.
#[derive(Clone, Copy, Debug, PartialEq, Eq)]
pub enum ActivityState {
    /// It is at nothing.
    Idle,
    /// An operation is pending.
    Pending,
    /// Its abort has begun.
    Undoing,
}

/// What an open transaction is at. A contract sees an [`At`](crate::At).
///
/// An operation that ends leaves its room to the next one, so that none is cleared or moved.
#[derive(Drop)]
pub struct Activity {
    state: ActivityState,
    operation: Operation,
    inverting: Option<Operation>,
}

impl Model for Activity {
    ghost use Rattle.mlt_tx.specs.declared.transaction.At.{At};
    ghost use Rattle.mlt_tx.specs.Activities.{at_of};

    ghost Value = { At };

    ghost view = { λ activity. at_of activity.state activity.operation activity.inverting };
}

impl Activity {
    /// Nothing. It takes no memory.
    pub fn idle(alloc: Global) -> Activity
        ensures { result ≡ at.Idle }
    {
        Activity {
            state: ActivityState::Idle,
            operation: Operation::start(alloc, Request::Do(ObjOp::Size(0))),
            inverting: None,
        }
    }

    /// The state.
    #[inline(always)]
    pub fn state(&self) -> ActivityState
        ensures idle { result ≡ ActivityState.Idle → self.now ≡ at.Idle }
        ensures pending { result ≡ ActivityState.Pending → IsPending self.now }
        ensures undoing { result ≡ ActivityState.Undoing → IsUndoing self.now }
    {
        self.state
    }

    /// Nothing is pending from now on.
    #[inline(always)]
    pub fn rest(&mut self)
        ensures { self.new ≡ at.Idle }
    {
        self.state = ActivityState::Idle;
    }

    /// This operation is pending from now on.
    #[inline(always)]
    pub(crate) fn call(&mut self, op: ObjOp)
        ensures { self.new ≡ at.Pending (started_for (Do op)) }
    {
        self.operation.restart(Request::Do(op));
        self.state = ActivityState::Pending;
    }

    /// Its abort begins.
    pub fn undo(&mut self)
        ensures { self.new ≡ at.Undoing None }
    {
        self.inverting = None;
        self.state = ActivityState::Undoing;
    }

    /// One step of the pending operation, or of the abort.
    #[inline(always)]
    pub(crate) fn step<P: Pseudo>(
        &mut self,
        subtx: &mut Subtx,
        undo: &mut UndoList,
        shared: &mut SharedState,
        environment: &Environment<P>,
    ) -> Answer
        requires ready { MayStepAt self.old (context_in P.bits_of environment.now subtx.old.tx)
            (transaction_at subtx.old undo.old self.old) shared.old }
        ensures tells { TellsAt self.old (context_in P.bits_of environment.now subtx.old.tx)
            (transaction_at subtx.old undo.old self.old) (transaction_at subtx.new undo.new self.new)
            shared.old shared.new result }
        ensures handed { shared.new.history.handed ≡ shared.old.history.handed }
    {
        match self.state {
            ActivityState::Idle => unreachable!(),
            ActivityState::Pending => {
                let answer = step_on(&mut self.operation, subtx, undo, shared, environment);
                match answer {
                    Answer::Done(_) => self.state = ActivityState::Idle,
                    Answer::Refused(_) => {
                        self.state = ActivityState::Idle;
                        shared.history.release(2);
                    }
                    _ => {}
                }
                answer
            }
            ActivityState::Undoing => step_back(
                &mut self.inverting,
                subtx,
                undo,
                shared,
                environment,
            ),
        }
    }
}
