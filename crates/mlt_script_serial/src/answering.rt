//! What answers the operations of a script.

ghost use Rattle.mlt_script_serial.specs.Calls.{Moves, answer_by};

use crate::call::{DeskAnswer, DeskCall};
use mlt_object_kinds::{ObjOp, ObjReply};
use mlt_types::{Refusal, TxId};

/// What answers the operations of a script. It states how the calls that it knows, their answers, the states before them and
/// the states after them stand to each other.
pub trait Answering {
    /// Of the state before, a call, its answer and the state after.
    ghost moves: { Moves Self };

    /// Does an operation, and answers its reply.
    ///
    /// # Errors
    /// Why it is not done.
    fn operation(&mut self, tx: TxId, op: ObjOp) -> Result<ObjReply, Refusal>
        ensures { moves self.old (DeskCall.Operation tx op)
            (answer_by DeskAnswer.Replied result) self.new };
}
