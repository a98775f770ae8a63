//! A base that answers the operations of scripts.

use crate::answering::Answering;
use mlt_object_base::Base;
use mlt_object_kinds::{ObjOp, ObjReply};
use mlt_types::{Refusal, TxId};

/// A base, at which scripts are played one after another.
#[derive(Drop)]
pub(crate) struct BaseDesk {
    pub(crate) base: Base,
}

impl Answering for BaseDesk {
    ghost use Rattle.mlt_script_serial.specs.Answering.{AnswersOf};

    ghost moves = { λ old call answer new. AnswersOf old.base call answer new.base };

    fn operation(&mut self, _tx: TxId, op: ObjOp) -> Result<ObjReply, Refusal> {
        self.base.apply(&op)
    }
}
