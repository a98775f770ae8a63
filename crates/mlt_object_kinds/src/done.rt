//! Operations that were done, with their replies.

ghost use Rattle.std.specs.Prelude.{◌≡◌};
ghost use Rattle.mlt_object_kinds.specs.Operations.{cell_of};
ghost use Rattle.mlt_object_kinds.specs.Packing.{parts_of};

use crate::operation::{ObjOp, ObjReply};
use crate::packed::Packed;
use mlt_types::Cell;
use std::fmt;
use std::marker::Model;

/// An operation that was done, with its reply. A contract sees the pair of the two. It is kept packed, since histories
/// and transcripts have many of them.
#[derive(Clone, Copy, Debug, PartialEq, Eq)]
pub struct Done {
    packed: Packed,
}

impl Model for Done {
    ghost use Rattle.std.specs.Prelude.{◌≡◌};
    ghost use Rattle.mlt_object_kinds.specs.declared.operation.ObjOp.{ObjOp};
    ghost use Rattle.mlt_object_kinds.specs.declared.operation.ObjReply.{ObjReply};

    ghost Value = { ObjOp × ObjReply };

    ghost use Rattle.mlt_object_kinds.specs.Packing.{op_in, parts_of, reply_in};

    ghost view = { λ done. (op_in done.packed, reply_in done.packed) };

    ghost invariant = { λ done. parts_of (op_in done.packed) (reply_in done.packed) ≡ done.packed };

    ghost inverse = { λ pair. record { packed = parts_of pair.0 pair.1 } };

    ghost inverse_ok = { λ done whole i. record { packed = whole i } };
}

impl Done {
    /// An operation with its reply.
    #[tactic(auto, using(crate::proofs::Packings::packed_op, crate::proofs::Packings::packed_reply))]
    pub fn new(op: ObjOp, reply: ObjReply) -> Done
        ensures { result ≡ (op, reply) }
    {
        Done {
            packed: Packed::new(op, reply),
        }
    }

    /// The cell that the operation is on.
    pub fn cell(&self) -> Cell
        ensures { result ≡ cell_of self.now.0 }
    {
        self.packed.cell()
    }

    /// The operation.
    pub fn op(&self) -> ObjOp
        ensures { result ≡ self.now.0 }
    {
        self.packed.op()
    }

    /// The reply to the operation.
    pub fn reply(&self) -> ObjReply
        ensures { result ≡ self.now.1 }
    {
        self.packed.reply()
    }

    /// The parts of the two.
    pub fn packed(&self) -> Packed
        ensures { result ≡ parts_of self.now.0 self.now.1 }
    {
        self.packed
    }
}

impl fmt::Display for Done {
    ghost use Rattle.std.specs.Prelude.{Some};
    ghost use Rattle.mlt_object_kinds.specs.Texts.{done_text};

    ghost output = { λ done. Some (done_text done) };

    fn fmt<W: fmt::Write>(&self, f: &mut fmt::Formatter<W>) -> fmt::Result {
        let op = self.op();
        let reply = self.reply();
        write!(f, "{op} {reply}")
    }
}
