//! Elements of sets: in the set, or not.

ghost use Rattle.std.specs.Prelude.{◌≡◌};
ghost use Rattle.mlt_object_kinds.specs.Elements.{ElementStep, IsElement};

use crate::kind::Kind;
use crate::operation::ObjReply;

/// What is asked of an element of a set.
#[derive(Clone, Copy, Debug, PartialEq, Eq)]
pub enum ElementOp {
    /// Puts the element into the set, if it is not there.
    Add,
    /// Takes the element out of the set, if it is there.
    Remove,
    /// Asks whether the element is in the set.
    Has,
}

/// The kind of elements of sets. A state is whether the element is in its set.
#[derive(Clone, Copy, Debug)]
pub struct Element;

impl Kind for Element {
    ghost use Rattle.mlt_object_kinds.specs.ElementLaws.{element_one_answer, element_one_start, element_stays};

    type State = bool;

    type Op = ElementOp;

    type Reply = ObjReply;

    ghost is_state = { IsElement };

    ghost step = { ElementStep };

    ghost one_answer = { element_one_answer };

    ghost one_start = { element_one_start };

    ghost stays_state = { element_stays };

    fn apply(state: &bool, op: &ElementOp) -> (bool, ObjReply) {
        match (*op, *state) {
            (ElementOp::Add, false) => (true, ObjReply::Added),
            (ElementOp::Add, true) => (true, ObjReply::Present),
            (ElementOp::Remove, true) => (false, ObjReply::Removed),
            (ElementOp::Remove, false) => (false, ObjReply::Absent),
            (ElementOp::Has, true) => (true, ObjReply::Yes),
            (ElementOp::Has, false) => (false, ObjReply::No),
        }
    }

    fn undo(state: &bool, op: &ElementOp, reply: &ObjReply) -> bool {
        match (*op, *reply) {
            (ElementOp::Add, ObjReply::Added) => false,
            (ElementOp::Remove, ObjReply::Removed) => true,
            _ => *state,
        }
    }
}
