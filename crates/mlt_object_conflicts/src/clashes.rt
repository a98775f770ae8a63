//! Clashes of operations on whole bases.

ghost use Rattle.std.specs.Prelude.{◌≡◌, MatchBool};
ghost use Rattle.mlt_object_conflicts.specs.BaseConflicts.{SomeLikeThemBreak};
ghost use Rattle.mlt_object_conflicts.specs.Clashes.{clashes, marked_classes};
ghost use Rattle.mlt_object_kinds.specs.Bases.{Step};
ghost use Rattle.mlt_order.specs.Runs.{RightCommutesBackward};

use crate::sizes::changes_told;
use crate::table::Table;
use mlt_object_kinds::{Account, Counter, Done, Element, ObjOp};

/// Whether an operation with its reply, requested later, clashes with one that is held: they are on one cell,
/// and the table of its kind marks their classes; or the one tells the size of a set and the other changes it.
/// Where they do not, the requested operation right commutes backward with the held one over all bases; where
/// they do, some operations on their cells and of their classes do not, in some base.
pub fn clash(held: &Done, requested: &Done) -> bool
    ensures table { result ≡ clashes held.now requested.now }
    ensures exact { MatchBool result (SomeLikeThemBreak held.now requested.now)
        (RightCommutesBackward Step held.now requested.now) }
{
    is_marked(held, requested)
}

// Whether they are on one cell, and the table of its kind marks their classes; or the one tells the size of a set and
// the other changes it.
fn is_marked(held: &Done, requested: &Done) -> bool
    ensures { result ≡ clashes held.now requested.now }
{
    let reply = held.reply();
    let answer = requested.reply();
    match (held.op(), requested.op()) {
        (ObjOp::Account(account, op), ObjOp::Account(other, request)) => {
            account == other && are_marked::<Account>(&op, &reply, &request, &answer)
        },
        (ObjOp::Element(set, element, op), ObjOp::Element(other_set, other, request)) => {
            set == other_set
                && element == other
                && are_marked::<Element>(&op, &reply, &request, &answer)
        },
        (ObjOp::Counter(counter, op), ObjOp::Counter(other, request)) => {
            counter == other && are_marked::<Counter>(&op, &reply, &request, &answer)
        },
        (ObjOp::Element(set, _, op), ObjOp::Size(other_set)) => {
            set == other_set && changes_told(&op, &reply, &answer)
        },
        (ObjOp::Size(set), ObjOp::Element(other_set, _, request)) => {
            set == other_set && changes_told(&request, &answer, &reply)
        },
        _ => false,
    }
}

// Whether both have a class, and the table marks the two.
fn are_marked<K: Table>(op: &K::Op, reply: &K::Reply, request: &K::Op, answer: &K::Reply) -> bool
    ensures { result
        ≡ marked_classes K.marks (K.class_of op.now reply.now) (K.class_of request.now answer.now) }
{
    match (K::class(op, reply), K::class(request, answer)) {
        (Some(held), Some(requested)) => K::conflicts(held, requested),
        _ => false,
    }
}
