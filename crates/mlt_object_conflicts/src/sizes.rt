//! Which operations on elements conflict with those that ask for the size of their set.

ghost use Rattle.std.specs.Prelude.{◌≡◌, MatchBool, MatchOption};
ghost use Rattle.mlt_object_conflicts.specs.ElementTable.{element_class};
ghost use Rattle.mlt_object_conflicts.specs.Sizes.{ConflictsWithSizes, IsSizeExample, CommutesWithSizes, changes_told, counts};

use crate::elements::ElementClass;
use crate::table::Table;
use mlt_object_kinds::{Element, ElementOp, ObjReply};

/// An operation on an element of a set without others, and sizes of the set, whose order matters. Held first, the
/// operation breaks with the size after it; held first, the size before it breaks with the operation.
#[derive(Clone, Copy, Debug, PartialEq, Eq)]
pub struct SizeExample {
    /// Whether the element is in the set before.
    pub present: bool,
    /// The operation.
    pub op: ElementOp,
    /// The reply to the operation.
    pub reply: ObjReply,
    /// The size of the set before the operation.
    pub before: u64,
    /// The size of the set after it.
    pub after: u64,
}

impl ElementClass {
    /// Whether an operation of the class changes the size of its set: exactly where some operation of the class and
    /// some size, in some base, do not right commute backward.
    pub fn counts(self) -> bool
        ensures table { result ≡ counts self }
        ensures exact { MatchBool result (ConflictsWithSizes self) (CommutesWithSizes self) }
    {
        is_counted(self)
    }

    /// An operation of the class and sizes of its set that do not right commute backward; None where there are
    /// none.
    pub fn size_example(self) -> Option<SizeExample>
        ensures breaks { MatchOption result (CommutesWithSizes self) (IsSizeExample self) }
    {
        match self {
            ElementClass::Added => Some(SizeExample {
                present: false,
                op: ElementOp::Add,
                reply: ObjReply::Added,
                before: 0,
                after: 1,
            }),
            ElementClass::Removed => Some(SizeExample {
                present: true,
                op: ElementOp::Remove,
                reply: ObjReply::Removed,
                before: 1,
                after: 0,
            }),
            _ => None,
        }
    }
}

// Whether an operation of the class changes the size of its set.
fn is_counted(class: ElementClass) -> bool
    ensures { result ≡ counts class }
{
    matches!(class, ElementClass::Added | ElementClass::Removed)
}

/// Whether the operation on an element, with its reply, changes the size that the other reply tells.
pub fn changes_told(op: &ElementOp, reply: &ObjReply, told: &ObjReply) -> bool
    ensures { result ≡ changes_told (element_class op.now reply.now) told.now }
{
    match (Element::class(op, reply), *told) {
        (Some(class), ObjReply::Is(_)) => class.counts(),
        _ => false,
    }
}
