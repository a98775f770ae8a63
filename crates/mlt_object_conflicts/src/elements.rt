//! The conflict table of elements of sets.

ghost use Rattle.std.specs.Prelude.{◌≡◌};
ghost use Rattle.mlt_object_conflicts.specs.ElementTable.{element_before, element_item, element_marks};

use crate::example::Example;
use crate::table::Table;
use mlt_object_kinds::{Element, ElementOp, ObjReply};

/// What was asked of an element and told.
#[derive(Clone, Copy, Debug, PartialEq, Eq)]
pub enum ElementClass {
    /// `add` put it into the set.
    Added,
    /// `add` found it there.
    Present,
    /// `remove` took it out.
    Removed,
    /// `remove` did not find it.
    Absent,
    /// `has` found it.
    Yes,
    /// `has` did not find it.
    No,
}

impl Table for Element {
    ghost use Rattle.mlt_object_conflicts.specs.ElementTable.{element_class, element_marks};
    ghost use Rattle.mlt_object_conflicts.specs.ElementTableLaws.{element_legal_item};

    type Class = ElementClass;

    ghost class_of = { element_class };

    ghost marks = { element_marks };

    ghost each_is_legal = { element_legal_item };

    fn class(op: &ElementOp, reply: &ObjReply) -> Option<ElementClass> {
        match (*op, *reply) {
            (ElementOp::Add, ObjReply::Added) => Some(ElementClass::Added),
            (ElementOp::Add, ObjReply::Present) => Some(ElementClass::Present),
            (ElementOp::Remove, ObjReply::Removed) => Some(ElementClass::Removed),
            (ElementOp::Remove, ObjReply::Absent) => Some(ElementClass::Absent),
            (ElementOp::Has, ObjReply::Yes) => Some(ElementClass::Yes),
            (ElementOp::Has, ObjReply::No) => Some(ElementClass::No),
            _ => None,
        }
    }

    fn conflicts(held: ElementClass, requested: ElementClass) -> bool {
        is_marked(held, requested)
    }

    fn example(
        held: ElementClass,
        requested: ElementClass,
    ) -> Option<Example<bool, ElementOp, ObjReply>> {
        if !Element::conflicts(held, requested) {
            return None;
        }
        let state = before(held);
        let (first, first_reply) = item(held);
        let (second, second_reply) = item(requested);
        Some(Example {
            state,
            first,
            first_reply,
            second,
            second_reply,
        })
    }
}

// Whether the table marks the pair.
fn is_marked(held: ElementClass, requested: ElementClass) -> bool
    ensures { result ≡ element_marks held requested }
{
    match held {
        ElementClass::Added => matches!(
            requested,
            ElementClass::Present | ElementClass::Removed | ElementClass::Yes
        ),
        ElementClass::Present | ElementClass::Yes => matches!(requested, ElementClass::Removed),
        ElementClass::Removed => matches!(
            requested,
            ElementClass::Added | ElementClass::Absent | ElementClass::No
        ),
        ElementClass::Absent | ElementClass::No => matches!(requested, ElementClass::Added),
    }
}

// The operation of the class with its reply.
fn item(class: ElementClass) -> (ElementOp, ObjReply)
    ensures { result ≡ element_item class }
{
    match class {
        ElementClass::Added => (ElementOp::Add, ObjReply::Added),
        ElementClass::Present => (ElementOp::Add, ObjReply::Present),
        ElementClass::Removed => (ElementOp::Remove, ObjReply::Removed),
        ElementClass::Absent => (ElementOp::Remove, ObjReply::Absent),
        ElementClass::Yes => (ElementOp::Has, ObjReply::Yes),
        ElementClass::No => (ElementOp::Has, ObjReply::No),
    }
}

// The state in which an operation of the class gets its reply.
fn before(class: ElementClass) -> bool
    ensures { result ≡ element_before class }
{
    matches!(
        class,
        ElementClass::Present | ElementClass::Removed | ElementClass::Yes
    )
}
