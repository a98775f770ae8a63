//! Operations on elements beside the size of their set, in both orders.

ghost use Rattle.std.specs.Prelude.{◌≡◌};
ghost use Rattle.mlt_object_conflicts.specs.Sizes.{told_size};
ghost use Rattle.mlt_object_tables.specs.SizeOrders.{order_of};
ghost use Rattle.mlt_object_tables.specs.Tables.{AreSizeOrdersOf};

use crate::named::NamedTable;
use crate::orders::{OpOrder, Orders};
use mlt_object_conflicts::ElementClass;
use mlt_object_kinds::{Done, Element, Kind, ObjOp, ObjReply};

/// An example of an operation of the class and of sizes of its set: where the operation is held and the size asked for,
/// and where the size is held. None where the two never conflict.
pub fn size_orders(class: ElementClass) -> Option<(Orders, Orders)>
    ensures { AreSizeOrdersOf class result }
{
    let example = class.size_example()?;
    let (present, reply) = Element::apply(&example.present, &example.op);
    let changed = Element::done(&example.op, &reply);
    let before = size_told(example.before);
    let after = size_told(example.after);
    let operation_held = Orders {
        before: Element::value(&example.present),
        held_first: order(&changed, &after, present),
        asked_first: order(&before, &changed, present),
    };
    let size_held = Orders {
        before: Element::value(&example.present),
        held_first: order(&before, &changed, present),
        asked_first: order(&changed, &after, present),
    };
    Some((operation_held, size_held))
}

// One operation and then another one, and whether the element is in the set then.
fn order(first: &Done, second: &Done, present: bool) -> OpOrder
    ensures { result ≡ order_of first.now second.now present }
{
    OpOrder {
        first: *first,
        second: *second,
        after: Element::value(&present),
    }
}

// The size of set 201, as an operation with its reply.
fn size_told(size: u64) -> Done
    ensures { result ≡ told_size 201 size }
{
    Done::new(ObjOp::Size(201), ObjReply::Is(size))
}
