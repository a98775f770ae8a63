//! The example of a conflict table for two operations that clash.

use mlt_object_conflicts::Table;
use mlt_object_kinds::{Account, Counter, Done, Element, ObjOp};
use mlt_object_tables::{NamedTable, Orders, orders_of, size_orders};

/// The words of the classes of two operations, and the example of their conflict.
pub(crate) type ConflictExample = ((&'static str, &'static str), Orders);

/// Whether the operation that is asked for gets another reply where the held one has not come before it.
pub(crate) fn changes_asked(orders: &Orders) -> bool {
    orders.held_first.second.reply() != orders.asked_first.first.reply()
}

/// The example of the table of their kind, for an operation that is held and one that is asked for.
pub(crate) fn example_of(held: &Done, asked: &Done) -> Option<ConflictExample> {
    let told = held.reply();
    let reply = asked.reply();
    match (held.op(), asked.op()) {
        (ObjOp::Account(_, op), ObjOp::Account(_, other)) => {
            of_classes::<Account>(Account::class(&op, &told)?, Account::class(&other, &reply)?)
        }
        (ObjOp::Element(_, _, op), ObjOp::Element(_, _, other)) => {
            of_classes::<Element>(Element::class(&op, &told)?, Element::class(&other, &reply)?)
        }
        (ObjOp::Counter(_, op), ObjOp::Counter(_, other)) => {
            of_classes::<Counter>(Counter::class(&op, &told)?, Counter::class(&other, &reply)?)
        }
        (ObjOp::Element(_, _, op), ObjOp::Size(_)) => {
            let class = Element::class(&op, &told)?;
            Some(((Element::word(class), "size"), size_orders(class)?.0))
        }
        (ObjOp::Size(_), ObjOp::Element(_, _, op)) => {
            let class = Element::class(&op, &reply)?;
            Some((("size", Element::word(class)), size_orders(class)?.1))
        }
        _ => None,
    }
}

// The example of two classes of a table.
fn of_classes<K: NamedTable>(held: K::Class, asked: K::Class) -> Option<ConflictExample>
where
    K::State: Copy,
    K::Op: Copy,
    K::Reply: Copy,
{
    Some((
        (K::word(held), K::word(asked)),
        orders_of::<K>(held, asked)?,
    ))
}
