//! The examples of a conflict table, in both orders.

ghost use Rattle.std.specs.Prelude.{MatchOption};
ghost use Rattle.mlt_object_conflicts.specs.Tables.{ClassesCommute};
ghost use Rattle.mlt_object_tables.specs.Examples.{IsExampleInOrders, IsOrder};

use crate::named::NamedTable;
use crate::orders::{OpOrder, Orders};

/// An example of a conflict of the classes, of a held operation and one that is asked for, in both orders; None where
/// they never conflict.
pub fn orders_of<K: NamedTable>(held: K::Class, asked: K::Class) -> Option<Orders>
where
    K::State: Copy,
    K::Op: Copy,
    K::Reply: Copy,
    ensures { MatchOption result (ClassesCommute K.step K.class_of held asked)
        (IsExampleInOrders K.step K.class_of K.done_on_one K.value_of_one held asked) }
{
    let example = K::example(held, asked)?;
    Some(Orders {
        before: K::value(&example.state),
        held_first: order::<K>(&example.state, &example.first, &example.second),
        asked_first: order::<K>(&example.state, &example.second, &example.first),
    })
}

// Two operations from a state, one after the other.
fn order<K: NamedTable>(state: &K::State, first: &K::Op, second: &K::Op) -> OpOrder
where
    K::State: Copy,
    K::Op: Copy,
    K::Reply: Copy,
    requires { K.is_state state.now }
    ensures { IsOrder K.step K.done_on_one K.value_of_one state.now first.now second.now result }
{
    let (between, reply) = K::apply(state, first);
    let (after, answer) = K::apply(&between, second);
    OpOrder {
        first: K::done(first, &reply),
        second: K::done(second, &answer),
        after: K::value(&after),
    }
}
