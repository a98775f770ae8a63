//! The conflict table of counters.

ghost use Rattle.std.specs.Prelude.{◌≡◌};
ghost use Rattle.mlt_object_conflicts.specs.CounterTable.{counter_item, counter_marks};

use crate::example::Example;
use crate::table::Table;
use mlt_object_kinds::{Counter, CounterOp, ObjReply};

/// What was asked of a counter and told.
#[derive(Clone, Copy, Debug, PartialEq, Eq)]
pub enum CounterClass {
    /// `up` or `down` moved the value.
    Counted,
    /// `read` told the value.
    Read,
}

impl Table for Counter {
    ghost use Rattle.mlt_object_conflicts.specs.CounterTable.{counter_class, counter_marks};
    ghost use Rattle.mlt_object_conflicts.specs.CounterTableLaws.{counter_legal_item};

    type Class = CounterClass;

    ghost class_of = { counter_class };

    ghost marks = { counter_marks };

    ghost each_is_legal = { counter_legal_item };

    fn class(op: &CounterOp, reply: &ObjReply) -> Option<CounterClass> {
        match (*op, *reply) {
            (CounterOp::Up(_), ObjReply::Done) | (CounterOp::Down(_), ObjReply::Done) => {
                Some(CounterClass::Counted)
            },
            (CounterOp::Read, ObjReply::Is(_)) => Some(CounterClass::Read),
            _ => None,
        }
    }

    fn conflicts(held: CounterClass, requested: CounterClass) -> bool {
        is_marked(held, requested)
    }

    fn example(
        held: CounterClass,
        requested: CounterClass,
    ) -> Option<Example<u64, CounterOp, ObjReply>> {
        let (state, held_amount, requested_amount) = match (held, requested) {
            (CounterClass::Counted, CounterClass::Read) => (0, 1, 1),
            (CounterClass::Read, CounterClass::Counted) => (0, 0, 1),
            _ => return None,
        };
        let (first, first_reply) = item(held, held_amount);
        let (second, second_reply) = item(requested, requested_amount);
        Some(Example {
            state,
            first,
            first_reply,
            second,
            second_reply,
        })
    }
}

// Whether the table marks the pair.
fn is_marked(held: CounterClass, requested: CounterClass) -> bool
    ensures { result ≡ counter_marks held requested }
{
    match held {
        CounterClass::Counted => matches!(requested, CounterClass::Read),
        CounterClass::Read => matches!(requested, CounterClass::Counted),
    }
}

// An operation of the class with its reply, of the amount or value.
fn item(class: CounterClass, amount: u64) -> (CounterOp, ObjReply)
    ensures { result ≡ counter_item class amount }
{
    match class {
        CounterClass::Counted => (CounterOp::Up(amount), ObjReply::Done),
        CounterClass::Read => (CounterOp::Read, ObjReply::Is(amount)),
    }
}
