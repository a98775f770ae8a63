//! What a conflict table wants to be printed: its classes with their words, and its operations on one object.

ghost use Rattle.std.specs.Prelude.{◌≡◌, List, Contains};
ghost use Rattle.mlt_object_kinds.specs.declared.operation.ObjOp.{ObjOp};
ghost use Rattle.mlt_object_kinds.specs.declared.operation.ObjReply.{ObjReply};
ghost use Rattle.mlt_object_tables.specs.declared.cell_value.CellValue.{CellValue};

use crate::cell_value::CellValue;
use mlt_object_conflicts::{AccountClass, CounterClass, ElementClass, Table};
use mlt_object_kinds::{
    Account, AccountOp, Counter, CounterOp, Done, Element, ElementOp, ObjOp, ObjReply,
};

/// A conflict table whose classes have words. It shows operations on account 101, element 21 of set 201, or counter 301.
pub trait NamedTable: Table + 'static {
    /// The classes, in the order of the table.
    ghost all_classes: { List Self.Class };

    /// An operation with its reply, on the object that is shown.
    ghost done_on_one: { Self.Op → Self.Reply → ObjOp × ObjReply };

    /// The object that is shown, in a state.
    ghost value_of_one: { Self.State → CellValue };

    /// The classes, in the order of the table: each of them.
    fn classes() -> &'static [Self::Class]
        ensures { result.now ≡ all_classes };

    /// The word of a class, of at most nine letters.
    fn word(class: Self::Class) -> &'static str;

    /// An operation with its reply, on the object that is shown.
    fn done(op: &Self::Op, reply: &Self::Reply) -> Done
        ensures { result ≡ done_on_one op.now reply.now };

    /// The object that is shown, in a state.
    fn value(state: &Self::State) -> CellValue
        ensures { result ≡ value_of_one state.now };

    /// No class is missing.
    ghost each_is_listed: { (class : Self.Class) → Contains all_classes class };
}

const ACCOUNT_CLASSES: &[AccountClass] = &[
    AccountClass::Opened,
    AccountClass::Exists,
    AccountClass::Closed,
    AccountClass::NotEmpty,
    AccountClass::Deposited,
    AccountClass::Over,
    AccountClass::Withdrawn,
    AccountClass::Short,
    AccountClass::Balance,
    AccountClass::Missing,
];

const ELEMENT_CLASSES: &[ElementClass] = &[
    ElementClass::Added,
    ElementClass::Present,
    ElementClass::Removed,
    ElementClass::Absent,
    ElementClass::Yes,
    ElementClass::No,
];

const COUNTER_CLASSES: &[CounterClass] = &[CounterClass::Counted, CounterClass::Read];

impl NamedTable for Account {
    ghost use Rattle.mlt_object_tables.specs.Words.{account_classes, each_account_class_is_listed, on_account, account_value};

    ghost all_classes = { account_classes };

    ghost done_on_one = { on_account };

    ghost value_of_one = { account_value };

    ghost each_is_listed = { each_account_class_is_listed };

    fn classes() -> &'static [AccountClass] {
        ACCOUNT_CLASSES
    }

    fn word(class: AccountClass) -> &'static str {
        match class {
            AccountClass::Opened => "Opened",
            AccountClass::Exists => "Exists",
            AccountClass::Closed => "Closed",
            AccountClass::NotEmpty => "NotEmpty",
            AccountClass::Deposited => "Deposited",
            AccountClass::Over => "Over",
            AccountClass::Withdrawn => "Withdrawn",
            AccountClass::Short => "Short",
            AccountClass::Balance => "Balance",
            AccountClass::Missing => "Missing",
        }
    }

    fn done(op: &AccountOp, reply: &ObjReply) -> Done {
        Done::new(ObjOp::Account(101, *op), *reply)
    }

    fn value(state: &Option<u64>) -> CellValue {
        CellValue::Account(101, *state)
    }
}

impl NamedTable for Element {
    ghost use Rattle.mlt_object_tables.specs.Words.{element_classes, each_element_class_is_listed, on_element, element_value};

    ghost all_classes = { element_classes };

    ghost done_on_one = { on_element };

    ghost value_of_one = { element_value };

    ghost each_is_listed = { each_element_class_is_listed };

    fn classes() -> &'static [ElementClass] {
        ELEMENT_CLASSES
    }

    fn word(class: ElementClass) -> &'static str {
        match class {
            ElementClass::Added => "Added",
            ElementClass::Present => "Present",
            ElementClass::Removed => "Removed",
            ElementClass::Absent => "Absent",
            ElementClass::Yes => "Yes",
            ElementClass::No => "No",
        }
    }

    fn done(op: &ElementOp, reply: &ObjReply) -> Done {
        Done::new(ObjOp::Element(201, 21, *op), *reply)
    }

    fn value(state: &bool) -> CellValue {
        CellValue::Element(201, 21, *state)
    }
}

impl NamedTable for Counter {
    ghost use Rattle.mlt_object_tables.specs.Words.{counter_classes, each_counter_class_is_listed, on_counter, counter_value};

    ghost all_classes = { counter_classes };

    ghost done_on_one = { on_counter };

    ghost value_of_one = { counter_value };

    ghost each_is_listed = { each_counter_class_is_listed };

    fn classes() -> &'static [CounterClass] {
        COUNTER_CLASSES
    }

    fn word(class: CounterClass) -> &'static str {
        match class {
            CounterClass::Counted => "Counted",
            CounterClass::Read => "Read",
        }
    }

    fn done(op: &CounterOp, reply: &ObjReply) -> Done {
        Done::new(ObjOp::Counter(301, *op), *reply)
    }

    fn value(state: &u64) -> CellValue {
        CellValue::Counter(301, *state)
    }
}
