//! Classes of operations of all kinds, and sets of them.

ghost use Rattle.std.specs.Prelude.{◌≡◌, ◌↔◌, ◌<◌, IsTrue};
ghost use Rattle.mlt_object_locks.specs.Classes.{bit_of, bit_of_item, class_of, marks, Adds, AddsItem, AreInTheWay, IsColumn, IsUnion, Meets};

use mlt_object_conflicts::{AccountClass, CounterClass, ElementClass, Table};
use mlt_object_kinds::{Account, Counter, Done, Element, ObjOp, ObjReply};
use std::marker::Model;

/// The class of an operation with its reply, of any kind. All that ask for the size of a set are of one.
#[derive(Clone, Copy)]
pub(crate) enum Class {
    Account(AccountClass),
    Element(ElementClass),
    Counter(CounterClass),
    Size,
}

/// All classes.
const CLASSES: [Class; 19] = [
    Class::Account(AccountClass::Opened),
    Class::Account(AccountClass::Exists),
    Class::Account(AccountClass::Closed),
    Class::Account(AccountClass::NotEmpty),
    Class::Account(AccountClass::Deposited),
    Class::Account(AccountClass::Over),
    Class::Account(AccountClass::Withdrawn),
    Class::Account(AccountClass::Short),
    Class::Account(AccountClass::Balance),
    Class::Account(AccountClass::Missing),
    Class::Element(ElementClass::Added),
    Class::Element(ElementClass::Present),
    Class::Element(ElementClass::Removed),
    Class::Element(ElementClass::Absent),
    Class::Element(ElementClass::Yes),
    Class::Element(ElementClass::No),
    Class::Counter(CounterClass::Counted),
    Class::Counter(CounterClass::Read),
    Class::Size,
];

/// A set of classes. A contract sees a number with a bit for each class in it.
#[derive(Clone, Copy, PartialEq, Eq)]
pub(crate) struct ClassSet {
    bits: u32,
}

impl Model for ClassSet {
    ghost use Rattle.std.specs.Prelude.{ℕ};

    ghost Value = { ℕ };

    ghost view = { λ set. set.bits };

    ghost inverse = { λ n. record { bits = n } };
}

impl ClassSet {
    /// No class.
    pub fn new() -> ClassSet
        ensures { result ≡ 0 }
    {
        ClassSet { bits: 0 }
    }

    /// Whether there is no class in it.
    pub fn is_empty(&self) -> bool
        ensures { IsTrue result ↔ (self.now ≡ 0) }
    {
        self.bits == 0
    }

    /// The set with one class more.
    fn with(self, class: Class) -> ClassSet
        ensures { Adds self result (bit_of class) }
    {
        ClassSet {
            bits: self.bits | 1 << bit_of(class),
        }
    }

    /// The set with the class of an operation, where it has one.
    pub fn with_class_of(self, done: &Done) -> ClassSet
        ensures { AddsItem self result (bit_of_item done.now) }
    {
        match class_of(done) {
            Some(class) => self.with(class),
            None => self,
        }
    }

    /// The classes of both sets.
    pub fn joined(self, other: ClassSet) -> ClassSet
        ensures { IsUnion result self other }
    {
        ClassSet {
            bits: self.bits | other.bits,
        }
    }

    /// Whether the two have a class in common.
    pub fn meets(&self, other: &ClassSet) -> bool
        ensures { IsTrue result ↔ Meets self.now other.now }
    {
        self.bits & other.bits != 0
    }
}

/// The classes of the operations with which a requested one clashes, on its cell, and of sizes and elements on theirs.
pub(crate) fn in_the_way_of(requested: &Done) -> ClassSet
    ensures { AreInTheWay result requested.now }
{
    match class_of(requested) {
        Some(class) => marked_beside(class),
        None => ClassSet::new(),
    }
}

// The held classes that the tables mark beside a requested one.
fn marked_beside(requested: Class) -> ClassSet
    ensures { IsColumn result requested }
{
    if let Class::Counter(requested) = requested {
        return beside_counter(requested);
    }
    let mut set = ClassSet::new();
    for held in &CLASSES {
        if are_marked(*held, requested) {
            set = set.with(*held);
        }
    }
    set
}

// The same of a class of counters, on which many hold something at a time.
fn beside_counter(requested: CounterClass) -> ClassSet
    ensures { IsColumn result (Class.Counter requested) }
{
    let held = match requested {
        CounterClass::Counted => CounterClass::Read,
        CounterClass::Read => CounterClass::Counted,
    };
    ClassSet::new().with(Class::Counter(held))
}

// The class of an operation, where the table of its kind has one.
fn class_of(done: &Done) -> Option<Class>
    ensures { result ≡ class_of done.now }
{
    let reply = done.reply();
    match done.op() {
        ObjOp::Account(_, op) => Account::class(&op, &reply).map(Class::Account),
        ObjOp::Element(_, _, op) => Element::class(&op, &reply).map(Class::Element),
        ObjOp::Counter(_, op) => Counter::class(&op, &reply).map(Class::Counter),
        ObjOp::Size(_) => match reply {
            ObjReply::Is(_) => Some(Class::Size),
            _ => None,
        },
    }
}

// Whether the table of their kind marks the two.
fn are_marked(held: Class, requested: Class) -> bool
    ensures { result ≡ marks held requested }
{
    match (held, requested) {
        (Class::Account(held), Class::Account(requested)) => Account::conflicts(held, requested),
        (Class::Element(held), Class::Element(requested)) => Element::conflicts(held, requested),
        (Class::Counter(held), Class::Counter(requested)) => Counter::conflicts(held, requested),
        (Class::Element(held), Class::Size) => held.counts(),
        (Class::Size, Class::Element(requested)) => requested.counts(),
        _ => false,
    }
}

// The bit of a class in a set.
fn bit_of(class: Class) -> u32
    ensures bit { result ≡ bit_of class }
    ensures fits { result < 19 }
{
    match class {
        Class::Account(class) => account_bit(class),
        Class::Element(class) => element_bit(class),
        Class::Counter(CounterClass::Counted) => 16,
        Class::Counter(CounterClass::Read) => 17,
        Class::Size => 18,
    }
}

fn account_bit(class: AccountClass) -> u32
    ensures bit { result ≡ bit_of (Class.Account class) }
    ensures fits { result < 19 }
{
    match class {
        AccountClass::Opened => 0,
        AccountClass::Exists => 1,
        AccountClass::Closed => 2,
        AccountClass::NotEmpty => 3,
        AccountClass::Deposited => 4,
        AccountClass::Over => 5,
        AccountClass::Withdrawn => 6,
        AccountClass::Short => 7,
        AccountClass::Balance => 8,
        AccountClass::Missing => 9,
    }
}

fn element_bit(class: ElementClass) -> u32
    ensures bit { result ≡ bit_of (Class.Element class) }
    ensures fits { result < 19 }
{
    match class {
        ElementClass::Added => 10,
        ElementClass::Present => 11,
        ElementClass::Removed => 12,
        ElementClass::Absent => 13,
        ElementClass::Yes => 14,
        ElementClass::No => 15,
    }
}
