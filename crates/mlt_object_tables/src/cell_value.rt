//! What a cell holds.

use std::fmt;

/// A cell with what it holds.
#[derive(Clone, Copy)]
pub enum CellValue {
    /// An account and its balance, if it is there.
    Account(u32, Option<u64>),
    /// A set and an element, and whether it is in the set.
    Element(u16, u32, bool),
    /// A counter and its value.
    Counter(u32, u64),
}

impl fmt::Display for CellValue {
    fn fmt<W: fmt::Write>(&self, f: &mut fmt::Formatter<W>) -> fmt::Result {
        match *self {
            CellValue::Account(account, Some(balance)) => write!(f, "account {account} {balance}"),
            CellValue::Account(account, None) => write!(f, "no account {account}"),
            CellValue::Element(set, element, true) => write!(f, "element {set} {element}"),
            CellValue::Element(set, element, false) => write!(f, "no element {set} {element}"),
            CellValue::Counter(counter, value) => write!(f, "counter {counter} {value}"),
        }
    }
}
