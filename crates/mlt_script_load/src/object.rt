//! The lines of a base.

use mlt_object_kinds::MAX_BALANCE;
use mlt_text_words::{has_word, next_number, next_raw_word};

/// An object, with what it holds.
#[derive(Clone, Copy)]
pub(crate) enum Object {
    /// An account, and its balance.
    Account(u32, u64),
    /// An element of a set: the set, and the element.
    Element(u16, u32),
    /// A counter, and its value.
    Counter(u32, u64),
}

impl Object {
    /// The object that a line says, if it is one.
    pub(crate) fn read(line: &[u8]) -> Option<Object> {
        let (kind, rest) = next_raw_word(line)?;
        let (first, rest) = next_number(rest)?;
        let (second, rest) = next_number(rest)?;
        if has_word(rest) {
            return None;
        }
        match kind {
            b"account" if second <= MAX_BALANCE => {
                Some(Object::Account(u32::try_from(first).ok()?, second))
            }
            b"element" => {
                let set = u16::try_from(first).ok()?;
                Some(Object::Element(set, u32::try_from(second).ok()?))
            }
            b"counter" if second > 0 => {
                Some(Object::Counter(u32::try_from(first).ok()?, second))
            }
            _ => None,
        }
    }

    /// Where it stands in the text of a base: that of a later object is greater.
    pub(crate) fn place(self) -> u64 {
        match self {
            Object::Account(account, _) => u64::from(account),
            Object::Element(set, element) => {
                (1 << 60) + (u64::from(set) << 32) + u64::from(element)
            }
            Object::Counter(counter, _) => (1 << 61) + u64::from(counter),
        }
    }
}
