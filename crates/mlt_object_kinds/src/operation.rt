//! Operations with the cells that they are on, replies, and the texts of both.

ghost use Rattle.std.specs.Prelude.{◌≡◌, ◌↔◌, ◌++◌, ◌∷◌, [], IfSome, IsSome};
ghost use Rattle.mlt_object_kinds.specs.Operations.{cell_of};
ghost use Rattle.mlt_object_kinds.specs.Texts.{IsWord, reply_text};

use crate::account::AccountOp;
use crate::counter::CounterOp;
use crate::element::ElementOp;
use mlt_types::Cell;
use std::fmt;

/// An operation on a cell.
#[derive(Clone, Copy, Debug, PartialEq, Eq)]
pub enum ObjOp {
    /// What is asked of the account of this number.
    Account(u32, AccountOp),
    /// What is asked of an element: the set, and the element.
    Element(u16, u32, ElementOp),
    /// What is asked of the counter of this number.
    Counter(u32, CounterOp),
    /// How many elements the set of this number has.
    Size(u16),
}

/// The reply to an operation.
#[derive(Clone, Copy, Debug, PartialEq, Eq)]
pub enum ObjReply {
    /// The account was made.
    Opened,
    /// The account was there already.
    Exists,
    /// The account was removed.
    Closed,
    /// The account has a balance above 0, and stays.
    NotEmpty,
    /// The amount was added or taken away; of a counter, modulo 2^64.
    Done,
    /// The balance would pass its greatest value, and stays.
    Over,
    /// The balance is smaller than the amount, and stays.
    Short,
    /// There is no such account.
    Missing,
    /// The element was put into the set.
    Added,
    /// The element was in the set already.
    Present,
    /// The element was taken out of the set.
    Removed,
    /// The element was not in the set, so that nothing was taken out.
    Absent,
    /// The element is in the set.
    Yes,
    /// The element is not in the set.
    No,
    /// The value that was read.
    Is(u64),
}

impl ObjOp {
    /// The cell that the operation is on.
    pub fn cell(&self) -> Cell
        ensures { result ≡ cell_of self.now }
    {
        match *self {
            ObjOp::Account(account, _) => Cell::Account(account),
            ObjOp::Element(set, element, _) => Cell::Element(set, element),
            ObjOp::Counter(counter, _) => Cell::Counter(counter),
            ObjOp::Size(set) => Cell::Size(set),
        }
    }
}

impl ObjReply {
    /// The line of the reply, where that is a word alone, with no value.
    #[inline(always)]
    pub fn word_line(&self) -> Option<&'static str>
        ensures line { IfSome result (λ line. line.now ≡ reply_text self.now ++ 10 ∷ []) }
        ensures word { IsSome result ↔ IsWord self.now }
    {
        match *self {
            ObjReply::Opened => Some("opened\n"),
            ObjReply::Exists => Some("exists\n"),
            ObjReply::Closed => Some("closed\n"),
            ObjReply::NotEmpty => Some("notempty\n"),
            ObjReply::Done => Some("done\n"),
            ObjReply::Over => Some("over\n"),
            ObjReply::Short => Some("short\n"),
            ObjReply::Missing => Some("missing\n"),
            ObjReply::Added => Some("added\n"),
            ObjReply::Present => Some("present\n"),
            ObjReply::Removed => Some("removed\n"),
            ObjReply::Absent => Some("absent\n"),
            ObjReply::Yes => Some("yes\n"),
            ObjReply::No => Some("no\n"),
            ObjReply::Is(_) => None,
        }
    }
}

impl fmt::Display for ObjOp {
    ghost use Rattle.std.specs.Prelude.{Some};
    ghost use Rattle.mlt_object_kinds.specs.Texts.{op_text};

    ghost output = { λ op. Some (op_text op) };

    fn fmt<W: fmt::Write>(&self, f: &mut fmt::Formatter<W>) -> fmt::Result {
        match *self {
            ObjOp::Account(account, op) => match op {
                AccountOp::Open => write!(f, "open {account}"),
                AccountOp::Close => write!(f, "close {account}"),
                AccountOp::Deposit(amount) => write!(f, "deposit {account} {amount}"),
                AccountOp::Withdraw(amount) => write!(f, "withdraw {account} {amount}"),
                AccountOp::Balance => write!(f, "balance {account}"),
            },
            ObjOp::Element(set, element, op) => match op {
                ElementOp::Add => write!(f, "add {set} {element}"),
                ElementOp::Remove => write!(f, "remove {set} {element}"),
                ElementOp::Has => write!(f, "has {set} {element}"),
            },
            ObjOp::Counter(counter, op) => match op {
                CounterOp::Up(amount) => write!(f, "up {counter} {amount}"),
                CounterOp::Down(amount) => write!(f, "down {counter} {amount}"),
                CounterOp::Read => write!(f, "read {counter}"),
            },
            ObjOp::Size(set) => write!(f, "size {set}"),
        }
    }
}

impl fmt::Display for ObjReply {
    ghost use Rattle.std.specs.Prelude.{Some};
    ghost use Rattle.mlt_object_kinds.specs.Texts.{reply_text};

    ghost output = { λ reply. Some (reply_text reply) };

    fn fmt<W: fmt::Write>(&self, f: &mut fmt::Formatter<W>) -> fmt::Result {
        match *self {
            ObjReply::Opened => write!(f, "opened"),
            ObjReply::Exists => write!(f, "exists"),
            ObjReply::Closed => write!(f, "closed"),
            ObjReply::NotEmpty => write!(f, "notempty"),
            ObjReply::Done => write!(f, "done"),
            ObjReply::Over => write!(f, "over"),
            ObjReply::Short => write!(f, "short"),
            ObjReply::Missing => write!(f, "missing"),
            ObjReply::Added => write!(f, "added"),
            ObjReply::Present => write!(f, "present"),
            ObjReply::Removed => write!(f, "removed"),
            ObjReply::Absent => write!(f, "absent"),
            ObjReply::Yes => write!(f, "yes"),
            ObjReply::No => write!(f, "no"),
            ObjReply::Is(value) => write!(f, "is {value}"),
        }
    }
}
