//! Operations with their replies, packed.

ghost use Rattle.std.specs.Prelude.{◌≡◌, ◌↔◌, IsTrue};
ghost use Rattle.mlt_object_kinds.specs.Operations.{cell_of};
ghost use Rattle.mlt_object_kinds.specs.Packing.{amount_of, number_of, op_in, op_kind, parts_of, reply_in, reply_kind, set_of, told_of};

use crate::account::AccountOp;
use crate::counter::CounterOp;
use crate::element::ElementOp;
use crate::operation::{ObjOp, ObjReply};
use mlt_types::Cell;

/// What kind of operation it is.
#[derive(Clone, Copy, Debug, PartialEq, Eq)]
pub enum OpKind {
    /// Makes an account.
    Open,
    /// Removes an account.
    Close,
    /// Adds an amount to an account.
    Deposit,
    /// Takes an amount away from an account.
    Withdraw,
    /// Reads the balance of an account.
    Balance,
    /// Puts an element into a set.
    Add,
    /// Takes an element out of a set.
    Remove,
    /// Asks whether an element is in a set.
    Has,
    /// Adds an amount to a counter.
    Up,
    /// Takes an amount away from a counter.
    Down,
    /// Reads a counter.
    Read,
    /// Asks how many elements a set has.
    Size,
}

/// What kind of reply it is.
#[derive(Clone, Copy, Debug, PartialEq, Eq)]
pub enum ReplyKind {
    /// `ObjReply::Opened`.
    Opened,
    /// `ObjReply::Exists`.
    Exists,
    /// `ObjReply::Closed`.
    Closed,
    /// `ObjReply::NotEmpty`.
    NotEmpty,
    /// `ObjReply::Done`.
    Done,
    /// `ObjReply::Over`.
    Over,
    /// `ObjReply::Short`.
    Short,
    /// `ObjReply::Missing`.
    Missing,
    /// `ObjReply::Added`.
    Added,
    /// `ObjReply::Present`.
    Present,
    /// `ObjReply::Removed`.
    Removed,
    /// `ObjReply::Absent`.
    Absent,
    /// `ObjReply::Yes`.
    Yes,
    /// `ObjReply::No`.
    No,
    /// `ObjReply::Is`.
    Is,
}

/// The parts of an operation with its reply, in 24 bytes: an `ObjOp` and an `ObjReply` take 40. A part that the
/// operation or the reply does not have is 0.
#[derive(Clone, Copy, Debug, PartialEq, Eq)]
pub struct Packed {
    /// The kind of the operation.
    pub op: OpKind,
    /// The kind of the reply.
    pub reply: ReplyKind,
    /// The set.
    pub set: u16,
    /// The number of the account, the element or the counter.
    pub number: u32,
    /// The amount to add or to take away.
    pub amount: u64,
    /// The value that was told.
    pub told: u64,
}

impl Packed {
    /// The parts of these two.
    pub fn new(op: ObjOp, reply: ObjReply) -> Packed
        ensures { result ≡ parts_of op reply }
    {
        let (op, set, number, amount) = op_parts(op);
        let (reply, told) = reply_parts(reply);
        Packed {
            op,
            reply,
            set,
            number,
            amount,
            told,
        }
    }

    /// The cell that the operation is on.
    pub fn cell(&self) -> Cell
        ensures { result ≡ cell_of (op_in self.now) }
    {
        match self.op {
            OpKind::Open | OpKind::Close | OpKind::Deposit | OpKind::Withdraw | OpKind::Balance =>
                Cell::Account(self.number),
            OpKind::Add | OpKind::Remove | OpKind::Has => Cell::Element(self.set, self.number),
            OpKind::Up | OpKind::Down | OpKind::Read => Cell::Counter(self.number),
            OpKind::Size => Cell::Size(self.set),
        }
    }

    /// The operation.
    pub fn op(&self) -> ObjOp
        ensures { result ≡ op_in self.now }
    {
        match self.op {
            OpKind::Open => ObjOp::Account(self.number, AccountOp::Open),
            OpKind::Close => ObjOp::Account(self.number, AccountOp::Close),
            OpKind::Deposit => ObjOp::Account(self.number, AccountOp::Deposit(self.amount)),
            OpKind::Withdraw => ObjOp::Account(self.number, AccountOp::Withdraw(self.amount)),
            OpKind::Balance => ObjOp::Account(self.number, AccountOp::Balance),
            OpKind::Add => ObjOp::Element(self.set, self.number, ElementOp::Add),
            OpKind::Remove => ObjOp::Element(self.set, self.number, ElementOp::Remove),
            OpKind::Has => ObjOp::Element(self.set, self.number, ElementOp::Has),
            OpKind::Up => ObjOp::Counter(self.number, CounterOp::Up(self.amount)),
            OpKind::Down => ObjOp::Counter(self.number, CounterOp::Down(self.amount)),
            OpKind::Read => ObjOp::Counter(self.number, CounterOp::Read),
            OpKind::Size => ObjOp::Size(self.set),
        }
    }

    /// Whether the operation is this one. It looks at those parts alone that this one has.
    #[inline(always)]
    pub fn is_op(&self, op: &ObjOp) -> bool
        ensures { IsTrue result ↔ (op_in self.now ≡ op.now) }
    {
        match *op {
            ObjOp::Account(number, op) => {
                self.number == number
                    && match op {
                        AccountOp::Open => self.op == OpKind::Open,
                        AccountOp::Close => self.op == OpKind::Close,
                        AccountOp::Deposit(amount) => self.op == OpKind::Deposit
                            && self.amount == amount,
                        AccountOp::Withdraw(amount) => self.op == OpKind::Withdraw
                            && self.amount == amount,
                        AccountOp::Balance => self.op == OpKind::Balance,
                    }
            },
            ObjOp::Element(set, number, op) => {
                self.set == set
                    && self.number == number
                    && match op {
                        ElementOp::Add => self.op == OpKind::Add,
                        ElementOp::Remove => self.op == OpKind::Remove,
                        ElementOp::Has => self.op == OpKind::Has,
                    }
            },
            ObjOp::Counter(number, op) => {
                self.number == number
                    && match op {
                        CounterOp::Up(amount) => self.op == OpKind::Up && self.amount == amount,
                        CounterOp::Down(amount) => self.op == OpKind::Down && self.amount == amount,
                        CounterOp::Read => self.op == OpKind::Read,
                    }
            },
            ObjOp::Size(set) => self.op == OpKind::Size && self.set == set,
        }
    }

    /// What the operation was told.
    pub fn reply(&self) -> ObjReply
        ensures { result ≡ reply_in self.now }
    {
        match self.reply {
            ReplyKind::Opened => ObjReply::Opened,
            ReplyKind::Exists => ObjReply::Exists,
            ReplyKind::Closed => ObjReply::Closed,
            ReplyKind::NotEmpty => ObjReply::NotEmpty,
            ReplyKind::Done => ObjReply::Done,
            ReplyKind::Over => ObjReply::Over,
            ReplyKind::Short => ObjReply::Short,
            ReplyKind::Missing => ObjReply::Missing,
            ReplyKind::Added => ObjReply::Added,
            ReplyKind::Present => ObjReply::Present,
            ReplyKind::Removed => ObjReply::Removed,
            ReplyKind::Absent => ObjReply::Absent,
            ReplyKind::Yes => ObjReply::Yes,
            ReplyKind::No => ObjReply::No,
            ReplyKind::Is => ObjReply::Is(self.told),
        }
    }
}

// The kind of an operation, its set, its number and its amount.
fn op_parts(op: ObjOp) -> (OpKind, u16, u32, u64)
    ensures { result ≡ (op_kind op, set_of op, number_of op, amount_of op) }
{
    match op {
        ObjOp::Account(number, op) => match op {
            AccountOp::Open => (OpKind::Open, 0, number, 0),
            AccountOp::Close => (OpKind::Close, 0, number, 0),
            AccountOp::Deposit(amount) => (OpKind::Deposit, 0, number, amount),
            AccountOp::Withdraw(amount) => (OpKind::Withdraw, 0, number, amount),
            AccountOp::Balance => (OpKind::Balance, 0, number, 0),
        },
        ObjOp::Element(set, number, op) => match op {
            ElementOp::Add => (OpKind::Add, set, number, 0),
            ElementOp::Remove => (OpKind::Remove, set, number, 0),
            ElementOp::Has => (OpKind::Has, set, number, 0),
        },
        ObjOp::Counter(number, op) => match op {
            CounterOp::Up(amount) => (OpKind::Up, 0, number, amount),
            CounterOp::Down(amount) => (OpKind::Down, 0, number, amount),
            CounterOp::Read => (OpKind::Read, 0, number, 0),
        },
        ObjOp::Size(set) => (OpKind::Size, set, 0, 0),
    }
}

// The kind of a reply, and the value told.
fn reply_parts(reply: ObjReply) -> (ReplyKind, u64)
    ensures { result ≡ (reply_kind reply, told_of reply) }
{
    match reply {
        ObjReply::Opened => (ReplyKind::Opened, 0),
        ObjReply::Exists => (ReplyKind::Exists, 0),
        ObjReply::Closed => (ReplyKind::Closed, 0),
        ObjReply::NotEmpty => (ReplyKind::NotEmpty, 0),
        ObjReply::Done => (ReplyKind::Done, 0),
        ObjReply::Over => (ReplyKind::Over, 0),
        ObjReply::Short => (ReplyKind::Short, 0),
        ObjReply::Missing => (ReplyKind::Missing, 0),
        ObjReply::Added => (ReplyKind::Added, 0),
        ObjReply::Present => (ReplyKind::Present, 0),
        ObjReply::Removed => (ReplyKind::Removed, 0),
        ObjReply::Absent => (ReplyKind::Absent, 0),
        ObjReply::Yes => (ReplyKind::Yes, 0),
        ObjReply::No => (ReplyKind::No, 0),
        ObjReply::Is(told) => (ReplyKind::Is, told),
    }
}
