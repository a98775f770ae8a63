//! What the lines of a script say.

ghost use Rattle.std.specs.Prelude.{◌≡◌};
ghost use Rattle.mlt_script.specs.Amounts.{with_amount};

use mlt_object_kinds::{AccountOp, CounterOp, ObjOp, ObjReply};
use mlt_text_words::Letter;

/// An operation that takes an amount, without it.
#[derive(Clone, Copy, Debug, PartialEq, Eq)]
pub enum AmountOp {
    /// Adds the amount to the account of this number.
    Deposit(u32),
    /// Takes the amount away from the account of this number.
    Withdraw(u32),
    /// Counts the counter of this number up by the amount.
    Up(u32),
    /// Counts the counter of this number down by the amount.
    Down(u32),
}

impl AmountOp {
    /// The operation with this amount.
    pub fn with(self, amount: u64) -> ObjOp
        ensures { result ≡ with_amount self amount }
    {
        match self {
            AmountOp::Deposit(account) => ObjOp::Account(account, AccountOp::Deposit(amount)),
            AmountOp::Withdraw(account) => ObjOp::Account(account, AccountOp::Withdraw(amount)),
            AmountOp::Up(counter) => ObjOp::Counter(counter, CounterOp::Up(amount)),
            AmountOp::Down(counter) => ObjOp::Counter(counter, CounterOp::Down(amount)),
        }
    }
}

/// An operation that a script asks.
#[derive(Clone, Copy, Debug, PartialEq, Eq)]
pub enum Asking {
    /// The operation as it stands.
    Fixed(ObjOp),
    /// The operation with the variable's value as its amount.
    By(AmountOp, Letter),
}

/// A reply that a script compares with.
#[derive(Clone, Copy, Debug, PartialEq, Eq)]
pub enum Wanted {
    /// The reply as it stands.
    Reply(ObjReply),
    /// `is v`, v being the variable's value.
    ValueOf(Letter),
}

/// What a variable is set from.
#[derive(Clone, Copy, Debug, PartialEq, Eq)]
pub enum Source {
    /// The balance of the account of this number.
    Balance(u32),
    /// The value of the counter of this number.
    Read(u32),
    /// How many elements the set of this number has.
    Size(u16),
}

/// A statement that asks one operation and goes on with the next line.
#[derive(Clone, Copy, Debug, PartialEq, Eq)]
pub enum Statement {
    /// Asks the operation, and goes on at any reply.
    Ask(Asking),
    /// Asks the operation, goes on at the reply, and aborts the script at any other.
    Need(Asking, Wanted),
    /// Asks for the value, and sets the variable to it, to 0 where the reply is no value.
    Let(Letter, Source),
}

/// A line between a script's `begin` and its ending.
#[derive(Clone, Copy, Debug, PartialEq, Eq)]
pub enum Line {
    /// A statement of one line.
    Plain(Statement),
    /// Asks the operation. The lines up to the `else` follow on the reply, those behind it on any other.
    If(Asking, Wanted),
    /// Parts the two parts of an `if`.
    Else,
    /// Ends an `if`.
    End,
}

/// How a script ends.
#[derive(Clone, Copy, Debug, PartialEq, Eq)]
pub enum Ending {
    /// Its changes are kept.
    Commit,
    /// Its changes are taken back.
    Abort,
}
