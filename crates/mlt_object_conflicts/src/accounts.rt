//! The conflict table of accounts.

ghost use Rattle.std.specs.Prelude.{◌≡◌};
ghost use Rattle.mlt_object_conflicts.specs.AccountTable.{account_breach, account_class, account_item, account_marks};

use crate::example::Example;
use crate::table::Table;
use mlt_object_kinds::{Account, AccountOp, MAX_BALANCE, ObjReply};

/// What was asked of an account and told.
#[derive(Clone, Copy, Debug, PartialEq, Eq)]
pub enum AccountClass {
    /// `open` made the account.
    Opened,
    /// `open` found it.
    Exists,
    /// `close` removed it.
    Closed,
    /// `close` found a balance above 0.
    NotEmpty,
    /// `deposit` added its amount.
    Deposited,
    /// `deposit` would have passed the greatest balance.
    Over,
    /// `withdraw` took its amount.
    Withdrawn,
    /// `withdraw` found too little.
    Short,
    /// `balance` told the balance.
    Balance,
    /// Anything but `open` found no account.
    Missing,
}

impl Table for Account {
    ghost use Rattle.mlt_object_conflicts.specs.AccountTable.{account_class, account_marks};
    ghost use Rattle.mlt_object_conflicts.specs.AccountTableLaws.{account_legal_item};

    type Class = AccountClass;

    ghost class_of = { account_class };

    ghost marks = { account_marks };

    ghost each_is_legal = { account_legal_item };

    fn class(op: &AccountOp, reply: &ObjReply) -> Option<AccountClass> {
        match (*op, *reply) {
            (AccountOp::Open, ObjReply::Opened) => Some(AccountClass::Opened),
            (AccountOp::Open, ObjReply::Exists) => Some(AccountClass::Exists),
            (AccountOp::Close, ObjReply::Closed) => Some(AccountClass::Closed),
            (AccountOp::Close, ObjReply::NotEmpty) => Some(AccountClass::NotEmpty),
            (AccountOp::Deposit(_), ObjReply::Done) => Some(AccountClass::Deposited),
            (AccountOp::Deposit(_), ObjReply::Over) => Some(AccountClass::Over),
            (AccountOp::Withdraw(_), ObjReply::Done) => Some(AccountClass::Withdrawn),
            (AccountOp::Withdraw(_), ObjReply::Short) => Some(AccountClass::Short),
            (AccountOp::Balance, ObjReply::Is(_)) => Some(AccountClass::Balance),
            (AccountOp::Open, _) => None,
            (_, ObjReply::Missing) => Some(AccountClass::Missing),
            _ => None,
        }
    }

    fn conflicts(held: AccountClass, requested: AccountClass) -> bool {
        is_marked(held, requested)
    }

    fn example(
        held: AccountClass,
        requested: AccountClass,
    ) -> Option<Example<Option<u64>, AccountOp, ObjReply>> {
        if !Account::conflicts(held, requested) {
            return None;
        }
        let (held_amount, requested_amount, state) = breach(held, requested);
        let (first, first_reply) = item(held, held_amount);
        let (second, second_reply) = item(requested, requested_amount);
        Some(Example {
            state,
            first,
            first_reply,
            second,
            second_reply,
        })
    }
}

// Whether the table marks the pair.
fn is_marked(held: AccountClass, requested: AccountClass) -> bool
    ensures { result ≡ account_marks held requested }
{
    match held {
        AccountClass::Opened => !matches!(
            requested,
            AccountClass::Opened | AccountClass::NotEmpty | AccountClass::Missing
        ),
        AccountClass::Exists => matches!(requested, AccountClass::Closed),
        AccountClass::Closed => matches!(requested, AccountClass::Opened | AccountClass::Missing),
        AccountClass::NotEmpty => matches!(requested, AccountClass::Withdrawn),
        AccountClass::Deposited => matches!(
            requested,
            AccountClass::Closed
                | AccountClass::NotEmpty
                | AccountClass::Over
                | AccountClass::Withdrawn
                | AccountClass::Balance
        ),
        AccountClass::Over => matches!(requested, AccountClass::Closed | AccountClass::Withdrawn),
        AccountClass::Withdrawn => matches!(
            requested,
            AccountClass::Closed
                | AccountClass::Deposited
                | AccountClass::Short
                | AccountClass::Balance
        ),
        AccountClass::Short => matches!(requested, AccountClass::Closed | AccountClass::Deposited),
        AccountClass::Balance => matches!(
            requested,
            AccountClass::Closed | AccountClass::Deposited | AccountClass::Withdrawn
        ),
        AccountClass::Missing => matches!(requested, AccountClass::Opened),
    }
}

// An operation of the class with its reply, of the amount where it has one.
fn item(class: AccountClass, amount: u64) -> (AccountOp, ObjReply)
    ensures { result ≡ account_item class amount }
{
    match class {
        AccountClass::Opened => (AccountOp::Open, ObjReply::Opened),
        AccountClass::Exists => (AccountOp::Open, ObjReply::Exists),
        AccountClass::Closed => (AccountOp::Close, ObjReply::Closed),
        AccountClass::NotEmpty => (AccountOp::Close, ObjReply::NotEmpty),
        AccountClass::Deposited => (AccountOp::Deposit(amount), ObjReply::Done),
        AccountClass::Over => (AccountOp::Deposit(amount), ObjReply::Over),
        AccountClass::Withdrawn => (AccountOp::Withdraw(amount), ObjReply::Done),
        AccountClass::Short => (AccountOp::Withdraw(amount), ObjReply::Short),
        AccountClass::Balance => (AccountOp::Balance, ObjReply::Is(amount)),
        AccountClass::Missing => (AccountOp::Close, ObjReply::Missing),
    }
}

// The amounts of the held and of the requested operation, and a state, at which marked classes break.
fn breach(held: AccountClass, requested: AccountClass) -> (u64, u64, Option<u64>)
    ensures { result ≡ account_breach held requested }
{
    match (held, requested) {
        (AccountClass::Opened, AccountClass::Over) => (0, MAX_BALANCE + 1, None),
        (AccountClass::Opened, AccountClass::Short) => (0, 1, None),
        (AccountClass::NotEmpty, _) => (0, 1, Some(1)),
        (AccountClass::Deposited, AccountClass::Closed) => (0, 0, Some(0)),
        (AccountClass::Deposited, AccountClass::Over) => (1, 1, Some(MAX_BALANCE - 1)),
        (AccountClass::Over, AccountClass::Closed) => (MAX_BALANCE + 1, 0, Some(0)),
        (AccountClass::Over, _) | (AccountClass::Withdrawn, AccountClass::Deposited) => (
            1,
            1,
            Some(MAX_BALANCE),
        ),
        (AccountClass::Withdrawn, AccountClass::Balance) => (1, 0, Some(1)),
        (AccountClass::Withdrawn, _) | (AccountClass::Balance, AccountClass::Withdrawn) => (
            1,
            1,
            Some(1),
        ),
        (AccountClass::Deposited, _) | (AccountClass::Short, _) => (1, 1, Some(0)),
        (AccountClass::Balance, AccountClass::Deposited) => (0, 1, Some(0)),
        (AccountClass::Exists, _) | (AccountClass::Closed, _) | (AccountClass::Balance, _) => (
            0,
            0,
            Some(0),
        ),
        (AccountClass::Opened, _) | (AccountClass::Missing, _) => (0, 0, None),
    }
}
