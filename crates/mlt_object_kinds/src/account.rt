//! Accounts: absent, or a balance of 0 to 10^18.

ghost use Rattle.std.specs.Prelude.{◌≡◌};
ghost use Rattle.mlt_object_kinds.specs.Accounts.{AccountStep, IsAccount};

use crate::kind::Kind;
use crate::operation::ObjReply;

/// The greatest balance, 10^18.
pub const MAX_BALANCE: u64 = 1_000_000_000_000_000_000;

/// What is asked of an account.
#[derive(Clone, Copy, Debug, PartialEq, Eq)]
pub enum AccountOp {
    /// Makes the account, with balance 0.
    Open,
    /// Removes the account, if its balance is 0.
    Close,
    /// Adds an amount, if the balance stays within its greatest value.
    Deposit(u64),
    /// Takes an amount away, if the balance is no smaller.
    Withdraw(u64),
    /// Reads the balance.
    Balance,
}

/// The kind of accounts. A state is the balance, or `None` where there is no account.
#[derive(Clone, Copy, Debug)]
pub struct Account;

impl Kind for Account {
    ghost use Rattle.mlt_object_kinds.specs.AccountLaws.{account_one_answer, account_one_start, account_stays};

    type State = Option<u64>;

    type Op = AccountOp;

    type Reply = ObjReply;

    ghost is_state = { IsAccount };

    ghost step = { AccountStep };

    ghost one_answer = { account_one_answer };

    ghost one_start = { account_one_start };

    ghost stays_state = { account_stays };

    fn apply(state: &Option<u64>, op: &AccountOp) -> (Option<u64>, ObjReply) {
        match (*op, *state) {
            (AccountOp::Deposit(amount), state) => deposited(state, amount),
            (AccountOp::Withdraw(amount), state) => withdrawn(state, amount),
            (AccountOp::Open, None) => (Some(0), ObjReply::Opened),
            (AccountOp::Open, state) => (state, ObjReply::Exists),
            (_, None) => (None, ObjReply::Missing),
            (AccountOp::Close, Some(0)) => (None, ObjReply::Closed),
            (AccountOp::Close, state) => (state, ObjReply::NotEmpty),
            (AccountOp::Balance, Some(balance)) => (Some(balance), ObjReply::Is(balance)),
        }
    }

    fn undo(state: &Option<u64>, op: &AccountOp, reply: &ObjReply) -> Option<u64> {
        match (*op, *reply, *state) {
            (AccountOp::Open, ObjReply::Opened, _) => None,
            (AccountOp::Close, ObjReply::Closed, _) => Some(0),
            (AccountOp::Deposit(amount), ObjReply::Done, Some(balance)) => Some(balance - amount),
            (AccountOp::Withdraw(amount), ObjReply::Done, Some(balance)) => Some(balance + amount),
            (_, _, state) => state,
        }
    }
}

fn deposited(state: Option<u64>, amount: u64) -> (Option<u64>, ObjReply)
    requires { IsAccount state }
    ensures { AccountStep state (AccountOp.Deposit amount) result.1 result.0 }
{
    match state {
        None => (None, ObjReply::Missing),
        Some(balance) if amount > MAX_BALANCE - balance => (Some(balance), ObjReply::Over),
        Some(balance) => (Some(balance + amount), ObjReply::Done),
    }
}

fn withdrawn(state: Option<u64>, amount: u64) -> (Option<u64>, ObjReply)
    requires { IsAccount state }
    ensures { AccountStep state (AccountOp.Withdraw amount) result.1 result.0 }
{
    match state {
        None => (None, ObjReply::Missing),
        Some(balance) if amount > balance => (Some(balance), ObjReply::Short),
        Some(balance) => (Some(balance - amount), ObjReply::Done),
    }
}
