//! Records read as objects: which page lock an operation needs, what it is told and changes where it finds a
//! record or none, and the change that undoes it.

ghost use Rattle.std.specs.Prelude.{◌≡◌, ◌≤◌, ℕ, Option, Some, is_some, length};
ghost use Rattle.mlt_object_base.specs.Effects.{access_of, account_inverse_of, account_reply_of, changes_on, counter_inverse_of, counter_reply_of, element_inverse_of, element_reply_of, inverse_of, reply_of, size_change_of, size_inverse_of};
ghost use Rattle.mlt_object_base.specs.Records.{CanChange, counter_of_record, HasWhatIsUndone, IsRecord, record_after, state_of_record};
ghost use Rattle.mlt_object_kinds.specs.Accounts.{AccountStep, IsAccount};
ghost use Rattle.mlt_object_kinds.specs.Cells.{CellState, CellStep};
ghost use Rattle.mlt_object_kinds.specs.Counters.{CounterStep};
ghost use Rattle.mlt_object_kinds.specs.Elements.{ElementStep};
ghost use Rattle.mlt_object_kinds.specs.Operations.{cell_of};

use mlt_object_kinds::{AccountOp, CounterOp, Done, ElementOp, MAX_BALANCE, ObjOp, ObjReply};
use mlt_types::{Key, Mode, Value};

/// A change of the live record of a cell's key. `Plus` and `Minus` go by the value found, modulo 2^64.
#[derive(Clone, Copy, Debug, PartialEq, Eq)]
pub enum RecChange {
    /// A record with the value is made, where there is none.
    Add(Value),
    /// The record gets the value.
    Set(Value),
    /// The record becomes a ghost of the transaction: no longer live, its room kept.
    ToGhost,
    /// The transaction's ghost becomes live again, with the value 0 that it had.
    Revive,
    /// The amount is added to the value.
    Plus(u64),
    /// The amount is taken from the value.
    Minus(u64),
}

impl RecChange {
    /// The record after the change, where it had this value before, or there was none.
    pub fn value_after(self, found: Option<Value>) -> Option<Value>
        ensures { result ≡ record_after (Some self) found }
    {
        match self {
            RecChange::Add(value) | RecChange::Set(value) => Some(value),
            RecChange::ToGhost => None,
            RecChange::Revive => Some(0),
            RecChange::Plus(amount) => Some(found?.wrapping_add(amount)),
            RecChange::Minus(amount) => Some(found?.wrapping_sub(amount)),
        }
    }
}

/// What an operation, or the undoing of one, changes: the record of its own cell, and the size record of its set. Only
/// where an element is added or removed, or that is undone, there is a change of a size.
#[derive(Clone, Copy, Debug, PartialEq, Eq)]
pub struct RecordChanges {
    /// The change of the record of the operation's cell.
    pub own: Option<RecChange>,
    /// The change of the size record of the element's set.
    pub size: Option<RecChange>,
}

/// The key of the record that an operation reads, and the mode in which it locks the bucket: `Shared` for
/// `balance`, `has`, `read` and `size`, which change nothing, and else `Exclusive`.
pub fn access(op: &ObjOp) -> (Key, Mode)
    ensures { result ≡ access_of op.now }
{
    let mode = match *op {
        ObjOp::Account(_, AccountOp::Balance) => Mode::Shared,
        ObjOp::Element(_, _, ElementOp::Has) => Mode::Shared,
        ObjOp::Counter(_, CounterOp::Read) => Mode::Shared,
        ObjOp::Size(_) => Mode::Shared,
        _ => Mode::Exclusive,
    };
    (Key::of(&op.cell()), mode)
}

/// The reply to an operation, and the change that it makes of the live record of its key, where that has the value, or
/// with `None` where there is none. It is the operation's step on the cell that the record stands for. Whatever it changes
/// of a size record beside, it changes no more than two records.
pub fn reply(op: &ObjOp, live: Option<Value>) -> (ObjReply, Option<RecChange>)
    ensures table { result ≡ reply_of op.now live }
    ensures step { IsRecord (cell_of op.now) live
        → CellStep (state_of_record (cell_of op.now) live) (op.now, result.0)
        (state_of_record (cell_of op.now) (record_after result.1 live)) }
    ensures record { IsRecord (cell_of op.now) live
        → IsRecord (cell_of op.now) (record_after result.1 live) }
    ensures fits { CanChange result.1 live }
    ensures few { (size : Option RecChange)
        → length (changes_on op.now (record { own = result.1; size = size })) ≤ 2 }
{
    match *op {
        ObjOp::Account(_, op) => account_reply(op, live),
        ObjOp::Element(_, _, op) => element_reply(op, live),
        ObjOp::Counter(_, op) => counter_reply(op, live),
        ObjOp::Size(_) => (ObjReply::Is(live.unwrap_or(0)), None),
    }
}

fn account_reply(op: AccountOp, live: Option<Value>) -> (ObjReply, Option<RecChange>)
    ensures table { result ≡ account_reply_of op live }
    ensures step { IsAccount live → AccountStep live op result.0 (record_after result.1 live) }
{
    match (op, live) {
        (AccountOp::Deposit(amount), live) => deposit_reply(live, amount),
        (AccountOp::Withdraw(amount), live) => withdraw_reply(live, amount),
        (AccountOp::Open, None) => (ObjReply::Opened, Some(RecChange::Add(0))),
        (AccountOp::Open, Some(_)) => (ObjReply::Exists, None),
        (_, None) => (ObjReply::Missing, None),
        (AccountOp::Close, Some(0)) => (ObjReply::Closed, Some(RecChange::ToGhost)),
        (AccountOp::Close, Some(_)) => (ObjReply::NotEmpty, None),
        (AccountOp::Balance, Some(balance)) => (ObjReply::Is(balance), None),
    }
}

fn deposit_reply(live: Option<Value>, amount: u64) -> (ObjReply, Option<RecChange>)
    ensures table { result ≡ account_reply_of (AccountOp.Deposit amount) live }
    ensures step { IsAccount live
        → AccountStep live (AccountOp.Deposit amount) result.0 (record_after result.1 live) }
{
    match live {
        None => (ObjReply::Missing, None),
        Some(balance) => match balance.checked_add(amount) {
            Some(sum) if sum <= MAX_BALANCE => (ObjReply::Done, Some(RecChange::Set(sum))),
            _ => (ObjReply::Over, None),
        },
    }
}

fn withdraw_reply(live: Option<Value>, amount: u64) -> (ObjReply, Option<RecChange>)
    ensures table { result ≡ account_reply_of (AccountOp.Withdraw amount) live }
    ensures step { IsAccount live
        → AccountStep live (AccountOp.Withdraw amount) result.0 (record_after result.1 live) }
{
    match live {
        None => (ObjReply::Missing, None),
        Some(balance) if balance < amount => (ObjReply::Short, None),
        Some(balance) => (ObjReply::Done, Some(RecChange::Set(balance - amount))),
    }
}

fn element_reply(op: ElementOp, live: Option<Value>) -> (ObjReply, Option<RecChange>)
    ensures table { result ≡ element_reply_of op (is_some live) }
    ensures step { ElementStep (is_some live) op result.0 (is_some (record_after result.1 live)) }
{
    match (op, live) {
        (ElementOp::Add, None) => (ObjReply::Added, Some(RecChange::Add(0))),
        (ElementOp::Add, Some(_)) => (ObjReply::Present, None),
        (ElementOp::Remove, Some(_)) => (ObjReply::Removed, Some(RecChange::ToGhost)),
        (ElementOp::Remove, None) => (ObjReply::Absent, None),
        (ElementOp::Has, Some(_)) => (ObjReply::Yes, None),
        (ElementOp::Has, None) => (ObjReply::No, None),
    }
}

fn counter_reply(op: CounterOp, live: Option<Value>) -> (ObjReply, Option<RecChange>)
    ensures table { result ≡ counter_reply_of op live }
    ensures step { CounterStep (counter_of_record live) op result.0
        (counter_of_record (record_after result.1 live)) }
{
    match op {
        CounterOp::Up(amount) => up_reply(live, amount),
        CounterOp::Down(amount) => down_reply(live, amount),
        CounterOp::Read => (ObjReply::Is(live.unwrap_or(0)), None),
    }
}

fn up_reply(live: Option<Value>, amount: u64) -> (ObjReply, Option<RecChange>)
    ensures table { result ≡ counter_reply_of (CounterOp.Up amount) live }
    ensures step { CounterStep (counter_of_record live) (CounterOp.Up amount) result.0
        (counter_of_record (record_after result.1 live)) }
{
    let change = match live {
        Some(value) => RecChange::Set(value.wrapping_add(amount)),
        None => RecChange::Add(amount),
    };
    (ObjReply::Done, Some(change))
}

fn down_reply(live: Option<Value>, amount: u64) -> (ObjReply, Option<RecChange>)
    ensures table { result ≡ counter_reply_of (CounterOp.Down amount) live }
    ensures step { CounterStep (counter_of_record live) (CounterOp.Down amount) result.0
        (counter_of_record (record_after result.1 live)) }
{
    let change = match live {
        Some(value) => RecChange::Set(value.wrapping_sub(amount)),
        None => RecChange::Add(0u64.wrapping_sub(amount)),
    };
    (ObjReply::Done, Some(change))
}

/// The change that an operation with this reply makes of its set's size record, where that has the value, or
/// with `None` where there is none.
pub(crate) fn size_change(op: &ObjOp, reply: ObjReply, live: Option<Value>) -> Option<RecChange>
    ensures { result ≡ size_change_of (op.now, reply) live }
{
    match (*op, reply) {
        (ObjOp::Element(_, _, ElementOp::Add), ObjReply::Added) => match live {
            Some(_) => Some(RecChange::Plus(1)),
            None => Some(RecChange::Add(1)),
        },
        (ObjOp::Element(_, _, ElementOp::Remove), ObjReply::Removed) => Some(RecChange::Minus(1)),
        _ => None,
    }
}

/// The change that undoes an operation on the record as it is then, or `None` where nothing is to be undone.
pub fn inverse(done: &Done) -> Option<RecChange>
    ensures table { result ≡ inverse_of done.now }
    ensures undoes { (before : CellState) (live : Option ℕ) → IsRecord (cell_of done.now.0) live
        → HasWhatIsUndone done.now live
        → CellStep before done.now (state_of_record (cell_of done.now.0) live)
        → state_of_record (cell_of done.now.0) (record_after result live) ≡ before }
    ensures record { (before : CellState) (live : Option ℕ) → IsRecord (cell_of done.now.0) live
        → HasWhatIsUndone done.now live
        → CellStep before done.now (state_of_record (cell_of done.now.0) live)
        → IsRecord (cell_of done.now.0) (record_after result live) }
    ensures fits { (before : CellState) (live : Option ℕ) → HasWhatIsUndone done.now live
        → CellStep before done.now (state_of_record (cell_of done.now.0) live)
        → CanChange result live }
{
    let reply = done.reply();
    match done.op() {
        ObjOp::Account(_, op) => account_inverse(op, reply),
        ObjOp::Element(_, _, op) => element_inverse(op, reply),
        ObjOp::Counter(_, op) => counter_inverse(op, reply),
        ObjOp::Size(_) => None,
    }
}

fn account_inverse(op: AccountOp, reply: ObjReply) -> Option<RecChange>
    ensures { result ≡ account_inverse_of op reply }
{
    match (op, reply) {
        (AccountOp::Open, ObjReply::Opened) => Some(RecChange::ToGhost),
        (AccountOp::Close, ObjReply::Closed) => Some(RecChange::Revive),
        (AccountOp::Deposit(amount), ObjReply::Done) => Some(RecChange::Minus(amount)),
        (AccountOp::Withdraw(amount), ObjReply::Done) => Some(RecChange::Plus(amount)),
        _ => None,
    }
}

fn element_inverse(op: ElementOp, reply: ObjReply) -> Option<RecChange>
    ensures { result ≡ element_inverse_of op reply }
{
    match (op, reply) {
        (ElementOp::Add, ObjReply::Added) => Some(RecChange::ToGhost),
        (ElementOp::Remove, ObjReply::Removed) => Some(RecChange::Revive),
        _ => None,
    }
}

fn counter_inverse(op: CounterOp, reply: ObjReply) -> Option<RecChange>
    ensures { result ≡ counter_inverse_of op reply }
{
    match (op, reply) {
        (CounterOp::Up(amount), ObjReply::Done) => Some(RecChange::Minus(amount)),
        (CounterOp::Down(amount), ObjReply::Done) => Some(RecChange::Plus(amount)),
        _ => None,
    }
}

/// The change that undoes what an operation did to its set's size record, or `None` where nothing is to be undone.
pub(crate) fn size_inverse(done: &Done) -> Option<RecChange>
    ensures { result ≡ size_inverse_of done.now }
{
    match (done.op(), done.reply()) {
        (ObjOp::Element(_, _, ElementOp::Add), ObjReply::Added) => Some(RecChange::Minus(1)),
        (ObjOp::Element(_, _, ElementOp::Remove), ObjReply::Removed) => Some(RecChange::Plus(1)),
        _ => None,
    }
}
