//! Operations on a base that take others back.

ghost use Rattle.std.specs.Prelude.{◌≡◌, OnOk, IsOkUnless};
ghost use Rattle.mlt_object_kinds.specs.Bases.{Base as ObjectBase, TranscriptLeads};
ghost use Rattle.mlt_object_base.specs.TakingBack.{opposite_of};

use crate::base::Base;
use mlt_object_kinds::{AccountOp, CounterOp, Done, ElementOp, ObjOp, ObjReply};
use mlt_types::Refusal;

/// The operation that takes one with its reply back, if that changed anything.
fn opposite(done: &Done) -> Option<ObjOp>
    ensures { result ≡ opposite_of done.now }
{
    match (done.op(), done.reply()) {
        (ObjOp::Account(account, AccountOp::Open), ObjReply::Opened) => {
            Some(ObjOp::Account(account, AccountOp::Close))
        }
        (ObjOp::Account(account, AccountOp::Close), ObjReply::Closed) => {
            Some(ObjOp::Account(account, AccountOp::Open))
        }
        (ObjOp::Account(account, AccountOp::Deposit(amount)), ObjReply::Done) => {
            Some(ObjOp::Account(account, AccountOp::Withdraw(amount)))
        }
        (ObjOp::Account(account, AccountOp::Withdraw(amount)), ObjReply::Done) => {
            Some(ObjOp::Account(account, AccountOp::Deposit(amount)))
        }
        (ObjOp::Element(set, element, ElementOp::Add), ObjReply::Added) => {
            Some(ObjOp::Element(set, element, ElementOp::Remove))
        }
        (ObjOp::Element(set, element, ElementOp::Remove), ObjReply::Removed) => {
            Some(ObjOp::Element(set, element, ElementOp::Add))
        }
        (ObjOp::Counter(counter, CounterOp::Up(amount)), _) => {
            Some(ObjOp::Counter(counter, CounterOp::Down(amount)))
        }
        (ObjOp::Counter(counter, CounterOp::Down(amount)), _) => {
            Some(ObjOp::Counter(counter, CounterOp::Up(amount)))
        }
        _ => None,
    }
}

/// Takes back on a base what was done, the last operation first: where this list of operations, with their replies, has led to
/// the base, it is then the one before them.
///
/// # Errors
/// `OutOfMemory`, where a growth was refused.
pub fn take_back(base: &mut Base, done: &[Done]) -> Result<(), Refusal>
    ensures ok { OnOk result
        ((before : ObjectBase) → TranscriptLeads before done.now base.old → base.new ≡ before) }
    ensures refusal { IsOkUnless result Refusal.OutOfMemory }
{
    let mut left = done.len();
    while left > 0 {
        left -= 1;
        if let Some(op) = opposite(&done[left]) {
            base.apply(&op)?;
        }
    }
    Ok(())
}
