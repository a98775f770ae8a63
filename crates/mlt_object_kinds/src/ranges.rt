//! What the types say of the numbers in an operation and a reply.

ghost use Rattle.std.specs.Prelude.{◌<◌, ◌^◌};
ghost use Rattle.mlt_object_kinds.specs.Ranges.{FitsAccount, FitsCounter, FitsDone, FitsOp, FitsReply};

use crate::account::AccountOp;
use crate::counter::CounterOp;
use crate::done::Done;
use crate::operation::{ObjOp, ObjReply};

/// A number of 16 bits is below 2^16. It does nothing.
pub fn fits_16(_number: u16)
    ensures { _number < 2 ^ 16 }
{}

/// A number of 32 bits is below 2^32. It does nothing.
pub fn fits_32(_number: u32)
    ensures { _number < 2 ^ 32 }
{}

/// A number of 64 bits is below 2^64. It does nothing.
pub fn fits_64(_number: u64)
    ensures { _number < 2 ^ 64 }
{}

fn account_fits(op: AccountOp)
    ensures { FitsAccount op }
{
    match op {
        AccountOp::Deposit(amount) => fits_64(amount),
        AccountOp::Withdraw(amount) => fits_64(amount),
        _ => {}
    }
}

fn counter_fits(op: CounterOp)
    ensures { FitsCounter op }
{
    match op {
        CounterOp::Up(amount) => fits_64(amount),
        CounterOp::Down(amount) => fits_64(amount),
        CounterOp::Read => {}
    }
}

/// Each number of the operation is one of its type. It does nothing.
pub fn op_fits(op: ObjOp)
    ensures { FitsOp op }
{
    match op {
        ObjOp::Account(account, op) => {
            fits_32(account);
            account_fits(op);
        }
        ObjOp::Element(set, element, _) => {
            fits_16(set);
            fits_32(element);
        }
        ObjOp::Counter(counter, op) => {
            fits_32(counter);
            counter_fits(op);
        }
        ObjOp::Size(set) => fits_16(set),
    }
}

/// The value of the reply, if it has one, is one of its type. It does nothing.
pub fn reply_fits(reply: ObjReply)
    ensures { FitsReply reply }
{
    match reply {
        ObjReply::Is(value) => fits_64(value),
        _ => {}
    }
}

/// Each number of an operation and its reply is one of its type. It does nothing.
pub fn done_fits(done: &Done)
    ensures { FitsDone done.now }
{
    op_fits(done.op());
    reply_fits(done.reply());
}
