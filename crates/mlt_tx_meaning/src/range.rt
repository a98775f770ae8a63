//! What every operation of the program is.

ghost use Rattle.std.specs.Prelude.{◌<◌, ◌^◌};
ghost use Rattle.mlt_tx_meaning.specs.Presences.{IsOpInRange};

use mlt_object_kinds::{AccountOp, CounterOp, ObjOp};

/// The cell of an operation is in range, and its amount has 64 bits.
pub fn operation_is_in_range(op: &ObjOp)
    ensures { IsOpInRange op.now }
{
    let cell = op.cell();
    cell.is_in_range();
    match *op {
        ObjOp::Account(_, AccountOp::Deposit(amount) | AccountOp::Withdraw(amount))
        | ObjOp::Counter(_, CounterOp::Up(amount) | CounterOp::Down(amount)) => has_64_bits(amount),
        _ => (),
    }
}

// What the type of a number says of it.
fn has_64_bits(number: u64)
    ensures { number < 2 ^ 64 }
{}
