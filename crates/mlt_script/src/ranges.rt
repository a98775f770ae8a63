//! What the types say of the numbers in a line.

ghost use Rattle.mlt_script.specs.Ranges.{FitsAmount, FitsAsking, FitsLine, FitsSource, FitsStatement, FitsWanted};

use crate::statement::{AmountOp, Asking, Line, Source, Statement, Wanted};
use mlt_object_kinds::{fits_16, fits_32, op_fits, reply_fits};

fn amount_fits(op: AmountOp)
    ensures { FitsAmount op }
{
    match op {
        AmountOp::Deposit(number) => fits_32(number),
        AmountOp::Withdraw(number) => fits_32(number),
        AmountOp::Up(number) => fits_32(number),
        AmountOp::Down(number) => fits_32(number),
    }
}

fn asking_fits(asking: Asking)
    ensures { FitsAsking asking }
{
    match asking {
        Asking::Fixed(op) => op_fits(op),
        Asking::By(op, _) => amount_fits(op),
    }
}

fn wanted_fits(wanted: Wanted)
    ensures { FitsWanted wanted }
{
    match wanted {
        Wanted::Reply(reply) => reply_fits(reply),
        Wanted::ValueOf(_) => {}
    }
}

fn source_fits(source: Source)
    ensures { FitsSource source }
{
    match source {
        Source::Balance(account) => fits_32(account),
        Source::Read(counter) => fits_32(counter),
        Source::Size(set) => fits_16(set),
    }
}

fn statement_fits(statement: Statement)
    ensures { FitsStatement statement }
{
    match statement {
        Statement::Ask(asking) => asking_fits(asking),
        Statement::Need(asking, wanted) => {
            asking_fits(asking);
            wanted_fits(wanted);
        }
        Statement::Let(_, source) => source_fits(source),
    }
}

/// Each number of the line is one of its type.
pub fn line_fits(line: Line)
    ensures { FitsLine line }
{
    match line {
        Line::Plain(statement) => statement_fits(statement),
        Line::If(asking, wanted) => {
            asking_fits(asking);
            wanted_fits(wanted);
        }
        _ => {}
    }
}
