//! Outcomes beside those that are wanted.

use mlt_object_kinds::{ObjOp, ObjReply};
use mlt_script_serial::{End, Outcome};
use mlt_test_tools::same_at;
use std::test::Fail;

/// What is wanted of an outcome: its client, its number, its transaction, what was done, and its end.
pub type Row = (u32, u64, u64, &'static [(ObjOp, ObjReply)], End);

fn same_outcome(outcome: &Outcome, row: &Row) -> Result<(), Fail> {
    let (client, number, tx, operations, end) = *row;
    let found = (outcome.client, outcome.number, outcome.tx, outcome.end);
    same_at(&"outcome", &found, &(client, number, tx, end))?;
    let done = outcome.done.as_slice();
    same_at(&found, &done.len(), &operations.len())?;
    for (one, wanted) in done.iter().zip(operations) {
        same_at(&found, &(one.op(), one.reply()), wanted)?;
    }
    Ok(())
}

/// There are just these outcomes, in this order.
pub fn same_outcomes(outcomes: &[Outcome], rows: &[Row]) -> Result<(), Fail> {
    same_at(&"outcomes", &outcomes.len(), &rows.len())?;
    for (outcome, row) in outcomes.iter().zip(rows) {
        same_outcome(outcome, row)?;
    }
    Ok(())
}
