//! Two operations in both orders.

use crate::cell_value::CellValue;
use mlt_object_kinds::Done;
use std::alloc::AllocError;

/// Two operations on a cell, one after the other, with their replies, and what they leave.
#[derive(Clone, Copy)]
pub struct OpOrder {
    /// The one that is done first, with its reply.
    pub first: Done,
    /// The one that is done next, with its reply.
    pub second: Done,
    /// The cell after both.
    pub after: CellValue,
}

/// An operation that is held and one that is asked for, in both orders.
#[derive(Clone, Copy)]
pub struct Orders {
    /// The cell before both.
    pub before: CellValue,
    /// The held operation and then the other one.
    pub held_first: OpOrder,
    /// The operation that is asked for and then the held one.
    pub asked_first: OpOrder,
}

/// Appends an example of a conflict, of operations with these words: behind the title a line with the two words and what is
/// there before, and behind the lead a line for each order.
///
/// # Errors
/// Where a growth was refused.
pub fn push_example(
    text: &mut String,
    (title, lead): (&str, &str),
    (held, asked): (&str, &str),
    orders: &Orders,
) -> Result<(), AllocError> {
    let before = &orders.before;
    writeln!(text, "{title}{held}, then {asked}, from {before}:")?;
    push_order(text, lead, "held", "asked", &orders.held_first)?;
    push_order(text, lead, "asked", "held", &orders.asked_first)
}

// Appends the line of one order, behind this lead, with a word for each of the two operations.
fn push_order(
    text: &mut String,
    lead: &str,
    earlier: &str,
    later: &str,
    order: &OpOrder,
) -> Result<(), AllocError> {
    let OpOrder {
        first,
        second,
        after,
    } = order;
    writeln!(text, "{lead}{earlier} {first}, {later} {second}: {after}")
}
