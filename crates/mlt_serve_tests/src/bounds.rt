//! Limits of managers.

use mlt_types::{Limits, Refusal};

/// The greatest numbers of open transactions, of begins, of pages, of depth and of operations in a transaction.
pub type Bounds = (u32, u64, u32, u32, u32);

/// The limits that have these bounds.
pub fn limits_of(bounds: Bounds) -> Result<Limits, Refusal> {
    let (open, ids, pages, depth, ops) = bounds;
    Limits::checked(open, ids, pages, depth, ops)
}
