//! How much a manager may hold.

ghost use Rattle.std.specs.Prelude.{◌≡◌, ◌≢◌, ◌↔◌, IsOk, IfOk, IsOkUnless, ◌≤◌, ◌-◌, ◌^◌};
ghost use Rattle.mlt_types.specs.Limits.{AreInRange};

use crate::refusal::Refusal;

/// The limits of a manager. They are in their ranges in every value.
#[derive(Clone, Copy, Debug, PartialEq, Eq)]
pub struct Limits {
    /// How many transactions may be open at once, 1 to 64.
    pub max_open: u32,
    /// How many numbers of transactions are given out in all, 1 to 2^63 - 1.
    pub max_ids: u64,
    /// How many pages there may be, with the header and directory pages, 3 to 70,000.
    pub max_pages: u32,
    /// The greatest depth of the directory, 0 to 16.
    pub max_depth: u32,
    /// How many operations a transaction may have, 1 to 1,024.
    pub max_ops: u32,
    ghost in_range: { AreInRange max_open max_ids max_pages max_depth max_ops },
}

impl Limits {
    /// The limits, where each is in its range and there are at most 2^32 numbers of transactions.
    ///
    /// # Errors
    /// `BadLimits` exactly where one is out of its range.
    pub fn checked(
        max_open: u32,
        max_ids: u64,
        max_pages: u32,
        max_depth: u32,
        max_ops: u32,
    ) -> Result<Limits, Refusal>
        ensures in_range { IsOk result
            ↔ AreInRange max_open max_ids max_pages max_depth max_ops × (max_ids ≤ 2 ^ 32) }
        ensures fields { IfOk result
            (λ limits. (limits.max_open ≡ max_open) × (limits.max_ids ≡ max_ids)
            × (limits.max_pages ≡ max_pages) × (limits.max_depth ≡ max_depth)
            × (limits.max_ops ≡ max_ops)) }
        ensures refusal { IsOkUnless result Refusal.BadLimits }
    {
        let in_range = (1..=64).contains(&max_open)
            && (1..=1 << 32).contains(&max_ids)
            && (3..=70_000).contains(&max_pages)
            && max_depth <= 16
            && (1..=1_024).contains(&max_ops);
        if in_range {
            Ok(Limits {
                max_open,
                max_ids,
                max_pages,
                max_depth,
                max_ops,
            })
        } else {
            Err(Refusal::BadLimits)
        }
    }

    /// The limits that the program runs with, each the greatest of its range.
    pub fn program() -> Limits
        ensures open { result.max_open ≡ 64 }
        ensures ids { result.max_ids ≡ 2 ^ 32 }
        ensures pages { result.max_pages ≡ 70000 }
        ensures depth { result.max_depth ≡ 16 }
        ensures ops { result.max_ops ≡ 1024 }
    {
        Limits {
            max_open: 64,
            max_ids: 1 << 32,
            max_pages: 70_000,
            max_depth: 16,
            max_ops: 1_024,
        }
    }

    /// The limits of a server without an end: those of [`Limits::program`], but for the numbers of transactions, which no
    /// server uses up. At a million a second they last for 292,000 years.
    pub fn endless() -> Limits
        ensures open { result.max_open ≡ 64 }
        ensures ids { result.max_ids ≡ 2 ^ 63 - 1 }
        ensures pages { result.max_pages ≡ 70000 }
        ensures depth { result.max_depth ≡ 16 }
        ensures ops { result.max_ops ≡ 1024 }
    {
        Limits {
            max_open: 64,
            max_ids: (1 << 63) - 1,
            max_pages: 70_000,
            max_depth: 16,
            max_ops: 1_024,
        }
    }
}
