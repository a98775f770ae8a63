//! Numbers of transactions and pages, and the values of records.

use std::marker::Model;

/// The number of a transaction. Numbers are given out from 1 upwards and never again, so 0 is nobody's.
#[derive(Clone, Copy, Debug, PartialEq, Eq, PartialOrd, Ord, Hash)]
pub struct TxId(pub u64);

impl Model for TxId {
    ghost use Rattle.std.specs.Prelude.{ℕ};

    ghost Value = { ℕ };

    ghost view = { λ id. id.0 };

    ghost inverse = { λ n. record { 0 = n } };
}

/// The number of a page. It has 32 bits, so that a directory page of 256 of them takes 1 KiB.
#[derive(Clone, Copy, Debug, PartialEq, Eq, PartialOrd, Ord, Hash)]
pub struct PageNo(pub u32);

impl Model for PageNo {
    ghost use Rattle.std.specs.Prelude.{ℕ};

    ghost Value = { ℕ };

    ghost view = { λ page. page.0 };

    ghost inverse = { λ n. record { 0 = n } };
}

/// What a record holds: a balance, a counter's value, or 0 for an element of a set.
pub type Value = u64;
