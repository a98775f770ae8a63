//! The comparison of crates of tests. `same_at` returns Ok exactly if both values are equal.
#![tactic(auto)]

mod compare;

pub use compare::same_at;
