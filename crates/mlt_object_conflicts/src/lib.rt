//! The conflict tables of accounts, sets and counters: a `Table` marks two classes of operations,
//! held and requested, exactly if some operations of them do not right commute backward in some
//! state (Weihl 1988). `clash` compares two operations with their replies. Without a clash the
//! requested one right commutes backward with the held one in every base. Two operations that clash
//! may commute with the amounts at hand. No call allocates memory. The number of marks is only
//! tested.
#![tactic(auto)]

mod accounts;
mod clashes;
mod counters;
mod elements;
mod example;
mod laws;
mod sizes;
mod table;

pub use accounts::AccountClass;
pub use clashes::clash;
pub use counters::CounterClass;
pub use elements::ElementClass;
pub use example::Example;
pub use laws::{
    clashes_are_exact, every_history_of_bases_is_serializable, operation_without_clash_may_come,
    steps_of_bases_meet_the_laws,
};
pub use sizes::SizeExample;
pub use table::Table;
