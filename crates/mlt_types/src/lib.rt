//! The values that all crates share: cells and their keys, pseudokeys, numbers of transactions and
//! pages, limits, and refusals. Each `Limits` is in range, and no two cells have the same `Key`.
//! `Pseudo` is any function from keys to 64 bits; `Mult` and `Low` are the two that the program
//! offers. `OpenSet` is a set of at most 64 transactions, and `PlaceHints` tell where in a list to
//! look first for one. No call allocates memory. How evenly the pseudokeys are distributed is not
//! specified.
#![tactic(auto)]

mod cell;
mod ghost_list;
mod limits;
mod mode;
mod number;
mod open_set;
mod place_hints;
mod pseudo;
mod refusal;

pub use cell::{Cell, Key};
pub use ghost_list::GhostList;
pub use limits::Limits;
pub use mode::Mode;
pub use number::{PageNo, TxId, Value};
pub use open_set::OpenSet;
pub use place_hints::PlaceHints;
pub use pseudo::{Low, Mult, Pseudo};
pub use refusal::{Refusal, ScriptCause, TraceCause};
