//! The transactions that make a base: `BaseReader` reads the text of a base, as `run` and `check`
//! print it, piece by piece, and spells transactions that make it, with their answers. What it spells
//! is only tested.
#![tactic(auto)]

mod object;
mod reading;
mod spelling;

pub use reading::{BaseFault, BaseReader};
pub use spelling::{BasePiece, Form, transactions_of};
