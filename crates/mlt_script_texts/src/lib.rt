//! Texts for people, of scripts, schedules and traces. `report_verbose` writes the second line of a
//! fault: where it is, and what was expected. `write_shown` writes what `solo`, `steps` and `run`
//! print beside their input, or in colours. What these texts say is only tested.
#![tactic(auto)]

mod expected;
mod forms;
mod hint;
mod rows;
mod script_rows;
mod shown;
mod truth;
mod verbose;
mod words;

pub use rows::Look;
pub use script_rows::{Echoed, write_shown};
pub use verbose::{Detail, TextFault, report_verbose};
