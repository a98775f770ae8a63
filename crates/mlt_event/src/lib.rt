//! The events of a manager: `Event` is a request, `Answer` the result of one step of a transaction,
//! and `Told` the result of an event. It is proved that `Answer` and `Told` print as their texts.
//! Which event has which result is specified by `mlt_manager`.
#![tactic(auto)]

mod answer;
mod event;
mod told;

pub use answer::Answer;
pub use event::Event;
pub use told::Told;
