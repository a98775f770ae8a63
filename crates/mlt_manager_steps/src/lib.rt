//! Replays a schedule of events on a manager, and writes the result of each event and the base at
//! the end. By the contract of `steps` the input spells the events, the manager has played them
//! from its beginning, and the text shows their results. With `--explain` lines that begin with `#`
//! follow the result of each blocked operation and each wait, with the reason. By the contract
//! nothing but such lines is added; which ones, is only tested, against some written by hand and
//! against a model.
#![tactic(auto)]

mod examples;
mod playing;
mod reasons;
mod replayed;
mod report;
mod steps_engine;

pub use steps_engine::steps;
