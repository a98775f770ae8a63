//! How many steps an operation of a transaction takes, and its inverse, without the steps that
//! wait. The first pass on one record takes 4 steps, and on two records 4 to 7. A pass that splits
//! takes at least three more for each split. Seven laws say at which step each pass is done,
//! blocked or refused, whatever other transactions do in between. How many splits a pass makes is
//! bounded by the depth of the file alone.
#![tactic(auto)]

mod step_laws;

pub use step_laws::{
    first_passes_on_two_take_four_to_seven_steps, first_passes_take_four_steps,
    inverses_on_two_take_four_to_seven_steps, inverses_take_four_steps_or_one,
    narrow_passes_take_few_steps, wide_passes_on_two_take_few_steps, wide_passes_take_few_steps,
};
