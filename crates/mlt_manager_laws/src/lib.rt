//! Laws of the runs of a manager: its promises hold between any two events, and an operation takes
//! as many steps as `mlt_tx_step_counts` says, whatever other transactions do. By
//! `managers_of_a_run_keep_their_promises` each manager to which a run leads keeps them.
//! `operations_of_a_run_take_few_steps` and `aborts_of_a_run_take_few_steps` have the counts.
//! `operations_do_their_steps` ties the main promise to the tables of operations. Each law is the
//! contract of a function that does nothing.
#![tactic(auto)]

mod object_laws;
mod run_laws;

pub use object_laws::operations_do_their_steps;
pub use run_laws::{
    aborts_of_a_run_take_few_steps, managers_of_a_run_keep_their_promises,
    operations_of_a_run_take_few_steps,
};
