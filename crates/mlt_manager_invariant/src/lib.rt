//! The invariant of a manager, and the laws by which each event preserves it. In a sound state the
//! clean pages mean the history, the undo lists, object locks and reserved room are what the
//! history says, and each transaction may step. The history also passes the checker. Each law is
//! the contract of a function that does nothing. Only `copy_slots` has code: it copies the live
//! slots of a bucket into the base that they mean.
#![tactic(auto)]

mod cells;
mod copying;
mod laws;
mod slots;
mod trace_laws;

pub use laws::{
    abort_that_begins, event_that_keeps_clean_pages, inverse_that_is_not_done,
    last_undone_operation_keeps_all, opening_state_is_sound, operation_that_is_called,
    operation_that_is_cancelled, operation_that_is_done, operation_that_is_not_done,
    reply_of_a_pending_operation, transaction_that_begins, transaction_that_ends,
    transactions_may_step, undone_operation_keeps_all,
};
pub use slots::copy_slots;
pub use trace_laws::{
    ends_of_transactions_are_traced, events_without_an_item,
    history_of_a_manager_passes_the_checker, opening_state_is_traced, operations_are_traced,
    sound_states_give_places, transaction_that_begins_is_traced,
};
