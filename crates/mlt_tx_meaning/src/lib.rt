//! The proof that the pages mean the history: through each event, the clean pages of a manager hold
//! the state to which its history leads. The laws are of a begin, a commit, an abort, the end of an
//! operation, and its undoing. They require that no other transaction holds a clashing operation,
//! which a granted object lock ensures. No lock, image or store is named here. Each law is the
//! contract of a function that does nothing.
#![tactic(auto)]

mod laws;
mod range;

pub use laws::{
    abort_keeps_the_match, begin_keeps_the_match, both_changes_are_left, end_keeps_the_match,
    opening_file_matches_the_empty_history, operation_keeps_the_match,
    pages_and_history_fix_the_base, record_fixes_the_reply, same_pages_keep_the_match,
    undoing_keeps_the_match, walks_find_the_record, walks_stand_while_others_begin_and_end,
    what_an_inverse_changes_is_there, what_both_changes_need_is_there,
};
pub use range::operation_is_in_range;
