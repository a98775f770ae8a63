//! The laws of commit order: in every history the committed transactions, in the order of their
//! commits, are a serial run. They hold for any states and any items. An item is an operation with
//! its reply; it may come next if it right commutes backward (Weihl 1988) with all items of other
//! open transactions. Then each open transaction can be undone, its last item first (Weikum 1991).
//! No law says that a transaction ends.
#![tactic(auto)]

mod history;
mod laws;
mod steps;

pub use history::{
    every_history_is_serializable, history_fixes_its_state, history_grows,
    last_item_can_be_taken_back, lists_hold_what_is_open, lists_tell_what_was_begun_and_done,
};
pub use laws::{
    begin_keeps_undone_to, commit_keeps_undone_to, done_keeps_undone_to,
    finitely_many_have_an_interleaving, interleavings_take_first_items, one_base_fits,
    undo_keeps_undone_to,
};
pub use steps::Steps;
