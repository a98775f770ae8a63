//! The pages that a running walk holds: each call locks, reads, writes or makes one page, and says
//! how that changes the locks, the images, the store and the view of the walk. These are `lock`,
//! `read_held`, `write_held` and `make_page`. A wait or a refusal changes nothing. Laws say of all
//! running subtransactions at once that each may step, and that none changes the view of another.
//! The caller ensures that a walk holds at most 300 pages.
#![tactic(auto)]

mod clean_laws;
mod locked_store;
mod others_laws;
mod pages;
mod view_laws;

pub use clean_laws::{
    begin_leaves_clean_pages, clean_pages_are_clean_for_each, close_leaves_clean_pages,
    end_makes_written_pages_clean, nobody_runs_at_first, roll_back_leaves_clean_pages,
    step_adds_one_page_at_most, step_leaves_clean_pages,
};
pub use locked_store::LockedStore;
pub use others_laws::{others_leave_the_view, others_leave_what_was_written};
pub use pages::{
    lock, make_dir_page, make_page, read_held, read_held_bucket, read_held_dir, read_held_head,
    write_held, write_held_dir, write_held_head, write_slot,
};
pub use view_laws::{
    own_steps_see_more, rebased_views_agree_with_what_was_written, rebased_views_step_alike,
    view_agrees_with_clean_pages, written_pages_are_held_exclusively,
};
