//! Walks through an extendible hash file, one page per step, beside the walks of other
//! transactions. A `Walk` locks the header, a directory page and the bucket of its key, and changes
//! the record of that key alone. If the bucket is full, a later pass splits it. What a walk has
//! found stays true until it ends. It holds fewer than 300 pages. No clause says that a walk
//! without a split takes no memory.
#![tactic(auto)]

mod adding;
mod answer;
mod change;
mod going_on;
mod opening;
mod pass;
mod path;
mod room;
mod walk;
mod walk_laws;

pub use answer::WalkAnswer;
pub use mlt_hash_split::Environment;
pub use opening::open_file;
pub use pass::{Change, Pass, Phase};
pub use walk::Walk;
pub use walk_laws::{
    closed_owners_keep_the_walk, closed_owners_keep_what_was_written, each_step_leaves_one_fewer,
    narrow_passes_hold_their_next_page, narrow_passes_never_wait, same_view_keeps_the_walk,
    walk_at_its_bucket_has_passed, walk_starts_without_pages, walks_hold_fewer_than_300_pages,
    what_is_found_is_there, what_was_found_stays_there,
};
