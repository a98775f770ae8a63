//! Splits a full bucket, one page per step, without losing a record or a ghost of an open
//! transaction. `Split` makes the bucket one deeper, and may double the directory. Each step writes
//! or makes the page that its phase names, waits for no page but the directory page that it writes,
//! and leaves one step fewer. NoRoom is returned exactly if a page is needed and the limit is
//! reached. After a refusal the caller has to roll back.
#![tactic(auto)]

mod begin;
mod environment;
mod pages;
mod phase;
mod split;
mod split_laws;

pub use environment::Environment;
pub use phase::SplitPhase;
pub use split::{Split, SplitAnswer};
pub use split_laws::{
    closed_owners_keep_the_rest, closed_owners_keep_the_split, narrow_splits_lock_the_keys_page,
    steps_lock_their_page_alone,
};
