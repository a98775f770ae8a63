//! An operation that adds or removes an element, run on two records: the element and the size of
//! its set are both changed, or neither is. `TwoRecordWalk` finds both keys in a first pass of four
//! to seven steps. If a bucket has no room, a wide pass splits it. The walk waits exactly if
//! another transaction holds the page that it needs, and only a wide pass is refused. That the
//! records are there is proved in `mlt_tx_meaning`.
#![tactic(auto)]

mod answer;
mod asked;
mod first;
mod two_record_laws;
mod two_records;
mod wide;

pub use answer::TwoRecordAnswer;
pub use two_record_laws::{
    changes_are_left_as_told, closed_owners_keep_the_two_record_walk,
    same_view_keeps_the_two_record_walk, two_record_walks_come_to_an_end,
    two_record_walks_hold_fewer_than_300_pages, two_record_walks_start_without_pages,
};
pub use two_records::{TwoRecordWalk, WideStage};
