//! The history of a manager and its text, the trace. `History` is a list of items with reserved
//! room, whose items can be handed out. `write_trace` writes one line for each `TraceItem`.
//! `write_block` writes lines of which none crosses the end of a block of 4,096 bytes, so a killed
//! server leaves no part of a line. Only `reserve` and `hand_out` can be refused. No clause says
//! that a line fits: the longest has 89 bytes, and 96 are free.
#![tactic(auto)]

mod block;
mod history;
mod item;
mod kept;
mod laws;
mod ranges;
mod rooms;
mod trace;

pub use block::write_block;
pub use history::History;
pub use item::TraceItem;
pub use kept::KeptItem;
pub use laws::{
    begun_numbers_are_those_up_to_the_count, commits_stay_counted, items_begin_in_order,
    items_count_the_committed, items_grow_by_entries,
};
pub use rooms::{Rooms, rooms_add_up};
pub use trace::write_trace;
