//! Ghosts of open transactions in a hash file: the slot of a removed record is kept until the
//! transaction that removed it has ended. `ghost_of` finds a ghost, and laws say that operations,
//! undoing and splits preserve all of them. So undoing a removal always finds a slot. The laws
//! require that no other open transaction holds the opposite operation on the key, which a granted
//! object lock ensures. No call allocates memory.
#![tactic(auto)]

mod change_laws;
mod finding;
mod move_laws;
mod room;
mod transaction_laws;

pub use change_laws::{
    addition_puts_a_record, addition_revives_the_ghost, plain_put_keeps_ghosts,
    plain_update_keeps_ghosts, removal_makes_the_ghost, undone_addition_leaves_a_ghost,
    undone_removal_revives_the_ghost,
};
pub use finding::{ghost_of, look_up_finds_the_ghost, what_is_undone_is_found};
pub use mlt_hash_form::Root;
pub use move_laws::{
    ghosts_move_with_their_keys, kept_file_keeps_ghosts, moves_join, rearranged_slots_are_moved,
    same_pages_keep_ghosts, split_moves_slots,
};
pub use room::{kept_room, reclaimable};
pub use transaction_laws::{
    abort_keeps_ghosts, begin_keeps_ghosts, close_frees_the_room, file_without_ghosts,
    operations_keep_ghosts,
};
