//! The form of an extendible hash file (Fagin, Nievergelt, Pippenger and Strong 1979), and the laws
//! by which each change of a record and each step of a split preserves it. `insert`, `update`,
//! `remove` and `revive` plan a change as slots to set; the walk that holds the page writes them.
//! `home_bucket` finds the bucket of a key without locks. Each law is the contract of a function
//! that does nothing. No call allocates memory.
#![tactic(auto)]

mod change;
mod change_laws;
mod directory_page;
mod form_laws;
mod held_laws;
mod look_up;
mod place;
mod record_laws;
mod room;
mod root;
mod slot_write;
mod split_laws;

pub use change::{insert, remove, revive, update};
pub use change_laws::{
    put_adds_the_record, revive_adds_the_record, set_value_changes_the_record,
    to_ghost_removes_the_record,
};
pub use directory_page::{
    doubled_page, doubled_page_is_right, new_places_on_one_page, new_places_on_whole_pages,
    page_with_new_places, page_with_new_places_is_right,
};
pub use form_laws::{
    each_pseudokey_has_a_path, extendible_hashing_is_the_form, form_is_extendible_hashing,
    look_up_is_exact, look_up_is_the_records, opening_file_has_the_form, path_leads_home,
    records_are_defined, slots_of_a_key_are_in_its_bucket,
};
pub use held_laws::{
    change_of_a_kept_file, changed_file_has_its_values, end_of_another_walk,
    fewer_open_owners_keep_the_file, further_page_keeps_the_file, held_page_reads_the_same,
    insertion_is_a_write, kept_file_has_its_values, own_write_is_a_write, split_keeps_the_file,
    walk_without_writes_keeps_the_file,
};
pub use look_up::{home_bucket, value_in};
pub use place::{DirSlot, NewPlaces, first_bits};
pub use record_laws::{
    change_to_a_value_inserts, change_to_no_value_removes, changed_file_changes_the_map,
    look_up_is_the_map, opening_file_has_the_empty_map, records_are_a_map, split_leaves_the_map,
};
pub use room::{
    crowding_at_own_depth, crowding_in_fewer_bits, crowding_is_local, depth_with_room,
    fewer_kept_slots_are_no_more_crowded, half_is_no_more_crowded, is_crowded,
};
pub use root::Root;
pub use slot_write::SlotWrite;
pub use split_laws::{
    directory_page_has_its_entries, named_page_makes_the_list_longer, pages_of_a_doubled_directory,
    split_begins_in_place, split_begins_to_double, split_closes_by_header, split_closes_in_place,
    split_makes_a_page, split_rewrites_a_page, unwritten_page_is_as_it_was,
};
