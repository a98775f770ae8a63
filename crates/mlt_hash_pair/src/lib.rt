//! Finds two keys in one pass, one page per step, and changes at most one record of each. `Pair`
//! locks the header, the directory pages and the buckets in one fixed order, at most five pages. It
//! waits exactly if another transaction holds the next page in an incompatible mode. `change` and
//! `write_earlier` write the buckets; if one has no room, `change` says which, and writes nothing.
//! It splits nothing and takes no memory.
#![tactic(auto)]

mod answer;
mod asked;
mod change;
mod descent;
mod pair;
mod pair_laws;
mod plan;

pub use answer::{ChangeAnswer, PairAnswer, Side};
pub use asked::{PairChanges, RecordChange};
pub use descent::Descent;
pub use pair::Pair;
pub use pair_laws::{
    closed_owners_keep_the_pair, each_change_changes_one_record, finding_pairs_hold_what_they_read,
    keys_lead_to_their_buckets, pair_starts_without_pages, same_view_keeps_the_pair,
    what_was_found_stays_there,
};
