//! A hash file for one caller, which runs one walk at a time to its end: `HashFile` is a finite map
//! from keys to values. An insertion is refused only if the bucket of the key is full, and then
//! changes nothing. `get`, `update` and `remove` are never refused. No program uses it: it shows
//! what the walks of `mlt_hash` do without others beside them. The contract of `insert` says when a
//! refusal may come, and not that it must.
#![tactic(auto)]

mod hash_file;
mod runner;

pub use hash_file::HashFile;
