//! Tests of page locks and of the hash file for one caller, which the program doesn't use so, and of
//! both tables of locks beside plain lists. They are in a crate of their own because a crate with
//! tests is proved twice.
#![tactic(auto)]

#[cfg(test)]
mod hash_files;
#[cfg(test)]
mod page_locks;
#[cfg(test)]
mod scanned;
