//! Subtransactions: the changes of one operation to pages, which `end` keeps and `roll_back`
//! undoes, so that all pages are as they were. `Subtx` keeps the first image of each page that it
//! writes, and its page locks, until it ends (Weikum 1991). Both calls always succeed. A write can
//! be refused memory only from the third page on. The caller has to lock each page. That pages made
//! again get the same numbers is only tested.
#![tactic(auto)]

mod image;
mod near;
mod subtx;

pub use subtx::Subtx;
