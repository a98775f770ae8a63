//! The pages of the hash file and their store: `HeadPage`, `DirPage` and `Bucket` are plain values,
//! and `Store` maps page numbers to pages up to a limit. In a `Page` a bucket lies itself, and a
//! page of another kind in a room of its own, so that a bucket takes no more room than it needs. A
//! bucket has eight slots, and each change sets one slot. A removed record leaves a ghost, which
//! keeps its slot while its transaction is open. Only `grow` of the store takes memory, and what
//! makes a page of the directory or a header. That `grow` reuses the number of the page that was
//! dropped last is only tested.
#![tactic(auto)]

mod boxed;
mod bucket;
mod directory;
mod page;
mod slot;
mod store;

pub use boxed::{BoxedDir, BoxedHead};
pub use bucket::{Bucket, SLOTS};
pub use directory::{DIR_ENTRIES, DirPage, HeadPage};
pub use page::Page;
pub use slot::Slot;
pub use store::Store;
