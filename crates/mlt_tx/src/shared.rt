//! What the transactions of a manager share.

use mlt_hash_access::LockedStore;
use mlt_object_locks::ObjectLocks;
use mlt_trace::History;
use std::alloc::Global;

/// The pages with their locks, the object locks, and the history.
#[derive(Drop)]
pub struct SharedState {
    pub alloc: Global,
    pub pages: LockedStore,
    pub objects: ObjectLocks,
    pub history: History,
}
