//! Pages with their locks.

use mlt_page::Store;
use mlt_page_locks::PageLocks;

/// The pages of all transactions, and which transaction holds which of them.
#[derive(Drop)]
pub struct LockedStore {
    pub store: Store,
    pub locks: PageLocks,
}
