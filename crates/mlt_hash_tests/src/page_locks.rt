//! Grants on one page.

ghost use Rattle.std.specs.Prelude.{◌≡◌, ◌↔◌, IsTrue};
ghost use Rattle.mlt_hash_tests.specs.Desks.{IsOfSmallNumbers, IsSmall};

use mlt_page_locks::{Grant, PageLocks};
use mlt_test_tools::same_at;
use mlt_types::{Limits, Mode, PageNo, Refusal, TxId};
use std::alloc::Global;
use std::process::Abort;
use std::test::Fail;

/// Locks of transactions and on pages of small numbers, with room for 64 transactions.
#[derive(Drop)]
pub struct PageDesk {
    locks: PageLocks,
    ghost small: { IsOfSmallNumbers locks },
    ghost room: { locks.max_open ≡ 64 },
}

impl PageDesk {
    /// The answer to a request for a lock.
    pub fn ask(&mut self, rt: &impl Abort, tx: u64, page: u32, mode: Mode) -> Grant {
        assert!(rt; is_small(tx));
        assert!(rt; is_small(u64::from(page)));
        self.locks.ask(TxId(tx), PageNo(page), mode)
    }

    /// Takes all locks of a transaction away.
    pub fn release_all(&mut self, tx: u64) {
        self.locks.release_all(TxId(tx));
    }
}

// Whether a number is below 16, or at most 15 above 4,096: such a page shares its row of masks with one below 16.
fn is_small(number: u64) -> bool
    ensures { IsTrue result ↔ IsSmall number }
{
    number < 16 || (4_096 <= number && number < 4_096 + 16)
}

/// No locks.
pub fn new_desk(alloc: Global) -> Result<PageDesk, Refusal> {
    let locks = PageLocks::new(alloc, &Limits::program())?;
    Ok(PageDesk { locks })
}

// Requests for page 9, each with the transaction that it waits for; where there is no mode, the transaction is closed.
const GRANTS: &[(u64, Option<Mode>, Option<u64>)] = &[
    (1, Some(Mode::Shared), None),
    (2, Some(Mode::Shared), None),
    (3, Some(Mode::Exclusive), Some(1)),
    (1, Some(Mode::Exclusive), Some(2)),
    (2, None, None),
    (1, Some(Mode::Exclusive), None),
    (3, Some(Mode::Shared), Some(1)),
];

#[test]
fn page_lock_grants(rt: HostRuntime) -> Result<(), Fail> {
    let mut desk = new_desk(rt.alloc())?;
    for (tx, mode, holder) in GRANTS {
        match *mode {
            Some(mode) => {
                let found = match desk.ask(&rt, *tx, 9, mode) {
                    Grant::Held => None,
                    Grant::Waiting(by) => Some(by.0),
                };
                same_at(&(tx, mode), &found, holder)?;
            }
            None => desk.release_all(*tx),
        }
    }
    Ok(())
}
