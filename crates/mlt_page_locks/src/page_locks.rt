//! Page locks of all transactions.

ghost use Rattle.std.specs.Prelude.{◌≡◌, ◌≤◌, ◌<◌, ℕ, true, length, IfOk, IsOkUnless, IsSome, min, unwrap_or, position};
ghost use Rattle.mlt_page_locks.specs.LockTables.{no_locks, mode_held, AreCompatible, HasRoom};
ghost use Rattle.mlt_page_locks.specs.Requests.{granted, released, Answers};
ghost use Rattle.mlt_page_locks.specs.Marks.{mask_of, has_page, IsMarked, InMask, IsMaskOf, KeepsOthers, IsNoneBefore, IsLowestConflict, HasPlaceFor, IsPlaceFor, TakesFree};
ghost use Rattle.mlt_page_locks.specs.LockLists.{is_free, is_list_of, lock_table};

use crate::lock_list::LockList;
use crate::marks::{Marks, next_place};
use mlt_types::{Limits, Mode, PageNo, Refusal, TxId};
use std::alloc::Global;
use std::marker::Model;

// How many rows of masks there are by pages, and by transactions, powers of two. A place is looked at in vain only where
// two numbers have one row.
const PAGE_MASKS: usize = 4_096;

const HOLDER_MASKS: usize = 256;

/// The answer to a request for a lock.
#[derive(Clone, Copy, Debug, PartialEq, Eq)]
pub enum Grant {
    /// The lock is held.
    Held,
    /// The lowest other transaction that holds the page in a mode that does not go with the one asked for.
    Waiting(TxId),
}

/// The page locks that are held. A contract sees a map from transactions to their pages and modes, and for how many
/// transactions there is room; `can_read` and `can_write` read it. Two locks of different transactions on one page
/// always go with each other.
#[derive(Drop)]
pub struct PageLocks {
    lists: Vec<LockList>,
    // At a page, the places whose lists may have it; at a transaction, the places that may be its own.
    pages: Marks,
    holders: Marks,
}

impl Model for PageLocks {
    ghost use Rattle.mlt_page_locks.specs.LockTables.{LockTable, coded_table};
    ghost use Rattle.mlt_page_locks.specs.LockLists.{lock_table};
    ghost use Rattle.mlt_page_locks.specs.Marks.{IsCovered};

    ghost Value = { LockTable };

    ghost coded = { coded_table };

    ghost view = { λ locks. lock_table locks.lists.items };

    ghost invariant = { λ locks. IsCovered locks.lists.items locks.pages locks.holders };
}

impl PageLocks {
    /// No locks, with room for `max_open` transactions of 300 pages each. No other call takes memory.
    ///
    /// # Errors
    /// `OutOfMemory`, where a growth was refused.
    pub fn new(alloc: Global, limits: &Limits) -> Result<PageLocks, Refusal>
        ensures empty { IfOk result (λ locks. locks ≡ no_locks limits.now.max_open) }
        ensures refusal { IsOkUnless result Refusal.OutOfMemory }
    {
        let mut lists = Vec::with_capacity(alloc, limits.max_open as usize)?;
        for _ in 0..limits.max_open {
            lists.push(LockList::new())?;
        }
        let pages = Marks::new(alloc, PAGE_MASKS)?;
        let holders = Marks::new(alloc, HOLDER_MASKS)?;
        Ok(PageLocks {
            lists,
            pages,
            holders,
        })
    }

    /// Asks for a lock of `tx` on a page. It is held exactly where all other holders of the page go with it; else
    /// the answer is the lowest that does not, and nothing changes. A transaction never waits for itself, and one that
    /// holds the page exclusively keeps it so.
    #[inline(always)]
    pub fn ask(&mut self, tx: TxId, page: PageNo, mode: Mode) -> Grant
        requires { HasRoom (granted self.old tx page mode) }
        ensures answer { Answers self.old tx page mode result self.new }
        ensures compatible { AreCompatible self.new }
    {
        let marked = self.pages.mask(u64::from(page.0));
        if let Some(by) = lowest_conflict(&self.lists, marked, tx, page, mode) {
            return Grant::Waiting(by);
        }
        let place = place_for(&mut self.lists, &mut self.holders, tx);
        self.lists[place].add(page, mode);
        self.pages.mark(u64::from(page.0), place);
        Grant::Held
    }

    /// The mode in which `tx` holds a page, the strongest that it was granted.
    pub fn mode_of(&self, tx: TxId, page: PageNo) -> Option<Mode>
        ensures mode { result ≡ mode_held self.now tx page }
        ensures compatible { AreCompatible self.now }
    {
        let place = list_of(&self.lists, self.holders.mask(tx.0), tx)?;
        self.lists[place].mode_of(page)
    }

    /// Takes all locks of one transaction away, and no others.
    #[inline(always)]
    pub fn release_all(&mut self, tx: TxId)
        ensures released { self.new ≡ released self.old tx }
        ensures compatible { AreCompatible self.new }
    {
        if let Some(place) = list_of(&self.lists, self.holders.mask(tx.0), tx) {
            unmark_pages(&mut self.pages, &self.lists[place], place);
            self.holders.unmark(tx.0, place);
            self.lists[place].clear();
        }
    }
}

// Takes the marks of a place away at the pages of its list.
fn unmark_pages(pages: &mut Marks, list: &LockList, place: usize)
    requires { place < 64 }
    ensures gone { (q : ℕ) → has_page q list.now ≡ true → IsMarked pages.new q place → ⊥ }
    ensures others { KeepsOthers pages.old pages.new place }
{
    for lock in list.locks() {
        pages.unmark(u64::from(lock.page.0), place);
    }
}

// The place of the list of `tx`, which is in the mask: mostly the first place there.
#[inline(always)]
fn list_of(lists: &[LockList], mask: u64, tx: TxId) -> Option<usize>
    requires few { length lists.now ≤ 64 }
    requires marked { InMask lists.now (is_list_of tx) mask }
    ensures { result ≡ position (is_list_of tx) lists.now }
{
    let first = next_place(mask, 0, lists.len())?;
    if lists[first].is_of(tx) {
        Some(first)
    } else {
        list_from(first + 1, lists, mask, tx)
    }
}

// The same where it is at no place before `start`.
#[inline(never)]
fn list_from(mut start: usize, lists: &[LockList], mask: u64, tx: TxId) -> Option<usize>
    requires few { length lists.now ≤ 64 }
    requires marked { InMask lists.now (is_list_of tx) mask }
    requires none_before { IsNoneBefore start (is_list_of tx) lists.now }
    ensures { result ≡ position (is_list_of tx) lists.now }
{
    while let Some(place) = next_place(mask, start, lists.len()) {
        if lists[place].is_of(tx) {
            return Some(place);
        }
        start = place + 1;
    }
    None
}

// The place of a list that is nobody's.
fn free_list(lists: &[LockList]) -> Option<usize>
    ensures { result ≡ position is_free lists.now }
{
    lists.iter().position(|list| list.is_free())
}

// The place of the list of `tx`: the one that it has, or else one that is nobody's, which is its own from now on.
#[inline(always)]
fn place_for(lists: &mut Vec<LockList>, holders: &mut Marks, tx: TxId) -> usize
    requires few { length lists.old.items ≤ 64 }
    requires marked { InMask lists.old.items (is_list_of tx) (mask_of holders.old tx) }
    requires left { HasPlaceFor lists.old.items tx }
    ensures place { IsPlaceFor lists.old.items lists.new.items tx result }
    ensures marked { IsMarked holders.new tx result }
    ensures kept { (n p : ℕ) → IsMarked holders.old n p → IsMarked holders.new n p }
{
    match list_of(lists, holders.mask(tx.0), tx) {
        Some(place) => place,
        None => start_list(lists, holders, tx),
    }
}

// Gives `tx` a list that is nobody's.
fn start_list(lists: &mut Vec<LockList>, holders: &mut Marks, tx: TxId) -> usize
    requires few { length lists.old.items ≤ 64 }
    requires left { IsSome (position is_free lists.old.items) }
    ensures place { TakesFree lists.old.items lists.new.items tx result }
    ensures marked { IsMarked holders.new tx result }
    ensures kept { (n p : ℕ) → IsMarked holders.old n p → IsMarked holders.new n p }
{
    match free_list(lists) {
        Some(place) => {
            lists[place].give_to(tx);
            holders.mark(tx.0, place);
            place
        }
        None => unreachable!(),
    }
}

// The lowest other transaction whose lock on the page does not go with one of `tx` in this mode. Mostly nobody has a lock
// on the page.
#[inline(always)]
fn lowest_conflict(
    lists: &[LockList],
    mask: u64,
    tx: TxId,
    page: PageNo,
    mode: Mode,
) -> Option<TxId>
    requires { IsMaskOf lists.now page mask }
    ensures { IsLowestConflict (lock_table lists.now) tx page mode result }
{
    if mask == 0 {
        return None;
    }
    lowest_of_marked(lists, mask, tx, page, mode)
}

// The same, at the places in the mask. Of several that share a page one is enough for a lock that is shared too: where there is
// one, no transaction has the page exclusively.
fn lowest_of_marked(
    lists: &[LockList],
    mask: u64,
    tx: TxId,
    page: PageNo,
    mode: Mode,
) -> Option<TxId>
    requires { IsMaskOf lists.now page mask }
    ensures { IsLowestConflict (lock_table lists.now) tx page mode result }
{
    let mut lowest = None;
    let mut start = 0;
    while let Some(place) = next_place(mask, start, lists.len()) {
        let list = &lists[place];
        if list.conflicts(tx, page, mode) {
            lowest = Some(lower(lowest, list.tx()));
        } else if list.shares(page, mode) {
            return None;
        }
        start = place + 1;
    }
    lowest
}

fn lower(lowest: Option<TxId>, tx: TxId) -> TxId
    ensures { result ≡ min (unwrap_or lowest tx) tx }
{
    match lowest {
        Some(by) if by < tx => by,
        _ => tx,
    }
}
