//! The locks of one transaction, by rising page numbers.

ghost use Rattle.std.specs.Prelude.{◌≡◌, ◌==◌, ◌&&◌, ◌↔◌, false, not, length, IfSome, IsTrue, MatchResult};
ghost use Rattle.std.specs.Option.{option_map_or};
ghost use Rattle.std.specs.FinMap as map;
ghost use Rattle.mlt_page_locks.specs.Requests.{stronger, is_against};
ghost use Rattle.mlt_page_locks.specs.LockTables.{goes_with};
ghost use Rattle.mlt_page_locks.specs.LockLists.{is_free, is_list_of, modes_of, with_lock, IsRising, IsAt, IsBetween, HasRoomFor};

use arrayvec::ArrayVec;
use mlt_types::{Mode, PageNo, TxId};
use std::marker::Model;

/// A lock on one page.
#[derive(Clone, Copy, Debug)]
pub(crate) struct PageLock {
    pub page: PageNo,
    pub mode: Mode,
}

impl Default for PageLock {
    fn default() -> PageLock {
        PageLock {
            page: PageNo(0),
            mode: Mode::Shared,
        }
    }
}

/// The locks of one transaction, at most 300; a list with no lock is nobody's. A contract sees the number of the
/// transaction and a map from its pages to their modes.
#[derive(Drop)]
pub(crate) struct LockList {
    tx: TxId,
    locks: ArrayVec<PageLock, 300>,
}

impl Model for LockList {
    ghost use Rattle.mlt_page_locks.specs.LockLists.{HeldPages, coded_pages, modes_of, IsInOrder};

    ghost Value = { HeldPages };

    ghost coded = { coded_pages };

    ghost view = { λ list. record { tx = list.tx; modes = modes_of list.locks.items } };

    ghost invariant = { λ list. IsInOrder list.locks.items };
}

impl LockList {
    /// A list with no lock.
    pub fn new() -> LockList
        ensures { result ≡ record { tx = 0; modes = map.empty } }
    {
        LockList {
            tx: TxId(0),
            locks: ArrayVec::new(),
        }
    }

    /// Whether the list has no lock.
    pub fn is_free(&self) -> bool
        ensures { result ≡ is_free self.now }
    {
        self.locks.is_empty()
    }

    /// Whose locks these are. A list with no lock has a number too, which says nothing.
    pub fn tx(&self) -> TxId
        ensures { result ≡ self.now.tx }
    {
        self.tx
    }

    /// Whether these are locks of `tx`.
    pub fn is_of(&self, tx: TxId) -> bool
        ensures { result ≡ is_list_of tx self.now }
    {
        self.tx == tx && !self.is_free()
    }

    /// The mode in which a page is held, if it is.
    pub fn mode_of(&self, page: PageNo) -> Option<Mode>
        ensures { result ≡ map.get self.now.modes page }
    {
        match place_of(&self.locks, page) {
            Ok(place) => Some(self.locks[place].mode),
            Err(_) => None,
        }
    }

    /// Whether another transaction has a lock here that does not go with one of `tx`.
    pub fn conflicts(&self, tx: TxId, page: PageNo, mode: Mode) -> bool
        ensures { let held = map.get self.now.modes page in
            result ≡ (not (self.now.tx == tx) && is_against held mode) }
    {
        self.tx != tx
            && self
                .mode_of(page)
                .is_some_and(|held| !goes_with(held, mode))
    }

    /// Whether there is a lock on the page here that goes with one in this mode: both are shared.
    pub fn shares(&self, page: PageNo, mode: Mode) -> bool
        ensures { let held = map.get self.now.modes page in
            result ≡ option_map_or (λ held. goes_with held mode) held false }
    {
        self.mode_of(page).is_some_and(|held| goes_with(held, mode))
    }

    /// The locks, each page once.
    pub fn locks(&self) -> &[PageLock]
        ensures { modes_of result.now ≡ self.now.modes }
    {
        &self.locks
    }

    /// Makes the list that of `tx`.
    pub fn give_to(&mut self, tx: TxId)
        ensures { self.new ≡ record { tx = tx; modes = self.old.modes } }
    {
        self.tx = tx;
    }

    /// Adds a lock, or makes one that is there stronger. It searches for the page only where that is not behind all others,
    /// and there are not just two.
    #[inline(always)]
    pub fn add(&mut self, page: PageNo, mode: Mode)
        requires { HasRoomFor self.old page mode }
        ensures { self.new ≡ with_lock self.old page mode }
    {
        if is_behind(&self.locks, page) {
            self.locks.push(PageLock { page, mode });
        } else if let Some(place) = place_among_two(&self.locks, page) {
            self.locks.insert(place, PageLock { page, mode });
        } else {
            self.add_anywhere(page, mode);
        }
    }

    // The same by a search for the page.
    #[inline(never)]
    fn add_anywhere(&mut self, page: PageNo, mode: Mode)
        requires { HasRoomFor self.old page mode }
        ensures { self.new ≡ with_lock self.old page mode }
    {
        match place_of(&self.locks, page) {
            Ok(place) => {
                let mode = stronger(self.locks[place].mode, mode);
                self.locks[place] = PageLock { page, mode };
            }
            Err(place) => self.locks.insert(place, PageLock { page, mode }),
        }
    }

    /// Takes all locks away.
    pub fn clear(&mut self)
        ensures { self.new ≡ record { tx = self.old.tx; modes = map.empty } }
    {
        self.locks.clear();
    }
}

// Whether all of these locks are on lower pages.
#[inline(always)]
fn is_behind(locks: &[PageLock], page: PageNo) -> bool
    requires { IsRising locks.now }
    ensures { IsTrue result ↔ IsBetween locks.now page (length locks.now) }
{
    match locks.last() {
        Some(last) => last.page.0 < page.0,
        None => true,
    }
}

// Where a lock on the page comes among two, of which none is on it and the last is on a higher page.
#[inline(always)]
fn place_among_two(locks: &[PageLock], page: PageNo) -> Option<usize>
    requires { IsRising locks.now }
    ensures { IfSome result (IsBetween locks.now page) }
{
    match locks {
        [first, _] if page.0 < first.page.0 => Some(0),
        [first, last] if first.page.0 < page.0 && page.0 < last.page.0 => Some(1),
        _ => None,
    }
}

// Where the lock on a page is, or else its place among those on lower and higher pages.
fn place_of(locks: &[PageLock], page: PageNo) -> Result<usize, usize>
    requires { IsRising locks.now }
    ensures { MatchResult result (IsAt locks.now page) (IsBetween locks.now page) }
{
    locks.binary_search_by_key(&page.0, |lock| lock.page.0)
}

fn goes_with(held: Mode, asked: Mode) -> bool
    ensures { result ≡ goes_with held asked }
{
    held == Mode::Shared && asked == Mode::Shared
}

fn stronger(held: Mode, asked: Mode) -> Mode
    ensures { result ≡ stronger (Some held) asked }
{
    match held {
        Mode::Shared => asked,
        Mode::Exclusive => Mode::Exclusive,
    }
}
