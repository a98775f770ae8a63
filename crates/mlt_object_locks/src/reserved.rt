//! The cells that transactions reserved.
//!
//! A transaction has one at most, and a grant uses it up. So few stand at a time, and to go through a list of them takes less
//! than to keep a table.

ghost use Rattle.std.specs.Prelude.{◌≡◌, ◌<◌, ℕ, [], None, Some, OnOk, OnErr, IsOkUnless, position};
ghost use Rattle.mlt_object_locks.specs.Locks.{SameReservations, reservation_of};
ghost use Rattle.mlt_object_locks.specs.Entries.{is_entry_of};

use mlt_types::{Cell, Refusal, TxId};
use std::alloc::Global;
use std::marker::Model;

/// The cells that are reserved, each with its transaction. A contract sees their list, in which each transaction is once, and
/// for how many more there is room.
#[derive(Drop)]
pub(crate) struct Reserved {
    entries: Vec<(TxId, Cell)>,
}

impl Model for Reserved {
    ghost use Rattle.std.specs.Prelude.{◌-◌};
    ghost use Rattle.std.specs.Vec.{vec_capacity, vec_len};
    ghost use Rattle.mlt_object_locks.specs.Entries.{HasEachOnce, CellsWithRoom};

    ghost Value = { CellsWithRoom };

    ghost view = { λ reserved. record {
      items = reserved.entries.items;
      room = vec_capacity reserved.entries - vec_len reserved.entries;
    } };

    ghost invariant = { λ reserved. HasEachOnce reserved.entries.items };
}

impl Reserved {
    /// No cell. It takes no memory.
    pub fn new(alloc: Global) -> Reserved
        ensures { result.items ≡ [] }
    {
        Reserved {
            entries: Vec::new(alloc),
        }
    }

    /// Makes room for one more.
    ///
    /// # Errors
    /// `OutOfMemory`, where a growth was refused.
    #[inline(always)]
    pub fn make_room(&mut self) -> Result<(), Refusal>
        ensures items { self.new.items ≡ self.old.items }
        ensures room { OnOk result (0 < self.new.room) }
        ensures refusal { IsOkUnless result Refusal.OutOfMemory }
    {
        if self.entries.len() < self.entries.capacity() {
            return Ok(());
        }
        self.grow()
    }

    // The same by a growth.
    #[cold]
    #[inline(never)]
    fn grow(&mut self) -> Result<(), Refusal>
        ensures items { self.new.items ≡ self.old.items }
        ensures room { OnOk result (0 < self.new.room) }
        ensures refusal { IsOkUnless result Refusal.OutOfMemory }
    {
        self.entries.reserve(1)?;
        Ok(())
    }

    /// The cell that the transaction reserved, if it did.
    pub fn cell_of(&self, tx: TxId) -> Option<Cell>
        ensures { result ≡ reservation_of self.now.items tx }
    {
        match place_of(&self.entries, tx) {
            Some(at) => Some(self.entries[at].1),
            None => None,
        }
    }

    /// Takes the reservation of the transaction away, and answers its cell, if there was one.
    pub fn take(&mut self, tx: TxId) -> Option<Cell>
        ensures cell { result ≡ reservation_of self.old.items tx }
        ensures taken { reservation_of self.new.items tx ≡ None }
        ensures others { SameReservations self.old.items self.new.items tx }
    {
        match self.entries.last() {
            // It is mostly the last that came.
            Some(entry) if entry.0 == tx => Some(self.entries.pop().unwrap().1),
            _ => self.take_within(tx),
        }
    }

    // The same, wherever it is.
    #[cold]
    #[inline(never)]
    fn take_within(&mut self, tx: TxId) -> Option<Cell>
        ensures cell { result ≡ reservation_of self.old.items tx }
        ensures taken { reservation_of self.new.items tx ≡ None }
        ensures others { SameReservations self.old.items self.new.items tx }
    {
        match place_of(&self.entries, tx) {
            Some(at) => Some(self.entries.swap_remove(at).1),
            None => None,
        }
    }

    /// Reserves a cell for the transaction, in room that was made, and answers the one that it had reserved before, if any.
    pub fn put(&mut self, tx: TxId, cell: Cell) -> Option<Cell>
        requires room { 0 < self.old.room }
        ensures before { result ≡ reservation_of self.old.items tx }
        ensures reserved { reservation_of self.new.items tx ≡ Some cell }
        ensures others { SameReservations self.old.items self.new.items tx }
    {
        match place_of(&self.entries, tx) {
            Some(at) => {
                let before = self.entries[at].1;
                self.entries[at] = (tx, cell);
                Some(before)
            },
            None => {
                self.entries.push_reserved((tx, cell));
                None
            },
        }
    }
}

// Where the transaction is in the list, if it is there.
fn place_of(entries: &[(TxId, Cell)], tx: TxId) -> Option<usize>
    ensures { result ≡ position (is_entry_of tx) entries.now }
{
    entries.iter().position(|entry| entry.0 == tx)
}
