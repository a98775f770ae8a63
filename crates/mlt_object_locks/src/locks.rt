//! The table of object locks, by places: a request looks at two of them at most, and a release at those of its transaction.

ghost use Rattle.std.specs.Prelude.{◌≡◌, ℕ, [], ◌∷◌, ◌++◌, Some, None, OnOk, OnErr, IfErr, IsOkUnless};
ghost use Rattle.std.specs.List.{filter};
ghost use Rattle.mlt_object_kinds.specs.Operations.{cell_of};
ghost use Rattle.mlt_types.specs.Cells.{IsInRange};
ghost use Rattle.mlt_object_locks.specs.Locks.{no_locks, HoldsClash, IsAnswered, IsLowestClash, is_of_other, reservation_of, Reserves, SameReservations};
ghost use Rattle.mlt_object_locks.specs.Places.{places_of};

use crate::cells::{
    Cells, alone_at, give_up_cell, give_up_each, grant, grant_each, join_each, lowest_clash,
    release_each, release_noted,
};
use crate::noted::Noted;
use crate::places::{looked_at, only_place, places_if_any, places_of};
use crate::reserved::Reserved;
use indexmap::IndexMap;
use mlt_object_kinds::Done;
use mlt_types::{Cell, GhostList, Refusal, TxId};
use std::alloc::Global;
use std::marker::Model;

/// The operations that transactions hold, and the cells that they reserved. A contract sees the list of
/// the operations with their replies, each with the number of its transaction, in the order in which they
/// were granted; and beside it the list of the reservations.
#[derive(Drop)]
pub struct ObjectLocks {
    cells: Cells,
    // Where the cell that was reserved last is in the map, unless another place went from there since then.
    latest: usize,
    reserved: Reserved,
    noted: Noted,
    // For clauses alone.
    held: GhostList<(TxId, Done)>,
}

impl Model for ObjectLocks {
    ghost use Rattle.mlt_object_locks.specs.Locks.{Locks};
    ghost use Rattle.mlt_object_locks.specs.Cells.{IsSound};

    ghost Value = { Locks };

    ghost view = { λ locks.
        record { held = locks.held.items; reserved = locks.reserved.items } };

    ghost invariant = { λ locks.
        IsSound locks.cells locks.reserved.items locks.noted locks.held.items };
}

impl ObjectLocks {
    /// No lock and no reservation. It takes no memory.
    pub fn new(alloc: Global) -> ObjectLocks
        ensures { result ≡ no_locks }
    {
        ObjectLocks {
            cells: IndexMap::new(alloc),
            latest: 0,
            reserved: Reserved::new(alloc),
            noted: Noted::new(alloc),
            held: GhostList::of(&(), &()),
        }
    }

    /// Makes room for one operation of the transaction, on this cell, and where it is an element, on its set. Its
    /// reservation before this one, if there was one, is given up.
    ///
    /// # Errors
    /// `OutOfMemory`, where a growth was refused; what is held and reserved is then as before.
    #[inline(always)]
    pub fn reserve(&mut self, tx: TxId, cell: &Cell) -> Result<(), Refusal>
        ensures held { self.new.held ≡ self.old.held }
        ensures reserved { OnOk result (reservation_of self.new.reserved tx ≡ Some cell.now) }
        ensures others { SameReservations self.old.reserved self.new.reserved tx }
        ensures err { OnErr result (self.new ≡ self.old) }
        ensures refusal { IsOkUnless result Refusal.OutOfMemory }
    {
        match only_place(cell) {
            Some(place) => self.reserve_at(tx, cell, &[place]),
            None => self.reserve_anywhere(tx, cell),
        }
    }

    // The same at these places, which are those of the cell.
    #[inline(always)]
    fn reserve_at(&mut self, tx: TxId, cell: &Cell, places: &[u64]) -> Result<(), Refusal>
        requires { places.now ≡ places_of cell.now }
        ensures reserves { Reserves self.old self.new tx cell.now result }
        ensures refusal { IsOkUnless result Refusal.OutOfMemory }
    {
        self.reserved.make_room()?;
        self.noted.make_room(tx)?;
        match join_each(&mut self.cells, places, tx) {
            Ok(latest) => self.latest = latest,
            Err(refusal) => {
                let kept = places_if_any(self.reserved.cell_of(tx));
                give_up_each(&mut self.cells, places, kept.as_slice(), tx);
                return Err(refusal);
            },
        }
        let before = self.reserved.put(tx, *cell);
        give_up_cell(&mut self.cells, before, places, tx);
        Ok(())
    }

    // The same, wherever the operation stands.
    #[inline(never)]
    fn reserve_anywhere(&mut self, tx: TxId, cell: &Cell) -> Result<(), Refusal>
        ensures reserves { Reserves self.old self.new tx cell.now result }
        ensures refusal { IsOkUnless result Refusal.OutOfMemory }
    {
        let places = places_of(cell);
        self.reserve_at(tx, cell, places.as_slice())
    }

    /// Grants the transaction an operation with its reply, on the cell that it reserved, and uses up the
    /// reservation. It takes no memory.
    ///
    /// # Errors
    /// The lowest number of another transaction that holds an operation with which this one, requested
    /// later, conflicts. What is held and reserved is then as before.
    #[inline(always)]
    pub fn ask(&mut self, tx: TxId, done: &Done) -> Result<(), TxId>
        requires { reservation_of self.old.reserved tx ≡ Some (cell_of done.now.0) }
        ensures free { OnOk result
            ((holder : ℕ) → HoldsClash self.old.held tx done.now holder → ⊥) }
        ensures granted { OnOk result (self.new.held ≡ self.old.held ++ (tx, done.now) ∷ []) }
        ensures used { OnOk result (reservation_of self.new.reserved tx ≡ None) }
        ensures others { SameReservations self.old.reserved self.new.reserved tx }
        ensures lowest { IfErr result (λ holder. IsLowestClash self.old.held tx done.now holder) }
        ensures err { OnErr result (self.new ≡ self.old) }
    {
        let cell = done.cell();
        cell.is_in_range();
        if let Some(place) = only_place(&cell) {
            if let Some(at) = alone_at(&self.cells, place, self.latest, tx) {
                grant(&mut self.cells, &mut self.noted, place, at, tx, done);
                self.reserved.take(tx);
                self.held = GhostList::of(&self.held, &(tx, *done));
                return Ok(());
            }
        }
        self.ask_anywhere(tx, done)
    }

    // The same, wherever the operation looks and stands, and whichever other operations do.
    #[inline(never)]
    fn ask_anywhere(&mut self, tx: TxId, done: &Done) -> Result<(), TxId>
        requires reserved { reservation_of self.old.reserved tx ≡ Some (cell_of done.now.0) }
        requires range { IsInRange (cell_of done.now.0) }
        ensures { IsAnswered self.old self.new tx done.now result }
    {
        let looked = looked_at(&done.op());
        if let Some(holder) = lowest_clash(&self.cells, looked.as_slice(), self.latest, tx, done) {
            return Err(holder);
        }
        self.reserved.take(tx);
        let places = places_of(&done.cell());
        grant_each(
            &mut self.cells,
            &mut self.noted,
            places.as_slice(),
            self.latest,
            tx,
            done,
        );
        self.held = GhostList::of(&self.held, &(tx, *done));
        Ok(())
    }

    /// Takes away all that the transaction holds and reserved, and nothing of others. It takes no memory.
    pub fn release_all(&mut self, tx: TxId)
        ensures held { self.new.held ≡ filter (is_of_other tx) self.old.held }
        ensures released { reservation_of self.new.reserved tx ≡ None }
        ensures others { SameReservations self.old.reserved self.new.reserved tx }
    {
        let places = places_if_any(self.reserved.take(tx));
        release_each(&mut self.cells, places.as_slice(), tx);
        release_noted(&mut self.cells, &mut self.noted, tx);
        self.held = GhostList::of(&self.held, &tx);
    }
}
