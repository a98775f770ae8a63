//! Those who hold something at one place, or have reserved a cell of it.

ghost use Rattle.std.specs.Prelude.{◌≡◌, ◌↔◌, ℕ, [], IsTrue, false, OnOk, OnErr, IsOkUnless, position};
ghost use Rattle.std.specs.List.{filter, list_all, list_any};
ghost use Rattle.mlt_object_locks.specs.Locks.{lower_of, IsLowestOf};
ghost use Rattle.mlt_object_locks.specs.Classes.{bit_of_item};
ghost use Rattle.mlt_object_locks.specs.Holders.{AreWithin, Covers, IsHere, HasBit, Joins, Grants, IsLowestInTheWay, StandsAgainst, StandsIn, is_of, is_not_of, is_idle_of, is_not_idle_of};

use crate::classes::{ClassSet, in_the_way_of};
use mlt_object_kinds::Done;
use mlt_types::{Refusal, TxId};
use smallvec::SmallVec;
use std::alloc::Global;
use std::marker::Model;

/// A transaction, with the classes of the operations that it holds at a place. It is idle where it holds none that has a
/// class, as from its reservation up to its first grant.
#[derive(Clone, Copy)]
pub(crate) struct Holder {
    pub tx: TxId,
    pub classes: ClassSet,
}

impl Default for Holder {
    fn default() -> Holder {
        Holder {
            tx: TxId(0),
            classes: ClassSet::new(),
        }
    }
}

/// The transactions that hold something at one place, or have reserved a cell of it, each once. A contract sees their list.
/// A few take no memory of their own.
#[derive(Drop)]
pub(crate) struct Holders {
    holders: SmallVec<Holder, 4>,
    /// What they hold together, and maybe more.
    all: ClassSet,
}

impl Model for Holders {
    ghost use Rattle.std.specs.Prelude.{List};
    ghost use Rattle.mlt_object_locks.specs.declared.holders.Holder.{Holder};
    ghost use Rattle.mlt_object_locks.specs.Holders.{AreWithin};

    ghost Value = { List Holder };

    ghost view = { λ cell. cell.holders.items };

    ghost invariant = { λ cell. AreWithin cell.holders.items cell.all };
}

impl Holders {
    /// The transaction alone. It takes no memory.
    pub fn of(alloc: Global, tx: TxId) -> Holders
        ensures { Joins [] result tx }
    {
        let classes = ClassSet::new();
        let mut holders = SmallVec::new(alloc);
        holders.push_reserved(Holder { tx, classes });
        Holders {
            holders,
            all: classes,
        }
    }

    /// Whether there is nobody.
    pub fn is_empty(&self) -> bool
        ensures { IsTrue result ↔ (self.now ≡ []) }
    {
        self.holders.is_empty()
    }

    /// Adds the transaction, if it is not there: in front, where it is soon found when it asks, and when it comes again.
    ///
    /// # Errors
    /// `OutOfMemory`, where a growth was refused; the holders are then as before.
    pub fn join(&mut self, tx: TxId) -> Result<(), Refusal>
        ensures joins { OnOk result (Joins self.old self.new tx) }
        ensures err { OnErr result (self.new ≡ self.old) }
        ensures refusal { IsOkUnless result Refusal.OutOfMemory }
    {
        if has(&self.holders, tx) {
            return Ok(());
        }
        let classes = ClassSet::new();
        self.holders.insert(0, Holder { tx, classes })?;
        Ok(())
    }

    /// Whether nobody else is there.
    #[inline(always)]
    pub fn is_alone(&self, tx: TxId) -> bool
        ensures { result ≡ list_all (is_of tx) self.now }
    {
        is_alone(&self.holders, tx)
    }

    /// The lowest number of another transaction that holds an operation here with which this one clashes, if there is
    /// one.
    pub fn lowest_clash(&self, tx: TxId, done: &Done) -> Option<TxId>
        ensures { IsLowestOf (StandsAgainst self.now tx done.now) result }
    {
        if self.is_alone(tx) {
            return None;
        }
        let against = in_the_way_of(done);
        if !self.all.meets(&against) {
            return None;
        }
        lowest_in_the_way(&self.holders, tx, &against)
    }

    /// The transaction holds one operation more. Whether it was idle.
    #[inline(always)]
    pub fn grant(&mut self, tx: TxId, done: &Done) -> bool
        requires { IsHere self.old tx }
        ensures grants { Grants self.old self.new tx (bit_of_item done.now) }
        ensures idle { result ≡ false → (bit : ℕ) × HasBit self.old tx bit }
    {
        grant_among(&mut self.holders, &mut self.all, tx, done)
    }

    /// Takes the transaction away where it is idle.
    pub fn give_up(&mut self, tx: TxId)
        ensures { self.new ≡ filter (is_not_idle_of tx) self.old }
    {
        self.holders.retain(|holder| !is_idle_of(holder, tx));
    }

    /// Takes the transaction away.
    pub fn release(&mut self, tx: TxId)
        ensures { self.new ≡ filter (is_not_of tx) self.old }
    {
        let Some(at) = place_of(&self.holders, tx) else {
            return;
        };
        self.holders.remove(at);
        self.all = all_of(&self.holders, self.all);
    }
}

// Whether the transaction is one of them.
fn has(holders: &[Holder], tx: TxId) -> bool
    ensures { result ≡ list_any (is_of tx) holders.now }
{
    holders.iter().any(|holder| holder.tx == tx)
}

// Whether nobody else is there.
fn is_alone(holders: &[Holder], tx: TxId) -> bool
    ensures { result ≡ list_all (is_of tx) holders.now }
{
    holders.iter().all(|holder| holder.tx == tx)
}

// The lowest number of another transaction that holds something of these classes, if there is one.
fn lowest_in_the_way(holders: &[Holder], tx: TxId, against: &ClassSet) -> Option<TxId>
    ensures { IsLowestInTheWay holders.now tx against.now result }
{
    let mut lowest = None;
    for holder in holders {
        if stands_in(holder, tx, against) {
            lowest = Some(lower(lowest, holder.tx));
        }
    }
    lowest
}

// The transaction, which is one of them, holds one operation more, and they all together. Whether it was idle.
fn grant_among(holders: &mut [Holder], all: &mut ClassSet, tx: TxId, done: &Done) -> bool
    requires { IsHere holders.old tx }
    ensures grants { Grants holders.old holders.new tx (bit_of_item done.now) }
    ensures idle { result ≡ false → (bit : ℕ) × HasBit holders.old tx bit }
    ensures within { AreWithin holders.old all.old → AreWithin holders.new all.new }
{
    let Some(at) = place_of(holders, tx) else {
        unreachable!();
    };
    let before = holders[at].classes;
    let classes = before.with_class_of(done);
    holders[at] = Holder { tx, classes };
    *all = all.joined(classes);
    before.is_empty()
}

// What they hold together, or more, though no more than this.
fn all_of(holders: &[Holder], most: ClassSet) -> ClassSet
    requires { Covers most holders.now }
    ensures { Covers result holders.now }
{
    let mut all = ClassSet::new();
    for holder in holders {
        all = all.joined(holder.classes);
        if all == most {
            return most;
        }
    }
    all
}

// Where the transaction is among them.
fn place_of(holders: &[Holder], tx: TxId) -> Option<usize>
    ensures { result ≡ position (is_of tx) holders.now }
{
    holders.iter().position(|holder| holder.tx == tx)
}

// Whether it is the transaction, and idle.
fn is_idle_of(holder: &Holder, tx: TxId) -> bool
    ensures { result ≡ is_idle_of tx holder.now }
{
    holder.tx == tx && holder.classes.is_empty()
}

// Whether it is another transaction that holds something of these classes.
fn stands_in(holder: &Holder, tx: TxId, against: &ClassSet) -> bool
    ensures { IsTrue result ↔ StandsIn holder.now tx against.now }
{
    holder.tx != tx && holder.classes.meets(against)
}

/// The lower of two numbers, of which one may be missing.
pub(crate) fn lower(lowest: Option<TxId>, holder: TxId) -> TxId
    ensures { result ≡ lower_of lowest holder }
{
    match lowest {
        Some(other) if other < holder => other,
        _ => holder,
    }
}
