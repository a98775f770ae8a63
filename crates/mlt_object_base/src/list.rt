//! The undo list.

ghost use Rattle.std.specs.Prelude.{◌≡◌, ◌≤◌, ◌+◌, [], ◌∷◌, ◌++◌, length, Some, None, OnOk, OnErr, IsOkUnless};
ghost use Rattle.mlt_object_base.specs.Undo.{IsLast, IsPopped};

use mlt_object_kinds::Done;
use mlt_types::Refusal;
use std::alloc::Global;
use std::marker::Model;

/// The operations that a transaction did and has not taken back, in order. A contract sees their list,
/// with their replies, and beside it how many more fit in without memory being taken.
#[derive(Debug, Drop)]
pub struct UndoList {
    done: Vec<Done>,
}

impl Model for UndoList {
    ghost use Rattle.std.specs.Prelude.{◌-◌};
    ghost use Rattle.std.specs.Vec.{vec_capacity, vec_len};
    ghost use Rattle.mlt_object_base.specs.Undo.{Undo};

    ghost Value = { Undo };

    ghost view = { λ list.
        record { entries = list.done.items; spare = vec_capacity list.done - vec_len list.done } };
}

impl UndoList {
    /// The empty list. It takes no memory.
    pub fn new(alloc: Global) -> UndoList
        ensures entries { result.entries ≡ [] }
        ensures spare { result.spare ≡ 0 }
    {
        UndoList {
            done: Vec::new(alloc),
        }
    }

    /// Makes room for one more entry, at least.
    ///
    /// # Errors
    /// `OutOfMemory`, where there was no room and a growth was refused; the list is then as before.
    #[inline(always)]
    pub fn reserve(&mut self) -> Result<(), Refusal>
        ensures entries { self.new.entries ≡ self.old.entries }
        ensures room { OnOk result (1 ≤ self.new.spare) }
        ensures err { OnErr result ((self.new ≡ self.old) × (self.old.spare ≡ 0)) }
        ensures refusal { IsOkUnless result Refusal.OutOfMemory }
    {
        if self.done.len() < self.done.capacity() {
            return Ok(());
        }
        self.grow()
    }

    // The same by a growth.
    #[cold]
    #[inline(never)]
    fn grow(&mut self) -> Result<(), Refusal>
        ensures entries { self.new.entries ≡ self.old.entries }
        ensures room { OnOk result (1 ≤ self.new.spare) }
        ensures err { OnErr result ((self.new ≡ self.old) × (self.old.spare ≡ 0)) }
        ensures refusal { IsOkUnless result Refusal.OutOfMemory }
    {
        self.done.reserve(1)?;
        Ok(())
    }

    /// Adds an entry behind the others, in room that was reserved. It takes no memory.
    pub fn push(&mut self, done: Done)
        requires { 1 ≤ self.old.spare }
        ensures entries { self.new.entries ≡ self.old.entries ++ done ∷ [] }
        ensures spare { self.new.spare + 1 ≡ self.old.spare }
    {
        self.done.push_reserved(done);
    }

    /// How many entries stand.
    pub fn len(&self) -> usize
        ensures { result ≡ length self.now.entries }
    {
        self.done.len()
    }

    /// The entries that stand, in the order in which they were added.
    pub fn entries(&self) -> &[Done]
        ensures { result.now ≡ self.now.entries }
    {
        self.done.as_slice()
    }

    /// The entry that was added last, of those that stand.
    pub fn last(&self) -> Option<Done>
        ensures { IsLast result self.now.entries }
    {
        self.done.last().copied()
    }

    /// Takes all entries off. The room stays.
    pub fn clear(&mut self)
        ensures entries { self.new.entries ≡ [] }
        ensures spare { self.new.spare ≡ self.old.spare + length self.old.entries }
    {
        self.done.clear();
    }

    /// Takes the last entry off.
    pub fn pop(&mut self) -> Option<Done>
        ensures last { IsPopped result self.old.entries self.new.entries }
        ensures spare { self.old.spare ≤ self.new.spare }
    {
        self.done.pop()
    }
}
