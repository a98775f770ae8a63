//! A history, with room.

ghost use Rattle.std.specs.Prelude.{◌≡◌, ◌≢◌, ◌≤◌, ◌+◌, [], ◌∷◌, ◌++◌, OnOk, OnErr, IfNone, IfSome, IsOkUnless};
ghost use Rattle.std.specs.Vec.{vec_capacity, vec_len};
ghost use Rattle.mlt_trace.specs.Ranges.{AllFit};

use crate::item::TraceItem;
use crate::kept::KeptItem;
use crate::ranges::item_fits;
use mlt_types::{GhostList, Refusal};
use std::alloc::Global;
use std::marker::Model;
use std::mem;

/// The items of a history, in order. Code has those that were not handed out. A contract sees the list of all, the first of them
/// that were handed out, and the room: for how many more items memory is reserved.
#[derive(Drop)]
pub struct History {
    kept: Vec<KeptItem>,
    room: usize,
    /// Whether an item was handed out.
    lacks: bool,
    // For clauses alone.
    handed_out: GhostList<KeptItem>,
}

impl Model for History {
    ghost use Rattle.std.specs.Prelude.{◌≡◌, ◌≢◌, ◌+◌, ◌≤◌, ◌++◌, [], true, false};
    ghost use Rattle.std.specs.Vec.{vec_capacity, vec_len};
    ghost use Rattle.mlt_trace.specs.HistoryItems.{ItemsWithRoom};
    ghost use Rattle.mlt_trace.specs.Ranges.{AllFit};

    ghost Value = { ItemsWithRoom };

    ghost view = { λ history. record {
      items = history.handed_out.items ++ history.kept.items;
      handed = history.handed_out.items;
      room = history.room;
    } };

    ghost invariant = { λ history.
        (vec_len history.kept + history.room ≤ vec_capacity history.kept)
        × (history.lacks ≡ false → history.handed_out.items ≡ [])
        × (history.lacks ≡ true → history.handed_out.items ≢ [])
        × AllFit (history.handed_out.items ++ history.kept.items) };
}

impl History {
    /// No item, and no room. It takes no memory.
    pub fn new(alloc: Global) -> History
        ensures items { result.items ≡ [] }
        ensures handed { result.handed ≡ [] }
        ensures room { result.room ≡ 0 }
    {
        History {
            kept: Vec::new(alloc),
            room: 0,
            lacks: false,
            handed_out: GhostList::of(&(), &()),
        }
    }

    /// Makes room for `count` more items.
    ///
    /// # Errors
    /// `OutOfMemory`, where a growth was refused; the history and its room are then as before.
    #[inline(always)]
    pub fn reserve(&mut self, count: usize) -> Result<(), Refusal>
        ensures items { self.new.items ≡ self.old.items }
        ensures handed { self.new.handed ≡ self.old.handed }
        ensures room { OnOk result (self.new.room ≡ self.old.room + count) }
        ensures err { OnErr result (self.new ≡ self.old) }
        ensures refusal { IsOkUnless result Refusal.OutOfMemory }
    {
        let Some(room) = self.room.checked_add(count) else {
            return Err(Refusal::OutOfMemory);
        };
        if self.kept.capacity() - self.kept.len() < room {
            grow(&mut self.kept, room)?;
        }
        self.room = room;
        Ok(())
    }

    /// Adds an item behind the others, in room that was reserved. It takes no memory.
    pub fn push(&mut self, item: TraceItem)
        requires { 1 ≤ self.old.room }
        ensures items { self.new.items ≡ self.old.items ++ item ∷ [] }
        ensures handed { self.new.handed ≡ self.old.handed }
        ensures room { self.new.room + 1 ≡ self.old.room }
    {
        item_fits(&item);
        self.room -= 1;
        self.kept.push_reserved(KeptItem::of(item));
    }

    /// Gives up room for `count` items that won't come.
    pub fn release(&mut self, count: usize)
        requires { count ≤ self.old.room }
        ensures items { self.new.items ≡ self.old.items }
        ensures handed { self.new.handed ≡ self.old.handed }
        ensures room { self.new.room + count ≡ self.old.room }
    {
        self.room -= count;
    }

    /// All items, in order, where none was handed out.
    pub fn items(&self) -> Option<&[KeptItem]>
        ensures some { IfSome result (λ items. items.now ≡ self.now.items) }
        ensures whole { IfSome result (λ items. self.now.handed ≡ []) }
        ensures none { IfNone result (self.now.handed ≢ []) }
    {
        if self.lacks {
            return None;
        }
        Some(self.kept.as_slice())
    }

    /// The items that were not handed out, in order.
    pub fn kept(&self) -> &[KeptItem]
        ensures { self.now.items ≡ self.now.handed ++ result.now }
    {
        self.kept.as_slice()
    }

    /// Hands out the items that are kept, in order: they are what the list has then, and what it had is gone. The history goes on
    /// in the memory that the list had. It copies no item, and takes memory only where that of the list is less than the room.
    ///
    /// # Errors
    /// `OutOfMemory`, where a growth was refused; nothing is handed out then.
    pub fn hand_out(&mut self, list: &mut Vec<KeptItem>) -> Result<(), Refusal>
        ensures items { self.new.items ≡ self.old.items }
        ensures room { self.new.room ≡ self.old.room }
        ensures handed { OnOk result (self.new.handed ≡ self.old.items) }
        ensures list { OnOk result (self.old.items ≡ self.old.handed ++ list.new.items) }
        ensures err { OnErr result (self.new ≡ self.old) }
        ensures refusal { IsOkUnless result Refusal.OutOfMemory }
    {
        list.clear();
        list.reserve(self.room)?;
        self.handed_out = GhostList::of(&self.handed_out, &self.kept);
        self.lacks = self.lacks || !self.kept.is_empty();
        mem::swap(&mut self.kept, list);
        Ok(())
    }

    /// The numbers of all items, handed out or not, are those of their types. It does nothing.
    pub fn items_fit(&self)
        ensures { AllFit self.now.items }
    {
        // What is always true of a history is known where it is read.
        let _kept = &self.kept;
    }
}

// Makes room for so many more items by a growth.
#[cold]
#[inline(never)]
fn grow(items: &mut Vec<KeptItem>, room: usize) -> Result<(), Refusal>
    ensures items { items.new.items ≡ items.old.items }
    ensures len { vec_len items.new ≡ vec_len items.old }
    ensures capacity { vec_capacity items.old ≤ vec_capacity items.new }
    ensures room { OnOk result (vec_len items.new + room ≤ vec_capacity items.new) }
    ensures refusal { IsOkUnless result Refusal.OutOfMemory }
{
    items.reserve(room)?;
    Ok(())
}
