//! What can be seen of a manager under its lock, without an event.

ghost use Rattle.std.specs.Prelude.{◌≡◌, ◌≤◌, ◌+◌, ◌++◌, true, IfOk, IsOkUnless, OnOk, length};
ghost use Rattle.std.specs.FinMap as map;
ghost use Rattle.mlt_manager.specs.Bases.{HasDepth};
ghost use Rattle.mlt_manager.specs.HandingOut.{HandsOut};
ghost use Rattle.mlt_manager.specs.Images.{IsImageAt};
ghost use Rattle.mlt_work_desk.specs.Statistics.{AddsKept};

use crate::locked_state::LockedState;
use crate::made_with::MadeWith;
use arrayvec::ArrayVec;
use mlt_manager::BaseImage;
use mlt_trace::KeptItem;
use mlt_types::{Pseudo, Refusal};
use mlt_work_waits::Waiting;
use std::alloc::AllocError;

/// The statistics of a manager, for its operator.
#[derive(Drop)]
pub struct DeskStatistics {
    /// How many events the manager has had; it stays at 2^64 - 1.
    pub events: u64,
    /// How many items of its history are kept.
    pub items: usize,
    /// How many pages there are.
    pub pages: usize,
    /// The depth of the directory, 0 to 16.
    pub depth: u8,
    /// Who waits for locks of objects, or for a turn.
    pub for_objects: ArrayVec<Waiting, 64>,
    /// Who waits for locks of pages.
    pub for_pages: ArrayVec<Waiting, 64>,
}

impl<P: Pseudo, L: MadeWith<P>> LockedState<P, L> {
    /// The statistics now.
    pub(crate) fn statistics(&self) -> DeskStatistics
        ensures events { result.events ≡ self.now.manager.events }
        ensures items { length self.now.manager.shared.history.items
            ≡ length self.now.manager.shared.history.handed + result.items }
        ensures pages { result.pages ≡ map.len self.now.manager.shared.pages.store.pages }
        ensures depth { HasDepth self.now.manager result.depth }
        ensures for_objects { result.for_objects.items ≡ self.now.desks.waits.objects }
        ensures for_pages { result.for_pages.items ≡ self.now.desks.waits.pages }
    {
        DeskStatistics {
            events: self.manager.events(),
            items: self.manager.kept_history().len(),
            pages: self.manager.pages().len(),
            depth: self.manager.depth(),
            for_objects: copied(self.desks.waits.objects()),
            for_pages: copied(self.desks.waits.pages()),
        }
    }

    /// What the base of the committed transactions is made of.
    ///
    /// # Errors
    /// `OutOfMemory`, where a growth was refused.
    pub(crate) fn image(&self) -> Result<BaseImage, Refusal>
        ensures image { IfOk result (λ image. IsImageAt self.now.manager image) }
        ensures refusal { IsOkUnless result Refusal.OutOfMemory }
    {
        self.manager.image()
    }

    /// Adds the items of the history that are kept, from this place among them on, at most so many.
    ///
    /// # Errors
    /// Where a growth is refused, then fewer are added.
    pub(crate) fn copy_items(
        &self,
        from: usize,
        most: usize,
        items: &mut Vec<KeptItem>,
    ) -> Result<(), AllocError>
        ensures { OnOk result (AddsKept from most self.now.manager.shared.history
            items.old.items items.new.items) }
    {
        let history = self.manager.kept_history();
        let rest = history.get(from..).unwrap_or(&[]);
        let first = &rest[..most.min(rest.len())];
        for item in first {
            items.push(KeptItem::of(item.get()))?;
        }
        Ok(())
    }

    /// Hands out the items of the history that are kept.
    ///
    /// # Errors
    /// Where a growth is refused; nothing is handed out then.
    pub(crate) fn take_items(&mut self, items: &mut Vec<KeptItem>) -> Result<(), Refusal>
        requires { L.hands_out ≡ true }
        ensures rest { HandsOut self.old.manager self.new.manager }
        ensures list { OnOk result (self.old.manager.shared.history.items
            ≡ self.old.manager.shared.history.handed ++ items.new.items) }
        ensures desks { self.new.desks ≡ self.old.desks }
        ensures refusal { IsOkUnless result Refusal.OutOfMemory }
    {
        self.manager.take_history(items)
    }
}

/// These waits once more.
fn copied(waits: &[Waiting]) -> ArrayVec<Waiting, 64>
    requires { length waits.now ≤ 64 }
    ensures { result.items ≡ waits.now }
{
    let mut all = ArrayVec::new();
    // There is room for so many.
    let _ = all.try_extend_from_slice(waits);
    all
}
