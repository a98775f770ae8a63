//! The slots of open transactions.

ghost use Rattle.std.specs.Prelude.{◌≡◌, None, Some, IfOk, IfSome, IfNone, IsOkUnless, false, flat_map, length, position};
ghost use Rattle.mlt_page_subtx.specs.Images.{image_of};
ghost use Rattle.mlt_tx.specs.TxSlots.{BeginsInSlot, HasOneEach, IsFreeAt, KeepsInSlot, LackImage, entries_in, is_free, is_slot_of};

use crate::transaction::Transaction;
use mlt_object_kinds::Done;
use mlt_page::Page;
use mlt_types::{PageNo, PlaceHints, Refusal, TxId};
use std::alloc::{AllocError, Global};

/// A slot for one open transaction, up to its end. Then it is free for another, with its memory. The transaction stays where it
/// is, however the table around it moves: with room for two pages it is large.
#[derive(Drop)]
pub(crate) struct TxSlot {
    pub tx: TxId,
    pub is_free: bool,
    pub transaction: Box<Transaction>,
}

impl TxSlot {
    /// A slot that a transaction of this number takes, which has done nothing.
    ///
    /// # Errors
    /// A growth was refused.
    pub fn new(alloc: Global, tx: TxId) -> Result<TxSlot, AllocError>
        ensures { IfOk result (BeginsInSlot tx) }
    {
        Ok(TxSlot {
            tx,
            is_free: false,
            transaction: Box::new(alloc, Transaction::begin(alloc, tx))?,
        })
    }

    /// Gives the slot to a transaction of this number, which has done nothing.
    pub fn give_to(&mut self, alloc: Global, tx: TxId)
        ensures { BeginsInSlot tx self.new }
    {
        self.tx = tx;
        self.is_free = false;
        self.transaction.restart(alloc, tx);
    }

    // The first image of a page that the transaction in this slot keeps, if there is one.
    fn first_image(&self, page: PageNo) -> Option<&Option<Page>>
        ensures kept { IfSome result (λ first. (is_free self.now ≡ false)
            × (image_of self.now.transaction.value.subtx.images page ≡ Some first.now)) }
        ensures none { IfNone result (is_free self.now ≡ false
            → image_of self.now.transaction.value.subtx.images page ≡ None) }
    {
        if self.is_free {
            return None;
        }
        self.transaction.subtx.first_image(page)
    }

    // What the transaction in this slot did and has not taken back.
    fn standing(&self) -> &[Done]
        ensures { result.now ≡ entries_in self.now }
    {
        if self.is_free {
            return &[];
        }
        self.transaction.undo.entries()
    }

    // Whether the transaction of a number lies here.
    fn is_of(&self, tx: TxId) -> bool
        ensures { result ≡ is_slot_of tx self.now }
    {
        self.tx == tx && !self.is_free
    }
}

/// Where the transaction of a number lies, if it is open. It is looked for first where it is hinted at.
#[inline(always)]
pub(crate) fn slot_of(slots: &[TxSlot], hints: &PlaceHints, tx: TxId) -> Option<usize>
    requires { HasOneEach slots.now }
    ensures { result ≡ position (is_slot_of tx) slots.now }
{
    let likely = hints.of(tx);
    match slots.get(likely) {
        Some(slot) if slot.is_of(tx) => Some(likely),
        _ => slots.iter().position(|slot| slot.is_of(tx)),
    }
}

/// A slot that is free, if there is one: this one, if it is.
pub(crate) fn free_slot(slots: &[TxSlot], likely: usize) -> Option<usize>
    ensures free { IfSome result (IsFreeAt slots.now) }
    ensures none { IfNone result (position is_free slots.now ≡ None) }
{
    match slots.get(likely) {
        Some(slot) if slot.is_free => Some(likely),
        _ => first_free(slots),
    }
}

// The first slot that is free, if there is one.
fn first_free(slots: &[TxSlot]) -> Option<usize>
    ensures { result ≡ position is_free slots.now }
{
    slots.iter().position(|slot| slot.is_free)
}

/// The first image of a page that somebody in a slot keeps, if one does.
pub(crate) fn image_in(slots: &[TxSlot], page: PageNo) -> Option<&Option<Page>>
    ensures kept { IfSome result (λ first. KeepsInSlot slots.now page first.now) }
    ensures none { IfNone result (LackImage slots.now page (length slots.now)) }
{
    for slot in slots {
        let first = slot.first_image(page);
        if first.is_some() {
            return first;
        }
    }
    None
}

/// What the transactions in the slots did and have not taken back, one slot after another.
///
/// # Errors
/// `OutOfMemory`, where a growth was refused.
pub(crate) fn standing_of(alloc: Global, slots: &[TxSlot]) -> Result<Vec<Done>, Refusal>
    ensures all { IfOk result (λ done. done.items ≡ flat_map entries_in slots.now) }
    ensures refusal { IsOkUnless result Refusal.OutOfMemory }
{
    let mut done = Vec::new(alloc);
    for slot in slots {
        done.extend_from_slice(slot.standing())?;
    }
    Ok(done)
}
