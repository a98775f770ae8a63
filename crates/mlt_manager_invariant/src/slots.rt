//! Slots that are copied into a base.

ghost use Rattle.std.specs.Prelude.{◌≡◌, [], ◌∷◌, IsOkUnless, OnOk};
ghost use Rattle.mlt_object_kinds.specs.Bases.{Base as ObjectBase};
ghost use Rattle.mlt_manager_invariant.specs.Copies.{AreSlotsOf, CopiesSlots, IsPartOf};

use crate::cells::cell_of;
use crate::copying::copy_cell;
use mlt_object_base::Base;
use mlt_page::Slot;
use mlt_types::Refusal;

// Copies one slot, if it is live.
fn copy_slot(base: &mut Base, slot: &Slot) -> Result<(), Refusal>
    requires slot { (whole : ObjectBase) × IsPartOf base.old whole
        × AreSlotsOf (slot.now ∷ []) whole }
    ensures copies { OnOk result ((whole : ObjectBase)
        → IsPartOf base.old whole → AreSlotsOf (slot.now ∷ []) whole
        → CopiesSlots (slot.now ∷ []) base.old base.new whole) }
    ensures refusal { IsOkUnless result Refusal.OutOfMemory }
{
    let Slot::Live(key, value) = *slot else {
        return Ok(());
    };
    if let Some(cell) = cell_of(key) {
        copy_cell(base, &cell, value)?;
    }
    Ok(())
}

/// Gives the cell of each live slot what the slot means. A cell that holds this already stays as it is.
///
/// # Errors
/// `OutOfMemory`, where a growth was refused.
pub fn copy_slots(base: &mut Base, slots: &[Slot]) -> Result<(), Refusal>
    requires slots { (whole : ObjectBase) × IsPartOf base.old whole × AreSlotsOf slots.now whole }
    ensures copies { OnOk result ((whole : ObjectBase)
        → IsPartOf base.old whole → AreSlotsOf slots.now whole
        → CopiesSlots slots.now base.old base.new whole) }
    ensures refusal { IsOkUnless result Refusal.OutOfMemory }
{
    for slot in slots {
        copy_slot(base, slot)?;
    }
    Ok(())
}
