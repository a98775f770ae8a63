//! Cells of a base that get what their records mean.

ghost use Rattle.std.specs.Prelude.{◌≡◌, ◌⊎◌, IsOkUnless, None, OnOk, Some, false, true};
ghost use Rattle.mlt_object_base.specs.Records.{IsRecord, state_of_record};
ghost use Rattle.mlt_object_kinds.specs.Bases.{SameBut, counter_at, element_at, state_at};

use mlt_object_base::Base;
use mlt_object_kinds::{CounterOp, ElementOp, ObjOp};
use mlt_types::{Cell, Refusal, Value};

fn copy_element(base: &mut Base, set: u16, element: u32) -> Result<(), Refusal>
    ensures holds { OnOk result (element_at base.new set element ≡ true) }
    ensures others { OnOk result (SameBut base.old base.new (Cell.Element set element)) }
    ensures refusal { IsOkUnless result Refusal.OutOfMemory }
{
    base.apply(&ObjOp::Element(set, element, ElementOp::Add))?;
    Ok(())
}

// Counts a counter that is at 0 up to this value.
fn copy_counter(base: &mut Base, counter: u32, value: u64) -> Result<(), Refusal>
    requires before { (counter_at base.old counter ≡ value) ⊎ (counter_at base.old counter ≡ 0) }
    ensures holds { OnOk result (counter_at base.new counter ≡ value) }
    ensures others { OnOk result (SameBut base.old base.new (Cell.Counter counter)) }
    ensures refusal { IsOkUnless result Refusal.OutOfMemory }
{
    if base.value(counter) == 0 {
        base.apply(&ObjOp::Counter(counter, CounterOp::Up(value)))?;
    }
    Ok(())
}

/// Gives a cell that holds nothing yet what a record of this value means. A cell that holds this already stays as it is.
///
/// # Errors
/// `OutOfMemory`, where a growth was refused.
pub(crate) fn copy_cell(base: &mut Base, cell: &Cell, value: Value) -> Result<(), Refusal>
    requires range { IsRecord cell.now (Some value) }
    requires before { (state_at base.old cell.now ≡ state_of_record cell.now (Some value))
        ⊎ (state_at base.old cell.now ≡ state_of_record cell.now None) }
    ensures holds { OnOk result (state_at base.new cell.now
        ≡ state_of_record cell.now (Some value)) }
    ensures others { OnOk result (SameBut base.old base.new cell.now) }
    ensures refusal { IsOkUnless result Refusal.OutOfMemory }
{
    match *cell {
        Cell::Account(account) => base.put_account(account, value),
        Cell::Element(set, element) => copy_element(base, set, element),
        Cell::Counter(counter) => copy_counter(base, counter, value),
        Cell::Size(_) => Ok(()),
    }
}
