//! What live records mean as a base. The laws are the contract of a function that does nothing.

ghost use Rattle.std.specs.Prelude.{◌≡◌, ℕ};
ghost use Rattle.std.specs.FinMap as map;
ghost use Rattle.std.specs.Ordering.{nat_cmp};
ghost use Rattle.mlt_object_base.specs.Meaning.{Means, Undergoes, UndergoesBack, records_done, records_undone, size_record_in, told_by};
ghost use Rattle.mlt_object_base.specs.Records.{HasSizeToUndo};
ghost use Rattle.mlt_object_base.specs.Requests.{CanResize};
ghost use Rattle.mlt_object_base.specs.declared.request.Request.TheVariants.{Do, TakeBack};
ghost use Rattle.mlt_object_kinds.specs.Bases.{Base, Step, TellsSize};
ghost use Rattle.mlt_object_kinds.specs.Operations.{cell_of};
ghost use Rattle.mlt_object_kinds.specs.declared.operation.ObjOp.{ObjOp};
ghost use Rattle.mlt_object_kinds.specs.declared.operation.ObjReply.{ObjReply};
ghost use Rattle.mlt_types.specs.Cells.{IsInRange};

/// Live records mean at most one base. Where they mean a base, `size` returns the size of a set as it is (`size`).
/// Where the record of an operation's cell changes so that the cell makes its step, the records after all that the
/// operation changes mean a base that its step leads to (`step`). And where undoing it takes the cell back before the step,
/// the records after all that this changes mean a base that the step leads from (`back`).
pub fn records_mean_bases()
    ensures one { (records : map.FinMap nat_cmp ℕ) (b d : Base) → Means records b → Means records d
        → b ≡ d }
    ensures size { (records : map.FinMap nat_cmp ℕ) (b : Base) (op : ObjOp)
        → Means records b → IsInRange (cell_of op) → TellsSize b (op, told_by records op) }
    ensures step { (records : map.FinMap nat_cmp ℕ) (b : Base) (op : ObjOp)
        → Means records b → Undergoes records op
        → (after : Base) × Step b (op, told_by records op) after
        × Means (records_done records op) after }
    ensures back { (records : map.FinMap nat_cmp ℕ) (b : Base) (x : ObjOp × ObjReply)
        → Means records b → UndergoesBack records x
        → HasSizeToUndo x (size_record_in records x.0) → TellsSize b x
        → (before : Base) × Step before x b × Means (records_undone records x) before }
{}

/// Where live records mean a base, what an operation changes of a size can be changed (`resize`), and so can what undoing it
/// changes, where the size record is there (`back`). The operation leaves that record (`left`), and no other operation, nor
/// the undoing of one, takes it away (`stays`, `stays_back`).
pub fn size_records_can_be_changed()
    ensures resize { (records : map.FinMap nat_cmp ℕ) (b : Base) (op : ObjOp)
        → Means records b → Undergoes records op
        → CanResize (Do op) (told_by records op) (size_record_in records op) }
    ensures left { (records : map.FinMap nat_cmp ℕ) (b : Base) (op : ObjOp)
        → Means records b → Undergoes records op
        → HasSizeToUndo (op, told_by records op) (size_record_in (records_done records op) op) }
    ensures stays { (records : map.FinMap nat_cmp ℕ) (op : ObjOp) (x : ObjOp × ObjReply)
        → IsInRange (cell_of op) → IsInRange (cell_of x.0)
        → HasSizeToUndo x (size_record_in records x.0)
        → HasSizeToUndo x (size_record_in (records_done records op) x.0) }
    ensures back { (records : map.FinMap nat_cmp ℕ) (b : Base) (x : ObjOp × ObjReply)
        (reply : ObjReply)
        → Means records b → UndergoesBack records x
        → HasSizeToUndo x (size_record_in records x.0)
        → CanResize (TakeBack x) reply (size_record_in records x.0) }
    ensures stays_back { (records : map.FinMap nat_cmp ℕ) (undone x : ObjOp × ObjReply)
        → IsInRange (cell_of undone.0) → IsInRange (cell_of x.0)
        → HasSizeToUndo x (size_record_in records x.0)
        → HasSizeToUndo x (size_record_in (records_undone records undone) x.0) }
{}
