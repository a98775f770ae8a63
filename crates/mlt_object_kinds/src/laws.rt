//! Laws of the steps of whole bases. Each is the contract of a function that does nothing.

ghost use Rattle.std.specs.Prelude.{◌≡◌, ◌+◌, ◌<◌, ◌≤◌, ℕ, true, length};
ghost use Rattle.mlt_object_kinds.specs.Bases.{Base, TellsSize, element_at, empty_base, size_at, state_at, Step, with_state};
ghost use Rattle.mlt_object_kinds.specs.Cells.{CellState, CellStep};
ghost use Rattle.mlt_object_kinds.specs.Operations.{AreApart, cell_of, cells_of};
ghost use Rattle.mlt_order.specs.Runs.{RightCommutesBackward};
ghost use Rattle.mlt_object_kinds.specs.Sizes.{put_into, taken_from};
ghost use Rattle.mlt_object_kinds.specs.declared.operation.ObjReply.{ObjReply};
ghost use Rattle.mlt_object_kinds.specs.declared.operation.ObjOp.{ObjOp};
ghost use Rattle.mlt_types.specs.declared.cell.Cell.{Cell};

/// A base is what its cells hold. An operation on it gets one reply and leads to one base, and with its
/// reply it leads to a base from one base: each (operation, reply) is injective where it is legal. A step of
/// the cell that an operation is on is a step of the base, where `size` returns the size as it is. No operation is
/// locked on more than two cells.
pub fn steps_of_bases_are_fixed()
    ensures cells { (b d : Base) → ((c : Cell) → state_at b c ≡ state_at d c) → b ≡ d }
    ensures one_answer { (b c d : Base) (op : ObjOp) (r q : ObjReply) → Step b (op, r) c
        → Step b (op, q) d → (r ≡ q) × (c ≡ d) }
    ensures one_start { (b c d : Base) (op : ObjOp) (r : ObjReply) → Step b (op, r) d
        → Step c (op, r) d → b ≡ c }
    ensures of_the_cell { (b : Base) (x : ObjOp × ObjReply) (s : CellState)
        → CellStep (state_at b (cell_of x.0)) x s → TellsSize b x
        → Step b x (with_state b (cell_of x.0) s) }
    ensures few { (op : ObjOp) → length (cells_of op) ≤ 2 }
{}

/// Operations that are locked on no cell of both right commute backward with each other in every base, and operations on
/// one cell do where they do so on the cell: then the second may come before the first, with the same end (Weihl 1988).
pub fn steps_of_bases_commute()
    ensures apart { (p q : ObjOp × ObjReply) → AreApart p.0 q.0 → RightCommutesBackward Step p q }
    ensures on_one_cell { (p q : ObjOp × ObjReply) → cell_of p.0 ≡ cell_of q.0
        → RightCommutesBackward CellStep p q → RightCommutesBackward Step p q }
{}

/// No set of the empty base has an element. The size of a set after a step, with what the step took out of the set, is
/// the size before it, with what it put in. A set whose elements are all below a number has no more than that.
pub fn sizes_follow_steps()
    ensures none { (set : ℕ) → size_at empty_base set ≡ 0 }
    ensures step { (b c : Base) (x : ObjOp × ObjReply) (set : ℕ) → Step b x c
        → size_at c set + taken_from set x ≡ size_at b set + put_into set x }
    ensures most { (b : Base) (set most : ℕ)
        → ((element : ℕ) → element_at b set element ≡ true → element < most)
        → size_at b set ≤ most }
{}
