//! The places at which operations stand, by numbers.
//!
//! An operation stands at the number of its cell's key. One on an element stands at a place of its set too, and there
//! looks whoever asks for the set's size. Those that asked for the size stand at the key of the size's cell, and there
//! looks, beside its own cell, an operation on an element. So neither goes over its like, with which it never clashes.

ghost use Rattle.std.specs.Prelude.{◌≡◌, [], ◌∷◌, IfSome};
ghost use Rattle.mlt_types.specs.Cells.{key_number};
ghost use Rattle.mlt_object_kinds.specs.Operations.{cell_of};
ghost use Rattle.mlt_object_kinds.specs.declared.operation.ObjOp.{ObjOp};
ghost use Rattle.mlt_object_locks.specs.Places.{looked_at, place_of_set, places_if_any, places_of};

use arrayvec::ArrayVec;
use mlt_object_kinds::{ElementOp, ObjOp};
use mlt_types::{Cell, Key};

/// At most two places.
pub(crate) type Places = ArrayVec<u64, 2>;

const SETS: u64 = 5 << 48;

/// Where an operation on the cell stands.
pub(crate) fn places_of(cell: &Cell) -> Places
    ensures { result.items ≡ places_of cell.now }
{
    let mut places = ArrayVec::new();
    places.push(number_of(cell));
    if let Cell::Element(set, _) = *cell {
        places.push(place_of_set(set));
    }
    places
}

/// Where an operation on the cell stands and looks, if that is one place for both.
#[inline(always)]
pub(crate) fn only_place(cell: &Cell) -> Option<u64>
    ensures stands { IfSome result (λ place. places_of cell.now ≡ place ∷ []) }
    ensures looks { IfSome result
        (λ place. (op : ObjOp) → cell_of op ≡ cell.now → looked_at op ≡ place ∷ []) }
{
    match *cell {
        Cell::Account(_) | Cell::Counter(_) => Some(number_of(cell)),
        Cell::Element(..) | Cell::Size(_) => None,
    }
}

/// The same of a cell, if there is one.
pub(crate) fn places_if_any(cell: Option<Cell>) -> Places
    ensures { result.items ≡ places_if_any cell }
{
    match cell {
        Some(cell) => places_of(&cell),
        None => ArrayVec::new(),
    }
}

/// Where those stand with which the operation may clash.
pub(crate) fn looked_at(op: &ObjOp) -> Places
    ensures { result.items ≡ looked_at op.now }
{
    let mut places = ArrayVec::new();
    match *op {
        ObjOp::Size(set) => places.push(place_of_set(set)),
        ObjOp::Element(set, _, ElementOp::Add) | ObjOp::Element(set, _, ElementOp::Remove) => {
            places.push(number_of(&op.cell()));
            places.push(number_of(&Cell::Size(set)));
        },
        _ => places.push(number_of(&op.cell())),
    }
    places
}

// The place of all that stands on elements of a set.
fn place_of_set(set: u16) -> u64
    ensures { result ≡ place_of_set set }
{
    SETS + u64::from(set)
}

// The number of a cell's key.
fn number_of(cell: &Cell) -> u64
    ensures { result ≡ key_number cell.now }
{
    Key::of(cell).number()
}
