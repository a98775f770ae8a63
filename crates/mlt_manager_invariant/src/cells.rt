//! The cell of a key.

ghost use Rattle.std.specs.Prelude.{◌≡◌, IfNone, IfSome};
ghost use Rattle.mlt_types.specs.Cells.{IsInRange, key_number};
ghost use Rattle.mlt_types.specs.declared.cell.Cell.{Cell as AnyCell};

use mlt_types::{Cell, Key};

// How many keys there are for the cells of one kind: 2^48.
const KEYS: u64 = 1 << 48;

// How many elements a set can have: 2^32.
const ELEMENTS: u64 = 1 << 32;

/// The cell that has a key, if one that there can be does.
pub(crate) fn cell_of(key: Key) -> Option<Cell>
    ensures cell { IfSome result (λ cell. IsInRange cell × (key_number cell ≡ key)) }
    ensures none { IfNone result
        ((cell : AnyCell) → IsInRange cell → key_number cell ≡ key → ⊥) }
{
    let rest = key.number() % KEYS;
    match key.number() / KEYS {
        1 => Some(Cell::Account(u32::try_from(rest).ok()?)),
        2 => Some(Cell::Counter(u32::try_from(rest).ok()?)),
        3 => Some(Cell::Element((rest / ELEMENTS) as u16, (rest % ELEMENTS) as u32)),
        4 => Some(Cell::Size(u16::try_from(rest).ok()?)),
        _ => None,
    }
}
