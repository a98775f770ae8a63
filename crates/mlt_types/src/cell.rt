//! Cells, the objects that operations are on, and their keys.

ghost use Rattle.std.specs.Prelude.{◌≡◌, ◌<◌, ◌^◌, ℕ};
ghost use Rattle.mlt_types.specs.Cells.{key_number, IsInRange};
ghost use Rattle.mlt_types.specs.declared.cell.Cell.{Cell};

use std::marker::Model;

/// The smallest object that an operation is on.
#[derive(Clone, Copy, Debug, PartialEq, Eq, PartialOrd, Ord, Hash)]
pub enum Cell {
    /// An account, by its number.
    Account(u32),
    /// An element of a set: the set, and the element.
    Element(u16, u32),
    /// A counter, by its number.
    Counter(u32),
    /// How many elements a set has, by the set's number.
    Size(u16),
}

impl Cell {
    /// What the types of its numbers say of a cell.
    pub fn is_in_range(&self)
        ensures { IsInRange self.now }
    {
        match *self {
            Cell::Account(account) => has_32_bits(account),
            Cell::Counter(counter) => has_32_bits(counter),
            Cell::Element(set, element) => {
                has_16_bits(set);
                has_32_bits(element);
            },
            Cell::Size(set) => has_16_bits(set),
        }
    }
}

fn has_16_bits(number: u16)
    ensures { number < 2 ^ 16 }
{}

fn has_32_bits(number: u32)
    ensures { number < 2 ^ 32 }
{}

/// The key of a cell's record. A contract sees its number.
#[derive(Clone, Copy, Debug, PartialEq, Eq, PartialOrd, Ord, Hash)]
pub struct Key {
    number: u64,
}

impl Model for Key {
    ghost use Rattle.std.specs.Prelude.{ℕ};

    ghost Value = { ℕ };

    ghost view = { λ key. key.number };

    ghost inverse = { λ n. record { number = n } };
}

const ACCOUNTS: u64 = 1 << 48;

const COUNTERS: u64 = 2 << 48;

const ELEMENTS: u64 = 3 << 48;

const SIZES: u64 = 4 << 48;

impl Key {
    /// The key of a cell: `2^48 + a` for account `a`, `2 * 2^48 + c` for counter `c`,
    /// `3 * 2^48 + s * 2^32 + e` for element `e` of set `s`, and `4 * 2^48 + s` for the size of set `s`. No other
    /// cell has it.
    pub fn of(cell: &Cell) -> Key
        ensures number { result ≡ key_number cell.now }
        ensures apart { (other : Cell) → IsInRange other → key_number other ≡ result
            → other ≡ cell.now }
    {
        let number = match *cell {
            Cell::Account(account) => ACCOUNTS + u64::from(account),
            Cell::Counter(counter) => COUNTERS + u64::from(counter),
            Cell::Element(set, element) => ELEMENTS + (u64::from(set) << 32) + u64::from(element),
            Cell::Size(set) => SIZES + u64::from(set),
        };
        Key { number }
    }

    /// The number of the key, below 2^51.
    pub fn number(&self) -> u64
        ensures { result ≡ self.now }
    {
        self.number
    }
}
