//! The set of open transactions.

ghost use Rattle.std.specs.Prelude.{◌≡◌, ◌<◌, ◌≤◌, ◌==◌, ◌⊎◌, ◌↔◌, IsTrue, position};
ghost use Rattle.std.specs.FinSet as set;

use crate::number::TxId;
use arrayvec::ArrayVec;
use std::marker::Model;

/// A set of at most 64 numbers of transactions. It takes no memory. A contract sees a finite set.
#[derive(Debug, Drop)]
pub struct OpenSet {
    numbers: ArrayVec<u64, 64>,
}

impl Model for OpenSet {
    ghost use Rattle.std.specs.Prelude.{nat_eq};
    ghost use Rattle.std.specs.List.{IsDistinct};
    ghost use Rattle.std.specs.Ordering.{nat_cmp};
    ghost use Rattle.std.specs.FinSet as set;
    ghost use Rattle.std.specs.Coded.{coded_ℕ};

    ghost Value = { set.FinSet nat_cmp };

    ghost coded = { set.code coded_ℕ };

    ghost view = { λ s. set.from_list s.numbers.items };

    ghost invariant = { λ s. IsDistinct nat_eq s.numbers.items };
}

impl OpenSet {
    /// The empty set.
    #[tactic(auto, using(crate::proofs::Numbers::distinct_none))]
    pub fn new() -> OpenSet
        ensures { result ≡ set.empty }
    {
        OpenSet {
            numbers: ArrayVec::new(),
        }
    }

    /// Whether the number is in the set.
    #[tactic(auto, using(crate::proofs::Numbers::contains_is_any))]
    pub fn contains(&self, id: TxId) -> bool
        ensures { result ≡ set.contains self.now id }
    {
        self.numbers.contains(&id.0)
    }

    /// Adds a number, if it is not there already. A new number needs room (`is_full`).
    #[tactic(auto, using(crate::proofs::Numbers::len_is_length, crate::proofs::Numbers::distinct_push, crate::proofs::Numbers::set_push, crate::proofs::Numbers::insert_present))]
    pub fn insert(&mut self, id: TxId)
        requires { (set.len self.old < 64) ⊎ IsTrue (set.contains self.old id) }
        ensures { self.new ≡ set.insert self.old id }
    {
        if !self.contains(id) {
            self.numbers.push(id.0);
        }
    }

    /// Takes a number out, if it is there.
    #[tactic(auto, using(crate::proofs::Numbers::distinct_remove))]
    pub fn remove(&mut self, id: TxId)
        ensures { self.new ≡ set.remove self.old id }
    {
        if let Some(place) = place_of(&self.numbers, id.0) {
            self.numbers.remove(place);
        }
    }

    /// How many numbers there are, 0 to 64.
    #[tactic(auto, using(crate::proofs::Numbers::len_is_length))]
    pub fn len(&self) -> usize
        ensures len { result ≡ set.len self.now }
        ensures fits { result ≤ 64 }
    {
        self.numbers.len()
    }

    /// Whether there is no room for a further number.
    #[tactic(auto, using(crate::proofs::Numbers::len_is_length))]
    pub fn is_full(&self) -> bool
        ensures full { IsTrue result ↔ (set.len self.now ≡ 64) }
        ensures fits { set.len self.now ≤ 64 }
    {
        self.numbers.is_full()
    }
}

fn place_of(numbers: &[u64], number: u64) -> Option<usize>
    ensures { result ≡ position (λ n. n == number) numbers.now }
{
    numbers.iter().position(|n| *n == number)
}
