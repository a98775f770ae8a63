//! The places at which transactions hold something, by their numbers.
//!
//! A place is noted when an operation that stands there is granted, in room that the reservation made. So no more places
//! are noted of a transaction than two for each operation that it holds, however many cells it has reserved.
//!
//! Few transactions hold something at a time, and to look where one stood in a list of them takes less than to keep a table.

ghost use Rattle.std.specs.Prelude.{◌≡◌, ◌<◌, ◌≤◌, ◌+◌, ◌++◌, ◌∷◌, [], None, Some, OnOk, OnErr, IsOkUnless, position};
ghost use Rattle.std.specs.Option.{option_map_or};
ghost use Rattle.mlt_object_locks.specs.Entries.{HasEachOnce, is_entry_of};
ghost use Rattle.mlt_object_locks.specs.Noted.{noted_of, SameNoted};

use mlt_types::{PlaceHints, Refusal, TxId};
use smallvec::SmallVec;
use std::alloc::Global;
use std::marker::Model;

/// Places, by their numbers. A contract sees their list, and for how many more there is room. A few take no memory of their
/// own.
#[derive(Drop)]
pub(crate) struct CellKeys {
    keys: SmallVec<u64, 8>,
}

impl Model for CellKeys {
    ghost use Rattle.std.specs.Prelude.{◌-◌};
    ghost use Rattle.smallvec.specs.SmallVec.{small_vec_len};
    ghost use Rattle.mlt_object_locks.specs.Noted.{KeysWithRoom};

    ghost Value = { KeysWithRoom };

    ghost view = { λ places. record {
      keys = places.keys.items;
      room = places.keys.capacity - small_vec_len places.keys;
    } };
}

impl CellKeys {
    /// No place. It takes no memory.
    fn new(alloc: Global) -> CellKeys
        ensures { result.keys ≡ [] }
    {
        CellKeys {
            keys: SmallVec::new(alloc),
        }
    }

    /// Makes room for two more, where there is less.
    ///
    /// # Errors
    /// `OutOfMemory`, where a growth was refused; the list and its room are then as before.
    fn reserve(&mut self) -> Result<(), Refusal>
        ensures keys { self.new.keys ≡ self.old.keys }
        ensures room { OnOk result (2 ≤ self.new.room) }
        ensures err { OnErr result (self.new ≡ self.old) }
        ensures refusal { IsOkUnless result Refusal.OutOfMemory }
    {
        if self.keys.capacity() - self.keys.len() >= 2 {
            return Ok(());
        }
        self.grow()
    }

    // The same by a growth.
    #[cold]
    #[inline(never)]
    fn grow(&mut self) -> Result<(), Refusal>
        ensures keys { self.new.keys ≡ self.old.keys }
        ensures room { OnOk result (2 ≤ self.new.room) }
        ensures err { OnErr result (self.new ≡ self.old) }
        ensures refusal { IsOkUnless result Refusal.OutOfMemory }
    {
        self.keys.reserve(2)?;
        Ok(())
    }

    /// Adds a place, in room that was made. It takes no memory.
    fn add(&mut self, key: u64)
        requires { 0 < self.old.room }
        ensures keys { self.new.keys ≡ self.old.keys ++ key ∷ [] }
        ensures room { self.old.room ≤ self.new.room + 1 }
    {
        self.keys.push_reserved(key);
    }

    /// The numbers, in the order in which they came.
    pub fn as_slice(&self) -> &[u64]
        ensures { result.now ≡ self.now.keys }
    {
        &self.keys
    }
}

/// The places of each transaction. A contract sees the list of the transactions with their places, each transaction once.
#[derive(Drop)]
pub(crate) struct Noted {
    entries: Vec<(TxId, CellKeys)>,
    hints: PlaceHints,
}

impl Model for Noted {
    ghost use Rattle.std.specs.Prelude.{ℕ, List};
    ghost use Rattle.mlt_object_locks.specs.Entries.{HasEachOnce};
    ghost use Rattle.mlt_object_locks.specs.Noted.{KeysWithRoom};

    ghost Value = { List (ℕ × KeysWithRoom) };

    ghost view = { λ noted. noted.entries.items };

    ghost invariant = { λ noted. HasEachOnce noted.entries.items };
}

impl Noted {
    /// Nothing of any transaction. It takes no memory.
    pub fn new(alloc: Global) -> Noted
        ensures { result ≡ [] }
    {
        Noted {
            entries: Vec::new(alloc),
            hints: PlaceHints::new(),
        }
    }

    /// Makes room for two more places of the transaction, where there is less.
    ///
    /// # Errors
    /// `OutOfMemory`, where a growth was refused; there is then as much room as before.
    #[inline(always)]
    pub fn make_room(&mut self, tx: TxId) -> Result<(), Refusal>
        ensures others { SameNoted self.old self.new tx }
        ensures keys { (noted_of self.new tx).keys ≡ (noted_of self.old tx).keys }
        ensures room { OnOk result (2 ≤ (noted_of self.new tx).room) }
        ensures err { OnErr result ((noted_of self.new tx).room ≡ (noted_of self.old tx).room) }
        ensures refusal { IsOkUnless result Refusal.OutOfMemory }
    {
        match place_of(&self.entries, &self.hints, tx) {
            Some(at) => self.entries[at].1.reserve(),
            None => self.begin(tx),
        }
    }

    // The same of a transaction of which nothing is noted yet.
    #[inline(never)]
    fn begin(&mut self, tx: TxId) -> Result<(), Refusal>
        requires { position (is_entry_of tx) self.old ≡ None }
        ensures others { SameNoted self.old self.new tx }
        ensures keys { (noted_of self.new tx).keys ≡ (noted_of self.old tx).keys }
        ensures room { OnOk result (2 ≤ (noted_of self.new tx).room) }
        ensures err { OnErr result ((noted_of self.new tx).room ≡ (noted_of self.old tx).room) }
        ensures refusal { IsOkUnless result Refusal.OutOfMemory }
    {
        let mut keys = CellKeys::new(*self.entries.allocator());
        keys.reserve()?;
        self.hints.note(tx, self.entries.len());
        self.entries.push((tx, keys))?;
        Ok(())
    }

    /// Notes a place of the transaction, in room that was made. It takes no memory.
    pub fn note(&mut self, tx: TxId, key: u64)
        requires { 0 < (noted_of self.old tx).room }
        ensures others { SameNoted self.old self.new tx }
        ensures added { (noted_of self.new tx).keys ≡ (noted_of self.old tx).keys ++ key ∷ [] }
        ensures room { (noted_of self.old tx).room ≤ (noted_of self.new tx).room + 1 }
    {
        match place_of(&self.entries, &self.hints, tx) {
            Some(at) => self.entries[at].1.add(key),
            None => unreachable!(),
        }
    }

    /// Takes away what is noted of the transaction, and answers it, if it is anything.
    pub fn take(&mut self, tx: TxId) -> Option<CellKeys>
        ensures keys { option_map_or (λ places. places.keys) result []
            ≡ (noted_of self.old tx).keys }
        ensures others { SameNoted self.old self.new tx }
        ensures none { (noted_of self.new tx).keys ≡ [] }
    {
        match place_of(&self.entries, &self.hints, tx) {
            Some(at) => {
                let taken = self.entries.swap_remove(at);
                note_moved(&mut self.hints, &self.entries, at);
                Some(taken.1)
            },
            None => None,
        }
    }
}

// Where the transaction is in the list, if it is there. It is looked for first where it is hinted at.
#[inline(always)]
fn place_of(entries: &[(TxId, CellKeys)], hints: &PlaceHints, tx: TxId) -> Option<usize>
    requires { HasEachOnce entries.now }
    ensures { result ≡ position (is_entry_of tx) entries.now }
{
    let likely = hints.of(tx);
    match entries.get(likely) {
        Some(entry) if entry.0 == tx => Some(likely),
        _ => entries.iter().position(|entry| entry.0 == tx),
    }
}

// The last entry has come to this place, if it was not there.
fn note_moved(hints: &mut PlaceHints, entries: &[(TxId, CellKeys)], at: usize) {
    if let Some(entry) = entries.get(at) {
        hints.note(entry.0, at);
    }
}
