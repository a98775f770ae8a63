//! The holders at all places, by the numbers of the places.

ghost use Rattle.std.specs.Prelude.{◌≡◌, ◌<◌, ◌≤◌, ◌+◌, ℕ, None, Some, OnOk, OnErr, IsOkUnless, IfNone, IfSome, [], false, true, nat_eq, length, slice_get};
ghost use Rattle.std.specs.List.{filter, list_all, list_any};
ghost use Rattle.indexmap.specs.IndexMap.{IsUnique, get};
ghost use Rattle.mlt_object_locks.specs.Locks.{IsLowestOf};
ghost use Rattle.mlt_object_locks.specs.Classes.{bit_of_item};
ghost use Rattle.mlt_object_locks.specs.Holders.{IsHere, HasBit, Joins, Grants, StandsAgainst, is_of, is_not_of, is_not_idle_of};
ghost use Rattle.mlt_object_locks.specs.Cells.{list_at, AreBitsNoted, ChangesAt, GivesUp, GrantsAt, HasHolderIfThere, IsHereAt, JoinsAt, ReleasesAt, StandsAtOne};
ghost use Rattle.mlt_object_locks.specs.Places.{places_if_any};
ghost use Rattle.mlt_object_locks.specs.Noted.{noted_of, NotesAtMost, NotesEach, SameNoted};

use crate::holders::{Holders, lower};
use crate::noted::Noted;
use crate::places::places_of;
use indexmap::IndexMap;
use indexmap::map::Entry;
use mlt_object_kinds::Done;
use mlt_types::{Cell, Refusal, TxId};

/// The places that have a holder, each by its number.
pub(crate) type Cells = IndexMap<u64, Holders>;

// Where a place is in the map. It is looked for first at an index at which it mostly is, since to look it up takes longer.
#[inline(always)]
fn place_of(cells: &Cells, key: u64, likely: usize) -> Option<usize>
    ensures found { IfSome result (λ at.
        slice_get cells.now.entries at ≡ Some (key, list_at cells.now key)) }
    ensures none { IfNone result (get nat_eq cells.now key ≡ None) }
{
    match cells.get_index(likely) {
        Some((other, _)) if *other == key => Some(likely),
        _ => look_up(cells, key),
    }
}

// The same without a guess.
#[inline(never)]
fn look_up(cells: &Cells, key: u64) -> Option<usize>
    ensures found { IfSome result (λ at.
        slice_get cells.now.entries at ≡ Some (key, list_at cells.now key)) }
    ensures none { IfNone result (get nat_eq cells.now key ≡ None) }
{
    match cells.get_full(&key) {
        Some((at, _, _)) => Some(at),
        None => None,
    }
}

/// Where a place is in the map, if it is there, with no holder but the transaction.
#[inline(always)]
pub(crate) fn alone_at(cells: &Cells, key: u64, likely: usize, tx: TxId) -> Option<usize>
    ensures found { IfSome result (λ at.
        slice_get cells.now.entries at ≡ Some (key, list_at cells.now key)) }
    ensures alone { IfSome result (λ at. list_all (is_of tx) (list_at cells.now key) ≡ true) }
{
    let at = place_of(cells, key, likely)?;
    if cells[at].is_alone(tx) {
        Some(at)
    } else {
        None
    }
}

/// Adds the transaction to the holders at these places, where it is not there. Answers where the first of them is in the map,
/// which is that of a cell itself.
///
/// # Errors
/// `OutOfMemory`, where a growth was refused; the transaction may have come at some of the places.
#[inline(always)]
pub(crate) fn join_each(cells: &mut Cells, places: &[u64], tx: TxId) -> Result<usize, Refusal>
    requires { IsUnique nat_eq cells.old }
    ensures joins { JoinsAt cells.old cells.new places.now tx }
    ensures here { OnOk result (IsHereAt cells.new places.now tx) }
    ensures refusal { IsOkUnless result Refusal.OutOfMemory }
{
    let mut first = None;
    for place in places {
        let at = join(cells, *place, tx)?;
        first = first.or(Some(at));
    }
    Ok(first.unwrap_or(0))
}

// Adds the transaction to the holders at a place, if it is not there. Answers where the place is in the map.
#[inline(always)]
fn join(cells: &mut Cells, key: u64, tx: TxId) -> Result<usize, Refusal>
    ensures others { ChangesAt cells.old cells.new key }
    ensures joins { OnOk result (Joins (list_at cells.old key) (list_at cells.new key) tx) }
    ensures err { OnErr result (list_at cells.new key ≡ list_at cells.old key) }
    ensures refusal { IsOkUnless result Refusal.OutOfMemory }
{
    let alloc = *cells.allocator();
    match cells.entry(key)? {
        Entry::Occupied(entry) => {
            let at = entry.index();
            entry.into_mut().join(tx)?;
            Ok(at)
        },
        Entry::Vacant(entry) => {
            let at = entry.index();
            entry.insert(Holders::of(alloc, tx));
            Ok(at)
        },
    }
}

/// The lowest number of another transaction that holds a clashing operation at one of these places, if there is one.
pub(crate) fn lowest_clash(
    cells: &Cells,
    places: &[u64],
    likely: usize,
    tx: TxId,
    done: &Done,
) -> Option<TxId>
    ensures { IsLowestOf (StandsAtOne cells.now places.now tx done.now) result }
{
    let mut lowest = None;
    for place in places {
        if let Some(holder) = lowest_clash_at(cells, *place, likely, tx, done) {
            lowest = Some(lower(lowest, holder));
        }
    }
    lowest
}

// The same at one place.
fn lowest_clash_at(cells: &Cells, key: u64, likely: usize, tx: TxId, done: &Done) -> Option<TxId>
    ensures { IsLowestOf (StandsAgainst (list_at cells.now key) tx done.now) result }
{
    let at = place_of(cells, key, likely)?;
    cells[at].lowest_clash(tx, done)
}

/// The transaction, which is one of the holders at these places, holds one operation more there. A place is noted, where it
/// was idle. It takes no memory.
pub(crate) fn grant_each(
    cells: &mut Cells,
    noted: &mut Noted,
    places: &[u64],
    likely: usize,
    tx: TxId,
    done: &Done,
)
    requires unique { IsUnique nat_eq cells.old }
    requires here { IsHereAt cells.old places.now tx }
    requires room { length places.now ≤ (noted_of noted.old tx).room }
    requires noted { AreBitsNoted cells.old noted.old }
    ensures grants { GrantsAt cells.old cells.new places.now tx (bit_of_item done.now) }
    ensures others { SameNoted noted.old noted.new tx }
    ensures notes { NotesEach (noted_of noted.old tx).keys (noted_of noted.new tx).keys places.now }
{
    for place in places {
        let Some(at) = place_of(cells, *place, likely) else {
            unreachable!();
        };
        grant(cells, noted, *place, at, tx, done);
    }
}

/// The transaction, which is one of the holders at a place, holds one operation more there. The place, which is at this index of
/// the map, is noted, where it was idle. It takes no memory.
#[inline(always)]
pub(crate) fn grant(
    cells: &mut Cells,
    noted: &mut Noted,
    key: u64,
    at: usize,
    tx: TxId,
    done: &Done,
)
    requires found { slice_get cells.old.entries at ≡ Some (key, list_at cells.old key) }
    requires here { IsHere (list_at cells.old key) tx }
    requires room { 0 < (noted_of noted.old tx).room }
    requires noted { AreBitsNoted cells.old noted.old }
    ensures cells { ChangesAt cells.old cells.new key }
    ensures grants { let bit = bit_of_item done.now in
        Grants (list_at cells.old key) (list_at cells.new key) tx bit }
    ensures others { SameNoted noted.old noted.new tx }
    ensures room { (noted_of noted.old tx).room ≤ (noted_of noted.new tx).room + 1 }
    ensures notes { NotesAtMost (noted_of noted.old tx).keys (noted_of noted.new tx).keys key }
{
    if grant_at(cells, key, at, tx, done) {
        noted.note(tx, key);
    }
}

// The transaction holds one operation more at a place, which is at this index. Whether it was idle there.
#[inline(always)]
fn grant_at(cells: &mut Cells, key: u64, at: usize, tx: TxId, done: &Done) -> bool
    requires found { slice_get cells.old.entries at ≡ Some (key, list_at cells.old key) }
    requires here { IsHere (list_at cells.old key) tx }
    ensures others { ChangesAt cells.old cells.new key }
    ensures grants { let bit = bit_of_item done.now in
        Grants (list_at cells.old key) (list_at cells.new key) tx bit }
    ensures idle { result ≡ false → (bit : ℕ) × HasBit (list_at cells.old key) tx bit }
{
    cells.pair_mut(at).1.grant(tx, done)
}

/// Takes the transaction away at the first places that are none of those to keep, where it is idle.
pub(crate) fn give_up_each(cells: &mut Cells, places: &[u64], kept: &[u64], tx: TxId)
    requires { IsUnique nat_eq cells.old }
    ensures { GivesUp cells.old cells.new places.now kept.now tx }
{
    for place in places {
        if !is_among(kept, *place) {
            give_up(cells, *place, tx);
        }
    }
}

/// The same at the places of a cell, if there is one.
#[inline(always)]
pub(crate) fn give_up_cell(cells: &mut Cells, cell: Option<Cell>, kept: &[u64], tx: TxId)
    requires { IsUnique nat_eq cells.old }
    ensures { GivesUp cells.old cells.new (places_if_any cell) kept.now tx }
{
    if let Some(cell) = cell {
        give_up_each(cells, places_of(&cell).as_slice(), kept, tx);
    }
}

// Whether a place is one of these.
fn is_among(places: &[u64], place: u64) -> bool
    ensures { result ≡ list_any (nat_eq place) places.now }
{
    places.iter().any(|other| *other == place)
}

// Takes the transaction away at a place, if it is idle there.
fn give_up(cells: &mut Cells, key: u64, tx: TxId)
    ensures others { ChangesAt cells.old cells.new key }
    ensures given_up { list_at cells.new key
        ≡ filter (is_not_idle_of tx) (list_at cells.old key) }
    ensures gone { HasHolderIfThere cells.new key }
{
    let Some(holders) = cells.get_mut(&key) else {
        return;
    };
    holders.give_up(tx);
    if holders.is_empty() {
        cells.swap_remove(&key);
    }
}

// Takes the transaction away at a place, which is mostly the last in the map.
fn release(cells: &mut Cells, key: u64, tx: TxId)
    ensures others { ChangesAt cells.old cells.new key }
    ensures released { list_at cells.new key ≡ filter (is_not_of tx) (list_at cells.old key) }
    ensures gone { HasHolderIfThere cells.new key }
{
    let last = cells.len().saturating_sub(1);
    let Some(at) = place_of(cells, key, last) else {
        return;
    };
    if cells[at].is_alone(tx) {
        cells.swap_remove_index(at);
    } else {
        cells[at].release(tx);
    }
}

/// Takes the transaction away at the places that are noted of it, and the notes with it.
pub(crate) fn release_noted(cells: &mut Cells, noted: &mut Noted, tx: TxId)
    requires { IsUnique nat_eq cells.old }
    ensures released { ReleasesAt cells.old cells.new (noted_of noted.old tx).keys tx }
    ensures others { SameNoted noted.old noted.new tx }
    ensures none { (noted_of noted.new tx).keys ≡ [] }
{
    if let Some(keys) = noted.take(tx) {
        release_each(cells, keys.as_slice(), tx);
    }
}

/// Takes the transaction away at these places: first at the last, which came last to the map.
pub(crate) fn release_each(cells: &mut Cells, keys: &[u64], tx: TxId)
    requires { IsUnique nat_eq cells.old }
    ensures { ReleasesAt cells.old cells.new keys.now tx }
{
    for later in 0..keys.len() {
        release(cells, keys[keys.len() - 1 - later], tx);
    }
}
