//! How many elements each set of a base has, in an ordered map. A set that is not there has none.

ghost use Rattle.std.specs.Prelude.{◌≡◌, ◌≢◌, ℕ, ◌+◌, ◌<◌, ◌^◌, IsOkUnless, OnOk, IsSome};
ghost use Rattle.std.specs.BTreeMap.{get};
ghost use Rattle.std.specs.Ordering.{nat_cmp};
ghost use Rattle.mlt_object_base.specs.Kept.{kept_size};

use mlt_types::Refusal;
use std::collections::BTreeMap;

/// The number of elements of each set, by its number.
pub(crate) type Sizes = BTreeMap<u16, u64>;

/// How many elements a set has.
pub(crate) fn size_of(sizes: &Sizes, set: u16) -> u64
    ensures { result ≡ kept_size sizes.now.entries set }
{
    sizes.get(&set).copied().unwrap_or(0)
}

/// Takes the room that the size of a set needs, so that it can be raised without memory.
///
/// # Errors
/// `OutOfMemory`, where a growth was refused.
pub(crate) fn take_room(sizes: &mut Sizes, set: u16) -> Result<(), Refusal>
    ensures same { (s : ℕ) → kept_size sizes.new.entries s ≡ kept_size sizes.old.entries s }
    ensures there { OnOk result (IsSome (get nat_cmp sizes.new set)) }
    ensures refusal { IsOkUnless result Refusal.OutOfMemory }
{
    let size = size_of(sizes, set);
    sizes.insert(set, size)?;
    Ok(())
}

/// A set for whose size there is room has one element more.
pub(crate) fn raise(sizes: &mut Sizes, set: u16)
    requires there { IsSome (get nat_cmp sizes.old set) }
    requires small { kept_size sizes.old.entries set + 1 < 2 ^ 64 }
    ensures raised { kept_size sizes.new.entries set ≡ kept_size sizes.old.entries set + 1 }
    ensures others { (s : ℕ) → s ≢ set
        → kept_size sizes.new.entries s ≡ kept_size sizes.old.entries s }
{
    match sizes.get_mut(&set) {
        Some(size) => *size += 1,
        None => unreachable!(),
    }
}

/// A set with an element has one element less.
pub(crate) fn lower(sizes: &mut Sizes, set: u16)
    requires { 0 < kept_size sizes.old.entries set }
    ensures lowered { kept_size sizes.new.entries set + 1 ≡ kept_size sizes.old.entries set }
    ensures others { (s : ℕ) → s ≢ set
        → kept_size sizes.new.entries s ≡ kept_size sizes.old.entries s }
{
    match sizes.get_mut(&set) {
        Some(size) => *size -= 1,
        None => unreachable!(),
    }
}
