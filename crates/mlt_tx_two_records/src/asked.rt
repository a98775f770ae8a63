//! What a pair is asked for.

ghost use Rattle.std.specs.Prelude.{◌≡◌};
ghost use Rattle.mlt_tx_two_records.specs.Performing.{asked_of};

use mlt_hash_pair::RecordChange;
use mlt_object_base::RecChange;
use mlt_types::Value;

/// The change of a record that was decided on, where the record has this value, or there is none.
pub(crate) fn asked_for(change: RecChange, found: Option<Value>) -> RecordChange
    ensures { result ≡ asked_of change found }
{
    match change {
        RecChange::Add(value) => RecordChange::Insert(value),
        RecChange::ToGhost => RecordChange::Remove,
        RecChange::Revive => RecordChange::Insert(0),
        _ => RecordChange::Update(change.value_after(found).unwrap_or(0)),
    }
}
