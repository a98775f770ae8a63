//! The text of a base.

ghost use Rattle.std.specs.Prelude.{◌≡◌, ◌⊎◌, ◌++◌, IfErr, IsOkUnless, OnOk, IsErrOf};
ghost use Rattle.std.specs.BTreeMap as tree;
ghost use Rattle.std.specs.BTreeSet as sorted;
ghost use Rattle.std.specs.Io.KnownBytes.{Appends, Keeps};
ghost use Rattle.std.specs.List.{flat_map};
ghost use Rattle.std.specs.Ordering.{nat_cmp};
ghost use Rattle.std.specs.String.{string_bytes};
ghost use Rattle.mlt_object_base.specs.BaseText.{account_line, base_text, key_line, value_line};
ghost use Rattle.mlt_object_kinds.specs.Bases.{element_cmp};
ghost use Rattle.mlt_text.specs.Texts.{AppendsFront};

use crate::base::Base;
use mlt_text::write_text;
use mlt_types::Refusal;
use std::collections::{BTreeMap, BTreeSet};
use std::io::Write;

// Appends a line for each account.
pub(crate) fn push_accounts(text: &mut String, balances: &BTreeMap<u32, u64>) -> Result<(), Refusal>
    ensures text { OnOk result
        (string_bytes text.new
        ≡ string_bytes text.old ++ flat_map account_line balances.now.entries) }
    ensures by_number { OnOk result (tree.IsOrdered nat_cmp balances.now) }
    ensures refusal { IsOkUnless result Refusal.OutOfMemory }
{
    for (account, balance) in balances {
        writeln!(text, "account {account} {balance}")?;
    }
    Ok(())
}

// Appends a line for each element.
pub(crate) fn push_elements(text: &mut String, keys: &BTreeSet<(u16, u32)>) -> Result<(), Refusal>
    ensures text { OnOk result
        (string_bytes text.new ≡ string_bytes text.old ++ flat_map key_line keys.now.keys) }
    ensures by_key { OnOk result (sorted.IsOrdered element_cmp keys.now) }
    ensures refusal { IsOkUnless result Refusal.OutOfMemory }
{
    for key in keys {
        let (set, element) = *key;
        writeln!(text, "element {set} {element}")?;
    }
    Ok(())
}

// Appends a line for each counter.
pub(crate) fn push_counters(text: &mut String, values: &BTreeMap<u32, u64>) -> Result<(), Refusal>
    ensures text { OnOk result
        (string_bytes text.new ≡ string_bytes text.old ++ flat_map value_line values.now.entries) }
    ensures by_number { OnOk result (tree.IsOrdered nat_cmp values.now) }
    ensures refusal { IsOkUnless result Refusal.OutOfMemory }
{
    for (counter, value) in values {
        writeln!(text, "counter {counter} {value}")?;
    }
    Ok(())
}

/// Writes the text of a base: a line `account A b` for each account by rising number, then `element S e` for
/// each element by rising set and number, then `counter C v` for each counter that is not 0, by rising number.
///
/// # Errors
/// `OutOfMemory`, where a growth was refused; nothing was written. `Io`, where a write failed; then a
/// front of the text was written.
pub fn write_base<W: Write>(base: &Base, writer: &mut W) -> Result<(), Refusal>
    ensures ok { OnOk result
        (Appends (W.contents writer.old) (W.contents writer.new) (base_text base.now)) }
    ensures memory { IsErrOf result Refusal.OutOfMemory
        → Keeps (W.contents writer.old) (W.contents writer.new) }
    ensures io { IsErrOf result Refusal.Io
        → AppendsFront (W.contents writer.old) (W.contents writer.new) (base_text base.now) }
    ensures refusal { IfErr result
        (λ refusal. (refusal ≡ Refusal.OutOfMemory) ⊎ (refusal ≡ Refusal.Io)) }
{
    let text = base.text()?;
    write_text(writer, text.as_bytes())
}
