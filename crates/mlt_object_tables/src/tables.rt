//! The text of the conflict tables.

ghost use Rattle.std.specs.Prelude.{◌≡◌, ◌⊎◌, ℕ, List, IfErr, IsErrOf};
ghost use Rattle.std.specs.Io.KnownBytes.{Appends, Keeps};

use crate::examples::orders_of;
use crate::matrix::{push_matrix, push_size_matrix};
use crate::named::NamedTable;
use crate::orders::push_example;
use crate::sizes::size_orders;
use mlt_object_kinds::{Account, Counter, Element};
use mlt_text::write_text;
use mlt_types::Refusal;
use std::alloc::{AllocError, Global};
use std::io::Write;

// What the title and the lines of an example begin with.
const LEADS: (&str, &str) = ("", "  ");

/// A conflict table, by its name.
#[derive(Clone, Copy, Debug, PartialEq, Eq)]
pub enum TableName {
    /// That of accounts.
    Account,
    /// That of the elements of sets, with what changes the size of a set.
    Set,
    /// That of counters.
    Counter,
}

/// Writes the conflict table of this name, or all three: a matrix of what is held by what is asked for, and an example
/// of each conflict. What the writer had stays in front.
///
/// # Errors
/// `OutOfMemory`, where a growth was refused; nothing was written. `Io`, where a write failed; then a front of the text
/// was written.
pub fn write_tables<W: Write>(
    alloc: Global,
    name: Option<TableName>,
    writer: &mut W,
) -> Result<(), Refusal>
    ensures grows { (added : List ℕ)
        × Appends (W.contents writer.old) (W.contents writer.new) added }
    ensures memory { IsErrOf result Refusal.OutOfMemory
        → Keeps (W.contents writer.old) (W.contents writer.new) }
    ensures refusal { IfErr result
        (λ refusal. (refusal ≡ Refusal.OutOfMemory) ⊎ (refusal ≡ Refusal.Io)) }
{
    let text = text_of(alloc, name)?;
    write_text(writer, text.as_bytes())
}

// The table of this name, or all, with a blank line between them.
fn text_of(alloc: Global, name: Option<TableName>) -> Result<String, AllocError> {
    let mut text = String::new(alloc);
    match name {
        Some(name) => push_table(alloc, &mut text, name)?,
        None => {
            push_table(alloc, &mut text, TableName::Account)?;
            text.push('\n')?;
            push_table(alloc, &mut text, TableName::Set)?;
            text.push('\n')?;
            push_table(alloc, &mut text, TableName::Counter)?;
        }
    }
    Ok(text)
}

fn push_table(alloc: Global, text: &mut String, name: TableName) -> Result<(), AllocError> {
    match name {
        TableName::Account => push_pairs::<Account>(alloc, text, "account"),
        TableName::Set => {
            push_pairs::<Element>(alloc, text, "set")?;
            push_sizes(alloc, text)
        }
        TableName::Counter => push_pairs::<Counter>(alloc, text, "counter"),
    }
}

// Appends the matrix of a table under this title, and an example of each two classes that conflict.
fn push_pairs<K: NamedTable>(
    alloc: Global,
    text: &mut String,
    title: &str,
) -> Result<(), AllocError>
where
    K::State: Copy,
    K::Op: Copy,
    K::Reply: Copy,
{
    push_matrix::<K>(alloc, text, title)?;
    text.push('\n')?;
    for held in K::classes() {
        for asked in K::classes() {
            if let Some(orders) = orders_of::<K>(*held, *asked) {
                let words = (K::word(*held), K::word(*asked));
                push_example(text, LEADS, words, &orders)?;
            }
        }
    }
    Ok(())
}

// Appends which operations on elements conflict with the size of their set, and an example of each in all orders.
fn push_sizes(alloc: Global, text: &mut String) -> Result<(), AllocError> {
    text.push('\n')?;
    push_size_matrix(alloc, text)?;
    text.push('\n')?;
    for class in Element::classes() {
        if let Some((operation_held, size_held)) = size_orders(*class) {
            let word = Element::word(*class);
            push_example(text, LEADS, (word, "size"), &operation_held)?;
            push_example(text, LEADS, ("size", word), &size_held)?;
        }
    }
    Ok(())
}
