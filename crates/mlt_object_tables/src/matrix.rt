//! The matrix of a conflict table.

ghost use Rattle.std.specs.Prelude.{◌≡◌, IfOk, map};
ghost use Rattle.mlt_object_conflicts.specs.Sizes.{counts};
ghost use Rattle.mlt_object_tables.specs.Words.{element_classes};

use crate::named::NamedTable;
use mlt_object_kinds::Element;
use std::alloc::{AllocError, Global};

/// The marks of one row of a table: beside a class that is held, whether each class that is asked for conflicts with it, in the
/// order of the table.
///
/// # Errors
/// Where a growth was refused.
pub fn row_of<K: NamedTable>(alloc: Global, held: K::Class) -> Result<Vec<bool>, AllocError>
    ensures marks { IfOk result (λ row. row.items ≡ map (K.marks held) K.all_classes) }
{
    let mut row = Vec::new(alloc);
    for asked in K::classes() {
        row.push(K::conflicts(held, *asked))?;
    }
    Ok(row)
}

/// The marks of the row `size`: which classes of elements conflict with the size of their set, in the order of the table.
///
/// # Errors
/// Where a growth was refused.
pub fn size_row(alloc: Global) -> Result<Vec<bool>, AllocError>
    ensures marks { IfOk result (λ row. row.items ≡ map counts element_classes) }
{
    let mut row = Vec::new(alloc);
    for class in Element::classes() {
        row.push(class.counts())?;
    }
    Ok(row)
}

// Appends the matrix: a line with the words of all classes, and one for each class that is held.
pub(crate) fn push_matrix<K: NamedTable>(
    alloc: Global,
    text: &mut String,
    title: &str,
) -> Result<(), AllocError> {
    push_head::<K>(text, title)?;
    for held in K::classes() {
        let row = row_of::<K>(alloc, *held)?;
        push_row::<K>(text, K::word(*held), row.as_slice())?;
    }
    Ok(())
}

// Appends which classes of elements conflict with the size of their set.
pub(crate) fn push_size_matrix(alloc: Global, text: &mut String) -> Result<(), AllocError> {
    push_head::<Element>(text, "size")?;
    let row = size_row(alloc)?;
    push_row::<Element>(text, "size", row.as_slice())
}

// Appends the line with the words of all classes.
fn push_head<K: NamedTable>(text: &mut String, title: &str) -> Result<(), AllocError> {
    write!(text, "{title:10}")?;
    for class in K::classes() {
        let word = K::word(*class);
        write!(text, " {word}")?;
    }
    text.push('\n')
}

// Appends a word and the marks of its row, each below the last letter of its column's word.
fn push_row<K: NamedTable>(text: &mut String, word: &str, row: &[bool]) -> Result<(), AllocError> {
    write!(text, "{word:10}")?;
    for (class, is_marked) in K::classes().iter().zip(row) {
        let width = K::word(*class).len() + 1;
        let mark = if *is_marked { 'x' } else { '.' };
        write!(text, "{mark:>width$}")?;
    }
    text.push('\n')
}
