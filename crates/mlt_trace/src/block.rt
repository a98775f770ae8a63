//! Lines up to the end of a block of a file.

ghost use Rattle.std.specs.Prelude.{◌≡◌, ◌≤◌, ◌<◌, ◌++◌, [], ℕ, List, IfOk, IsOkUnless, OnErr, OnOk, length, replicate, take};
ghost use Rattle.mlt_text.specs.Texts.{AppendsFront};
ghost use Rattle.mlt_trace.specs.Items.{item_text};
ghost use Rattle.mlt_trace.specs.Lines.{AddsLines, AreLinesOf, KeepsToBlock, spaced_line};

use crate::kept::KeptItem;
use arrayvec::ArrayString;
use mlt_text::write_text;
use mlt_types::Refusal;
use std::fmt::Write as _;
use std::io::Write;

// How many bytes a block of a file has: what a write copies in one go, at any place that is a multiple of it.
const BLOCK: usize = 4_096;

// More than any line has.
const LINE: usize = 96;

/// Writes lines of the first items to a file that has so many bytes, as many as there is room for in the block in which it goes on, and
/// answers how many. The last line of a block has spaces before its end, so that it ends with the block: then no write goes over the end
/// of a block, which is where a write of a killed process may be cut.
///
/// # Errors
/// `Io`, where a write failed; then a front of such lines was written, or nothing.
pub fn write_block<W: Write>(
    items: &[KeptItem],
    bytes: u64,
    writer: &mut W,
) -> Result<usize, Refusal>
    ensures count { IfOk result (λ count. count ≤ length items.now) }
    ensures some { IfOk result (λ count. 0 < length items.now → 0 < count) }
    ensures lines { IfOk result (λ count. AddsLines bytes (take count items.now)
        (W.contents writer.old) (W.contents writer.new)) }
    ensures err { OnErr result ((text : List ℕ) × (count : ℕ)
        × AreLinesOf (take count items.now) text
        × AppendsFront (W.contents writer.old) (W.contents writer.new) text) }
    ensures refusal { IsOkUnless result Refusal.Io }
{
    let mut piece = ArrayString::<BLOCK>::new();
    let left = BLOCK - (bytes % BLOCK as u64) as usize;
    // Where too little is left, which is so of no file that has such lines alone, one line goes over the end.
    let room = if left < LINE { BLOCK } else { left };
    let count = add_lines(&mut piece, items, room)?;
    write_text(writer, piece.as_str().as_bytes())?;
    Ok(count)
}

// Adds lines of the first items to an empty piece, while there is room for another one in so many bytes, and answers how many.
fn add_lines(
    piece: &mut ArrayString<BLOCK>,
    items: &[KeptItem],
    room: usize,
) -> Result<usize, Refusal>
    requires none { piece.old.bytes ≡ [] }
    requires room { 96 ≤ room }
    ensures count { IfOk result (λ count. count ≤ length items.now) }
    ensures some { IfOk result (λ count. 0 < length items.now → 0 < count) }
    ensures lines { IfOk result (λ count. AreLinesOf (take count items.now) piece.new.bytes) }
    ensures keeps { OnOk result (KeepsToBlock room (length piece.new.bytes)) }
    ensures refusal { IsOkUnless result Refusal.Io }
{
    for (count, item) in items.iter().enumerate() {
        if piece.len() >= room {
            return Ok(count);
        }
        add_line(piece, item, room)?;
    }
    Ok(items.len())
}

// Adds the line of the item: with spaces up to the end of so many bytes, if there is no room for another one behind it.
fn add_line(piece: &mut ArrayString<BLOCK>, item: &KeptItem, room: usize) -> Result<(), Refusal>
    ensures line { OnOk result ((spaces : ℕ) × (spaces < 96)
        × (piece.new.bytes ≡ piece.old.bytes ++ spaced_line item.now spaces)) }
    ensures keeps { OnOk result (KeepsToBlock room (length piece.new.bytes)) }
    ensures refusal { IsOkUnless result Refusal.Io }
{
    add_text(piece, item)?;
    let Some(left) = room.checked_sub(piece.len() + 1) else {
        return Err(Refusal::Io);
    };
    let spaces = if left < LINE { left } else { 0 };
    add_spaces(piece, spaces)?;
    add(piece, "\n")
}

// Adds the text of the item.
fn add_text(piece: &mut ArrayString<BLOCK>, item: &KeptItem) -> Result<(), Refusal>
    ensures ok { OnOk result (piece.new.bytes ≡ piece.old.bytes ++ item_text item.now) }
    ensures refusal { IsOkUnless result Refusal.Io }
{
    match write!(piece, "{item}") {
        Ok(()) => Ok(()),
        Err(_) => Err(Refusal::Io),
    }
}

// Adds so many spaces.
fn add_spaces(piece: &mut ArrayString<BLOCK>, count: usize) -> Result<(), Refusal>
    ensures ok { OnOk result (piece.new.bytes ≡ piece.old.bytes ++ replicate count 32) }
    ensures refusal { IsOkUnless result Refusal.Io }
{
    for _ in 0..count {
        add(piece, " ")?;
    }
    Ok(())
}

// Adds a text.
fn add(piece: &mut ArrayString<BLOCK>, text: &str) -> Result<(), Refusal>
    ensures ok { OnOk result (piece.new.bytes ≡ piece.old.bytes ++ text.now) }
    ensures refusal { IsOkUnless result Refusal.Io }
{
    match piece.try_push_str(text) {
        Ok(()) => Ok(()),
        Err(_) => Err(Refusal::Io),
    }
}
