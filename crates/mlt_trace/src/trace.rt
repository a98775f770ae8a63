//! The text of a trace.

ghost use Rattle.std.specs.Prelude.{◌≡◌, ◌++◌, ℕ, List, IsOkUnless, OnErr, OnOk};
ghost use Rattle.std.specs.Io.KnownBytes.{Appends};
ghost use Rattle.mlt_text.specs.Texts.{AppendsFront};
ghost use Rattle.mlt_trace.specs.Items.{item_line, trace_text};

use crate::kept::KeptItem;
use arrayvec::ArrayString;
use mlt_text::write_text;
use mlt_types::Refusal;
use std::fmt::Write as _;
use std::io::Write;

// How many bytes a piece of the text has at most.
const PIECE: usize = 16_384;

// Longer than any line.
const LINE: usize = 96;

/// Writes the text of a trace: a line for each item, in order. It takes no memory, since the text goes out in pieces
/// of whole lines.
///
/// # Errors
/// `Io`, where a write failed; then a front of the text was written.
pub fn write_trace<W: Write>(items: &[KeptItem], writer: &mut W) -> Result<(), Refusal>
    ensures ok { OnOk result
        (Appends (W.contents writer.old) (W.contents writer.new) (trace_text items.now)) }
    ensures err { OnErr result
        (AppendsFront (W.contents writer.old) (W.contents writer.new) (trace_text items.now)) }
    ensures refusal { IsOkUnless result Refusal.Io }
{
    let mut piece = ArrayString::<PIECE>::new();
    for item in items {
        make_room(&mut piece, writer)?;
        add_line(&mut piece, item)?;
    }
    write_text(writer, piece.as_str().as_bytes())
}

// Writes the piece and empties it, where it may have no room for another line.
fn make_room<W: Write>(piece: &mut ArrayString<PIECE>, writer: &mut W) -> Result<(), Refusal>
    // what is no longer in the piece was written
    ensures ok { OnOk result ((out : List ℕ) × (piece.old.bytes ≡ out ++ piece.new.bytes)
        × Appends (W.contents writer.old) (W.contents writer.new) out) }
    ensures err { OnErr result
        (AppendsFront (W.contents writer.old) (W.contents writer.new) piece.old.bytes) }
    ensures refusal { IsOkUnless result Refusal.Io }
{
    if piece.remaining_capacity() < LINE {
        write_text(writer, piece.as_str().as_bytes())?;
        piece.clear();
    }
    Ok(())
}

// Adds the line of the item.
fn add_line(piece: &mut ArrayString<PIECE>, item: &KeptItem) -> Result<(), Refusal>
    ensures ok { OnOk result (piece.new.bytes ≡ piece.old.bytes ++ item_line item.now) }
    ensures refusal { IsOkUnless result Refusal.Io }
{
    match writeln!(piece, "{item}") {
        Ok(()) => Ok(()),
        Err(_) => Err(Refusal::Io),
    }
}
