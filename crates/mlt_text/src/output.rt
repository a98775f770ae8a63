//! A text to a writer.

ghost use Rattle.std.specs.Prelude.{◌≤◌, ◌<◌, length, IfOk, IsOkUnless, OnOk, OnErr, take};
ghost use Rattle.std.specs.Io.KnownBytes.{Appends, Keeps};
ghost use Rattle.mlt_text.specs.Texts.{AppendsFront};

use mlt_types::Refusal;
use std::io::Write;

/// Writes the text, in as many writes as it takes, and flushes.
///
/// # Errors
/// `Io` where a write fails, for whatever reason, or takes nothing, or the flush fails: nothing is tried again. The
/// writer then has a prefix of the text.
pub fn write_text<W: Write>(writer: &mut W, text: &[u8]) -> Result<(), Refusal>
    ensures ok { OnOk result (Appends (W.contents writer.old) (W.contents writer.new) text.now) }
    ensures err { OnErr result
        (AppendsFront (W.contents writer.old) (W.contents writer.new) text.now) }
    ensures refusal { IsOkUnless result Refusal.Io }
{
    let mut at = 0;
    while at < text.len() {
        let count = write_some(writer, &text[at..])?;
        at += count;
    }
    flush(writer)
}

// One write of at least one byte.
fn write_some<W: Write>(writer: &mut W, text: &[u8]) -> Result<usize, Refusal>
    ensures count { IfOk result (λ count. (0 < count) × (count ≤ length text.now)) }
    ensures ok { IfOk result
        (λ count. Appends (W.contents writer.old) (W.contents writer.new) (take count text.now)) }
    ensures err { OnErr result (Keeps (W.contents writer.old) (W.contents writer.new)) }
    ensures refusal { IsOkUnless result Refusal.Io }
{
    match writer.write(text) {
        Ok(0) | Err(_) => Err(Refusal::Io),
        Ok(count) => Ok(count),
    }
}

/// Flushes.
///
/// # Errors
/// `Io` where the flush fails, for whatever reason.
pub fn flush<W: Write>(writer: &mut W) -> Result<(), Refusal>
    ensures bytes { Keeps (W.contents writer.old) (W.contents writer.new) }
    ensures refusal { IsOkUnless result Refusal.Io }
{
    match writer.flush() {
        Ok(()) => Ok(()),
        Err(_) => Err(Refusal::Io),
    }
}
