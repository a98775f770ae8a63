//! The text of what events were told, and of where the manager that played them is then.

ghost use Rattle.std.specs.Prelude.{◌≡◌, ◌⊎◌, ◌++◌, List, ℕ, IfErr, IsOkUnless, IfOk, IsErrOf, OnOk};
ghost use Rattle.std.specs.Io.KnownBytes.{Appends, Keeps};
ghost use Rattle.std.specs.String.{string_bytes};
ghost use Rattle.mlt_text.specs.Texts.{AppendsFront};
ghost use Rattle.mlt_manager_steps.specs.Steps.{IsTextBehind, depth_line};

use mlt_manager::Manager;
use mlt_object_base::write_base;
use mlt_text::write_text;
use mlt_types::{Pseudo, Refusal};
use std::alloc::Global;
use std::io::Write;

fn push_depth(alloc: Global, text: &mut Vec<u8>, depth: u8) -> Result<(), Refusal>
    ensures text { OnOk result (text.new.items ≡ text.old.items ++ depth_line depth) }
    ensures refusal { IsOkUnless result Refusal.OutOfMemory }
{
    let line = format!(in alloc; "depth {depth}\n")?;
    text.extend_from_slice(line.as_bytes())?;
    Ok(())
}

// The lines of the events, and what follows them.
fn text_behind<P: Pseudo>(
    alloc: Global,
    lines: String,
    manager: &Manager<P>,
) -> Result<Vec<u8>, Refusal>
    ensures text { IfOk result
        (λ text. IsTextBehind (string_bytes lines) manager.now text.items) }
    ensures refusal { IsOkUnless result Refusal.OutOfMemory }
{
    let mut text = lines.into_bytes();
    let base = manager.base()?;
    // A vector fails to take bytes only where a growth was refused.
    write_base(&base, &mut text).map_err(|_| Refusal::OutOfMemory)?;
    push_depth(alloc, &mut text, manager.depth())?;
    Ok(text)
}

// Writes the lines of the events, and what follows them. The text is built first, whole, and then written by a loop of
// writes. `OutOfMemory` is a growth that was refused; `Io` is a write that failed.
pub(crate) fn write_lines<W: Write, P: Pseudo>(
    alloc: Global,
    lines: String,
    manager: &Manager<P>,
    writer: &mut W,
) -> Result<(), Refusal>
    ensures ok { OnOk result ((text : List ℕ) × IsTextBehind (string_bytes lines) manager.now text
        × Appends (W.contents writer.old) (W.contents writer.new) text) }
    ensures memory { IsErrOf result Refusal.OutOfMemory
        → Keeps (W.contents writer.old) (W.contents writer.new) }
    ensures io { IsErrOf result Refusal.Io
        → (text : List ℕ) × IsTextBehind (string_bytes lines) manager.now text
        × AppendsFront (W.contents writer.old) (W.contents writer.new) text }
    ensures refusal { IfErr result
        (λ refusal. (refusal ≡ Refusal.OutOfMemory) ⊎ (refusal ≡ Refusal.Io)) }
{
    let text = text_behind(alloc, lines, manager)?;
    write_text(writer, text.as_slice())
}
