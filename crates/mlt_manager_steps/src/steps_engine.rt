//! Events from a reader, played in order by one manager, and their text to a writer.

ghost use Rattle.std.specs.Prelude.{◌≡◌, ◌⊎◌, ℕ, List, [], Err, IfErr, IfOk};
ghost use Rattle.std.specs.Io.KnownBytes.{Appends};
ghost use Rattle.mlt_types.specs.declared.refusal.ScriptCause.{ScriptCause};
ghost use Rattle.mlt_text.specs.Failures.{FailsCleanly, IsScriptFault, IsWant};
ghost use Rattle.mlt_text.specs.Inputs.{GivesWhole};
ghost use Rattle.mlt_event_text.specs.Grammar.{IsFirstFault};
ghost use Rattle.mlt_manager_steps.specs.Steps.{IsStepsText};

use crate::playing::play_lines;
use crate::report::write_lines;
use mlt_event_text::parse_events;
use mlt_manager::Manager;
use mlt_text::read_input;
use mlt_types::{Limits, Pseudo, Refusal};
use std::alloc::Global;
use std::io::{Read, Write};

/// Reads events to the end of the input, and plays them in order from a new manager. Writes a line for what each was
/// told, then the base of what is committed, and then the depth of the directory. Where reasons are asked for, lines that begin
/// with `#` follow the line of an event that is blocked or waits: which held operation conflicts, which reply is at risk, and an
/// example of the conflict; the deadlock that a step closes; or which page is locked, and for which operation. Answers the
/// manager at the end, whose history is that of all events.
///
/// # Errors
/// `ScriptFault` exactly for an input that is no list of events, with its first fault; `Io` where a read or a write
/// fails, or the input has more than 16,777,216 bytes, of which none past the first too many is read; `OutOfMemory`
/// where a growth was refused outside an event. Nothing was written then, but for a write that fails: what went out is
/// a prefix of the text. An event that is refused is no error: its line says so.
pub fn steps<R: Read, W: Write, P: Pseudo>(
    alloc: Global,
    reader: &mut R,
    writer: &mut W,
    limits: Limits,
    pseudo: P,
    explains: bool,
) -> Result<Manager<P>, Refusal>
where
    P: Drop,
    // what is written is the text of the events read, as the manager that is answered has played them
    ensures text { IfOk result (λ manager. (input text : List ℕ)
        × (GivesWhole (R.remaining reader.old) (R.remaining reader.new) input
        × IsStepsText P.bits_of limits pseudo explains input text manager)
        × Appends (W.contents writer.old) (W.contents writer.new) text) }
    // all of its history is there
    ensures history { IfOk result (λ manager. manager.shared.history.handed ≡ []) }
    // a fault is the first one of the input
    ensures fault { (line : ℕ) (cause : ScriptCause) → result ≡ Err (Refusal.ScriptFault line cause)
        → (input : List ℕ) × GivesWhole (R.remaining reader.old) (R.remaining reader.new) input
        × IsFirstFault input line cause }
    // where it fails, nothing was written, or a prefix of such a text; and too long an input is not read on
    ensures failure { FailsCleanly (R.remaining reader.old) (R.remaining reader.new)
        (W.contents writer.old) (W.contents writer.new) result
        (IsStepsText P.bits_of limits pseudo explains) }
    ensures refusals { IfErr result (λ refusal. IsWant refusal ⊎ IsScriptFault refusal) }
{
    let input = read_input(alloc, reader)?;
    let events = parse_events(alloc, input.as_slice())?;
    let (manager, lines) = play_lines(alloc, limits, pseudo, events.as_slice(), explains)?;
    match write_lines(alloc, lines, &manager, writer) {
        Ok(()) => Ok(manager),
        Err(refusal) => {
            manager.close();
            Err(refusal)
        }
    }
}
