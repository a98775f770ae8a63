//! Scripts from a reader, run one after another, and their text to a writer.

ghost use Rattle.std.specs.Prelude.{◌≡◌, ◌⊎◌, ◌++◌, ℕ, List, [], Err, IfErr, IfOk};
ghost use Rattle.std.specs.Io.KnownBytes.{Appends};
ghost use Rattle.mlt_types.specs.declared.refusal.ScriptCause.{ScriptCause};
ghost use Rattle.mlt_text.specs.Failures.{FailsCleanly, IsScriptFault, IsWant};
ghost use Rattle.mlt_text.specs.Inputs.{GivesWhole};
ghost use Rattle.mlt_script.specs.Grammar.{IsFirstFault};
ghost use Rattle.mlt_manager_solo.specs.Solo.{IsSoloText};

use crate::manager_desk::ManagerDesk;
use crate::running::run_all;
use mlt_manager::Manager;
use mlt_script::{Script, parse};
use mlt_script_serial::write_outcomes;
use mlt_text::read_input;
use mlt_types::{Limits, Pseudo, Refusal};
use std::alloc::{AllocError, Global};
use std::io::{Read, Write};
use std::mem;

/// These scripts, with the first ones before them.
///
/// # Errors
/// Where a growth is refused.
fn with_first(first: Vec<Script>, scripts: Vec<Script>) -> Result<Vec<Script>, AllocError>
    ensures { IfOk result (λ all. all.items ≡ first.items ++ scripts.items) }
{
    let (mut all, mut more) = (first, scripts);
    all.append(&mut more)?;
    Ok(all)
}

/// Reads scripts to the end of the input, runs the first ones and then these, one after another, through a new manager with these
/// limits, and writes for each the texts of its replies and how it ended. Clients' numbers make no difference. It answers the manager.
///
/// # Errors
/// `ScriptFault` exactly for an input that is no list of scripts, with its first fault; `Io` where a
/// read or a write fails, or the input has more than 16,777,216 bytes, of which none past the first too
/// many is read; `OutOfMemory` where a growth was refused outside a script, or the room for all replies
/// of a script. Nothing was written then, but for a write that fails: what went out is a prefix of the
/// text.
pub fn solo<R: Read, W: Write, P: Pseudo>(
    alloc: Global,
    reader: &mut R,
    writer: &mut W,
    first: Vec<Script>,
    limits: Limits,
    pseudo: P,
) -> Result<Manager<P>, Refusal>
where
    P: Drop,
    // what is written is the text of the first scripts and those read, which the manager was asked for
    ensures text { IfOk result (λ manager. (input text : List ℕ)
        × (GivesWhole (R.remaining reader.old) (R.remaining reader.new) input
        × IsSoloText P.bits_of limits pseudo first.items input text manager)
        × Appends (W.contents writer.old) (W.contents writer.new) text) }
    // all of the history is there
    ensures history { IfOk result (λ manager. manager.shared.history.handed ≡ []) }
    // a fault is the first one of the input
    ensures fault { (line : ℕ) (cause : ScriptCause) → result ≡ Err (Refusal.ScriptFault line cause)
        → (input : List ℕ) × GivesWhole (R.remaining reader.old) (R.remaining reader.new) input
        × IsFirstFault input line cause }
    // where it fails, nothing was written, or a prefix of such a text; and too long an input is not read on
    ensures failure { FailsCleanly (R.remaining reader.old) (R.remaining reader.new)
        (W.contents writer.old) (W.contents writer.new) result
        (IsSoloText P.bits_of limits pseudo first.items) }
    ensures refusals { IfErr result (λ refusal. IsWant refusal ⊎ IsScriptFault refusal) }
{
    let input = read_input(alloc, reader)?;
    let read = parse(alloc, input.as_slice())?;
    let scripts = with_first(first, read)?;
    let manager = Manager::new(alloc, limits, pseudo)?;
    let mut desk = ManagerDesk { manager };
    let ran = run_all(alloc, &mut desk, scripts.as_slice());
    let ManagerDesk { manager } = desk;
    let outcomes = match ran {
        Ok(outcomes) => outcomes,
        Err(refusal) => {
            manager.close();
            return Err(refusal);
        }
    };
    let written = write_outcomes(alloc, &outcomes, writer);
    // The program ends behind a run, and the system takes its memory back: to free each list would take 100 instructions an operation.
    mem::forget(scripts);
    mem::forget(outcomes);
    match written {
        Ok(()) => Ok(manager),
        Err(refusal) => {
            manager.close();
            Err(refusal)
        }
    }
}
