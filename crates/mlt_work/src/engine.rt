//! Scripts from a reader, run side by side, and their text to a writer.

ghost use Rattle.std.specs.Prelude.{◌≡◌, ◌≤◌, ◌<◌, ◌⊎◌, ◌++◌, ℕ, List, [], Err, IfErr, IfOk};
ghost use Rattle.std.specs.Io.KnownBytes.{Appends};
ghost use Rattle.mlt_types.specs.declared.refusal.ScriptCause.{ScriptCause};
ghost use Rattle.mlt_text.specs.Failures.{FailsCleanly, IsScriptFault, IsWant};
ghost use Rattle.mlt_text.specs.Inputs.{GivesWhole};
ghost use Rattle.mlt_script.specs.Grammar.{IsFirstFault};
ghost use Rattle.mlt_work.specs.Places.{scripts_of_clients};
ghost use Rattle.mlt_work.specs.RunTexts.{IsRunOf, IsRunText};

use crate::running::{RunOptions, run};
use mlt_manager::Manager;
use mlt_script::{Script, by_client, parse};
use mlt_script_serial::{ReportForm, write_report};
use mlt_text::read_input;
use mlt_types::{Pseudo, Refusal};
use mlt_work_desk::Gate;
use std::alloc::{AllocError, Global};
use std::io::{Read, Write};
use std::mem;
use std::sync::Wait;
use std::thread::Threads;
use std::time::Clock;

/// These clients, with the loaded ones before them.
///
/// # Errors
/// Where a growth is refused.
fn with_loaded(
    loaded: Vec<Vec<Script>>,
    clients: Vec<Vec<Script>>,
) -> Result<Vec<Vec<Script>>, AllocError>
    ensures { IfOk result (λ all. all.items ≡ loaded.items ++ clients.items) }
{
    let (mut all, mut more) = (loaded, clients);
    all.append(&mut more)?;
    Ok(all)
}

/// Reads scripts to the end of the input, runs those of each client one after another and the clients side by side on a
/// new manager, with these options, and writes for each script its client, its number, the texts of its replies and how it
/// ended, and then the base. It answers the manager. The loaded clients stand before all others; where the options say
/// so, their scripts are executed before any other.
///
/// # Errors
/// `ScriptFault` exactly for an input that is no list of scripts, with its first fault; `Io` where a read or a write
/// fails, or the input has more than 16,777,216 bytes, of which none past the first too many is read; `OutOfMemory`
/// where a growth was refused outside a script; `Audit` where the replies do not agree with the manager's history.
/// Nothing was written then, but for a write that fails: what went out is a prefix of the text.
pub fn run_scripts<
    R: Read,
    W: Write,
    P: Pseudo + Drop + Send,
    T: Threads + Wait + Clock + Sync,
    G: Gate + Sync,
>(
    rt: &T,
    alloc: Global,
    reader: &mut R,
    writer: &mut W,
    pseudo: P,
    loaded: Vec<Vec<Script>>,
    options: &RunOptions,
    gate: &G,
) -> Result<Manager<P>, Refusal>
    requires some { 0 < options.now.workers }
    requires most { options.now.workers ≤ 8 }
    // what is written is the text of what became of the loaded scripts and those read, which agrees with what the manager has
    // done
    ensures text { IfOk result (λ manager. (input text : List ℕ)
        × IsRunOf P.bits_of options.now pseudo (scripts_of_clients loaded.items)
        (R.remaining reader.old) (R.remaining reader.new) input text manager
        × Appends (W.contents writer.old) (W.contents writer.new) text) }
    // all of the history is there
    ensures history { IfOk result (λ manager. manager.shared.history.handed ≡ []) }
    // a fault is the first one of the input
    ensures fault { (line : ℕ) (cause : ScriptCause) → result ≡ Err (Refusal.ScriptFault line cause)
        → (input : List ℕ) × GivesWhole (R.remaining reader.old) (R.remaining reader.new) input
        × IsFirstFault input line cause }
    // where it fails, nothing was written, or a prefix of such a text; and too long an input is not read on
    ensures failure { FailsCleanly (R.remaining reader.old) (R.remaining reader.new)
        (W.contents writer.old) (W.contents writer.new) result
        (IsRunText P.bits_of options.now pseudo (scripts_of_clients loaded.items)) }
    ensures refusals { IfErr result
        (λ refusal. IsWant refusal ⊎ (refusal ≡ Refusal.Audit) ⊎ IsScriptFault refusal) }
{
    let input = read_input(alloc, reader)?;
    let scripts = parse(alloc, input.as_slice())?;
    let parts = by_client(alloc, scripts)?;
    let clients = with_loaded(loaded, parts)?;
    let (report, manager) = run(rt, alloc, pseudo, clients.as_slice(), options, gate)?;
    let written = write_report(alloc, &report, ReportForm::Run, writer);
    // The program ends behind a run, and the system takes its memory back: to free each list would take 100 instructions an operation.
    mem::forget(clients);
    mem::forget(report);
    match written {
        Ok(()) => Ok(manager),
        Err(refusal) => {
            manager.close();
            Err(refusal)
        }
    }
}
