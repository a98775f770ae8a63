//! Scripts that run one after another on a base.

ghost use Rattle.std.specs.Prelude.{◌≡◌, ◌+◌, ◌<◌, ◌^◌, ℕ, List, [], map, Option, Ok, IfOk, IsOkUnless, replicate, vec_capacity};
ghost use Rattle.mlt_types.specs.declared.refusal.Refusal.{Refusal as RefusalForm};
ghost use Rattle.mlt_object_kinds.specs.Bases.{Base as ObjectBase};
ghost use Rattle.mlt_script_serial.specs.Follows.{AsksAtMost, questions_of_script};
ghost use Rattle.mlt_script.specs.Scripts.{ScriptForm};
ghost use Rattle.mlt_script_serial.specs.Serial.{AreMarksOf, AreNumbered, AreWithoutTx, IsScriptRun, IsSerialRun, commits_after, mark_of, answers_of, unmarked};
ghost use Rattle.mlt_script_serial.specs.declared.outcome.Outcome.{Outcome as OutcomeForm};

use crate::base_desk::BaseDesk;
use crate::most::most_asked;
use crate::outcome::{End, Outcome, Outcomes, Transcript};
use crate::playing::play;
use crate::report::Report;
use mlt_object_base::{Base, take_back};
use mlt_object_kinds::Done;
use mlt_script::{Ending, Script};
use mlt_types::{Refusal, TxId};
use std::alloc::Global;

// The number of a transaction where none was begun by a manager.
const NO_TX: TxId = TxId(0);

/// Runs the script on the base, and takes back what it did where it does not commit. There is room for all its replies.
///
/// # Errors
/// `OutOfMemory`, where a growth was refused while something was taken back.
fn attempt(
    script: &Script,
    desk: &mut BaseDesk,
    commits: u64,
    done: &mut Vec<Done>,
) -> Result<End, Refusal>
    requires empty { done.old.items ≡ [] }
    requires room { AsksAtMost (vec_capacity done.old) (questions_of_script script.now) }
    requires commits { commits < 2 ^ 63 }
    ensures run { IfOk result (λ end.
        IsScriptRun script.now desk.old.base commits done.new.items end desk.new.base
        (commits_after commits end)) }
    ensures mark { (refusal : RefusalForm) → result ≡ Ok (End.Refused refusal)
        → refusal ≡ Refusal.OutOfMemory }
    ensures refusal { IsOkUnless result Refusal.OutOfMemory }
{
    let end = match play(desk, NO_TX, script, done) {
        Ok(Ending::Commit) => return Ok(End::Committed(commits + 1)),
        Ok(Ending::Abort) => End::Aborted,
        Err(refusal) => End::Refused(refusal),
    };
    take_back(&mut desk.base, done.as_slice())?;
    Ok(end)
}

/// Runs the script alone on the base, `commits` scripts having committed before it.
///
/// # Errors
/// `OutOfMemory`, where the room for its replies was refused, or a growth while something was taken back.
fn run_alone(
    alloc: Global,
    script: &Script,
    number: u64,
    commits: u64,
    desk: &mut BaseDesk,
) -> Result<Outcome, Refusal>
    requires { commits < 2 ^ 63 }
    ensures run { IfOk result (λ outcome.
        IsScriptRun script.now desk.old.base commits outcome.done outcome.end desk.new.base
        (commits_after commits outcome.end)) }
    ensures client { IfOk result (λ outcome. outcome.client ≡ script.now.client) }
    ensures number { IfOk result (λ outcome. outcome.number ≡ number) }
    ensures tx { IfOk result (λ outcome. outcome.tx ≡ 0) }
    ensures mark { IfOk result
        (λ outcome. (refusal : RefusalForm) → outcome.end ≡ End.Refused refusal
        → refusal ≡ Refusal.OutOfMemory) }
    ensures refusal { IsOkUnless result Refusal.OutOfMemory }
{
    let mut done = Vec::with_capacity(alloc, most_asked(script))?;
    let end = attempt(script, desk, commits, &mut done)?;
    Ok(Outcome {
        client: u32::from(script.client()),
        number,
        tx: 0,
        done: Transcript::new(done),
        end,
    })
}

/// The last commit number once a script ended, `commits` being the one before.
fn last_commit(commits: u64, end: End) -> u64
    ensures { result ≡ commits_after commits end }
{
    match end {
        End::Committed(number) => number,
        _ => commits,
    }
}

/// How many scripts of each client there were before the first.
fn no_scripts() -> [u64; 1_000]
    ensures { result ≡ replicate 1000 0 }
{
    [0; 1_000]
}

/// Runs the scripts one after another from the empty base, without locks or pages. A script that is
/// refused a growth leaves the base as it was, and the others run all the same.
///
/// # Errors
/// `OutOfMemory`, where a growth of the report's own was refused, the room for a script's replies among them, or one
/// while a script was taken back.
pub fn serial_with_marks(alloc: Global, scripts: &[Script]) -> Result<Report, Refusal>
    ensures run { IfOk result (λ report.
        IsSerialRun scripts.now (map mark_of report.outcomes) report.outcomes report.base) }
    ensures marks { IfOk result
        (λ report. AreMarksOf Refusal.OutOfMemory (map mark_of report.outcomes)) }
    ensures numbered { IfOk result (λ report. AreNumbered [] scripts.now report.outcomes) }
    ensures without_manager { IfOk result
        (λ report. (report.events ≡ 0) × AreWithoutTx report.outcomes) }
    ensures refusal { IsOkUnless result Refusal.OutOfMemory }
{
    let mut desk = BaseDesk {
        base: Base::new(alloc),
    };
    let mut outcomes = Outcomes::new(alloc);
    let mut numbers = no_scripts();
    let mut commits = 0;
    for script in scripts {
        let client = script.client() as usize;
        numbers[client] += 1;
        let outcome = run_alone(alloc, script, numbers[client], commits, &mut desk)?;
        let end = outcome.end;
        outcomes.push(outcome)?;
        commits = last_commit(commits, end);
    }
    Ok(Report {
        outcomes,
        events: 0,
        base: desk.base,
    })
}

/// Runs the scripts one after another from the empty base, without locks or pages.
///
/// # Errors
/// `OutOfMemory`, where a growth was refused, of a script or of the report.
pub fn serial(alloc: Global, scripts: &[Script]) -> Result<Report, Refusal>
    ensures run { IfOk result
        (λ report. IsSerialRun scripts.now (unmarked scripts.now) report.outcomes report.base) }
    ensures numbered { IfOk result (λ report. AreNumbered [] scripts.now report.outcomes) }
    ensures without_manager { IfOk result
        (λ report. (report.events ≡ 0) × AreWithoutTx report.outcomes) }
    ensures refusal { IsOkUnless result Refusal.OutOfMemory }
{
    let report = serial_with_marks(alloc, scripts)?;
    for outcome in report.outcomes.as_slice() {
        let end = outcome.end;
        if let End::Refused(refusal) = end {
            return Err(refusal);
        }
    }
    Ok(report)
}

/// The scripts and their marks fix the outcome of each script, and the base that is reached.
pub fn scripts_and_marks_fix_the_run()
    ensures { (scripts : List ScriptForm) (marks : List (Option (ℕ × RefusalForm)))
        (one other : List OutcomeForm) (reached last : ObjectBase)
        → IsSerialRun scripts marks one reached → IsSerialRun scripts marks other last
        → (map answers_of one ≡ map answers_of other) × (reached ≡ last) }
{}
