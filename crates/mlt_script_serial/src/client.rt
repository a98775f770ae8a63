//! The scripts of a client at a desk.

ghost use Rattle.std.specs.Prelude.{◌≡◌, IsOkUnless, IfOk, OnErr};
ghost use Rattle.mlt_script_serial.specs.Clients.{AreOutcomes, AreRunsAt, IsServedAt};
ghost use Rattle.mlt_script_serial.specs.DeskRuns.{HasEndedAs};

use crate::desk::Desk;
use crate::desk_run::run_script;
use crate::outcome::{End, Outcome, Transcript};
use mlt_script::Script;
use mlt_types::Refusal;
use std::alloc::Global;

/// Runs a script, which has this number within its client, or refuses it where there is no room for its replies: then
/// nothing is asked.
fn run_or_refuse<D: Desk>(alloc: Global, desk: &mut D, script: &Script, number: u64) -> Outcome
    ensures client { result.client ≡ script.now.client }
    ensures number { result.number ≡ number }
    ensures ended { HasEndedAs script.now result.done result.end }
    ensures ran { IsServedAt D.moves script.now desk.old
        result.tx result.done result.end desk.new }
{
    match run_script(alloc, desk, script, number) {
        Ok(outcome) => outcome,
        Err(refusal) => Outcome {
            client: u32::from(script.client()),
            number,
            tx: 0,
            done: Transcript::new(Vec::new(alloc)),
            end: End::Refused(refusal),
        },
    }
}

/// Runs the scripts of a client one after another, and gives an outcome for each. There is room for all outcomes before
/// anything is asked, so that no outcome is lost.
///
/// # Errors
/// `OutOfMemory`, where there is no such room. Nothing was asked then.
pub fn run_client<D: Desk>(
    alloc: Global,
    desk: &mut D,
    scripts: &[Script],
) -> Result<Vec<Outcome>, Refusal>
    ensures outcomes { IfOk result (λ outcomes. AreOutcomes 0 scripts.now outcomes.items) }
    ensures runs { IfOk result (λ outcomes.
        AreRunsAt D.moves scripts.now desk.old outcomes.items desk.new) }
    ensures refusal { IsOkUnless result Refusal.OutOfMemory }
    ensures unasked { OnErr result (desk.new ≡ desk.old) }
{
    let mut outcomes = Vec::with_capacity(alloc, scripts.len())?;
    for i in 0..scripts.len() {
        let outcome = run_or_refuse(alloc, desk, &scripts[i], i as u64 + 1);
        outcomes.push_reserved(outcome);
    }
    Ok(outcomes)
}
