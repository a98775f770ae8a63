//! The scripts of all clients, by several workers.

ghost use Rattle.std.specs.Prelude.{◌≡◌, ◌≤◌, ◌<◌, ◌⊎◌, [], false, IfErr, IfOk, Some};
ghost use Rattle.mlt_work_desk.specs.LogHandles.{id_of};
ghost use Rattle.mlt_work_desk.specs.Makings.{making_by};
ghost use Rattle.mlt_work_desk.specs.Playing.{IsMade};
ghost use Rattle.mlt_work_desk.specs.declared.tries.Tries.TheVariants.{PerScript};
ghost use Rattle.mlt_work.specs.Places.{scripts_of_clients};
ghost use Rattle.mlt_work.specs.Runs.{HasRunAll};

use crate::claim_handles::ClientCounter;
use crate::client_order::ClientOrder;
use crate::collecting::{collect, empty_slots};
use crate::forms::jobs_for;
use crate::reporting::report_of;
use crate::start_line::StartLine;
use crate::worker::{RunContext, work_all};
use crate::worker_gate::worker_queue;
use mlt_manager::Manager;
use mlt_script::Script;
use mlt_script_serial::Report;
use mlt_types::{Limits, Pseudo, Refusal};
use mlt_work_desk::{BlankRecords, Gate, LockedState, MadeWith, Shared};
use std::alloc::Global;
use std::marker::Brand;
use std::sync::Wait;
use std::thread::Threads;
use std::time::Clock;

/// How the scripts of all clients are run.
#[derive(Clone, Copy)]
pub struct RunOptions {
    /// The limits of the manager.
    pub limits: Limits,
    /// How many workers run clients side by side, 1 to 8.
    pub workers: usize,
    /// Whether workers take turns, so that one is at work at a time and transactions are interleaved. Else each goes on as it
    /// can.
    pub takes_turns: bool,
    /// How often a script may be told to wait, or that it is blocked, 1 to 1,000,000. Then it is aborted.
    pub tries: u64,
    /// How many clients are the first ones: their scripts are executed one client after another, before those of all others.
    pub first: u64,
}

fn run_with<
    L: MadeWith<P> + Send + Sync,
    P: Pseudo + Drop + Send,
    R: Threads + Wait + Clock + Sync,
    G: Gate + Sync,
>(
    rt: &R,
    alloc: Global,
    records: BlankRecords,
    pseudo: P,
    clients: &[Vec<Script>],
    options: &RunOptions,
    gate: &G,
) -> Result<(Report, Manager<P>), Refusal>
    requires name { records.blank.name ≡ L.name }
    requires parts { records.blank.parts ≡ L.parts }
    requires log { id_of records.log ≡ L.log_id }
    requires made { Some (making_by options.now.limits pseudo) ≡ L.made_with }
    requires stays { L.hands_out ≡ false }
    requires nine { records.blank.parts ≡ 9 }
    requires some { 0 < options.now.workers }
    requires most { options.now.workers ≤ 8 }
    requires tries { PerScript options.now.tries ≡ L.tries }
    ensures ran { IfOk result (λ got.
        HasRunAll P.bits_of (scripts_of_clients clients.now) options.now pseudo got.0 got.1
        × (got.1.shared.history.handed ≡ [])) }
    ensures made_by { IfOk result (λ got. IsMade got.1) }
    ensures refusal { IfErr result
        (λ refusal. (refusal ≡ Refusal.OutOfMemory) ⊎ (refusal ≡ Refusal.Audit)) }
{
    let BlankRecords { blank, log, writer } = records;
    let (book, mut all) = blank.open::<L>();
    let (counter, mut first) = ClientCounter::new(alloc, clients.len() as u64)?;
    let slots = empty_slots(alloc, clients.len())?;
    let jobs = jobs_for(
        alloc,
        &counter,
        &mut first,
        &mut all,
        clients.len() as u64,
        options.workers,
    )?;
    let state = LockedState::new(alloc, options.limits, pseudo, book, writer)?;
    let shared = Shared::new(log, state);
    let admission_queue = worker_queue();
    let context = RunContext {
        shared: &shared,
        gate,
        admission_queue: options.takes_turns.then_some(&admission_queue),
        start_line: &StartLine::new(options.workers),
        counter: &counter,
        clients,
        order: &ClientOrder::new(options.first),
        tries: options.tries,
    };
    let results = match work_all(rt, alloc, &context, jobs) {
        Ok(results) => results,
        Err(_) => {
            shared.unlock().into_manager().close();
            return Err(Refusal::OutOfMemory);
        }
    };
    let (outcomes, events) = match collect::<P, L>(
        alloc, counter, clients, first, &mut all, slots, results,
    ) {
        Ok(got) => got,
        Err(refusal) => {
            shared.unlock().into_manager().close();
            return Err(refusal);
        }
    };
    let manager = shared.close(&mut all);
    match report_of(rt, alloc, options.workers, outcomes, events, &manager) {
        Ok(report) => Ok((report, manager)),
        Err(refusal) => {
            manager.close();
            Err(refusal)
        }
    }
}

/// Runs the scripts of all clients on a new manager, with these options. Each worker claims a client, runs its scripts in order,
/// after those of the clients that the options have come first, and claims the next; each call of the manager is one event, under
/// one lock. A script that waits or is blocked more often than it has tries is aborted, as is one of which an operation is refused;
/// its outcome says why.
///
/// # Errors
/// `OutOfMemory`, where a growth was refused outside a script. `Audit`, where the outcomes do not agree with the manager's
/// history. All threads are joined.
pub fn run<P: Pseudo + Drop + Send, R: Threads + Wait + Clock + Sync, G: Gate + Sync>(
    rt: &R,
    alloc: Global,
    pseudo: P,
    clients: &[Vec<Script>],
    options: &RunOptions,
    gate: &G,
) -> Result<(Report, Manager<P>), Refusal>
    requires some { 0 < options.now.workers }
    requires most { options.now.workers ≤ 8 }
    // an outcome for each script, from a desk with so many tries for each, which agrees with what the manager has done, and the
    // base of the committed ones; and the manager has these limits and this function from keys to pseudokeys
    ensures ran { IfOk result (λ got.
        HasRunAll P.bits_of (scripts_of_clients clients.now) options.now pseudo got.0 got.1) }
    // all of the history is there
    ensures history { IfOk result (λ got. got.1.shared.history.handed ≡ []) }
    // events have made it from a new one
    ensures made_by { IfOk result (λ got. IsMade got.1) }
    ensures refusal { IfErr result
        (λ refusal. (refusal ≡ Refusal.OutOfMemory) ⊎ (refusal ≡ Refusal.Audit)) }
{
    let records = BlankRecords::new(alloc, 9)?;
    run_with::<Brand, P, R, G>(rt, alloc, records, pseudo, clients, options, gate)
}
