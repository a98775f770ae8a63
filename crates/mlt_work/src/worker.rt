//! The workers.

ghost use Rattle.std.specs.Prelude.{◌≡◌, All, IfOk, [], length, vec_len};
ghost use Rattle.mlt_script_serial.specs.Clients.{AreOutcomes, AreRunsAt};
ghost use Rattle.mlt_work_desk.specs.declared.tries.Tries.TheVariants.{PerScript};
ghost use Rattle.mlt_work.specs.Places.{scripts_of_clients};
ghost use Rattle.mlt_work.specs.Workers.{HasWorked, IsFresh};
ghost use Rattle.mlt_work.specs.Runs.{AreRunWith};

use crate::claim_handles::{ClaimHandle, ClientCounter};
use crate::client_order::ClientOrder;
use crate::forms::{ClientRun, Worked, WorkerJob};
use crate::start_line::StartLine;
use crate::worker_gate::WorkerGate;
use mlt_script::Script;
use mlt_script_serial::{Desk, Outcome, run_client};
use mlt_types::{Pseudo, Refusal};
use mlt_work_desk::{Gate, LockDesk, MadeWith, Shared, Tries};
use mlt_work_waits::{AdmissionQueue, Notice};
use std::alloc::{AllocError, Global};
use std::sync::Wait;
use std::thread;
use std::thread::Threads;
use std::time::Clock;

/// The client of these scripts, 0 where there are none.
fn client_of(scripts: &[Script]) -> u32 {
    scripts
        .first()
        .map_or(0, |script| u32::from(script.client()))
}

/// Runs the scripts of the client in this place in its order. The gate is told where that may have to wait.
///
/// # Errors
/// As those of `run_client`.
fn run_in_order<D: Desk, R: Wait, G: Gate>(
    rt: &R,
    alloc: Global,
    desk: &mut D,
    gate: &G,
    scripts: &[Script],
    place: u64,
    order: &ClientOrder,
) -> Result<Vec<Outcome>, Refusal>
    ensures outcomes { IfOk result (λ outcomes. AreOutcomes 0 scripts.now outcomes.items) }
    ensures runs { IfOk result (λ outcomes.
        AreRunsAt D.moves scripts.now desk.old outcomes.items desk.new) }
{
    if order.may_wait(place) {
        gate.notice(client_of(scripts), Notice::WaitsForTurn);
        order.wait(rt, place);
    }
    let outcomes = run_client(alloc, desk, scripts);
    order.end(rt, place);
    outcomes
}

/// Claims clients until none is left, and runs the scripts of each at the desk. It answers whether a growth was refused.
/// There is room for a client's outcomes before anything is asked for it.
fn run_claimed<P: Pseudo, L: MadeWith<P>, R: Wait, G: Gate>(
    rt: &R,
    alloc: Global,
    desk: &mut LockDesk<'_, P, L, R, G>,
    gate: &G,
    counter: &ClientCounter,
    clients: &[Vec<Script>],
    order: &ClientOrder,
    claim_handle: &mut ClaimHandle,
    runs: &mut Vec<ClientRun>,
) -> bool
    requires fresh { IsFresh counter.now (length clients.now) claim_handle.old }
    requires empty { runs.old.items ≡ [] }
    ensures { HasWorked (AreRunWith P.bits_of desk.old.tries.given) counter.now
        (scripts_of_clients clients.now) claim_handle.new runs.new.items result }
{
    'claims: for _ in rt.forever() {
        let number = counter.draw(claim_handle);
        if number >= clients.len() as u64 {
            return false;
        }
        if runs.reserve(1).is_err() {
            return true;
        }
        let place = number as usize;
        let scripts = clients[place].as_slice();
        desk.serve(client_of(scripts));
        let Ok(outcomes) = run_in_order(rt, alloc, desk, gate, scripts, number, order) else {
            return true;
        };
        runs.push_reserved(ClientRun { place, outcomes });
    }
    unreachable!()
}

/// What all workers work with.
#[derive(Drop)]
pub(crate) struct RunContext<'a, P: Pseudo, L: MadeWith<P>, G: Gate> {
    pub(crate) shared: &'a Shared<P, L>,
    pub(crate) gate: &'a G,
    /// Where workers take turns, if they do.
    pub(crate) admission_queue: Option<&'a AdmissionQueue>,
    /// Where those that take turns begin.
    pub(crate) start_line: &'a StartLine,
    pub(crate) counter: &'a ClientCounter,
    pub(crate) clients: &'a [Vec<Script>],
    pub(crate) order: &'a ClientOrder,
    /// How often a script may be told to wait, 1 to 1,000,000.
    pub(crate) tries: u64,
}

/// Does a job by a worker that has this gate: claims clients until none is left, and runs the scripts of each.
fn work_at<P: Pseudo, L: MadeWith<P>, R: Wait, G: Gate, H: Gate>(
    rt: &R,
    alloc: Global,
    context: &RunContext<'_, P, L, G>,
    gate: &H,
    job: WorkerJob<L>,
) -> Worked<L>
    requires { IsFresh context.now.counter.now (length context.now.clients.now) job.claim_handle }
    ensures { HasWorked (AreRunWith P.bits_of (PerScript context.now.tries))
        context.now.counter.now (scripts_of_clients context.now.clients.now)
        result.claim_handle result.runs.items result.failed }
{
    let WorkerJob {
        mut claim_handle,
        share,
    } = job;
    let mut runs = Vec::new(alloc);
    let tries = Tries::PerScript(context.tries);
    let mut desk = LockDesk::new(rt, context.shared, gate, share, tries);
    let failed = run_claimed(
        rt,
        alloc,
        &mut desk,
        gate,
        context.counter,
        context.clients,
        context.order,
        &mut claim_handle,
        &mut runs,
    );
    if failed {
        // It may have claimed one of the first clients.
        context.order.release(rt);
    }
    let (share, events, _) = desk.close();
    Worked {
        claim_handle,
        share,
        events,
        runs,
        failed,
    }
}

/// Does a job, by a worker that takes turns with the others if workers do.
fn work<P: Pseudo, L: MadeWith<P>, R: Wait + Clock, G: Gate>(
    rt: &R,
    alloc: Global,
    context: &RunContext<'_, P, L, G>,
    job: WorkerJob<L>,
) -> Worked<L>
    requires { IsFresh context.now.counter.now (length context.now.clients.now) job.claim_handle }
    ensures { HasWorked (AreRunWith P.bits_of (PerScript context.now.tries))
        context.now.counter.now (scripts_of_clients context.now.clients.now)
        result.claim_handle result.runs.items result.failed }
{
    let Some(queue) = context.admission_queue else {
        return work_at(rt, alloc, context, context.gate, job);
    };
    let gate = WorkerGate::new(rt, context.gate, queue);
    gate.start(rt, context.start_line);
    let worked = work_at(rt, alloc, context, &gate, job);
    gate.close();
    worked
}

/// Does each job in a thread of its own, or in this one where a thread is refused, and joins them all.
///
/// # Errors
/// Where the list of results is refused its memory. All threads are joined then too.
pub(crate) fn work_all<
    P: Pseudo + Send,
    L: MadeWith<P> + Send + Sync,
    R: Threads + Wait + Clock + Sync,
    G: Gate + Sync,
>(
    rt: &R,
    alloc: Global,
    context: &RunContext<'_, P, L, G>,
    jobs: Vec<WorkerJob<L>>,
) -> Result<Vec<Worked<L>>, AllocError>
    requires { All (λ job. IsFresh context.now.counter.now
        (length context.now.clients.now) job.claim_handle) jobs.items }
    ensures len { IfOk result (λ results. vec_len results ≡ vec_len jobs) }
    ensures each { IfOk result (λ results. All (λ worked. HasWorked
        (AreRunWith P.bits_of (PerScript context.now.tries)) context.now.counter.now
        (scripts_of_clients context.now.clients.now) worked.claim_handle worked.runs.items
        worked.failed) results.items) }
{
    thread::map_vec(rt, jobs, &|job| { work(rt, alloc, context, job) })
}
