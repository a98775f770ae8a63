//! What workers are given and what they give back.

ghost use Rattle.std.specs.Prelude.{◌≡◌, ◌+◌, ◌-◌, ◌^◌, ◌≤◌, All, IfOk, min, vec_len};
ghost use Rattle.mlt_work.specs.Claims.{first_view};
ghost use Rattle.mlt_work.specs.ClaimHandles.{IsOf, view_of};
ghost use Rattle.mlt_work.specs.Workers.{IsFresh, view_after_splits};

use crate::claim_handles::{ClaimHandle, ClientCounter};
use mlt_script_serial::Outcome;
use std::alloc::{AllocError, Global};
use std::sync::ledger::{Ledger, Share};

/// What a worker begins with: its handle at the counter of clients, and its share of the ledger of events.
#[derive(Drop)]
pub(crate) struct WorkerJob<L: Ledger> {
    /// The handle, by which it claims clients.
    pub claim_handle: ClaimHandle,
    /// The share, to which its events are added.
    pub share: Share<L>,
    ghost one_part: { share.parts ≡ 1 },
    ghost no_events: { share.amount ≡ 0 },
}

/// What became of the scripts of the client at a place.
#[derive(Drop)]
pub(crate) struct ClientRun {
    /// The client's place in the list of clients, from 0.
    pub place: usize,
    /// An outcome for each of its scripts, in order.
    pub outcomes: Vec<Outcome>,
}

/// What a worker gives back.
#[derive(Drop)]
pub(crate) struct Worked<L: Ledger> {
    /// Its handle.
    pub claim_handle: ClaimHandle,
    /// Its share.
    pub share: Share<L>,
    /// The number of its events; it stays at 2^64 - 1.
    pub events: u64,
    /// The clients that it claimed.
    pub runs: Vec<ClientRun>,
    /// Whether a growth was refused, so that it stopped before no client was left.
    pub failed: bool,
    ghost one_part: { share.parts ≡ 1 },
    ghost counted: { events ≡ min share.amount (2 ^ 64 - 1) },
}

/// A job for each worker, of which each has a handle split off the first one, and a share split off the whole.
///
/// # Errors
/// Where a growth is refused.
pub(crate) fn jobs_for<L: Ledger>(
    alloc: Global,
    counter: &ClientCounter,
    first: &mut ClaimHandle,
    all: &mut Share<L>,
    clients: u64,
    workers: usize,
) -> Result<Vec<WorkerJob<L>>, AllocError>
    requires workers { workers ≤ 8 }
    requires seat { IsOf counter.now first.old }
    requires view { view_of first.old ≡ first_view clients }
    requires parts { all.old.parts ≡ 9 }
    requires amount { all.old.amount ≡ 0 }
    ensures len { IfOk result (λ jobs. vec_len jobs ≡ workers) }
    ensures fresh { IfOk result
        (λ jobs. All (λ job. IsFresh counter.now clients job.claim_handle) jobs.items) }
    ensures seat { IfOk result (λ _. IsOf counter.now first.new) }
    ensures view { IfOk result (λ _. view_of first.new ≡ view_after_splits workers clients) }
    ensures parts { IfOk result (λ _. all.new.parts + workers ≡ 9) }
    ensures amount { IfOk result (λ _. all.new.amount ≡ 0) }
{
    let mut jobs = Vec::with_capacity(alloc, workers)?;
    for i in 0..workers {
        let claim_handle = counter.split(first);
        let share = all.split_off(1, 0);
        jobs.push(WorkerJob {
            claim_handle,
            share,
        })?;
    }
    Ok(jobs)
}
