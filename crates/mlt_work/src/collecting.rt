//! What the workers give back, put together: a place for the run of each client.

ghost use Rattle.std.specs.Prelude.{◌≡◌, ◌+◌, ◌-◌, ◌^◌, ◌<◌, ◌≤◌, All, IsOkUnless, IfOk, [], None, false, length, map, min, replicate, vec_len};
ghost use Rattle.mlt_work.specs.Claims.{HasAll};
ghost use Rattle.mlt_work.specs.ClaimHandles.{IsOf, view_of};
ghost use Rattle.mlt_work.specs.Places.{AreAllOutcomes, HaveRuns, AllHaveRuns, AreInPlace, IsClientRun, KeepsRuns, place_of, scripts_of_clients};
ghost use Rattle.mlt_work.specs.Runs.{AreRunWith};
ghost use Rattle.mlt_work.specs.Workers.{HasDrawnPast, HasWorked, view_after_splits};

use crate::claim_handles::{ClaimHandle, ClientCounter};
use crate::forms::{ClientRun, Worked};
use mlt_script::Script;
use mlt_script_serial::{Outcome, Outcomes};
use mlt_types::{Pseudo, Refusal};
use mlt_work_desk::MadeWith;
use std::alloc::{AllocError, Global};
use std::sync::ledger::Share;

/// A place for the run of each client, none of which is filled.
///
/// # Errors
/// Where a growth is refused.
pub(crate) fn empty_slots(
    alloc: Global,
    clients: usize,
) -> Result<Vec<Option<ClientRun>>, AllocError>
    ensures { IfOk result (λ slots. slots.items ≡ replicate clients None) }
{
    let mut slots = Vec::with_capacity(alloc, clients)?;
    while slots.len() < clients {
        slots.push(None)?;
    }
    Ok(slots)
}

/// Puts each run at its place.
fn place_all<P: Pseudo, L: MadeWith<P>>(
    clients: &[Vec<Script>],
    slots: &mut Vec<Option<ClientRun>>,
    runs: Vec<ClientRun>,
)
    requires len { length slots.old.items ≡ length clients.now }
    requires placed { AreInPlace (AreRunWith P.bits_of L.tries)
        (scripts_of_clients clients.now) slots.old.items }
    requires runs { All (IsClientRun (AreRunWith P.bits_of L.tries)
        (scripts_of_clients clients.now)) runs.items }
    ensures len { length slots.new.items ≡ length clients.now }
    ensures placed { AreInPlace (AreRunWith P.bits_of L.tries)
        (scripts_of_clients clients.now) slots.new.items }
    ensures kept { KeepsRuns slots.old.items slots.new.items }
    ensures filled { HaveRuns (map place_of runs.items) slots.new.items }
{
    let mut rest = runs;
    while let Some(run) = rest.pop() {
        let place = run.place;
        slots[place] = Some(run);
    }
}

/// Takes in what each worker gives back: the first handle takes in its handle, the whole its share, and its runs come to their
/// places. It answers the number of all events, and whether a worker has failed.
fn gather<P: Pseudo, L: MadeWith<P>>(
    counter: &ClientCounter,
    clients: &[Vec<Script>],
    first: &mut ClaimHandle,
    all: &mut Share<L>,
    slots: &mut Vec<Option<ClientRun>>,
    results: Vec<Worked<L>>,
) -> (u64, bool)
    requires some { 0 < vec_len results }
    requires most { vec_len results ≤ 8 }
    requires seat { IsOf counter.now first.old }
    requires parts { (view_of first.old).parts + vec_len results ≡ 9 }
    requires drawn { (view_of first.old).drawn ≡ [] }
    requires share { all.old.parts + vec_len results ≡ 9 }
    requires amount { all.old.amount ≡ 0 }
    requires worked { All (λ worked. HasWorked (AreRunWith P.bits_of L.tries) counter.now
        (scripts_of_clients clients.now) worked.claim_handle worked.runs.items worked.failed)
        results.items }
    requires len { length slots.old.items ≡ length clients.now }
    requires placed { AreInPlace (AreRunWith P.bits_of L.tries)
        (scripts_of_clients clients.now) slots.old.items }
    ensures seat { IsOf counter.now first.new }
    ensures all { HasAll (view_of first.new) }
    ensures share { all.new.parts ≡ 9 }
    ensures events { result.0 ≡ min all.new.amount (2 ^ 64 - 1) }
    ensures len { length slots.new.items ≡ length clients.now }
    ensures placed { AreInPlace (AreRunWith P.bits_of L.tries)
        (scripts_of_clients clients.now) slots.new.items }
    ensures filled { result.1 ≡ false → HaveRuns (view_of first.new).drawn slots.new.items }
    ensures past { result.1 ≡ false
        → HasDrawnPast (length clients.now) (view_of first.new).drawn }
{
    let mut rest = results;
    let mut events: u64 = 0;
    let mut failed = false;
    while let Some(worked) = rest.pop() {
        let Worked {
            claim_handle,
            share,
            events: more,
            runs,
            failed: stopped,
        } = worked;
        counter.join(first, claim_handle);
        all.merge(share);
        events = events.saturating_add(more);
        failed = either(failed, stopped);
        place_all::<P, L>(clients, slots, runs);
    }
    (events, failed)
}

fn either(first: bool, second: bool) -> bool
    ensures { result ≡ false → (first ≡ false) × (second ≡ false) }
{
    first || second
}

/// The outcomes of all clients: clients by their places, and each client's scripts in order.
///
/// # Errors
/// Where a growth is refused.
fn flatten<P: Pseudo, L: MadeWith<P>>(
    alloc: Global,
    clients: &[Vec<Script>],
    slots: Vec<Option<ClientRun>>,
) -> Result<Vec<Outcome>, AllocError>
    requires len { length slots.items ≡ length clients.now }
    requires placed { AreInPlace (AreRunWith P.bits_of L.tries)
        (scripts_of_clients clients.now) slots.items }
    requires full { AllHaveRuns slots.items }
    ensures { IfOk result (λ outcomes.
        AreAllOutcomes (AreRunWith P.bits_of L.tries)
        (scripts_of_clients clients.now) outcomes.items) }
{
    let mut slots = slots;
    let mut outcomes = Vec::new(alloc);
    for i in 0..clients.len() {
        let Some(run) = slots[i].take() else {
            unreachable!()
        };
        let ClientRun {
            outcomes: mut part,
            ..
        } = run;
        outcomes.append(&mut part)?;
    }
    Ok(outcomes)
}

/// The outcomes of all clients, and the number of all events, once all workers have given back what they have. Clients stand
/// by their places, and each client's scripts in order. The whole takes in all shares.
///
/// # Errors
/// `OutOfMemory`, where a worker was refused a growth, or this call is.
pub(crate) fn collect<P: Pseudo, L: MadeWith<P>>(
    alloc: Global,
    counter: ClientCounter,
    clients: &[Vec<Script>],
    first: ClaimHandle,
    all: &mut Share<L>,
    slots: Vec<Option<ClientRun>>,
    results: Vec<Worked<L>>,
) -> Result<(Outcomes, u64), Refusal>
    requires some { 0 < vec_len results }
    requires most { vec_len results ≤ 8 }
    requires seat { IsOf counter first }
    requires view { view_of first ≡ view_after_splits (vec_len results) (length clients.now) }
    requires share { all.old.parts + vec_len results ≡ 9 }
    requires amount { all.old.amount ≡ 0 }
    requires worked { All (λ worked. HasWorked (AreRunWith P.bits_of L.tries) counter
        (scripts_of_clients clients.now) worked.claim_handle worked.runs.items worked.failed)
        results.items }
    requires slots { slots.items ≡ replicate (length clients.now) None }
    ensures outcomes { IfOk result (λ got. AreAllOutcomes (AreRunWith P.bits_of L.tries)
        (scripts_of_clients clients.now) got.0) }
    ensures events { IfOk result (λ got. got.1 ≡ min all.new.amount (2 ^ 64 - 1)) }
    ensures share { all.new.parts ≡ 9 }
    ensures refusal { IsOkUnless result Refusal.OutOfMemory }
{
    let mut first = first;
    let mut slots = slots;
    let (events, failed) = gather::<P, L>(&counter, clients, &mut first, all, &mut slots, results);
    let _drawn = counter.close(first);
    if failed {
        return Err(Refusal::OutOfMemory);
    }
    let outcomes = flatten::<P, L>(alloc, clients, slots)?;
    Ok((Outcomes::of(outcomes), events))
}
