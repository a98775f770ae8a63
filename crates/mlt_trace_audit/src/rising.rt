//! Whether the commits of each client rise.

ghost use Rattle.std.specs.Prelude.{◌↔◌, IsTrue, All};
ghost use Rattle.mlt_trace_audit.specs.Agreement.{CommitsRise};
ghost use Rattle.mlt_trace_audit.specs.Orders.{AreInOrder, IsCommitted, Precedes};
ghost use Rattle.mlt_trace_audit.specs.Outcomes.{RisesTo};

use mlt_script_serial::{End, Outcome};

fn rises_to(one: &Outcome, other: &Outcome) -> bool
    ensures { IsTrue result ↔ RisesTo one.now other.now }
{
    match (one.end, other.end) {
        (End::Committed(first), End::Committed(second)) => {
            one.client != other.client || one.number >= other.number || first < second
        }
        _ => true,
    }
}

fn rises_to_all(one: &Outcome, outcomes: &[Outcome]) -> bool
    ensures { IsTrue result ↔ All (λ other. RisesTo one.now other) outcomes.now }
{
    outcomes.iter().all(|other| rises_to(one, other))
}

/// Compares each outcome with each.
fn pairs_rise(outcomes: &[Outcome]) -> bool
    ensures { IsTrue result ↔ CommitsRise outcomes.now }
{
    outcomes.iter().all(|one| rises_to_all(one, outcomes))
}

fn is_committed(outcome: &Outcome) -> bool
    ensures { IsTrue result ↔ IsCommitted outcome.now }
{
    match outcome.end {
        End::Committed(_) => true,
        _ => false,
    }
}

fn precedes(one: &Outcome, other: &Outcome) -> bool
    ensures { IsTrue result ↔ Precedes one.now other.now }
{
    one.client < other.client || one.client == other.client && one.number < other.number
}

/// Whether the outcomes stand by client and then by script, each script once.
fn are_in_order(outcomes: &[Outcome]) -> bool
    ensures { IsTrue result ↔ AreInOrder outcomes.now }
{
    for i in 1..outcomes.len() {
        if !precedes(&outcomes[i - 1], &outcomes[i]) {
            return false;
        }
    }
    true
}

/// Compares each committed outcome with the committed one before it.
fn neighbours_rise(outcomes: &[Outcome]) -> bool
    requires { AreInOrder outcomes.now }
    ensures { IsTrue result ↔ CommitsRise outcomes.now }
{
    let mut last = 0;
    for i in 0..outcomes.len() {
        if is_committed(&outcomes[i]) {
            if !rises_to(&outcomes[last], &outcomes[i]) {
                return false;
            }
            last = i;
        }
    }
    true
}

/// Whether the committed outcomes of one client rise in commit number with the script number. Where they stand
/// by client and then by script, it goes over them once; else it compares each with each.
pub(crate) fn commits_rise(outcomes: &[Outcome]) -> bool
    ensures { IsTrue result ↔ CommitsRise outcomes.now }
{
    if are_in_order(outcomes) {
        neighbours_rise(outcomes)
    } else {
        pairs_rise(outcomes)
    }
}
