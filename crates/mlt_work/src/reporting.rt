//! The report, once all workers have given back what they have.

ghost use Rattle.std.specs.Prelude.{◌≡◌, ◌⊎◌, [], IfErr, IsOkUnless, IfOk, OnOk};
ghost use Rattle.mlt_trace_audit.specs.Agreement.{Agrees};
ghost use Rattle.mlt_trace_audit.specs.Committed.{IsBaseOfOutcomes};
ghost use Rattle.mlt_manager.specs.Promises.{IsCommittedBaseOf};

use mlt_manager::Manager;
use mlt_object_base::Base;
use mlt_script_serial::{Outcome, Outcomes, Report};
use mlt_trace_audit::{audit, committed_outcomes_are_the_committed_list};
use mlt_types::{Pseudo, Refusal};
use std::alloc::Global;
use std::thread;
use std::thread::Threads;

// What the audit of the outcomes answers, and the base. Neither needs the other: where there are several workers, two threads
// find them side by side.
fn audit_and_base<P: Pseudo, R: Threads>(
    rt: &R,
    alloc: Global,
    workers: usize,
    outcomes: &[Outcome],
    manager: &Manager<P>,
) -> (Result<(), Refusal>, Result<Base, Refusal>)
    requires { manager.now.shared.history.handed ≡ [] }
    ensures agrees { OnOk result.0 (Agrees outcomes.now manager.now.shared.history.items) }
    ensures differs { IsOkUnless result.0 Refusal.Audit }
    ensures base { IfOk result.1 (λ base. IsCommittedBaseOf manager.now base) }
    ensures refusal { IsOkUnless result.1 Refusal.OutOfMemory }
{
    let Some(history) = manager.history() else {
        unreachable!()
    };
    if workers == 1 {
        return (audit(alloc, outcomes, history), manager.base());
    }
    thread::join(
        rt,
        || -> Result<(), Refusal>
            ensures { OnOk result (Agrees outcomes.entry.now history.entry.now)
                × IsOkUnless result Refusal.Audit }
        { audit(alloc, outcomes, history) },
        || -> Result<Base, Refusal>
            ensures { IfOk result (λ base. IsCommittedBaseOf manager.entry.now base)
                × IsOkUnless result Refusal.OutOfMemory }
        { manager.base() },
    )
}

/// The report of these outcomes, where they agree with the manager's history.
///
/// # Errors
/// `Audit`, where they do not agree; `OutOfMemory`, where the base is refused its memory.
pub(crate) fn report_of<P: Pseudo, R: Threads>(
    rt: &R,
    alloc: Global,
    workers: usize,
    outcomes: Outcomes,
    events: u64,
    manager: &Manager<P>,
) -> Result<Report, Refusal>
    requires { manager.now.shared.history.handed ≡ [] }
    ensures outcomes { IfOk result (λ report. report.outcomes ≡ outcomes) }
    ensures events { IfOk result (λ report. report.events ≡ events) }
    ensures agrees { IfOk result
        (λ report. Agrees report.outcomes manager.now.shared.history.items) }
    ensures base { IfOk result (λ report. IsBaseOfOutcomes report.outcomes report.base) }
    ensures refusal { IfErr result
        (λ refusal. (refusal ≡ Refusal.OutOfMemory) ⊎ (refusal ≡ Refusal.Audit)) }
{
    manager.keeps_a_placed_history();
    committed_outcomes_are_the_committed_list();
    let (audited, base) = audit_and_base(rt, alloc, workers, outcomes.as_slice(), manager);
    audited?;
    let base = base?;
    Ok(Report {
        outcomes,
        events,
        base,
    })
}
