//! Scripts that run one after another through a manager.

ghost use Rattle.std.specs.Prelude.{◌≡◌, IsOkUnless, IfOk, replicate};
ghost use Rattle.mlt_manager_solo.specs.Alone.{IsAtRest};
ghost use Rattle.mlt_manager_solo.specs.Asking.{HasRunAll};

use crate::manager_desk::ManagerDesk;
use mlt_script::Script;
use mlt_script_serial::{Outcomes, run_script};
use mlt_types::{Pseudo, Refusal};
use std::alloc::Global;

/// How many scripts of each client there were before the first.
fn no_scripts() -> [u64; 1_000]
    ensures { result ≡ replicate 1000 0 }
{
    [0; 1_000]
}

/// Runs the scripts one after another. A script that is refused is taken back, and the others run all the same.
///
/// # Errors
/// `OutOfMemory`, where a growth of the list of outcomes was refused, or the room for all replies of a script, of which
/// nothing was asked then.
pub(crate) fn run_all<P: Pseudo>(
    alloc: Global,
    desk: &mut ManagerDesk<P>,
    scripts: &[Script],
) -> Result<Outcomes, Refusal>
    requires rest { IsAtRest P.bits_of desk.old.manager }
    ensures run { IfOk result (λ outcomes.
        HasRunAll P.bits_of scripts.now desk.old.manager desk.new.manager outcomes) }
    ensures refusal { IsOkUnless result Refusal.OutOfMemory }
{
    let mut outcomes = Outcomes::new(alloc);
    let mut numbers = no_scripts();
    for script in scripts {
        let client = script.client() as usize;
        numbers[client] += 1;
        let outcome = run_script(alloc, desk, script, numbers[client])?;
        outcomes.push(outcome)?;
    }
    Ok(outcomes)
}
