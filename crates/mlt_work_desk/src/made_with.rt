//! With what the manager under a lock is made.

ghost use Rattle.std.specs.Prelude.{Bool, false, Option, None};
ghost use Rattle.mlt_work_desk.specs.Makings.{Making};
ghost use Rattle.mlt_work_desk.specs.declared.tries.Tries.{Tries};
ghost use Rattle.mlt_work_desk.specs.declared.tries.Tries.TheVariants.{PerScript};
ghost use Rattle.mlt_work_desk.specs.LogHandles.{LogId, no_log};

use std::marker::Brand;
use std::sync::ledger::Ledger;

/// The ledger of the desks over a manager, with which limits and which function from keys to pseudokeys that was made, whether
/// its history is handed out, which log has it, and which tries its desks are given. No value of it is made: the caller that runs desks
/// picks all of them.
pub trait MadeWith<P>: Ledger {
    /// The limits and the function.
    ghost made_with: { Option (Making P) };
    /// Whether items of the history may be handed out. Else all of it stays in the manager.
    ghost hands_out: { Bool };
    /// The log of the history.
    ghost log_id: { LogId };
    /// The tries that the desks are given.
    ghost tries: { Tries };
}

impl<P> MadeWith<P> for Brand {
    ghost made_with = { None };

    ghost hands_out = { false };

    ghost log_id = { no_log };

    ghost tries = { PerScript 0 };
}
