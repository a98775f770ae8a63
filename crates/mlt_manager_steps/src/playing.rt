//! Events that are played in order, and the lines of what each is told.

ghost use Rattle.std.specs.Prelude.{◌≡◌, [], IfOk, IsOkUnless, true};
ghost use Rattle.std.specs.String.{string_bytes};
ghost use Rattle.mlt_manager_steps.specs.Steps.{ArePlayedLines};

use crate::replayed::ReplayedState;
use mlt_event::Event;
use mlt_event_text::told_text;
use mlt_manager::Manager;
use mlt_types::{Limits, Pseudo, Refusal};
use std::alloc::Global;

// Executes all events in order, on a new manager, and returns the lines of the answers, with the reasons if they are asked for.
pub(crate) fn play_lines<P: Pseudo>(
    alloc: Global,
    limits: Limits,
    pseudo: P,
    events: &[Event],
    explains: bool,
) -> Result<(Manager<P>, String), Refusal>
where
    P: Drop,
    ensures plays { IfOk result (λ played.
        ArePlayedLines P.bits_of limits pseudo explains events.now played.0 (string_bytes played.1)) }
    // all of the history is there
    ensures history { IfOk result (λ played. played.0.shared.history.handed ≡ []) }
    ensures refusal { IsOkUnless result Refusal.OutOfMemory }
{
    if explains {
        return play_explained(alloc, limits, pseudo, events);
    }
    let (manager, tolds) = Manager::play(alloc, limits, pseudo, events)?;
    match told_text(alloc, tolds.as_slice()) {
        Ok(lines) => Ok((manager, lines)),
        Err(refusal) => {
            manager.close();
            Err(refusal)
        }
    }
}

// The same with the reasons, which go by the history behind each event.
fn play_explained<P: Pseudo>(
    alloc: Global,
    limits: Limits,
    pseudo: P,
    events: &[Event],
) -> Result<(Manager<P>, String), Refusal>
where
    P: Drop,
    ensures plays { IfOk result (λ played.
        ArePlayedLines P.bits_of limits pseudo true events.now played.0 (string_bytes played.1)) }
    ensures history { IfOk result (λ played. played.0.shared.history.handed ≡ []) }
    ensures refusal { IsOkUnless result Refusal.OutOfMemory }
{
    let mut text = String::new(alloc);
    let mut state = ReplayedState::new(alloc);
    let mut manager = Manager::new(alloc, limits, pseudo)?;
    for event in events {
        let told = manager.act(*event);
        let explained = state.explain(&mut text, event, &told, manager.kept_history());
        if explained.is_err() {
            manager.close();
            return Err(Refusal::OutOfMemory);
        }
    }
    manager.keeps_its_promises();
    Ok((manager, text))
}
