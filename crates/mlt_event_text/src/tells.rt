//! The text of what events are told.

ghost use Rattle.std.specs.Prelude.{◌≡◌, IsOkUnless, IfOk};
ghost use Rattle.std.specs.String.{string_bytes};
ghost use Rattle.mlt_event_text.specs.TellTexts.{told_text};

use mlt_event::Told;
use mlt_types::Refusal;
use std::alloc::Global;

/// The text of the answers to events: a line for each, in order, which ends in LF.
///
/// # Errors
/// `OutOfMemory`, where a growth was refused.
pub fn told_text(alloc: Global, tells: &[Told]) -> Result<String, Refusal>
    ensures text { IfOk result (λ text. string_bytes text ≡ told_text tells.now) }
    ensures refusal { IsOkUnless result Refusal.OutOfMemory }
{
    let mut text = String::new(alloc);
    for told in tells {
        writeln!(text, "{told}")?;
    }
    Ok(text)
}
