//! Texts of events.

ghost use Rattle.std.specs.Prelude.{◌≡◌, ◌⊎◌, ◌++◌, ℕ, List, IfErr, IfOk, IsErrAnd, MatchResult, OnOk, Err, replicate};
ghost use Rattle.mlt_event.specs.declared.event.Event.{Event};
ghost use Rattle.mlt_event_text.specs.Answering.{Answers, TakesLine};
ghost use Rattle.mlt_event_text.specs.Grammar.{IsDecided, IsFirstFault, Spells};
ghost use Rattle.mlt_event_text.specs.Readings.{reading as reading_of};
ghost use Rattle.mlt_text_words.specs.Lines.{Raw};
ghost use Rattle.mlt_types.specs.declared.refusal.ScriptCause.{ScriptCause};

use crate::forms::Asked;
use crate::line::{EventReading, read_first};
use mlt_event::Event;
use mlt_types::Refusal;
use std::alloc::{AllocError, Global};

// Puts the event behind the others, so many times.
fn push_asked(events: &mut Vec<Event>, asked: Asked) -> Result<(), AllocError>
    ensures { OnOk result
        (events.new.items ≡ events.old.items ++ replicate asked.times asked.event) }
{
    for _ in 0..asked.times {
        events.push(asked.event)?;
    }
    Ok(())
}

// Goes over a line of this reading.
fn take_line(events: &mut Vec<Event>, line: u64, reading: EventReading) -> Result<(), Refusal>
    ensures { (raw : Raw) → reading ≡ reading_of raw
        → TakesLine result events.old.items events.new.items line raw }
{
    match reading {
        EventReading::Bad(cause) => Err(Refusal::ScriptFault { line, cause }),
        EventReading::Skip => Ok(()),
        EventReading::Asks(asked) => {
            push_asked(events, asked)?;
            Ok(())
        }
    }
}

// The events of a text, or its first fault, line by line.
fn read_lines(alloc: Global, text: &[u8]) -> Result<Vec<Event>, Refusal>
    ensures { Answers (λ events. events.items) result text.now }
{
    let mut events = Vec::new(alloc);
    let mut rest = text;
    let mut line = 0u64;
    while !rest.is_empty() {
        let (reading, after) = read_first(rest);
        line += 1;
        take_line(&mut events, line, reading)?;
        rest = after;
    }
    Ok(events)
}

/// The events of a text, in order. A line `step T N` is that step N times. Blank lines are skipped, and so are lines
/// whose first word begins with `#`. The last line may lack its LF.
///
/// # Errors
/// `ScriptFault` exactly where a line is faulty, with the number of the first such line, counted from 1, and its cause:
/// `Line`, or else `Words`. `OutOfMemory` where memory runs out.
pub fn parse_events(alloc: Global, text: &[u8]) -> Result<Vec<Event>, Refusal>
    ensures spelled { IfOk result (λ events. Spells text.now events.items) }
    ensures accepted { (events : List Event) → Spells text.now events
        → MatchResult result (λ found. found.items ≡ events)
        (λ refusal. refusal ≡ Refusal.OutOfMemory) }
    ensures fault { (line : ℕ) (cause : ScriptCause) → result ≡ Err (Refusal.ScriptFault line cause)
        → IsFirstFault text.now line cause }
    ensures faulty { (line : ℕ) (cause : ScriptCause) → IsFirstFault text.now line cause
        → IsErrAnd result
        (λ refusal. (refusal ≡ Refusal.ScriptFault line cause)
        ⊎ (refusal ≡ Refusal.OutOfMemory)) }
    ensures refusals { IfErr result (λ refusal. (refusal ≡ Refusal.OutOfMemory)
        ⊎ ((line : ℕ) × (cause : ScriptCause) × (refusal ≡ Refusal.ScriptFault line cause))) }
    ensures decided { IsDecided text.now }
{
    read_lines(alloc, text)
}
