//! What a line says.

ghost use Rattle.std.specs.Prelude.{◌≡◌, ◌<◌, ◌∷◌, length};
ghost use Rattle.mlt_event_text.specs.Readings.{reading, said_by};
ghost use Rattle.mlt_text_words.specs.Lines.{Raw, lines};
ghost use Rattle.mlt_text_words.specs.ReadLines.{Tells};
ghost use Rattle.mlt_text_words.specs.Words.{raw_words};

use crate::forms::{Asked, asked_by};
use mlt_text_words::{LineText, is_comment_line, next_raw_word, read_line};
use mlt_types::ScriptCause;

/// What a line is by itself.
#[derive(Clone, Copy)]
pub enum EventReading {
    /// A fault, which is Line or Words.
    Bad(ScriptCause),
    /// Blank, or a comment.
    Skip,
    /// One of the forms.
    Asks(Asked),
}

// What a line of allowed bytes says, without its end.
fn read_words(line: &[u8]) -> EventReading
    ensures { result ≡ said_by (raw_words line.now) }
{
    let Some((word, rest)) = next_raw_word(line) else {
        return EventReading::Skip;
    };
    match asked_by(word, rest) {
        Some(asked) => EventReading::Asks(asked),
        None => EventReading::Bad(ScriptCause::Words),
    }
}

// What a line says.
#[tactic(auto, unfolding(crate::specs::Readings::reading))]
fn said(line: LineText) -> EventReading
    ensures { (raw : Raw) → Tells line.entry raw → result ≡ reading raw }
{
    match line {
        LineText::Faulty(bytes) | LineText::Allowed(bytes, _) if is_comment_line(bytes) =>
            EventReading::Skip,
        LineText::Allowed(bytes, _) => read_words(bytes),
        LineText::TooLong | LineText::Faulty(_) => EventReading::Bad(ScriptCause::Line),
    }
}

/// What the first line of a text is, and the text after it.
pub fn read_first(text: &[u8]) -> (EventReading, &[u8])
    requires { 0 < length text.now }
    ensures first { (raw : Raw) × (lines text.now ≡ raw ∷ lines result.1.now)
        × (result.0 ≡ reading raw) }
    ensures less { length result.1.now < length text.now }
{
    let (line, rest) = read_line(text);
    (said(line), rest)
}
