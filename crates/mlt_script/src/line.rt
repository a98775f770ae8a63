//! What a line says.

ghost use Rattle.std.specs.Prelude.{◌≡◌, ◌<◌, ◌∷◌, length};
ghost use Rattle.mlt_script.specs.Readings.{reading, said_by};
ghost use Rattle.mlt_text_words.specs.Lines.{Raw, lines};
ghost use Rattle.mlt_text_words.specs.ReadLines.{Tells};
ghost use Rattle.mlt_text_words.specs.Words.{words_of};

use crate::forms::{LineForm, line_form};
use crate::plain::frame_line;
use mlt_text_words::{LineText, has_word, is_comment_line, read_line};
use mlt_types::ScriptCause;

/// What a line is by itself.
#[derive(Clone, Copy)]
pub enum ScriptReading {
    /// A fault, which is Line or Words.
    Bad(ScriptCause),
    /// Blank, or a comment.
    Skip,
    /// One of the forms.
    Form(LineForm),
}

#[tactic(auto, using(crate::proofs::Saying::said_form, crate::proofs::Saying::said_nothing))]
fn read_words(line: &[u8]) -> ScriptReading
    ensures { result ≡ said_by (words_of line.now) }
{
    match line_form(line) {
        Some(form) => ScriptReading::Form(form),
        None if has_word(line) => ScriptReading::Bad(ScriptCause::Words),
        None => ScriptReading::Skip,
    }
}

// What a line says.
#[tactic(auto, unfolding(crate::specs::Readings::reading))]
fn said(line: LineText) -> ScriptReading
    ensures { (raw : Raw) → Tells line.entry raw → result ≡ reading raw }
{
    match line {
        LineText::Faulty(bytes) | LineText::Allowed(bytes, _) if is_comment_line(bytes) =>
            ScriptReading::Skip,
        LineText::Allowed(bytes, _) => read_words(bytes),
        LineText::TooLong | LineText::Faulty(_) => ScriptReading::Bad(ScriptCause::Line),
    }
}

/// What the first line of a text is, and the text after it. A plain operation is read faster by `op_line`.
pub fn read_first(text: &[u8]) -> (ScriptReading, &[u8])
    requires { 0 < length text.now }
    ensures first { (raw : Raw) × (lines text.now ≡ raw ∷ lines result.1.now)
        × (result.0 ≡ reading raw) }
    ensures less { length result.1.now < length text.now }
{
    if let Some((form, rest)) = frame_line(text) {
        return (ScriptReading::Form(form), rest);
    }
    let (line, rest) = read_line(text);
    (said(line), rest)
}
