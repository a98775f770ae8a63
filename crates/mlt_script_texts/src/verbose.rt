//! The second line that is said of a fault, and the caret below it.

ghost use Rattle.std.specs.Prelude.{◌≡◌, ℕ, List, Err, IfErr};
ghost use Rattle.std.specs.Io.KnownBytes.{Appends, Keeps};
ghost use Rattle.mlt_text.specs.Failures.{IsWant};

use crate::expected::push_expected;
use crate::forms::TextKind;
use crate::shown::{show, show_front};
use mlt_text::write_text;
use mlt_text_words::trimmed;
use mlt_types::{Refusal, ScriptCause, TraceCause};
use std::alloc::Global;
use std::io::Write;

/// What is wrong with a line of a text, by what the text was read as.
#[derive(Clone, Copy)]
pub enum TextFault {
    /// Scripts, as `solo` and `run` read them.
    Scripts(ScriptCause),
    /// A schedule, as `steps` reads it.
    Schedule(ScriptCause),
    /// A trace, as `check` reads it.
    Trace(TraceCause),
    /// A base to begin with. Of its text only the faulty line is kept.
    Base(ScriptCause),
}

impl TextFault {
    /// What the text was read as.
    pub(crate) fn kind(self) -> TextKind {
        match self {
            TextFault::Scripts(_) => TextKind::Scripts,
            TextFault::Schedule(_) => TextKind::Schedule,
            TextFault::Trace(_) => TextKind::Trace,
            TextFault::Base(_) => TextKind::Base,
        }
    }
}

/// What is known of a fault, beside its number and its name.
#[derive(Clone, Copy)]
pub enum Detail<'a> {
    /// Why a call on the file or address failed, in the words of the system.
    Said(&'a str),
    /// The fault, the number of its line, counted from 1, the text in which it is, or of a base the line alone, and whether a caret
    /// below the line points at the word.
    Faulty(TextFault, u64, &'a [u8], bool),
}

// The line of this number, from 1.
fn line_of(text: &[u8], number: u64) -> &[u8] {
    let mut lines = text.split(|byte| *byte == b'\n');
    let line = lines.nth(number.saturating_sub(1) as usize);
    line.unwrap_or(&[])
}

// The line as the fault sees it: a CR before its LF counts where a byte or the length is wrong.
fn faulty_line(fault: TextFault, line: &[u8]) -> &[u8] {
    match fault {
        TextFault::Scripts(ScriptCause::Line)
        | TextFault::Schedule(ScriptCause::Line)
        | TextFault::Base(ScriptCause::Line)
        | TextFault::Trace(TraceCause::Line) => line,
        _ => trimmed(line),
    }
}

fn verbose_text(alloc: Global, subject: &str, detail: &Detail<'_>) -> Result<String, Refusal> {
    let subject = show(alloc, subject.as_bytes())?;
    match *detail {
        Detail::Said(words) => Ok(format!(in alloc; "mltx: {subject}: {words}\n")?),
        Detail::Faulty(fault, number, read, points) => {
            let line = match fault {
                TextFault::Base(_) => read,
                _ => line_of(read, number),
            };
            let line = faulty_line(fault, line);
            let front = show_front(alloc, line)?;
            let mut text = format!(in alloc; "mltx: {subject}, line {number}: `{front}`: ")?;
            let at = push_expected(alloc, &mut text, fault, line, read, number)?;
            text.push('\n')?;
            if let (true, Some(at)) = (points, at) {
                let before = show(alloc, line.get(..at).unwrap_or(&[]))?.len();
                if before < front.len() {
                    writeln!(text, "  {front}\n  {:before$}^", "")?;
                }
            }
            Ok(text)
        }
    }
}

/// Writes the second line of a fault, on this file or address, and flushes. What the writer had stays in front.
///
/// # Errors
/// `OutOfMemory` where memory runs out: nothing was written then. `Io` where a write or the flush fails: the writer then has
/// a prefix of the line.
pub fn report_verbose<W: Write>(
    alloc: Global,
    subject: &str,
    detail: &Detail<'_>,
    errors: &mut W,
) -> Result<(), Refusal>
    ensures grows { (added : List ℕ)
        × Appends (W.contents errors.old) (W.contents errors.new) added }
    ensures memory { result ≡ Err Refusal.OutOfMemory
        → Keeps (W.contents errors.old) (W.contents errors.new) }
    ensures refusal { IfErr result IsWant }
{
    match verbose_text(alloc, subject, detail) {
        Ok(text) => write_text(errors, text.as_bytes()),
        Err(_) => Err(Refusal::OutOfMemory),
    }
}
