//! What was expected in place of a faulty line.

use crate::forms::{TextKind, WordTable, find_row};
use crate::hint::push_hint;
use crate::truth::find_truth;
use crate::verbose::TextFault;
use crate::words::{first_word, is_one_of};
use mlt_text_words::{MOST_LINE_BYTES, trimmed};
use mlt_types::{Refusal, ScriptCause, TraceCause};
use std::alloc::{AllocError, Global};

// The bytes of a byte order mark.
const MARK: &[u8] = &[0xEF, 0xBB, 0xBF];

/// Appends what was expected of the line of this number with this fault, in the text that was read. Returns how many bytes of the
/// line stand before the word at which something is noticed, if it is at one.
pub(crate) fn push_expected(
    alloc: Global,
    text: &mut String,
    fault: TextFault,
    line: &[u8],
    read: &[u8],
    number: u64,
) -> Result<Option<usize>, Refusal> {
    let kind = fault.kind();
    match fault {
        TextFault::Scripts(cause) | TextFault::Schedule(cause) => match cause {
            ScriptCause::Line => text.push_str(line_text(kind, line))?,
            ScriptCause::Words => return Ok(push_words(alloc, text, kind, line)?),
            ScriptCause::Place => push_script_place(alloc, text, line, read, number)?,
            ScriptCause::Deep => text.push_str("expected: at most 16 nested `if`")?,
            ScriptCause::Long => text.push_str(
                "expected: at most 256 operations on each path from `begin` to here",
            )?,
            ScriptCause::Unfinished => text.push_str(
                "the text ends inside a script; expected: a `commit` or an `abort`",
            )?,
        },
        TextFault::Trace(cause) => match cause {
            TraceCause::Line => text.push_str(line_text(kind, line))?,
            TraceCause::Cut => text.push_str(
                "the text ends inside this line; expected: a line feed at its end",
            )?,
            TraceCause::Words => return Ok(push_words(alloc, text, kind, line)?),
            TraceCause::Place => text.push_str(trace_place_text(first_word(line)))?,
            TraceCause::Reply => push_true_reply(alloc, text, read, number)?,
        },
        TextFault::Base(cause) => match cause {
            ScriptCause::Line => text.push_str(line_text(kind, line))?,
            ScriptCause::Place => text.push_str(BASE_PLACE)?,
            _ => return Ok(push_words(alloc, text, kind, line)?),
        },
    }
    Ok(None)
}

// Of a line that is too long, or has a byte that is not allowed.
fn line_text(kind: TextKind, line: &[u8]) -> &'static str {
    if line.len() > MOST_LINE_BYTES {
        return "expected: at most 200 bytes";
    }
    if line.starts_with(MARK) {
        return "the text begins with a byte order mark; expected: a text without one";
    }
    match kind {
        TextKind::Trace => "expected: only tabs and bytes from 0x20 to 0x7e",
        _ => { "expected: only tabs and bytes from 0x20 to 0x7e, except in comment lines" }
    }
}

// Appends what is noticed of the line, and the form that goes with its first word, or else how a line begins.
fn push_words(
    alloc: Global,
    text: &mut String,
    kind: TextKind,
    line: &[u8],
) -> Result<Option<usize>, AllocError> {
    let at = push_hint(alloc, text, kind, line)?;
    text.push_str("expected: ")?;
    if let Some(form) = kind.find_form(first_word(line)) {
        text.push_str(form)?;
    } else if let Some((last, front)) = kind.forms().split_last() {
        let mut lead = "a line that begins with ";
        for (word, _) in front {
            write!(text, "{lead}{word}")?;
            lead = ", ";
        }
        let word = last.0;
        write!(text, " or {word}")?;
    }
    Ok(at)
}

// Appends what is expected in place of a line of scripts that may not stand there.
fn push_script_place(
    alloc: Global,
    text: &mut String,
    line: &[u8],
    read: &[u8],
    number: u64,
) -> Result<(), AllocError> {
    let word = first_word(line);
    let open = if is_one_of(word, &["commit", "abort"]) {
        open_if(alloc, read, number)?
    } else {
        None
    };
    let Some(open) = open else {
        return text.push_str(script_place_text(word));
    };
    write!(text, "the `if` in line {open} has no `end`; ")?;
    text.push_str("expected: an `end` for each `if`")
}

// The number of the last line before this one, from 1, that has an `if` without an `end`.
fn open_if(alloc: Global, read: &[u8], number: u64) -> Result<Option<u64>, AllocError> {
    let mut open = Vec::new(alloc);
    let mut at: u64 = 1;
    for line in read.split(|byte| *byte == b'\n') {
        if at >= number {
            break;
        }
        let word = first_word(trimmed(line));
        if is_one_of(word, &["if"]) {
            open.push(at)?;
        } else if is_one_of(word, &["end"]) {
            open.pop();
        }
        at = at.saturating_add(1);
    }
    Ok(open.pop())
}

// Of lines of scripts that may not stand there and close no open `if`, by their first words.
static SCRIPT_PLACES: WordTable = &[
    ("begin", "expected: a `commit` or an `abort` before it"),
    ("commit", SCRIPT_END),
    ("abort", SCRIPT_END),
    (
        "else",
        "expected: an open `if` before it that has no `else` yet",
    ),
    (
        "end",
        "an `end` ends an `if`, and `commit` or `abort` a transaction; expected: an open `if` before it",
    ),
];

const SCRIPT_END: &str = "expected: a `begin` before it, and an `end` for each `if`";

// Of lines of a trace that may not stand there.
static TRACE_PLACES: WordTable = &[
    (
        "begin",
        "expected: a transaction number above all earlier ones",
    ),
    ("op", "expected: an open transaction without a `back`"),
    (
        "back",
        "expected: an open transaction that has an operation left",
    ),
    (
        "commit",
        "expected: an open transaction without a `back`, and as N the number of earlier commits plus 1",
    ),
];

// Of lines of a base that may not stand there.
const BASE_PLACE: &str =
    "expected: accounts first, then elements, then counters, each by rising numbers and once";

fn script_place_text(word: &[u8]) -> &'static str {
    find_row(SCRIPT_PLACES, word).unwrap_or("expected: a `begin` before it")
}

fn trace_place_text(word: &[u8]) -> &'static str {
    find_row(TRACE_PLACES, word).unwrap_or(
        "expected: an open transaction, and before its `abort` a `back` for each of its operations",
    )
}

// Appends which reply would be true of the operation in this line of a trace.
fn push_true_reply(
    alloc: Global,
    text: &mut String,
    trace: &[u8],
    number: u64,
) -> Result<(), Refusal> {
    if let Some(truth) = find_truth(alloc, trace, number)? {
        let (reply, began) = (truth.reply, truth.began);
        write!(
            text,
            "its transaction begins in line {began}; expected: `{reply}`, which "
        )?;
    } else {
        text.push_str("expected: the reply that ")?;
    }
    text.push_str("the operation gets if the transactions run one after another, in commit order")?;
    Ok(())
}
