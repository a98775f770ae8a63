//! The lines of an input.

ghost use Rattle.std.specs.Prelude.{◌≡◌};
ghost use Rattle.mlt_event_text.specs.Inputs.{NextLine};
ghost use Rattle.mlt_event_text.specs.Commands.{command_of};
ghost use Rattle.mlt_text_words.specs.Lines.{without_cr};

use crate::command::{Command, read_command};
use mlt_script::op_line;
use mlt_text_words::{MOST_LINE_BYTES, after, find_lf, trimmed};

/// A line of a session.
#[derive(Clone, Copy, Debug, PartialEq, Eq)]
pub enum SessionLine {
    /// At most 200 bytes, a CR among them, and an LF.
    Says(Command),
    /// More than 200 bytes before an LF, or without one.
    TooLong,
}

// What a line asks, given its bytes before the LF.
fn command_in(bytes: &[u8]) -> Command
    ensures { result ≡ command_of (without_cr bytes.now) }
{
    read_command(trimmed(bytes))
}

/// The next line of a text, and how many of its bytes it takes, with its LF 1 to 201. A session ends at a line that is
/// too long, so of such a line the number says nothing. `None` where the line goes on behind the text, which then has
/// at most 200 bytes and no LF. Takes no memory.
pub fn next_line(text: &[u8]) -> Option<(SessionLine, usize)>
    ensures { NextLine text.now result }
{
    if let Some((op, rest)) = op_line(text) {
        return Some((SessionLine::Says(Command::Op(op)), text.len() - rest.len()));
    }
    if let Some(rest) = after(text, b"commit\n") {
        return Some((SessionLine::Says(Command::Commit), text.len() - rest.len()));
    }
    if let Some(rest) = after(text, b"begin\n") {
        return Some((SessionLine::Says(Command::Begin), text.len() - rest.len()));
    }
    line_of_any_form(text)
}

// The next line of a text, whatever form it has. It is called for the few lines that the fast forms do not read.
#[inline(never)]
fn line_of_any_form(text: &[u8]) -> Option<(SessionLine, usize)>
    ensures { NextLine text.now result }
{
    match find_lf(text) {
        Some(end) if end > MOST_LINE_BYTES => Some((SessionLine::TooLong, text.len())),
        Some(end) => Some((SessionLine::Says(command_in(&text[..end])), end + 1)),
        None if text.len() > MOST_LINE_BYTES => Some((SessionLine::TooLong, text.len())),
        None => None,
    }
}
