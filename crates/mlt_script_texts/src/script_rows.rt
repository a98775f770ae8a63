//! Scripts beside the replies to them.

ghost use Rattle.std.specs.Prelude.{◌≡◌, ℕ, List, Err, IfErr};
ghost use Rattle.std.specs.Io.KnownBytes.{Appends, Keeps};
ghost use Rattle.mlt_text.specs.Failures.{IsWant};

use crate::rows::{Look, Rows, lines_of};
use crate::words::{first_word, is_remark};
use mlt_script::{Line, Script, parse, read_reply};
use mlt_script_serial::{Cursor, Next};
use mlt_text::write_text;
use mlt_types::Refusal;
use std::alloc::{AllocError, Global};
use std::io::Write;

/// What stands beside the answers.
#[derive(Clone, Copy, PartialEq)]
pub enum Echoed {
    /// Nothing.
    Nothing,
    /// The scripts that `solo` ran.
    Scripts,
    /// The scripts that `run` ran, those of each client one after another.
    Clients,
    /// The schedule that `steps` executed.
    Schedule,
}

/// Writes the output of a run of this input beside it, and flushes. Without an echo it writes the output alone. Else there is a row for
/// each line of the input, in the first column, with the answer to it in the second.
///
/// # Errors
/// `OutOfMemory` where memory runs out: nothing was written then. `Io` where a write or the flush fails: the writer then has
/// a prefix of the text.
pub fn write_shown<W: Write>(
    alloc: Global,
    echoed: Echoed,
    look: Look,
    input: &[u8],
    output: &[u8],
    writer: &mut W,
) -> Result<(), Refusal>
    ensures grows { (added : List ℕ)
        × Appends (W.contents writer.old) (W.contents writer.new) added }
    ensures memory { result ≡ Err Refusal.OutOfMemory
        → Keeps (W.contents writer.old) (W.contents writer.new) }
    ensures refusal { IfErr result IsWant }
{
    match text_of(alloc, echoed, look, input, output) {
        Ok(text) => write_text(writer, text.as_slice()),
        Err(_) => Err(Refusal::OutOfMemory),
    }
}

// The text of the rows. The input is one that was run.
fn text_of(
    alloc: Global,
    echoed: Echoed,
    look: Look,
    input: &[u8],
    output: &[u8],
) -> Result<Vec<u8>, Refusal> {
    let input = match echoed {
        Echoed::Nothing => &[],
        _ => input,
    };
    let lines = lines_of(alloc, input)?;
    let answers = lines_of(alloc, output)?;
    let mut rows = Rows::new(alloc, lines.as_slice(), answers.as_slice(), look);
    match echoed {
        Echoed::Nothing => (),
        Echoed::Schedule => rows.push_schedule(lines.as_slice())?,
        Echoed::Scripts | Echoed::Clients => {
            let scripts = parse(alloc, input)?;
            let is_by_client = echoed == Echoed::Clients;
            push_scripts(
                alloc,
                &mut rows,
                scripts.as_slice(),
                lines.as_slice(),
                is_by_client,
            )?;
        }
    }
    rows.push_rest()?;
    Ok(rows.text)
}

// Adds the rows of all scripts, those of each client one after another if they go by client, and of the lines behind them.
fn push_scripts(
    alloc: Global,
    rows: &mut Rows<'_>,
    scripts: &[Script],
    lines: &[&[u8]],
    is_by_client: bool,
) -> Result<(), AllocError> {
    let mut texts = lines.split_inclusive(|line| ends_script(line));
    let mut parts = Vec::new(alloc);
    for script in scripts {
        if let Some(text) = texts.next() {
            parts.push((script, text))?;
        }
    }
    if is_by_client {
        parts.sort_by_key(|part| part.0.client())?;
    }
    for (script, text) in &parts {
        push_script(rows, script, text, is_by_client)?;
    }
    for line in texts.next().unwrap_or(&[]) {
        rows.push(line)?;
    }
    Ok(())
}

fn ends_script(line: &[u8]) -> bool {
    let word = first_word(line);
    word == b"commit".as_slice() || word == b"abort".as_slice()
}

// Adds the rows of a script, whose lines come behind comments. What is told of it behind its last line has a row of its own.
fn push_script(
    rows: &mut Rows<'_>,
    script: &Script,
    lines: &[&[u8]],
    names_script: bool,
) -> Result<(), AllocError> {
    let mut cursor = Cursor::new(script);
    // Which line of the script is next. An `else` that the text leaves out is one of them.
    let mut at: usize = 0;
    for line in lines {
        match first_word(line) {
            _ if is_remark(line) => rows.push(line)?,
            b"begin" if names_script => {
                rows.push_answered(line)?;
            }
            b"begin" => rows.push(line)?,
            b"commit" | b"abort" => {
                if rows.push_answered(line)?.starts_with(b"refused ") {
                    rows.push_answered(&[])?;
                }
            }
            word => {
                let is_end = word == b"end".as_slice();
                if is_end && matches!(script.lines().get(at), Some(Line::Else)) {
                    at = at.saturating_add(1);
                }
                match cursor.next() {
                    // Behind an operation that was refused the cursor stays there.
                    Next::Op(_) if cursor.line() == at => {
                        let answer = rows.push_answered(line)?;
                        if let Some((reply, _)) = read_reply(answer) {
                            cursor.tell(reply);
                        }
                    }
                    _ => rows.push(line)?,
                }
                at = at.saturating_add(1);
            }
        }
    }
    Ok(())
}
