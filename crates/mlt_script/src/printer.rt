//! Scripts as texts.

ghost use Rattle.std.specs.Prelude.{◌≡◌, ◌++◌, ◌<◌, IfOk, IsOkUnless, OnOk, Some};
ghost use Rattle.std.specs.String.{string_bytes};
ghost use Rattle.mlt_script.specs.Again.{IsReadAgain, AreReadAgain, IsScriptAgain};
ghost use Rattle.mlt_script.specs.Grammar.{Spells};
ghost use Rattle.mlt_script.specs.LineTexts.{ending_text};
ghost use Rattle.mlt_script.specs.Printing.{as_line, begin_text, begins_with_end, is_idle, script_text, scripts_text, shown, shown_line};

use crate::ranges::line_fits;
use crate::script::Script;
use crate::statement::{Ending, Line};
use mlt_types::Refusal;
use std::alloc::{AllocError, Global};

fn push_begin(text: &mut String, client: u16) -> Result<(), AllocError>
    ensures { OnOk result
        (string_bytes text.new ≡ string_bytes text.old ++ as_line (begin_text client)) }
{
    if client == 0 {
        writeln!(text, "begin")
    } else {
        writeln!(text, "begin {client}")
    }
}

fn push_ending(text: &mut String, ending: Ending) -> Result<(), AllocError>
    ensures { OnOk result
        (string_bytes text.new ≡ string_bytes text.old ++ as_line (ending_text ending)) }
{
    writeln!(text, "{ending}")
}

/// A line that is written is read again.
fn reads_again(line: Line)
    ensures { IsReadAgain line }
{
    line_fits(line);
}

fn starts_with_end(lines: &[Line]) -> bool
    ensures { result ≡ begins_with_end lines.now }
{
    match lines {
        [Line::End, ..] => true,
        _ => false,
    }
}

/// Is the line an `else` directly before its `end`?
fn idle(line: Line, after: &[Line]) -> bool
    ensures { result ≡ is_idle line after.now }
{
    match line {
        Line::Else => starts_with_end(after),
        _ => false,
    }
}

fn push_line(text: &mut String, line: Line, after: &[Line]) -> Result<(), AllocError>
    ensures { OnOk result
        (string_bytes text.new ≡ string_bytes text.old ++ shown_line line after.now) }
{
    if idle(line, after) {
        return Ok(());
    }
    writeln!(text, "{line}")
}

/// Adds the lines of a script. An `else` directly before its `end` is left out.
fn push_lines(text: &mut String, lines: &[Line]) -> Result<(), AllocError>
    ensures text { OnOk result (string_bytes text.new ≡ string_bytes text.old ++ shown lines.now) }
    ensures again { OnOk result (AreReadAgain lines.now) }
{
    let mut rest = lines;
    while let [line, after @ ..] = rest {
        reads_again(*line);
        push_line(text, *line, after)?;
        rest = after;
    }
    Ok(())
}

fn push_script(text: &mut String, script: &Script) -> Result<(), AllocError>
    ensures text { OnOk result
        (string_bytes text.new ≡ string_bytes text.old ++ script_text script.now) }
    ensures again { OnOk result (IsScriptAgain script.now) }
{
    push_begin(text, script.client())?;
    push_lines(text, script.lines())?;
    push_ending(text, script.ending())
}

/// The text of scripts: a line for each statement, one space between words, `begin` alone for client 0, and no
/// `else` where its part is empty. `parse` of it gives the scripts again.
///
/// # Errors
/// `OutOfMemory`, where a growth was refused.
pub fn print(alloc: Global, scripts: &[Script]) -> Result<String, Refusal>
    ensures text { IfOk result (λ text. string_bytes text ≡ scripts_text scripts.now) }
    ensures spells { IfOk result (λ text. Spells (string_bytes text) scripts.now) }
    ensures refusal { IsOkUnless result Refusal.OutOfMemory }
{
    let mut text = String::new(alloc);
    for script in scripts {
        push_script(&mut text, script)?;
    }
    Ok(text)
}
