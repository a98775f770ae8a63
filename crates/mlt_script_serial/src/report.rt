//! The report of what became of scripts, and its text.

ghost use Rattle.std.specs.Prelude.{◌≡◌, ◌⊎◌, ◌++◌, IfErr, IsOkUnless, IfOk, IsErrOf, OnErr, OnOk};
ghost use Rattle.std.specs.Io.KnownBytes.{Appends, Keeps};
ghost use Rattle.std.specs.List.{flat_map};
ghost use Rattle.mlt_text.specs.Texts.{AppendsFront};
ghost use Rattle.mlt_object_kinds.specs.Texts.{reply_text};
ghost use Rattle.mlt_script_serial.specs.Texts.{end_text, line, outcome_text, report_text, script_line};

use crate::outcome::{End, Outcome, Outcomes};
use mlt_object_base::{Base, write_base};
use mlt_object_kinds::ObjReply;
use mlt_text::{push_numbered, write_text};
use mlt_types::Refusal;
use std::alloc::{AllocError, Global};
use std::io::Write;

/// What became of scripts, and the base that was reached.
#[derive(Drop)]
pub struct Report {
    /// What became of each script, in order.
    pub outcomes: Outcomes,
    /// How many events the manager saw, 0 where there was none.
    pub events: u64,
    /// The base after the last script.
    pub base: Base,
}

/// Which text a report has.
#[derive(Clone, Copy, Debug, PartialEq, Eq)]
pub enum ReportForm {
    /// The outcomes alone.
    Solo,
    /// Each outcome behind a line that names its script, and then the base.
    Run,
}

/// Adds the line of a reply. That of a word alone is there as a whole.
#[inline(always)]
pub fn push_reply(text: &mut Vec<u8>, reply: ObjReply) -> Result<(), AllocError>
    ensures ok { OnOk result (text.new.items ≡ text.old.items ++ line (reply_text reply)) }
    ensures err { OnErr result (text.new.items ≡ text.old.items) }
{
    match reply {
        ObjReply::Is(value) => push_numbered(text, b"is ", value, b'\n'),
        word => text.extend_from_slice(word.word_line().unwrap_or("").as_bytes()),
    }
}

fn push_end(text: &mut Vec<u8>, end: End) -> Result<(), AllocError>
    ensures { OnOk result (text.new.items ≡ text.old.items ++ end_text end) }
{
    match end {
        End::Committed(number) => push_numbered(text, b"committed ", number, b'\n'),
        End::Aborted => text.extend_from_slice(b"aborted\n"),
        End::Refused(refusal) => {
            push_numbered(text, b"refused ", u64::from(refusal.number()), b' ')?;
            text.extend_from_slice(refusal.name().as_bytes())?;
            text.extend_from_slice(b"\naborted\n")
        }
    }
}

fn push_outcome(text: &mut Vec<u8>, outcome: &Outcome) -> Result<(), AllocError>
    ensures { OnOk result
        (text.new.items ≡ text.old.items ++ outcome_text outcome.now) }
{
    for done in outcome.done.as_slice() {
        push_reply(text, done.reply())?;
    }
    push_end(text, outcome.end)
}

fn push_script(text: &mut Vec<u8>, outcome: &Outcome) -> Result<(), AllocError>
    ensures { OnOk result
        (text.new.items ≡ text.old.items ++ script_line outcome.now) }
{
    push_numbered(text, b"client ", u64::from(outcome.client), b' ')?;
    push_numbered(text, b"script ", u64::from(outcome.number), b'\n')
}

fn solo_text(alloc: Global, outcomes: &[Outcome]) -> Result<Vec<u8>, AllocError>
    ensures { IfOk result (λ text. text.items ≡ flat_map outcome_text outcomes.now) }
{
    let mut text = Vec::new(alloc);
    for outcome in outcomes {
        push_outcome(&mut text, outcome)?;
    }
    Ok(text)
}

fn run_text(alloc: Global, outcomes: &[Outcome]) -> Result<Vec<u8>, AllocError>
    ensures { IfOk result
        (λ text. text.items ≡ flat_map (λ o. script_line o ++ outcome_text o) outcomes.now) }
{
    let mut text = Vec::new(alloc);
    for outcome in outcomes {
        push_script(&mut text, outcome)?;
        push_outcome(&mut text, outcome)?;
    }
    Ok(text)
}

fn text_of(alloc: Global, report: &Report, form: ReportForm) -> Result<Vec<u8>, Refusal>
    ensures text { IfOk result
        (λ text. text.items ≡ report_text form report.now.outcomes report.now.base) }
    ensures refusal { IsOkUnless result Refusal.OutOfMemory }
{
    let outcomes = report.outcomes.as_slice();
    match form {
        ReportForm::Solo => Ok(solo_text(alloc, outcomes)?),
        ReportForm::Run => {
            let mut text = run_text(alloc, outcomes)?;
            // A vector fails to take bytes only where a growth was refused.
            write_base(&report.base, &mut text).map_err(|_| Refusal::OutOfMemory)?;
            Ok(text)
        }
    }
}

/// Writes the text of a report. It is built first, and then written by a loop of writes.
///
/// # Errors
/// `OutOfMemory`, where a growth was refused; nothing was written. `Io`, where a write failed; then a
/// front of the text was written.
pub fn write_report<W: Write>(
    alloc: Global,
    report: &Report,
    form: ReportForm,
    writer: &mut W,
) -> Result<(), Refusal>
    ensures ok { OnOk result
        (Appends (W.contents writer.old) (W.contents writer.new)
        (report_text form report.now.outcomes report.now.base)) }
    ensures memory { IsErrOf result Refusal.OutOfMemory
        → Keeps (W.contents writer.old) (W.contents writer.new) }
    ensures io { IsErrOf result Refusal.Io
        → AppendsFront (W.contents writer.old) (W.contents writer.new)
        (report_text form report.now.outcomes report.now.base) }
    ensures refusal { IfErr result
        (λ refusal. (refusal ≡ Refusal.OutOfMemory) ⊎ (refusal ≡ Refusal.Io)) }
{
    let text = text_of(alloc, report, form)?;
    write_text(writer, text.as_slice())
}

/// Writes the text of outcomes alone. It is built first, and then written by a loop of writes.
///
/// # Errors
/// `OutOfMemory`, where a growth was refused; nothing was written. `Io`, where a write failed; then a
/// prefix of the text was written.
pub fn write_outcomes<W: Write>(
    alloc: Global,
    outcomes: &Outcomes,
    writer: &mut W,
) -> Result<(), Refusal>
    ensures ok { OnOk result
        (Appends (W.contents writer.old) (W.contents writer.new)
        (flat_map outcome_text outcomes.now)) }
    ensures memory { IsErrOf result Refusal.OutOfMemory
        → Keeps (W.contents writer.old) (W.contents writer.new) }
    ensures io { IsErrOf result Refusal.Io
        → AppendsFront (W.contents writer.old) (W.contents writer.new)
        (flat_map outcome_text outcomes.now) }
    ensures refusal { IfErr result
        (λ refusal. (refusal ≡ Refusal.OutOfMemory) ⊎ (refusal ≡ Refusal.Io)) }
{
    let text = solo_text(alloc, outcomes.as_slice())?;
    write_text(writer, text.as_slice())
}
