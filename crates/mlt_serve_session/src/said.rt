//! What a session answers a line.

ghost use Rattle.std.specs.Prelude.{◌≡◌, ◌++◌, OnOk};
ghost use Rattle.mlt_serve_session.specs.Texts.{answer_text, error_text, said_text};

use mlt_script_serial::{DeskAnswer, push_reply};
use mlt_text::push_numbered;
use mlt_types::Refusal;
use std::alloc::AllocError;

/// What a session answers a line.
#[derive(Clone, Copy)]
pub enum Said {
    /// What the desk answered.
    Told(DeskAnswer),
    /// An error of the session's own.
    Error(Refusal),
    /// The line is none of the forms.
    Fault,
    Bye,
    Nothing,
}

fn push_answer(out: &mut Vec<u8>, answer: DeskAnswer) -> Result<(), AllocError>
    ensures { OnOk result (out.new.items ≡ out.old.items ++ answer_text answer) }
{
    match answer {
        DeskAnswer::Begun(tx) => push_numbered(out, b"begun ", tx, b'\n'),
        DeskAnswer::Replied(reply) => push_reply(out, reply),
        DeskAnswer::Committed(number) => push_numbered(out, b"committed ", number, b'\n'),
        DeskAnswer::Aborted => out.extend_from_slice(b"aborted\n"),
        DeskAnswer::Refused(refusal) => push_error(out, refusal),
    }
}

fn push_error(out: &mut Vec<u8>, refusal: Refusal) -> Result<(), AllocError>
    ensures { OnOk result (out.new.items ≡ out.old.items ++ error_text refusal) }
{
    push_numbered(out, b"error ", u64::from(refusal.number()), b' ')?;
    out.extend_from_slice(refusal.name().as_bytes())?;
    out.extend_from_slice(b"\n")
}

/// Adds the line of what is said.
pub fn push_said(out: &mut Vec<u8>, said: Said) -> Result<(), AllocError>
    ensures { OnOk result (out.new.items ≡ out.old.items ++ said_text said) }
{
    match said {
        Said::Told(answer) => push_answer(out, answer),
        Said::Error(refusal) => push_error(out, refusal),
        Said::Fault => out.extend_from_slice(b"error 10 ScriptFault\n"),
        Said::Bye => out.extend_from_slice(b"bye\n"),
        Said::Nothing => Ok(()),
    }
}
