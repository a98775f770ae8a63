//! A trace from a reader, and what the check says of it to a writer.

ghost use Rattle.std.specs.Prelude.{◌≡◌, ◌⊎◌, ℕ, List, Err, IfErr, IsOkUnless, IfOk, IsErrAnd, MatchResult, OnOk, Some};
ghost use Rattle.std.specs.Io.KnownBytes.{Appends};
ghost use Rattle.std.specs.String.{string_bytes};
ghost use Rattle.mlt_types.specs.declared.refusal.TraceCause.{TraceCause};
ghost use Rattle.mlt_text.specs.Failures.{FailsCleanly, IsTraceFault, IsWant};
ghost use Rattle.mlt_text.specs.Inputs.{GivesWhole};
ghost use Rattle.mlt_object_kinds.specs.Bases.{Base as ObjectBase};
ghost use Rattle.mlt_trace_check.specs.Traces.{IsAcceptedTrace, IsFirstFault};
ghost use Rattle.mlt_trace_check.specs.OrderTexts.{IsCheckOf, IsCheckText, order_text, serial_lines};

use crate::trace_check::{Order, check};
use mlt_object_base::write_base;
use mlt_text::write_text;
use mlt_types::{Refusal, TxId};
use std::alloc::{AllocError, Global};
use std::io::{Read, Write};

// The lines of committed transactions, in the order of their commits.
pub(crate) fn text_of_txs(alloc: Global, txs: &[TxId]) -> Result<String, AllocError>
    ensures { IfOk result (λ text. string_bytes text ≡ serial_lines txs.now) }
{
    let mut text = String::new(alloc);
    for tx in txs {
        let number = tx.0;
        writeln!(text, "serial {number}")?;
    }
    Ok(text)
}

fn text_of(alloc: Global, order: &Order) -> Result<Vec<u8>, Refusal>
    ensures text { IfOk result
        (λ text. text.items ≡ order_text order.now.txs.items order.now.base) }
    ensures refusal { IsOkUnless result Refusal.OutOfMemory }
{
    let mut text = text_of_txs(alloc, order.txs.as_slice())?.into_bytes();
    // A vector fails to take bytes only where a growth was refused.
    write_base(&order.base, &mut text).map_err(|_| Refusal::OutOfMemory)?;
    Ok(text)
}

/// Reads a trace to the end of the input and checks it. Of an accepted one it writes a line `serial T` for
/// each committed transaction, in the order of the commits, and then the text of the base that they lead to.
/// Transactions that are open at the end are left out.
///
/// # Errors
/// `TraceFault` exactly for an input that is no accepted trace, with its first fault; `Io` where a read or a
/// write fails, or the input has more than 16,777,216 bytes, of which none past the first too many is read;
/// `OutOfMemory` where a growth was refused. Nothing was written then, but for a write that fails: what went
/// out is a prefix of the text.
pub fn check_trace<R: Read, W: Write>(
    alloc: Global,
    reader: &mut R,
    writer: &mut W,
) -> Result<(), Refusal>
    // what is written is said of the trace read
    ensures text { OnOk result ((input text : List ℕ)
        × IsCheckOf (R.remaining reader.old) (R.remaining reader.new) input text
        × Appends (W.contents writer.old) (W.contents writer.new) text) }
    // a fault is the first one of the input
    ensures fault { (line : ℕ) (cause : TraceCause) → result ≡ Err (Refusal.TraceFault line cause)
        → (input : List ℕ) × GivesWhole (R.remaining reader.old) (R.remaining reader.new) input
        × IsFirstFault input line cause }
    // of a trace nothing else is said
    ensures only_accepted { (input txs : List ℕ) (base : ObjectBase)
        → R.remaining reader.old ≡ Some input → IsAcceptedTrace input txs base
        → MatchResult result (λ _. Appends (W.contents writer.old) (W.contents writer.new)
        (order_text txs base)) IsWant }
    // nor of a text that is faulty
    ensures only_faulty { (input : List ℕ) (line : ℕ) (cause : TraceCause)
        → R.remaining reader.old ≡ Some input → IsFirstFault input line cause
        → IsErrAnd result (λ refusal. (refusal ≡ Refusal.TraceFault line cause)
        ⊎ IsWant refusal) }
    // where it fails, nothing was written, or a prefix of such a text; and too long an input is not read on
    ensures failure { FailsCleanly (R.remaining reader.old) (R.remaining reader.new)
        (W.contents writer.old) (W.contents writer.new) result
        (λ input text _. IsCheckText input text) }
    ensures refusals { IfErr result (λ refusal. IsWant refusal ⊎ IsTraceFault refusal) }
{
    let order = check(alloc, reader)?;
    let text = text_of(alloc, &order)?;
    write_text(writer, text.as_slice())
}
