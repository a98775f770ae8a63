//! A trace of any length from a reader, and what the check says of it to a writer.

ghost use Rattle.std.specs.Prelude.{◌≡◌, ◌⊎◌, ◌≤◌, ◌<◌, ◌+◌, ◌-◌, ◌++◌, [], ℕ, List, Err, length, take, drop, vec_len, IfErr, IfOk, IsErrAnd, IsOkUnless, MatchResult, OnErr, OnOk, Some};
ghost use Rattle.std.specs.Io.KnownBytes.{Appends, Consumes, IsAtEnd, Keeps};
ghost use Rattle.mlt_types.specs.declared.refusal.TraceCause.{TraceCause};
ghost use Rattle.mlt_text.specs.Failures.{IsTraceFault, IsWant};
ghost use Rattle.mlt_text.specs.Texts.{AppendsFront};
ghost use Rattle.mlt_object_kinds.specs.Bases.{Base as ObjectBase};
ghost use Rattle.mlt_trace_check.specs.Traces.{IsAcceptedTrace, IsFirstFault};
ghost use Rattle.mlt_trace_check.specs.OrderTexts.{order_text, serial_lines};
ghost use Rattle.mlt_trace_check.specs.LongChecks.{IsAnswer, IsDone, IsToldOf};
ghost use Rattle.mlt_trace_check.specs.LongTexts.{IsFirstFaultRead, IsLongCheckOf, StopsEarly, WritesOfFront};

use crate::check_engine::text_of_txs;
use crate::progress::Progress;
use mlt_object_base::write_base;
use mlt_text::{fill, keep, write_text, zeros};
use mlt_types::{Refusal, TxId};
use std::alloc::Global;
use std::io::{Read, Write};

// How many bytes are held at most: a line that goes on, and a piece behind it.
const BUFFER: usize = 262_144;

// Writes the lines of these commits, and forgets them.
fn tell_commits<W: Write>(alloc: Global, writer: &mut W, txs: &mut Vec<TxId>) -> Result<(), Refusal>
    ensures ok { OnOk result
        (Appends (W.contents writer.old) (W.contents writer.new) (serial_lines txs.old.items)) }
    ensures none { OnOk result (txs.new.items ≡ []) }
    ensures err { OnErr result (AppendsFront (W.contents writer.old) (W.contents writer.new)
        (serial_lines txs.old.items)) }
    ensures refusal { IfErr result IsWant }
{
    let text = text_of_txs(alloc, txs.as_slice())?;
    write_text(writer, text.as_bytes())?;
    txs.clear();
    Ok(())
}

// Goes over the lines of the input, piece by piece, up to its end, and writes what their commits say, also before a fault.
fn go_over<R: Read, W: Write>(
    alloc: Global,
    reader: &mut R,
    writer: &mut W,
    buffer: &mut [u8],
) -> Result<Progress, Refusal>
    requires room { 200 < length buffer.old }
    ensures ok { IfOk result
        (λ progress. IsDone progress (R.remaining reader.old) (R.remaining reader.new)
        (W.contents writer.old) (W.contents writer.new)) }
    ensures told { IfErr result
        (λ refusal. IsToldOf refusal (R.remaining reader.old) (R.remaining reader.new)) }
    ensures stopped { OnErr result (WritesOfFront (R.remaining reader.old) (R.remaining reader.new)
        (W.contents writer.old) (W.contents writer.new)) }
{
    let mut progress = Progress::new(alloc);
    let mut held = 0;
    'pieces: for _ in 0..u64::MAX {
        let count = fill(reader, buffer, held, BUFFER)?;
        let end = held + count;
        let ended = count == 0;
        let went = progress.take_lines(alloc, &buffer[..end], ended);
        tell_commits(alloc, writer, &mut progress.txs)?;
        let left = went?;
        if ended {
            return Ok(progress);
        }
        held = keep(buffer, end - left, end);
    }
    Err(Refusal::Io)
}

// The check, with its buffer.
fn check_pieces<R: Read, W: Write>(
    alloc: Global,
    reader: &mut R,
    writer: &mut W,
) -> Result<(), Refusal>
    ensures answer { IsAnswer result (R.remaining reader.old) (R.remaining reader.new)
        (W.contents writer.old) (W.contents writer.new) }
    ensures failure { OnErr result (StopsEarly (R.remaining reader.old) (R.remaining reader.new)
        (W.contents writer.old) (W.contents writer.new)) }
{
    let mut buffer = zeros(alloc, BUFFER)?;
    let progress = go_over(alloc, reader, writer, buffer.as_mut_slice())?;
    write_base(&progress.checker.base, writer)
}

/// Reads a trace of any length to the end of the input, and checks it line by line as it comes. It writes a line
/// `serial T` for each transaction that commits, as it goes, and at the end the text of the base that the commits lead
/// to: so of an accepted trace it writes just what `check_trace` does. Its memory grows with the transactions that are
/// open and their operations, and with the objects that there are, and not with the input.
///
/// # Errors
/// `TraceFault` exactly for an input that is no accepted trace, with its first fault: the input was read up to some byte
/// behind the fault. `Io` where a read or a write fails, or more than 2^64 - 1 lines or reads came; `OutOfMemory` where a
/// growth was refused. What was written then is a prefix of the `serial` lines of a front of the input that is a trace,
/// or of what is said of the whole.
pub fn check_long_trace<R: Read, W: Write>(
    alloc: Global,
    reader: &mut R,
    writer: &mut W,
) -> Result<(), Refusal>
    // what is written is said of the trace read
    ensures text { OnOk result ((input text : List ℕ)
        × IsLongCheckOf (R.remaining reader.old) (R.remaining reader.new) input text
        × Appends (W.contents writer.old) (W.contents writer.new) text) }
    // a fault is the first one of what was read, whatever is left
    ensures fault { (line : ℕ) (cause : TraceCause) → result ≡ Err (Refusal.TraceFault line cause)
        → IsFirstFaultRead (R.remaining reader.old) (R.remaining reader.new) line cause }
    // of a trace nothing else is said
    ensures only_accepted { (input txs : List ℕ) (base : ObjectBase)
        → R.remaining reader.old ≡ Some input → IsAcceptedTrace input txs base
        → MatchResult result (λ _. Appends (W.contents writer.old) (W.contents writer.new)
        (order_text txs base)) IsWant }
    // nor of a text that is faulty
    ensures only_faulty { (input : List ℕ) (line : ℕ) (cause : TraceCause)
        → R.remaining reader.old ≡ Some input → IsFirstFault input line cause
        → IsErrAnd result (λ refusal. (refusal ≡ Refusal.TraceFault line cause)
        ⊎ IsWant refusal) }
    // where it fails, a prefix of what is said of a front of the input was written, or of all of it
    ensures failure { OnErr result (StopsEarly (R.remaining reader.old) (R.remaining reader.new)
        (W.contents writer.old) (W.contents writer.new)) }
    ensures refusals { IfErr result (λ refusal. IsWant refusal ⊎ IsTraceFault refusal) }
{
    check_pieces(alloc, reader, writer)
}
