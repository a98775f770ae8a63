//! Sessions over a reader and a writer.

ghost use Rattle.std.specs.Prelude.{◌≡◌, ◌<◌, ◌≤◌, ◌+◌, ◌-◌, ◌^◌, ◌⊎◌, ℕ, List, false, None, length, take, drop, vec_len, IfOk, IfErr, IsOkUnless, OnOk, OnErr, IsErrOf, ◌++◌};
ghost use Rattle.std.specs.Io.KnownBytes.{Consumes, IsAtEnd, Keeps};
ghost use Rattle.mlt_serve_session.specs.Batches.{Answered, BrokeOff, front};
ghost use Rattle.mlt_serve_session.specs.Desks.{Answers};
ghost use Rattle.mlt_serve_session.specs.Noting.{outcomes_in};
ghost use Rattle.mlt_serve_session.specs.Rounds.{Replied, Stopped, Unwritten, Talked, Broken, BrokenHeard, streams};
ghost use Rattle.mlt_serve_session.specs.Sessions.{SessionAnswers, scene};
ghost use Rattle.mlt_serve_session.specs.Talks.{closing, closing_answers};
ghost use Rattle.mlt_serve_session.specs.Turns.{IsSmall, talk_state, start};

use crate::line_source::LineSource;
use crate::notes::SessionRecord;
use crate::receipts::Receipts;
use crate::said::push_said;
use crate::turn::{abort, take_turn};
use mlt_event_text::next_line;
use mlt_script_serial::Desk;
use mlt_text::{MAX_INPUT, fill, keep, write_text, zeros};
use mlt_types::Refusal;
use std::alloc::{AllocError, Global};
use std::io::Write;
use std::mem;

// How many bytes a session holds.
const BUFFER: usize = 16_384;

// Answers each complete line of the text, and tells how many bytes these lines take. What is left is no
// whole line, or the session is over.
//
// # Errors
// A growth was refused: some lines were answered, and their answers are not all there.
fn answer_lines<D: Desk, K: Receipts>(
    notes: &mut SessionRecord<K>,
    desk: &mut D,
    client: u32,
    out: &mut Vec<u8>,
    text: &[u8],
) -> Result<usize, AllocError>
    requires going { notes.old.progress.over ≡ false }
    requires small { IsSmall notes.old.progress }
    requires few { notes.old.progress.lines + length text.now < 2 ^ 62 }
    ensures ok { IfOk result
        (λ at. Answered D.moves client (talk_state client notes.old desk.old) (front text.now at)
        out.old.items out.new.items (talk_state client notes.new desk.new)) }
    ensures lines { IfOk result
        (λ at. notes.new.progress.lines ≤ notes.old.progress.lines + at) }
    ensures commits { OnOk result (notes.new.progress.commits ≤ notes.new.progress.lines) }
    ensures begun { OnOk result (notes.new.progress.begun ≤ notes.new.progress.lines) }
    ensures err { OnErr result
        (BrokeOff D.moves client (talk_state client notes.old desk.old) text.now
        (talk_state client notes.new desk.new)) }
{
    let mut at = 0;
    while !notes.progress.over {
        let Some((line, count)) = next_line(&text[at..]) else {
            break;
        };
        let said = take_turn(notes, desk, client, line)?;
        push_said(out, said)?;
        at += count;
    }
    Ok(at)
}

// Answers all complete lines of the text in one write, and tells how many bytes these lines take.
fn reply<W: Write, D: Desk, K: Receipts>(
    writer: &mut W,
    notes: &mut SessionRecord<K>,
    desk: &mut D,
    client: u32,
    out: &mut Vec<u8>,
    text: &[u8],
) -> Result<usize, Refusal>
    requires going { notes.old.progress.over ≡ false }
    requires small { IsSmall notes.old.progress }
    requires few { notes.old.progress.lines + length text.now < 2 ^ 62 }
    ensures ok { IfOk result
        (λ at. Replied D.moves client (talk_state client notes.old desk.old) (front text.now at)
        (W.contents writer.old) (W.contents writer.new) (talk_state client notes.new desk.new)) }
    ensures lines { IfOk result
        (λ at. notes.new.progress.lines ≤ notes.old.progress.lines + at) }
    ensures commits { OnOk result (notes.new.progress.commits ≤ notes.new.progress.lines) }
    ensures begun { OnOk result (notes.new.progress.begun ≤ notes.new.progress.lines) }
    ensures err { OnErr result
        (Stopped D.moves client (talk_state client notes.old desk.old) text.now
        (W.contents writer.old) (W.contents writer.new) (talk_state client notes.new desk.new)) }
    ensures io { IsErrOf result Refusal.Io
        → Unwritten D.moves client (talk_state client notes.old desk.old) text.now
        (W.contents writer.old) (W.contents writer.new) (talk_state client notes.new desk.new) }
    ensures refusal { IfErr result
        (λ refusal. (refusal ≡ Refusal.OutOfMemory) ⊎ (refusal ≡ Refusal.Io)) }
{
    out.clear();
    let at = answer_lines(notes, desk, client, out, text)?;
    write_text(writer, out.as_slice())?;
    Ok(at)
}

// Reads at most `most` bytes behind the `held` ones, and returns how many came, as `fill` does. Between two transactions the reader is told
// so.
fn read_on<R: LineSource>(
    reader: &mut R,
    is_between: bool,
    buffer: &mut [u8],
    held: usize,
    most: usize,
) -> Result<usize, Refusal>
    requires room { held < length buffer.old }
    requires most { 0 < most }
    ensures ok { IfOk result (λ count. (piece : List ℕ)
        × (take (held + count) buffer.new ≡ take held buffer.old ++ piece)
        × (length piece ≡ count) × (count ≤ most) × (held + count ≤ length buffer.old)
        × Consumes (R.remaining reader.old) (R.remaining reader.new) piece
        × (count ≡ 0 → IsAtEnd (R.remaining reader.new))) }
    ensures err { OnErr result (Keeps (R.remaining reader.old) (R.remaining reader.new)) }
    ensures refusal { IsOkUnless result Refusal.Io }
{
    if is_between {
        reader.pause(&buffer[..held]);
    }
    fill(reader, buffer, held, most)
}

// Reads and answers until the input or the session ends. The buffer has room for a line that goes on, and
// more.
fn listen<R: LineSource, W: Write, D: Desk, K: Receipts>(
    reader: &mut R,
    writer: &mut W,
    notes: &mut SessionRecord<K>,
    desk: &mut D,
    client: u32,
    buffer: &mut [u8],
    out: &mut Vec<u8>,
) -> Result<(), Refusal>
    requires fresh { notes.old.progress ≡ start }
    requires room { (200 < length buffer.old) × (length buffer.old < 2 ^ 32) }
    ensures ok { OnOk result
        (Talked D.moves client (talk_state client notes.old desk.old)
        (streams (R.remaining reader.old) (R.remaining reader.new)
        (W.contents writer.old) (W.contents writer.new)) (talk_state client notes.new desk.new)) }
    ensures err { OnErr result
        (Broken D.moves client (talk_state client notes.old desk.old)
        (streams (R.remaining reader.old) (R.remaining reader.new)
        (W.contents writer.old) (W.contents writer.new)) (talk_state client notes.new desk.new)) }
    ensures io { IsErrOf result Refusal.Io
        → BrokenHeard D.moves client (talk_state client notes.old desk.old)
        (streams (R.remaining reader.old) (R.remaining reader.new)
        (W.contents writer.old) (W.contents writer.new)) (talk_state client notes.new desk.new) }
    ensures refusal { IfErr result
        (λ refusal. (refusal ≡ Refusal.OutOfMemory) ⊎ (refusal ≡ Refusal.Io)) }
{
    let mut held = 0;
    let mut total = 0;
    // Each read gives a byte, or is the last.
    'rounds: for _ in 0..MAX_INPUT + 1 {
        let most = (MAX_INPUT - total).max(1);
        let count = read_on(reader, notes.progress.tx.is_none(), buffer, held, most)?;
        if count == 0 {
            return Ok(());
        }
        total += count;
        if total > MAX_INPUT {
            return Err(Refusal::Io);
        }
        let end = held + count;
        let at = reply(writer, notes, desk, client, out, &buffer[..end])?;
        if notes.progress.over {
            return Ok(());
        }
        held = keep(buffer, at, end);
    }
    unreachable!()
}

/// How a session went.
#[derive(Clone, Copy)]
pub struct Summary {
    /// How many lines were answered: all that ended in LF, blank and faulty ones too.
    pub lines: u64,
    /// How many commits were answered.
    pub commits: u64,
}

// Takes back what is open, and answers all outcomes.
fn finish<D: Desk, K: Receipts + Drop>(mut notes: SessionRecord<K>, desk: &mut D, client: u32) -> K
    ensures asked { Answers D.moves desk.old
        (closing notes.progress.tx) (closing_answers notes.progress.tx) desk.new }
    ensures outcomes { K.receipts result ≡ outcomes_in client notes }
{
    if let Some(tx) = notes.progress.tx {
        abort(&mut notes, desk, client, tx);
    }
    notes.outcomes
}

/// Reads lines, asks the desk and answers each, until the input or a line ends the session. A transaction
/// that is open then is taken back. For each transaction that began an outcome of this client is added,
/// numbered from 1, whatever the session answers. The answers to all complete lines of one read go out in
/// one text, before the reader is asked again.
///
/// # Errors
/// `LineTooLong` where a line has more than 200 bytes; its answer was written. `Io` where a read or a write
/// failed, or more than 16,777,216 bytes came: all lines of the first 16,777,216 bytes were heard, and a
/// prefix of the text was written, or all of it where more bytes came. `OutOfMemory` where a growth was
/// refused: the first lines were heard, and a prefix of the text was written.
pub fn session<R: LineSource, W: Write, D: Desk, K: Receipts + Drop>(
    alloc: Global,
    reader: &mut R,
    writer: &mut W,
    desk: &mut D,
    client: u32,
    outcomes: &mut K,
) -> Result<Summary, Refusal>
    ensures answers { SessionAnswers D.moves client
        (scene desk.old (R.remaining reader.old) (W.contents writer.old) (K.receipts outcomes.old))
        (scene desk.new (R.remaining reader.new) (W.contents writer.new) (K.receipts outcomes.new))
        result }
    ensures refusal { IfErr result (λ refusal. (refusal ≡ Refusal.LineTooLong)
        ⊎ (refusal ≡ Refusal.OutOfMemory) ⊎ (refusal ≡ Refusal.Io)) }
{
    let Ok(mut buffer) = zeros(alloc, BUFFER) else {
        return Err(Refusal::OutOfMemory);
    };
    let mut out = Vec::new(alloc);
    let mut notes = SessionRecord::new(alloc, mem::replace(outcomes, K::none(alloc)));
    let buffer = buffer.as_mut_slice();
    let listened = listen(reader, writer, &mut notes, desk, client, buffer, &mut out);
    let progress = notes.progress;
    *outcomes = finish(notes, desk, client);
    listened?;
    if progress.long {
        return Err(Refusal::LineTooLong);
    }
    Ok(Summary {
        lines: progress.lines,
        commits: progress.commits,
    })
}
