//! One line of a session: what is asked of the desk, and what is said.

ghost use Rattle.std.specs.Prelude.{◌≡◌, ◌<◌, ◌≤◌, ◌+◌, ◌^◌, None, Some, false, IfOk, IfSome, OnOk, OnErr};
ghost use Rattle.mlt_serve_session.specs.Desks.{open_for};
ghost use Rattle.mlt_serve_session.specs.Talks.{call_for, said_by};
ghost use Rattle.mlt_serve_session.specs.Turns.{CallIsNoted, TakesTurn, IsSmall, talk_state};

use crate::notes::SessionRecord;
use crate::receipts::Receipts;
use crate::said::Said;
use mlt_event_text::{Command, SessionLine};
use mlt_object_kinds::{Done, ObjOp};
use mlt_script_serial::{Desk, DeskAnswer, DeskCall, End};
use mlt_types::{Refusal, TxId};
use std::alloc::AllocError;

/// What a line asks of the desk, with this transaction open or none.
fn call_for(before: Option<TxId>, line: SessionLine) -> Option<DeskCall>
    ensures value { result ≡ call_for before line }
    ensures fits { IfSome result (λ call. before ≡ open_for call) }
{
    match (before, line) {
        (None, SessionLine::Says(Command::Begin)) => Some(DeskCall::Begin),
        (Some(tx), SessionLine::Says(Command::Op(op))) => Some(DeskCall::Operation(tx, op)),
        (Some(tx), SessionLine::Says(Command::Commit)) => Some(DeskCall::Commit(tx)),
        (Some(tx), SessionLine::Says(Command::Abort | Command::Quit) | SessionLine::TooLong) => {
            Some(DeskCall::Abort(tx))
        }
        _ => None,
    }
}

/// What is said to a line where the desk answered.
fn said_with(line: SessionLine, answer: DeskAnswer) -> Said
    ensures { result ≡ said_by None line (Some answer) }
{
    match line {
        SessionLine::Says(Command::Quit) => Said::Bye,
        SessionLine::Says(Command::Blank) => Said::Nothing,
        SessionLine::Says(Command::Other) => Said::Fault,
        SessionLine::TooLong => Said::Error(Refusal::LineTooLong),
        _ => Said::Told(answer),
    }
}

/// What is said to a line of which the desk was not asked.
fn said_alone(before: Option<TxId>, line: SessionLine) -> Said
    ensures { result ≡ said_by before line None }
{
    match line {
        SessionLine::Says(Command::Begin) if before.is_some() => Said::Error(Refusal::Running),
        SessionLine::Says(Command::Op(_) | Command::Commit | Command::Abort) if before.is_none() =>
            { Said::Error(Refusal::NoSuchTx) }
        SessionLine::Says(Command::Quit) => Said::Bye,
        SessionLine::Says(Command::Other) => Said::Fault,
        SessionLine::TooLong => Said::Error(Refusal::LineTooLong),
        _ => Said::Nothing,
    }
}

/// Begins a transaction. There is room for its outcome before the desk is asked.
///
/// # Errors
/// There was no room, and the desk was not asked.
fn begin<D: Desk, K: Receipts>(
    notes: &mut SessionRecord<K>,
    desk: &mut D,
    client: u32,
) -> Result<DeskAnswer, AllocError>
    requires alone { notes.old.progress.tx ≡ None }
    requires small { notes.old.progress.begun < 2 ^ 62 }
    ensures told { IfOk result
        (λ answer. CallIsNoted D.moves client (talk_state client notes.old desk.old)
        DeskCall.Begin answer (talk_state client notes.new desk.new)) }
    ensures err { OnErr result
        (talk_state client notes.new desk.new ≡ talk_state client notes.old desk.old) }
{
    notes.outcomes.make_room()?;
    match desk.begin() {
        Ok(tx) => {
            notes.open(tx);
            Ok(DeskAnswer::Begun(tx.0))
        }
        Err(refusal) => Ok(DeskAnswer::Refused(refusal)),
    }
}

/// Asks for an operation of the open transaction. There is room for its reply before the desk is
/// asked.
///
/// # Errors
/// There was no room, and the desk was not asked.
fn operation<D: Desk, K: Receipts>(
    notes: &mut SessionRecord<K>,
    desk: &mut D,
    client: u32,
    tx: TxId,
    op: ObjOp,
) -> Result<DeskAnswer, AllocError>
    requires is_open { notes.old.progress.tx ≡ Some tx }
    ensures told { IfOk result
        (λ answer. CallIsNoted D.moves client (talk_state client notes.old desk.old)
        (DeskCall.Operation tx op) answer (talk_state client notes.new desk.new)) }
    ensures err { OnErr result
        (talk_state client notes.new desk.new ≡ talk_state client notes.old desk.old) }
{
    notes.done.reserve(1)?;
    match desk.operation(tx, op) {
        Ok(reply) => {
            notes.done.push_reserved(Done::new(op, reply));
            Ok(DeskAnswer::Replied(reply))
        }
        Err(refusal) => Ok(DeskAnswer::Refused(refusal)),
    }
}

/// Asks for the commit of the open transaction, which stays open where it is refused.
fn commit<D: Desk, K: Receipts>(
    notes: &mut SessionRecord<K>,
    desk: &mut D,
    client: u32,
    tx: TxId,
) -> DeskAnswer
    requires is_open { notes.old.progress.tx ≡ Some tx }
    requires small { notes.old.progress.commits < 2 ^ 62 }
    ensures { CallIsNoted D.moves client (talk_state client notes.old desk.old)
        (DeskCall.Commit tx) result (talk_state client notes.new desk.new) }
{
    match desk.commit(tx) {
        Ok(number) => {
            notes.close(client, tx, End::Committed(number));
            notes.progress.commits += 1;
            DeskAnswer::Committed(number)
        }
        Err(refusal) => DeskAnswer::Refused(refusal),
    }
}

/// Takes the open transaction back.
pub fn abort<D: Desk, K: Receipts>(
    notes: &mut SessionRecord<K>,
    desk: &mut D,
    client: u32,
    tx: TxId,
)
    requires is_open { notes.old.progress.tx ≡ Some tx }
    ensures { CallIsNoted D.moves client (talk_state client notes.old desk.old)
        (DeskCall.Abort tx) DeskAnswer.Aborted (talk_state client notes.new desk.new) }
{
    desk.abort(tx);
    notes.close(client, tx, End::Aborted);
}

/// Asks the desk, and notes what it answers.
///
/// # Errors
/// There was no room to note the answer, and the desk was not asked.
fn ask<D: Desk, K: Receipts>(
    notes: &mut SessionRecord<K>,
    desk: &mut D,
    client: u32,
    call: DeskCall,
) -> Result<DeskAnswer, AllocError>
    requires fits { notes.old.progress.tx ≡ open_for call }
    requires small { IsSmall notes.old.progress }
    ensures told { IfOk result
        (λ answer. CallIsNoted D.moves client (talk_state client notes.old desk.old)
        call answer (talk_state client notes.new desk.new)) }
    ensures err { OnErr result
        (talk_state client notes.new desk.new ≡ talk_state client notes.old desk.old) }
{
    match call {
        DeskCall::Begin => begin(notes, desk, client),
        DeskCall::Operation(tx, op) => operation(notes, desk, client, tx, op),
        DeskCall::Commit(tx) => Ok(commit(notes, desk, client, tx)),
        DeskCall::Abort(tx) => {
            abort(notes, desk, client, tx);
            Ok(DeskAnswer::Aborted)
        }
    }
}

/// Answers a line.
///
/// # Errors
/// There was no room to note what the desk would answer. It was not asked, and nothing changed.
pub fn take_turn<D: Desk, K: Receipts>(
    notes: &mut SessionRecord<K>,
    desk: &mut D,
    client: u32,
    line: SessionLine,
) -> Result<Said, AllocError>
    requires going { notes.old.progress.over ≡ false }
    requires small { IsSmall notes.old.progress }
    ensures ok { IfOk result
        (λ said. TakesTurn D.moves client (talk_state client notes.old desk.old)
        line said (talk_state client notes.new desk.new)) }
    ensures lines { OnOk result (notes.new.progress.lines ≡ notes.old.progress.lines + 1) }
    ensures commits { OnOk result (notes.new.progress.commits ≤ notes.new.progress.lines) }
    ensures begun { OnOk result (notes.new.progress.begun ≤ notes.new.progress.lines) }
    ensures err { OnErr result
        (talk_state client notes.new desk.new ≡ talk_state client notes.old desk.old) }
{
    match call_for(notes.progress.tx, line) {
        Some(call) => {
            let answer = ask(notes, desk, client, call)?;
            notes.note_answered(line);
            Ok(said_with(line, answer))
        }
        None => {
            let said = said_alone(notes.progress.tx, line);
            notes.note_answered(line);
            Ok(said)
        }
    }
}
