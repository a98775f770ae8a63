//! One script at a desk.

ghost use Rattle.std.specs.Prelude.{◌≡◌, [], IsOkUnless, IfOk, OnErr, vec_capacity};
ghost use Rattle.mlt_script_serial.specs.Follows.{AsksAtMost, questions_of_script};
ghost use Rattle.mlt_script_serial.specs.DeskRuns.{ClosesAs, HasEndedAs, IsRunAt, refusal_of_script};

use crate::desk::Desk;
use crate::most::most_asked;
use crate::outcome::{End, Outcome, Transcript};
use crate::playing::play;
use mlt_object_kinds::Done;
use mlt_script::{Ending, Script};
use mlt_types::{Refusal, TxId};
use std::alloc::Global;

/// What a script is refused with whose transaction was refused this: one that comes only where another acts for the
/// transaction gives the script up.
fn refusal_of_script(refusal: Refusal) -> Refusal
    ensures { result ≡ refusal_of_script refusal }
{
    match refusal {
        Refusal::NoSuchTx | Refusal::Undoing | Refusal::Running => Refusal::GaveUp,
        other => other,
    }
}

/// Ends the transaction as its script ended, or takes it back.
fn close<D: Desk>(desk: &mut D, tx: TxId, ended: Result<Ending, Refusal>) -> End
    ensures { ClosesAs D.moves tx ended desk.old result desk.new }
{
    match ended {
        Ok(Ending::Commit) => match desk.commit(tx) {
            Ok(number) => End::Committed(number),
            Err(refusal) => {
                desk.abort(tx);
                End::Refused(refusal_of_script(refusal))
            }
        },
        Ok(Ending::Abort) => {
            desk.abort(tx);
            End::Aborted
        }
        Err(refusal) => {
            desk.abort(tx);
            End::Refused(refusal_of_script(refusal))
        }
    }
}

/// Runs a script in a transaction of its own; what was done is added to the list, which has room for it. It answers the
/// transaction's number, 0 where none began, and how the script ended.
fn run_transaction<D: Desk>(desk: &mut D, script: &Script, done: &mut Vec<Done>) -> (u64, End)
    requires empty { done.old.items ≡ [] }
    requires room { AsksAtMost (vec_capacity done.old) (questions_of_script script.now) }
    ensures ended { HasEndedAs script.now done.new.items result.1 }
    ensures run { IsRunAt D.moves script.now desk.old
        result.0 done.new.items result.1 desk.new }
{
    match desk.begin() {
        Ok(tx) => {
            let ended = play(desk, tx, script, done);
            let end = close(desk, tx, ended);
            (tx.0, end)
        }
        Err(refusal) => (0, End::Refused(refusal)),
    }
}

/// Runs a script, which has this number within its client, in a transaction of its own: what it was told is what the desk
/// answered. There is room for all its replies before it begins, so that none is lost; it needs no other memory.
///
/// # Errors
/// `OutOfMemory`, where there is no such room. Nothing was asked then.
pub fn run_script<D: Desk>(
    alloc: Global,
    desk: &mut D,
    script: &Script,
    number: u64,
) -> Result<Outcome, Refusal>
    ensures client { IfOk result (λ outcome. outcome.client ≡ script.now.client) }
    ensures number { IfOk result (λ outcome. outcome.number ≡ number) }
    ensures ended { IfOk result (λ outcome. HasEndedAs script.now outcome.done outcome.end) }
    ensures run { IfOk result (λ outcome.
        IsRunAt D.moves script.now desk.old
        outcome.tx outcome.done outcome.end desk.new) }
    ensures refusal { IsOkUnless result Refusal.OutOfMemory }
    ensures unasked { OnErr result (desk.new ≡ desk.old) }
{
    let mut done = Vec::with_capacity(alloc, most_asked(script))?;
    let (tx, end) = run_transaction(desk, script, &mut done);
    Ok(Outcome {
        client: u32::from(script.client()),
        number,
        tx,
        done: Transcript::new(done),
        end,
    })
}
