//! The reasons of blocks and waits, as lines of a text. The caller writes each line behind a `#`.

use crate::examples::{changes_asked, example_of};
use crate::replayed::ReplayedState;
use mlt_event::{Answer, Event, Told};
use mlt_object_conflicts::clash;
use mlt_object_kinds::{Done, ObjOp};
use mlt_object_tables::push_example;
use mlt_types::{PageNo, TxId};
use std::alloc::AllocError;

// At most so many transactions are open, and so many may wait for each other.
const MOST: usize = 64;

// What the title and the lines of an example begin with.
const LEADS: (&str, &str) = ("Example of the conflict: ", "  ");

/// Appends the lines of the reason why an event was blocked or has to wait, by the state behind it.
///
/// # Errors
/// Where a growth was refused.
pub(crate) fn push_reasons(
    text: &mut String,
    state: &ReplayedState,
    event: &Event,
    told: &Told,
) -> Result<(), AllocError> {
    match (event, told) {
        (Event::Step(tx), Told::Answered(Answer::Blocked { by })) => {
            if let Some(op) = state.tx(*tx).and_then(|one| one.pending) {
                push_block(text, state, *tx, *by, &op)?;
            }
            push_cycle(text, state, *tx)
        }
        (Event::Whole(tx, op), Told::Answered(Answer::Blocked { by })) => {
            push_block(text, state, *tx, *by, op)
        }
        (
            Event::Step(tx) | Event::Whole(tx, _) | Event::WholeUndo(tx),
            Told::Answered(Answer::Waiting { page, by }),
        ) => push_wait(text, state, *tx, *page, *by),
        _ => Ok(()),
    }
}

// Appends which operation of `by` conflicts with the one that `tx` wants, which is the first one, even if it is undone by now;
// which of their replies is at risk; and the example of their table.
fn push_block(
    text: &mut String,
    state: &ReplayedState,
    tx: TxId,
    by: TxId,
    op: &ObjOp,
) -> Result<(), AllocError> {
    let asked = Done::new(*op, state.reply(op));
    let Some(holder) = state.tx(by) else {
        return Ok(());
    };
    // Nothing is blocked without one, and each has an example.
    let Some(place) = holder.held.iter().position(|one| clash(one, &asked)) else {
        return Ok(());
    };
    let held = holder.held[place];
    let Some((words, orders)) = example_of(&held, &asked) else {
        return Ok(());
    };
    let (TxId(tx), TxId(by)) = (tx, by);
    let (done, told, reply) = (held.op(), held.reply(), asked.reply());
    write!(text, "T{tx} wants `{op}`; now it would get `{reply}`. ")?;
    if place >= holder.standing {
        writeln!(text, "T{by} has undone `{done}` ({told}).")?;
        write!(text, "T{by} holds it until its abort ends")?;
    } else {
        writeln!(text, "T{by} holds `{done}` ({told}), uncommitted.")?;
        if changes_asked(&orders) {
            write!(text, "If T{by} aborts, `{reply}` could be wrong")?;
        } else {
            write!(
                text,
                "If T{tx} commits first, T{by}'s `{told}` could be wrong"
            )?;
        }
    }
    writeln!(text, ", so T{tx} must wait for T{by}.")?;
    push_example(text, LEADS, words, &orders)
}

// Appends which transaction waits for which, where a transaction is in a cycle of waits.
fn push_cycle(text: &mut String, state: &ReplayedState, tx: TxId) -> Result<(), AllocError> {
    let mut line = String::new(state.alloc);
    let mut lead = "Deadlock: ";
    let mut last = tx;
    for _ in 0..MOST {
        let Some(by) = state.tx(last).and_then(|one| one.blocked_by) else {
            return Ok(());
        };
        let (TxId(waiting), TxId(blocking)) = (last, by);
        write!(line, "{lead}T{waiting} waits for T{blocking}")?;
        if by == tx {
            return writeln!(text, "{line}.");
        }
        lead = ", ";
        last = by;
    }
    Ok(())
}

// Appends which page a transaction needs, which one has locked it, and for what: the operation that was called, or the undo of
// the last one.
fn push_wait(
    text: &mut String,
    state: &ReplayedState,
    tx: TxId,
    page: PageNo,
    by: TxId,
) -> Result<(), AllocError> {
    let (TxId(tx), PageNo(page), TxId(holder)) = (tx, page, by);
    write!(text, "T{tx} needs page {page}, which T{holder} has locked")?;
    if let Some(holder) = state.tx(by) {
        let standing = holder.held.get(..holder.standing).unwrap_or(&[]);
        if let Some(op) = holder.pending {
            write!(text, " for `{op}`")?;
        } else if let Some(done) = standing.last() {
            let (op, reply) = (done.op(), done.reply());
            write!(text, " to undo `{op}` ({reply})")?;
        }
    }
    writeln!(text, ".")
}
