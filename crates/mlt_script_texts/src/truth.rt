//! The reply that a trace would have to have.

use crate::words::is_one_of;
use mlt_object_base::Base;
use mlt_object_kinds::{ObjOp, ObjReply};
use mlt_script::read_op;
use mlt_text_words::{next_number, next_raw_word, trimmed};
use mlt_types::Refusal;
use std::alloc::Global;

/// Of an operation of a trace whose reply is not true.
#[derive(Clone, Copy)]
pub(crate) struct Truth {
    /// The reply that is true.
    pub(crate) reply: ObjReply,
    /// The number of the line at which its transaction began, from 1.
    pub(crate) began: u64,
}

// A line of a transaction that has not ended: its begin, or an operation.
#[derive(Clone, Copy)]
struct OpenLine {
    tx: u64,
    number: u64,
    op: Option<ObjOp>,
}

// What a trace has done up to a line of it.
#[derive(Drop)]
struct Replay {
    // After the commits.
    base: Base,
    // The lines of the transactions that have not ended.
    open: Vec<OpenLine>,
}

impl Replay {
    // Does what the line of this number does. It tells the truth of the faulty line at the commit of its transaction.
    fn read(&mut self, line: &[u8], number: u64, faulty: u64) -> Result<Option<Truth>, Refusal> {
        let Some((word, rest)) = next_raw_word(trimmed(line)) else {
            return Ok(None);
        };
        let Some((tx, rest)) = next_number(rest) else {
            return Ok(None);
        };
        if is_one_of(word, &["begin", "op"]) {
            return self.add(tx, number, rest);
        }
        let mut truth = None;
        if is_one_of(word, &["commit"]) {
            truth = self.run(tx, faulty)?;
        } else if !is_one_of(word, &["abort"]) {
            return Ok(None);
        }
        self.open.retain(|one| one.tx != tx);
        Ok(truth)
    }

    // Takes in a begin, or an operation, of which no truth is told yet.
    fn add(&mut self, tx: u64, number: u64, rest: &[u8]) -> Result<Option<Truth>, Refusal> {
        let op = read_op(rest).map(|read| read.0);
        self.open.push(OpenLine { tx, number, op })?;
        Ok(None)
    }

    // Runs this transaction, up to the faulty line if that is one of its own, of which it tells the truth.
    fn run(&mut self, tx: u64, faulty: u64) -> Result<Option<Truth>, Refusal> {
        let Replay { base, open } = self;
        let mut began = None;
        for one in open.iter().filter(|one| one.tx == tx) {
            let Some(op) = one.op else {
                began = Some(one.number);
                continue;
            };
            let reply = base.apply(&op)?;
            if one.number == faulty {
                return Ok(began.map(|began| Truth { reply, began }));
            }
        }
        Ok(None)
    }
}

/// What is true of the operation in this line of a trace, which is the first one that can't get its reply: its transaction is run from
/// the base of the commits before its own. A transaction that took something back does not commit.
///
/// # Errors
/// `OutOfMemory`, where a growth was refused.
pub(crate) fn find_truth(
    alloc: Global,
    trace: &[u8],
    faulty: u64,
) -> Result<Option<Truth>, Refusal> {
    let mut replay = Replay {
        base: Base::new(alloc),
        open: Vec::new(alloc),
    };
    let mut number: u64 = 0;
    for line in trace.split(|byte| *byte == b'\n') {
        number = number.saturating_add(1);
        if let Some(truth) = replay.read(line, number, faulty)? {
            return Ok(Some(truth));
        }
    }
    Ok(None)
}
