//! Calls that the program doesn't make, or not with this result.

use crate::bounds::{Bounds, limits_of};
use mlt_script::{parse, print};
use mlt_script_serial::{End, Outcome, ReportForm, Transcript, serial, write_report};
use mlt_test_tools::same_at;
use mlt_text::write_text;
use mlt_trace::{KeptItem, TraceItem};
use mlt_trace_audit::audit;
use mlt_types::{Refusal, TxId};
use std::io;
use std::io::{Error, ErrorKind, Write};
use std::test::Fail;

const OUT_OF_RANGE: &[Bounds] = &[
    (0, 1, 3, 0, 1),
    (65, 1, 3, 0, 1),
    (1, 1, 2, 0, 1),
    (1, 1, 3, 17, 1),
];

#[test]
fn limits_out_of_range() -> Result<(), Fail> {
    for bounds in OUT_OF_RANGE {
        same_at(bounds, &limits_of(*bounds), &Err(Refusal::BadLimits))?;
    }
    Ok(())
}

const SCRIPT: &[u8] =
    b"begin\nopen 1\ndeposit 1 9\nlet v = balance 1\nif withdraw 1 v is done\nclose 1\nelse\nbalance 1\nend\ncommit\n";

const REPORT: &[u8] = b"opened\ndone\nis 9\ndone\nclosed\ncommitted 1\n";

#[test]
fn if_else_script(rt: HostRuntime) -> Result<(), Fail> {
    let scripts = parse(rt.alloc(), SCRIPT)?;
    let printed = print(rt.alloc(), &scripts)?;
    same_at(&"printed", &printed.as_bytes(), &SCRIPT)?;
    let report = serial(rt.alloc(), &scripts)?;
    let mut text = Vec::new(rt.alloc());
    write_report(rt.alloc(), &report, ReportForm::Solo, &mut text)?;
    same_at(&"run", &text.as_slice(), &REPORT)
}

// The row `tries-spent`: the history has one commit, and not under this number.
#[test]
fn audit_of_another_commit(rt: HostRuntime) -> Result<(), Fail> {
    let mut history = Vec::new(rt.alloc());
    history.push(KeptItem::of(TraceItem::Begin(TxId(1))))?;
    history.push(KeptItem::of(TraceItem::Commit(TxId(1), 1)))?;
    let mut outcomes = Vec::new(rt.alloc());
    outcomes.push(Outcome {
        client: 1,
        number: 1,
        tx: 1,
        done: Transcript::new(Vec::new(rt.alloc())),
        end: End::Committed(2),
    })?;
    let found = audit(rt.alloc(), &outcomes, &history);
    same_at(&"tries-spent", &found, &Err(Refusal::Audit))
}

/// A writer that takes all, and whose flush is interrupted.
#[derive(Drop)]
struct Unflushed;

impl Write for Unflushed {
    fn write(&mut self, buf: &[u8]) -> io::Result<usize> {
        Ok(buf.len())
    }

    fn flush(&mut self) -> io::Result<()> {
        Err(Error::from(ErrorKind::Interrupted))
    }
}

// No file or stream of the program fails so; their reads and writes do (`tests/broken_streams.py`).
#[test]
fn flush_that_fails() -> Result<(), Fail> {
    let found = write_text(&mut Unflushed, b"begin\n");
    same_at(&"flush", &found, &Err(Refusal::Io))
}
