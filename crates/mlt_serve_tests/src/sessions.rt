//! Sessions at a desk over a manager within limits that they meet, and with tries that they spend.

ghost use Rattle.std.specs.Prelude.{◌≡◌, Some};
ghost use Rattle.mlt_work_desk.specs.LogHandles.{id_of};
ghost use Rattle.mlt_work_desk.specs.Makings.{making_by};

use crate::bounds::{Bounds, limits_of};
use mlt_object_kinds::{AccountOp, ObjOp};
use mlt_script_serial::{Desk, Outcome};
use mlt_serve_session::session;
use mlt_test_tools::same_at;
use mlt_types::{Limits, Mult, Refusal};
use mlt_work_desk::{BlankRecords, LockDesk, LockedState, MadeWith, NoGate, Shared, Tries};
use std::alloc::Global;
use std::marker::Brand;
use std::sync::Wait;
use std::test::Fail;

/// A row: the limits of the manager, what transaction 1 has done where it is open beside the session, and what the session
/// reads and writes.
struct SessionRow {
    name: &'static str,
    bounds: Bounds,
    beside: Option<&'static [ObjOp]>,
    input: &'static [u8],
    text: &'static [u8],
}

const ROWS: &[SessionRow] = &[
    SessionRow {
        name: "session-ids-spent",
        bounds: (64, 2, 70_000, 16, 1_024),
        beside: None,
        input: b"begin\ncommit\nbegin\ncommit\nbegin\n",
        text: b"begun 1\ncommitted 1\nbegun 2\ncommitted 2\nerror 9 IdsSpent\n",
    },
    SessionRow {
        name: "session-log-full",
        bounds: (64, 1 << 32, 70_000, 16, 1),
        beside: None,
        input: b"begin\nup 7 1\nup 7 1\ncommit\n",
        text: b"begun 1\ndone\nerror 8 LogFull\ncommitted 1\n",
    },
    SessionRow {
        name: "session-too-many-open",
        bounds: (1, 1 << 32, 70_000, 16, 1_024),
        beside: Some(&[]),
        input: b"begin\nopen 1\n",
        text: b"error 7 TooManyOpen\nerror 3 NoSuchTx\n",
    },
    // The balance is given up at its third Blocked, and then the transaction of the session is idle.
    SessionRow {
        name: "tries-spent",
        bounds: (64, 1 << 32, 70_000, 16, 1_024),
        beside: Some(&[
            ObjOp::Account(1, AccountOp::Open),
            ObjOp::Account(1, AccountOp::Deposit(9)),
            ObjOp::Account(1, AccountOp::Withdraw(3)),
        ]),
        input: b"begin\nbalance 1\ncommit\n",
        text: b"begun 2\nerror 14 GaveUp\ncommitted 1\n",
    },
];

// Transaction 1 does this, and stays open.
fn begin<D: Desk>(desk: &mut D, ops: &[ObjOp]) -> Result<(), Refusal> {
    let tx = desk.begin()?;
    for op in ops {
        desk.operation(tx, *op)?;
    }
    Ok(())
}

// What the session writes, behind what transaction 1 did.
fn talk<D: Desk>(alloc: Global, desk: &mut D, row: &SessionRow) -> Result<Vec<u8>, Refusal> {
    if let Some(ops) = row.beside {
        begin(desk, ops)?;
    }
    let mut input = row.input;
    let mut text = Vec::new(alloc);
    let mut outcomes: Vec<Outcome> = Vec::new(alloc);
    session(alloc, &mut input, &mut text, desk, 3, &mut outcomes)?;
    Ok(text)
}

// What is said at the one desk over a new manager. It never sleeps, since no other is awake: it tries again at once.
fn said_over<L: MadeWith<Mult>>(
    rt: &impl Wait,
    alloc: Global,
    records: BlankRecords,
    limits: Limits,
    pseudo: Mult,
    row: &SessionRow,
) -> Result<Vec<u8>, Refusal>
    requires name { records.blank.name ≡ L.name }
    requires parts { records.blank.parts ≡ L.parts }
    requires log { id_of records.log ≡ L.log_id }
    requires made { Some (making_by limits pseudo) ≡ L.made_with }
    requires two { records.blank.parts ≡ 2 }
{
    let BlankRecords { blank, log, writer } = records;
    let (book, mut all) = blank.open::<L>();
    let share = all.split_off(1, 0);
    let state = LockedState::new(alloc, limits, pseudo, book, writer)?;
    let shared = Shared::new(log, state);
    let mut desk = LockDesk::new(rt, &shared, &NoGate, share, Tries::PerOperation(3));
    let text = talk(alloc, &mut desk, row);
    desk.close();
    shared.unlock().into_manager().close();
    text
}

fn said(rt: &impl Wait, alloc: Global, pseudo: Mult, row: &SessionRow) -> Result<Vec<u8>, Refusal> {
    let limits = limits_of(row.bounds)?;
    let records = BlankRecords::new(alloc, 2)?;
    said_over::<Brand>(rt, alloc, records, limits, pseudo, row)
}

#[test]
fn sessions_within_limits(rt: HostRuntime) -> Result<(), Fail> {
    for row in ROWS {
        let text = said(&rt, rt.alloc(), Mult, row)?;
        same_at(&row.name, &text.as_slice(), &row.text)?;
    }
    Ok(())
}
