//! The tables of page locks and of object locks beside plain lists that are scanned: both answer alike.

use crate::page_locks::{PageDesk, new_desk};
use mlt_object_conflicts::clash;
use mlt_object_kinds::{AccountOp, CounterOp, Done, ElementOp, ObjOp, ObjReply};
use mlt_object_locks::ObjectLocks;
use mlt_page_locks::Grant;
use mlt_test_tools::same_at;
use mlt_types::{Mode, Refusal, TxId};
use std::process::Abort;
use std::test::Fail;

const CALLS: u32 = 2_000;

const TRANSACTIONS: u64 = 9;

const PAGES: u64 = 5;

// The next of a row of numbers that look random, from Knuth's MMIX.
fn next_number(number: u64) -> u64 {
    number
        .wrapping_mul(6_364_136_223_846_793_005)
        .wrapping_add(1_442_695_040_888_963_407)
}

// The lower of two transactions, of which one may be missing.
fn lower(lowest: Option<u64>, holder: u64) -> u64 {
    match lowest {
        Some(other) if other < holder => other,
        _ => holder,
    }
}

/// The page locks that were granted, as one list that is scanned.
#[derive(Drop)]
struct ScanPages {
    held: Vec<(u64, u32, Mode)>,
}

impl ScanPages {
    fn ask(&mut self, tx: u64, page: u32, mode: Mode) -> Result<Grant, Refusal> {
        let mut lowest = None;
        for (holder, at, held) in &self.held {
            let is_shared = *held == Mode::Shared && mode == Mode::Shared;
            if *holder != tx && *at == page && !is_shared {
                lowest = Some(lower(lowest, *holder));
            }
        }
        if let Some(holder) = lowest {
            return Ok(Grant::Waiting(TxId(holder)));
        }
        self.held.push((tx, page, mode))?;
        Ok(Grant::Held)
    }

    fn release_all(&mut self, tx: u64) {
        self.held.retain(|entry| entry.0 != tx);
    }
}

// One call of each: one in four releases. A page that is 4,096 above another shares its row of masks.
fn pages_alike(
    rt: &impl Abort,
    desk: &mut PageDesk,
    scanned: &mut ScanPages,
    number: u64,
) -> Result<(), Fail> {
    let tx = 1 + (number >> 40) % TRANSACTIONS;
    if (number >> 56) % 4 == 0 {
        desk.release_all(tx);
        scanned.release_all(tx);
        return Ok(());
    }
    let page = ((number >> 20) % PAGES + (number >> 50) % 2 * 4_096) as u32;
    let mode = if (number >> 30) % 3 == 0 {
        Mode::Exclusive
    } else {
        Mode::Shared
    };
    let found = desk.ask(rt, tx, page, mode);
    same_at(&(tx, page, mode), &found, &scanned.ask(tx, page, mode)?)
}

#[test]
fn scanned_pages_answer_alike(rt: HostRuntime) -> Result<(), Fail> {
    let mut desk = new_desk(rt.alloc())?;
    let mut scanned = ScanPages {
        held: Vec::new(rt.alloc()),
    };
    let mut number = 1;
    for _ in 0..CALLS {
        number = next_number(number);
        pages_alike(&rt, &mut desk, &mut scanned, number)?;
    }
    Ok(())
}

/// The operations that were granted, as one list that is scanned.
#[derive(Drop)]
struct ScanCells {
    held: Vec<(u64, Done)>,
}

impl ScanCells {
    fn ask(&mut self, tx: u64, done: Done) -> Result<Result<(), TxId>, Refusal> {
        let mut lowest = None;
        for (holder, earlier) in &self.held {
            if *holder != tx && clash(earlier, &done) {
                lowest = Some(lower(lowest, *holder));
            }
        }
        if let Some(holder) = lowest {
            return Ok(Err(TxId(holder)));
        }
        self.held.push((tx, done))?;
        Ok(Ok(()))
    }

    fn release_all(&mut self, tx: u64) {
        self.held.retain(|entry| entry.0 != tx);
    }
}

const OPERATIONS: [(ObjOp, ObjReply); 23] = [
    (ObjOp::Account(1, AccountOp::Open), ObjReply::Exists),
    (ObjOp::Account(1, AccountOp::Close), ObjReply::NotEmpty),
    (ObjOp::Account(1, AccountOp::Deposit(1)), ObjReply::Done),
    (ObjOp::Account(1, AccountOp::Deposit(2)), ObjReply::Over),
    (ObjOp::Account(1, AccountOp::Withdraw(2)), ObjReply::Done),
    (ObjOp::Account(1, AccountOp::Withdraw(7)), ObjReply::Short),
    (ObjOp::Account(1, AccountOp::Balance), ObjReply::Is(5)),
    (ObjOp::Account(2, AccountOp::Open), ObjReply::Opened),
    (ObjOp::Account(2, AccountOp::Close), ObjReply::Closed),
    (ObjOp::Account(2, AccountOp::Balance), ObjReply::Missing),
    (ObjOp::Element(1, 1, ElementOp::Add), ObjReply::Added),
    (ObjOp::Element(1, 1, ElementOp::Add), ObjReply::Present),
    (ObjOp::Element(1, 1, ElementOp::Remove), ObjReply::Removed),
    (ObjOp::Element(1, 1, ElementOp::Remove), ObjReply::Absent),
    (ObjOp::Element(1, 1, ElementOp::Has), ObjReply::Yes),
    (ObjOp::Element(1, 2, ElementOp::Add), ObjReply::Added),
    (ObjOp::Element(1, 2, ElementOp::Has), ObjReply::No),
    (ObjOp::Element(2, 1, ElementOp::Remove), ObjReply::Removed),
    (ObjOp::Size(1), ObjReply::Is(2)),
    (ObjOp::Size(2), ObjReply::Is(0)),
    (ObjOp::Counter(1, CounterOp::Up(1)), ObjReply::Done),
    (ObjOp::Counter(1, CounterOp::Down(1)), ObjReply::Done),
    (ObjOp::Counter(1, CounterOp::Read), ObjReply::Is(3)),
];

// One call of each: one in eight releases, and one in eight reserves and never asks.
fn cells_alike(locks: &mut ObjectLocks, scanned: &mut ScanCells, number: u64) -> Result<(), Fail> {
    let tx = 1 + (number >> 40) % TRANSACTIONS;
    let (op, reply) = OPERATIONS[(number >> 32) as usize % OPERATIONS.len()];
    let done = Done::new(op, reply);
    locks.reserve(TxId(tx), &done.cell())?;
    match (number >> 56) % 8 {
        0 => {
            locks.release_all(TxId(tx));
            scanned.release_all(tx);
            Ok(())
        }
        1 => Ok(()),
        _ => {
            let found = locks.ask(TxId(tx), &done);
            same_at(&(tx, done), &found, &scanned.ask(tx, done)?)
        }
    }
}

#[test]
fn scanned_cells_answer_alike(rt: HostRuntime) -> Result<(), Fail> {
    let mut locks = ObjectLocks::new(rt.alloc());
    let mut scanned = ScanCells {
        held: Vec::new(rt.alloc()),
    };
    let mut number = 1;
    for _ in 0..CALLS {
        number = next_number(number);
        cells_alike(&mut locks, &mut scanned, number)?;
    }
    Ok(())
}
