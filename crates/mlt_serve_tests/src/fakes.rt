//! A session and a script at a desk of answers that no manager would give.

use crate::outcomes::{Row, same_outcomes};
use mlt_object_kinds::{AccountOp, ObjOp, ObjReply};
use mlt_script::parse;
use mlt_script_serial::{DeskAnswer, End, FakeDesk, Outcome, run_client};
use mlt_serve_session::session;
use mlt_test_tools::same_at;
use std::alloc::{AllocError, Global};
use std::test::Fail;

// The account was never opened, and commits are counted from 1.
const ANSWERS: &[DeskAnswer] = &[
    DeskAnswer::Begun(5),
    DeskAnswer::Replied(ObjReply::Is(77)),
    DeskAnswer::Committed(7),
];

const INVENTED: &[(ObjOp, ObjReply)] = &[(ObjOp::Account(1, AccountOp::Balance), ObjReply::Is(77))];

fn desk_of_answers(alloc: Global) -> Result<FakeDesk, AllocError> {
    let mut answers = Vec::new(alloc);
    answers.extend_from_slice(ANSWERS)?;
    Ok(FakeDesk::new(answers))
}

const LINES: &[u8] = b"begin\nbalance 1\ncommit\n";

const ANSWERED: &[u8] = b"begun 5\nis 77\ncommitted 7\n";

const OF_SESSION: &[Row] = &[(3, 1, 5, INVENTED, End::Committed(7))];

#[test]
fn session_at_a_desk_of_answers(rt: HostRuntime) -> Result<(), Fail> {
    let mut desk = desk_of_answers(rt.alloc())?;
    let mut input = LINES;
    let mut text = Vec::new(rt.alloc());
    let mut outcomes: Vec<Outcome> = Vec::new(rt.alloc());
    session(
        rt.alloc(),
        &mut input,
        &mut text,
        &mut desk,
        3,
        &mut outcomes,
    )?;
    same_at(&"session", &text.as_slice(), &ANSWERED)?;
    same_outcomes(&outcomes, OF_SESSION)
}

const SCRIPT: &[u8] = b"begin 9\nbalance 1\ncommit\n";

const OF_SCRIPT: &[Row] = &[(9, 1, 5, INVENTED, End::Committed(7))];

#[test]
fn script_at_a_desk_of_answers(rt: HostRuntime) -> Result<(), Fail> {
    let mut desk = desk_of_answers(rt.alloc())?;
    let scripts = parse(rt.alloc(), SCRIPT)?;
    let outcomes = run_client(rt.alloc(), &mut desk, &scripts)?;
    same_outcomes(&outcomes, OF_SCRIPT)
}
