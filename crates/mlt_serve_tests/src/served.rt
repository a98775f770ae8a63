//! Connections over the loopback, and the outcomes that are returned of them.

use crate::outcomes::{Row, same_outcomes};
use mlt_object_kinds::{AccountOp, ObjOp, ObjReply};
use mlt_script_serial::{End, Outcomes};
use mlt_serve::{NoBase, NoBaseFile, NoSignal, Operating, ServeOptions, TraceFile, serve_on};
use mlt_test_tools::same_at;
use mlt_types::{Limits, Mult, Refusal};
use std::alloc::Global;
use std::io::{Read, Write};
use std::net::{TcpListener, TcpStream};
use std::sync::{Mutex, Wait};
use std::test::Fail;
use std::thread::Threads;
use std::time::Clock;
use std::{io, thread};

/// A file of a trace that is not written.
#[derive(Drop)]
struct NoFile;

impl Write for NoFile {
    fn write(&mut self, buf: &[u8]) -> io::Result<usize> {
        Ok(buf.len())
    }

    fn flush(&mut self) -> io::Result<()> {
        Ok(())
    }
}

impl TraceFile for NoFile {
    fn take_back(&mut self, _count: u64) -> io::Result<()> {
        Ok(())
    }
}

// The outcomes of two connections, which two session threads serve.
fn serve_two<R: Threads + Wait + Clock + Sync + Send + Copy + 'static>(
    rt: &R,
    alloc: Global,
    listener: &TcpListener,
) -> Result<Outcomes, Refusal> {
    let options = ServeOptions {
        limits: Limits::program(),
        sessions: 2,
        connections: 2,
        tries: 10_000,
        idle: None,
        wait: None,
        open: None,
        clients: 2,
        refuses: false,
    };
    let operating = Operating {
        notes: Vec::new(alloc),
        unsaid: String::new(alloc),
        trace: None::<NoFile>,
        signal: NoSignal,
        admin: None,
        save: None::<&Mutex<NoBaseFile>>,
    };
    let served = serve_on(rt, alloc, listener, Mult, &options, operating, NoBase)?;
    served.manager.close();
    Ok(served.outcomes)
}

const FIRST: &[u8] = b"begin\nopen 1\ndeposit 1 5\ncommit\nbegin\nwithdraw 1 9\nabort\nquit\n";

const SECOND: &[u8] = b"begin\nbalance 1\nquit\n";

const HEARD: &[u8] =
    b"begun 1\nopened\ndone\ncommitted 1\nbegun 2\nshort\naborted\nbye\nbegun 3\nis 5\nbye\n";

// Says these lines, of which the last is `quit`, and hears all that is answered, up to the end.
fn talk(stream: TcpStream, lines: &[u8], heard: &mut Vec<u8>) -> io::Result<()> {
    let mut stream = stream;
    stream.write_all(lines)?;
    stream.read_to_end(heard)?;
    Ok(())
}

// What both hear, the second once the first is served. Each is closed once its talk is over, and both where one fails.
fn talk_in_turn(alloc: Global, first: TcpStream, second: TcpStream) -> io::Result<Vec<u8>> {
    let mut heard = Vec::new(alloc);
    talk(first, FIRST, &mut heard)?;
    talk(second, SECOND, &mut heard)?;
    Ok(heard)
}

const OUTCOMES: &[Row] = &[
    (
        1,
        1,
        1,
        &[
            (ObjOp::Account(1, AccountOp::Open), ObjReply::Opened),
            (ObjOp::Account(1, AccountOp::Deposit(5)), ObjReply::Done),
        ],
        End::Committed(1),
    ),
    (
        1,
        2,
        2,
        &[(ObjOp::Account(1, AccountOp::Withdraw(9)), ObjReply::Short)],
        End::Aborted,
    ),
    (
        2,
        1,
        3,
        &[(ObjOp::Account(1, AccountOp::Balance), ObjReply::Is(5))],
        End::Aborted,
    ),
];

// Both are connected before the first is accepted, so that the server has its two connections whatever becomes of them.
#[test]
fn outcomes_of_two_connections(rt: HostRuntime) -> Result<(), Fail> {
    let listener = TcpListener::bind(&rt, "127.0.0.1:0")?;
    let address = listener.local_addr()?;
    let first = TcpStream::connect(&rt, address)?;
    let second = TcpStream::connect(&rt, address)?;
    let alloc = rt.alloc();
    let (served, heard) = thread::join(
        &rt,
        || serve_two(&rt, alloc, &listener),
        move || talk_in_turn(alloc, first, second),
    );
    same_at(&"heard", &heard?.as_slice(), &HEARD)?;
    same_outcomes(served?.as_slice(), OUTCOMES)
}
