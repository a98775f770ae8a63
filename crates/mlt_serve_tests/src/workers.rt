//! Workers in an interleaving that gates repeat.

ghost use Rattle.std.specs.Prelude.{◌≤◌, ◌<◌};

use mlt_event::{Answer, Told};
use mlt_test_tools::same_at;
use mlt_types::{Limits, Mult, Refusal};
use mlt_work::{RunOptions, run_scripts};
use mlt_work_desk::Gate;
use std::alloc::Global;
use std::hint::spin_loop;
use std::sync::Wait;
use std::sync::atomic::{AtomicU64, Ordering};
use std::test::Fail;
use std::thread::Threads;
use std::time::Clock;

// How many tries each script has, as many as the program gives by default.
const TRIES: u64 = 10_000;

// What is written of these scripts by that many workers.
fn text_of<T: Threads + Wait + Clock + Sync, G: Gate + Sync>(
    rt: &T,
    alloc: Global,
    scripts: &[u8],
    workers: usize,
    gate: &G,
) -> Result<Vec<u8>, Refusal>
    requires some { 0 < workers }
    requires most { workers ≤ 8 }
{
    let mut input = scripts;
    let mut text = Vec::new(alloc);
    let options = RunOptions {
        limits: Limits::program(),
        workers,
        takes_turns: false,
        tries: TRIES,
        first: 0,
    };
    let loaded = Vec::new(alloc);
    run_scripts(
        rt, alloc, &mut input, &mut text, Mult, loaded, &options, gate,
    )?
    .close();
    Ok(text)
}

// How often a gate looks before it lets a client go.
const MOST_TURNS: u32 = 200_000_000;

// Waits until the number has grown to this, or for that many turns.
fn wait_for(number: &AtomicU64, least: u64, turns: u32) {
    for _ in 0..turns {
        if number.load(Ordering::SeqCst) >= least {
            return;
        }
        spin_loop();
    }
}

/// Holds client 1 after its first Going until client 2 was told Committed.
#[derive(Drop)]
struct SecondCommits {
    commit: AtomicU64,
}

impl Gate for SecondCommits {
    fn pause(&self, client: u32, told: &Told) {
        match told {
            Told::Committed(number) if client == 2 => self.commit.store(*number, Ordering::SeqCst),
            Told::Answered(Answer::Going) if client == 1 => wait_for(&self.commit, 1, MOST_TURNS),
            _ => (),
        }
    }
}

const TWO_CLIENTS: &[u8] = b"begin 1\nopen 1\ncommit\nbegin 2\nup 7 1\ncommit\n";

const SECOND_FIRST: &[u8] =
    b"client 1 script 1\nopened\ncommitted 2\nclient 2 script 1\ndone\ncommitted 1\naccount 1 0\ncounter 7 1\n";

#[test]
fn two_workers_at_once(rt: HostRuntime) -> Result<(), Fail> {
    let gate = SecondCommits {
        commit: AtomicU64::new(0),
    };
    let text = text_of(&rt, rt.alloc(), TWO_CLIENTS, 2, &gate)?;
    same_at(&"two-workers-at-once", &text.as_slice(), &SECOND_FIRST)
}

/// Holds client 1 after its third Going, where its bucket is written and locked, until client 2 was told Waiting. Client 2 begins
/// once client 1 was told three Goings, and waits until that one was told Committed.
#[derive(Drop)]
struct SecondWaits {
    steps: AtomicU64,
    waits: AtomicU64,
    commit: AtomicU64,
}

impl Gate for SecondWaits {
    fn begin(&self, client: u32) {
        if client == 2 {
            wait_for(&self.steps, 3, MOST_TURNS);
        }
    }

    fn pause(&self, client: u32, told: &Told) {
        match told {
            Told::Answered(Answer::Going) if client == 1 => {
                if self.steps.fetch_add(1, Ordering::SeqCst) == 2 {
                    wait_for(&self.waits, 1, MOST_TURNS);
                }
            }
            Told::Answered(Answer::Waiting { .. }) if client == 2 => {
                self.waits.fetch_add(1, Ordering::SeqCst);
                wait_for(&self.commit, 1, MOST_TURNS);
            }
            Told::Committed(number) if client == 1 => self.commit.store(*number, Ordering::SeqCst),
            _ => (),
        }
    }
}

const ONE_BUCKET: &[u8] = b"begin 1\nup 7 1\ncommit\nbegin 2\nup 8 1\ncommit\n";

const BOTH_COUNTED: &[u8] =
    b"client 1 script 1\ndone\ncommitted 1\nclient 2 script 1\ndone\ncommitted 2\ncounter 7 1\ncounter 8 1\n";

// A desk that made all steps of an operation in one hold of the lock would leave nothing for client 2 to wait for.
#[test]
fn page_steps_side_by_side(rt: HostRuntime) -> Result<(), Fail> {
    let gate = SecondWaits {
        steps: AtomicU64::new(0),
        waits: AtomicU64::new(0),
        commit: AtomicU64::new(0),
    };
    let text = text_of(&rt, rt.alloc(), ONE_BUCKET, 2, &gate)?;
    let found = (gate.waits.load(Ordering::SeqCst), text.as_slice());
    same_at(&"page-steps-side-by-side", &found, &(1, BOTH_COUNTED))
}

// How often a reader looks whether the other one has made its step too, some milliseconds in all.
const READER_TURNS: u32 = 200_000;

/// Clients 1 and 2 read step by step in turn, so that one of them always holds the header page. Client 3 begins once both
/// have held it. It has the numbers of steps of each reader that were told Going.
#[derive(Drop)]
struct ReadersPassPageOn {
    first: AtomicU64,
    second: AtomicU64,
}

impl Gate for ReadersPassPageOn {
    fn begin(&self, client: u32) {
        if client == 3 {
            wait_for(&self.first, 1, MOST_TURNS);
            wait_for(&self.second, 1, MOST_TURNS);
        }
    }

    fn pause(&self, client: u32, told: &Told) {
        match told {
            Told::Answered(Answer::Going) if client == 1 => {
                let before = self.first.fetch_add(1, Ordering::SeqCst);
                wait_for(&self.second, before.saturating_add(1), READER_TURNS);
            }
            Told::Answered(Answer::Going) if client == 2 => {
                let before = self.second.fetch_add(1, Ordering::SeqCst);
                wait_for(&self.first, before.saturating_add(2), READER_TURNS);
            }
            _ => (),
        }
    }
}

const READS: usize = 100;

const NINE_OPENED: &[u8] =
    b"begin 3\nopen 0\nopen 1\nopen 2\nopen 3\nopen 4\nopen 5\nopen 6\nopen 7\nopen 8\ncommit\n";

const OPENED_ALL: &[u8] =
    b"client 3 script 1\nopened\nopened\nopened\nopened\nopened\nopened\nopened\nopened\nopened\ncommitted 1\naccount 0 0\naccount 1 0\naccount 2 0\naccount 3 0\naccount 4 0\naccount 5 0\naccount 6 0\naccount 7 0\naccount 8 0\n";

// Two scripts that read so often, and one that opens nine accounts.
fn readers_and_nine(alloc: Global) -> Result<Vec<u8>, Refusal> {
    let mut scripts = Vec::new(alloc);
    for begin in [b"begin 1\n", b"begin 2\n"] {
        scripts.extend_from_slice(begin)?;
        for _ in 0..READS {
            scripts.extend_from_slice(b"read 7\n")?;
        }
        scripts.extend_from_slice(b"abort\n")?;
    }
    scripts.extend_from_slice(NINE_OPENED)?;
    Ok(scripts)
}

// The ninth account needs the header page alone, which one of two readers always holds.
#[test]
fn a_doubling_insert_gets_through(rt: HostRuntime) -> Result<(), Fail> {
    let scripts = readers_and_nine(rt.alloc())?;
    let gate = ReadersPassPageOn {
        first: AtomicU64::new(0),
        second: AtomicU64::new(0),
    };
    let text = text_of(&rt, rt.alloc(), &scripts, 3, &gate)?;
    let front = text.len().saturating_sub(OPENED_ALL.len());
    same_at(
        &"a-doubling-insert-gets-through",
        &text.get(front..),
        &Some(OPENED_ALL),
    )
}
