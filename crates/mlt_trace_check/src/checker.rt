//! The items of a trace, gone over one after another.

ghost use Rattle.std.specs.Prelude.{◌≡◌, ◌≢◌, ◌<◌, ◌≤◌, ◌+◌, ℕ, [], Some, false, true};
ghost use Rattle.mlt_trace_check.specs.Checkers.{Knows, Takes};
ghost use Rattle.mlt_trace_check.specs.Replaying.{Replays, ReplaysOne};

use mlt_object_base::Base;
use mlt_object_kinds::Done;
use mlt_trace::TraceItem;
use mlt_types::{Refusal, TraceCause, TxId};
use std::alloc::Global;
use std::collections::BTreeMap;

// A transaction that is running: its operations that were not taken back, each with the number of its line,
// and whether one was taken back.
#[derive(Drop)]
struct OpenTx {
    ops: Vec<(u64, Done)>,
    undoing: bool,
}

/// What is kept of a trace while its items are read: the open transactions and what they did, the greatest number that was
/// begun, how many committed, and the base that the commits lead to. So its memory grows with what is open and with the
/// objects that there are, and not with the items. After an `Err` it is of no more use.
#[derive(Drop)]
pub(crate) struct Checker {
    running: BTreeMap<u64, OpenTx>,
    begun: Option<u64>,
    commits: u64,
    /// The base that the commits lead to.
    pub(crate) base: Base,
}

fn misplaced(line: u64) -> Refusal
    ensures { result ≡ Refusal.TraceFault line TraceCause.Place }
{
    Refusal::TraceFault {
        line,
        cause: TraceCause::Place,
    }
}

// Whether a number is above the greatest that was begun.
fn may_begin(begun: Option<u64>, tx: u64) -> bool
    ensures above { result ≡ true → (last : ℕ) → begun ≡ Some last → last < tx }
    ensures below { result ≡ false → (last : ℕ) × (begun ≡ Some last) × (tx ≤ last) }
{
    match begun {
        None => true,
        Some(last) => last < tx,
    }
}

// Whether a commit has the number behind so many commits.
fn is_next(commits: u64, number: u64) -> bool
    ensures next { result ≡ true → number ≡ commits + 1 }
    ensures other { result ≡ false → number ≢ commits + 1 }
{
    commits < number && number - commits == 1
}

// Does one operation anew; another reply than it was told is a fault.
fn replay_one(base: &mut Base, line: u64, done: &Done) -> Result<(), Refusal>
    ensures { ReplaysOne result line done.now base.old base.new }
{
    if base.apply(&done.op())? == done.reply() {
        Ok(())
    } else {
        Err(Refusal::TraceFault {
            line,
            cause: TraceCause::Reply,
        })
    }
}

// Does the operations anew, in order.
fn replay(base: &mut Base, ops: &[(u64, Done)]) -> Result<(), Refusal>
    ensures { Replays result ops.now base.old base.new }
{
    for (line, done) in ops {
        replay_one(base, *line, done)?;
    }
    Ok(())
}

impl Checker {
    /// A checker that went over no item.
    pub(crate) fn new(alloc: Global) -> Checker
        ensures { Knows result [] }
    {
        Checker {
            running: BTreeMap::new(alloc),
            begun: None,
            commits: 0,
            base: Base::new(alloc),
        }
    }

    fn begin(&mut self, alloc: Global, tx: u64, line: u64) -> Result<(), Refusal>
        ensures { Takes result self.old self.new line (TraceItem.Begin tx) }
    {
        if !may_begin(self.begun, tx) {
            return Err(misplaced(line));
        }
        let one = OpenTx {
            ops: Vec::new(alloc),
            undoing: false,
        };
        self.running.insert(tx, one)?;
        self.begun = Some(tx);
        Ok(())
    }

    fn done(&mut self, tx: u64, done: &Done, line: u64) -> Result<(), Refusal>
        ensures { Takes result self.old self.new line (TraceItem.Op tx done.now) }
    {
        let Some(one) = self.running.get_mut(&tx) else {
            return Err(misplaced(line));
        };
        if one.undoing {
            return Err(misplaced(line));
        }
        one.ops.push((line, *done))?;
        Ok(())
    }

    fn back(&mut self, tx: u64, line: u64) -> Result<(), Refusal>
        ensures { Takes result self.old self.new line (TraceItem.Back tx) }
    {
        let Some(one) = self.running.get_mut(&tx) else {
            return Err(misplaced(line));
        };
        if one.ops.pop().is_none() {
            return Err(misplaced(line));
        }
        one.undoing = true;
        Ok(())
    }

    fn commit(&mut self, tx: u64, number: u64, line: u64) -> Result<(), Refusal>
        ensures { Takes result self.old self.new line (TraceItem.Commit tx number) }
    {
        let Some(one) = self.running.remove(&tx) else {
            return Err(misplaced(line));
        };
        if one.undoing || !is_next(self.commits, number) {
            return Err(misplaced(line));
        }
        replay(&mut self.base, one.ops.as_slice())?;
        self.commits = number;
        Ok(())
    }

    fn abort(&mut self, tx: u64, line: u64) -> Result<(), Refusal>
        ensures { Takes result self.old self.new line (TraceItem.Abort tx) }
    {
        let Some(one) = self.running.remove(&tx) else {
            return Err(misplaced(line));
        };
        if !one.ops.is_empty() {
            return Err(misplaced(line));
        }
        Ok(())
    }

    /// Goes over the item in the line of this number, from 1 on. A commit does the transaction's operations anew.
    ///
    /// # Errors
    /// `TraceFault`, with the line of the fault, where the item has no place behind those before it, or an operation of
    /// the transaction that commits was told another reply; `OutOfMemory` where a growth was refused.
    pub(crate) fn take(&mut self, alloc: Global, item: &TraceItem, line: u64) -> Result<(), Refusal>
        ensures { Takes result self.old self.new line item.now }
    {
        match item {
            TraceItem::Begin(TxId(tx)) => self.begin(alloc, *tx, line),
            TraceItem::Op(TxId(tx), done) => self.done(*tx, done, line),
            TraceItem::Back(TxId(tx)) => self.back(*tx, line),
            TraceItem::Commit(TxId(tx), number) => self.commit(*tx, *number, line),
            TraceItem::Abort(TxId(tx)) => self.abort(*tx, line),
        }
    }
}
