//! How far a check has gone: the lines of a text, one after another.

ghost use Rattle.std.specs.Prelude.{◌≡◌, ◌≤◌, ◌++◌, ◌∷◌, [], ℕ, List, true, length, IfErr, IfOk, IsOkUnless, OnErr, OnOk};
ghost use Rattle.mlt_trace.specs.Numbers.{committed_txs};
ghost use Rattle.mlt_trace_check.specs.Checkers.{Knows};
ghost use Rattle.mlt_trace_check.specs.Progresses.{GoesOver, Refuses, StopsIn, TakesLine};

use crate::checker::Checker;
use crate::first_line::first_line;
use crate::reading::TraceReading;
use mlt_trace::TraceItem;
use mlt_types::{Refusal, TxId};
use std::alloc::Global;

// What a check keeps of the lines that it went over, how many they are, and those of their commits that were not told yet.
#[derive(Drop)]
pub(crate) struct Progress {
    pub(crate) checker: Checker,
    pub(crate) line: u64,
    pub(crate) txs: Vec<TxId>,
}

// Adds the transaction of a commit behind those before it.
fn note_commit(txs: &mut Vec<TxId>, item: &TraceItem) -> Result<(), Refusal>
    ensures ok { OnOk result
        (txs.new.items ≡ txs.old.items ++ committed_txs (item.now ∷ [])) }
    ensures err { OnErr result (txs.new.items ≡ txs.old.items) }
    ensures refusal { IsOkUnless result Refusal.OutOfMemory }
{
    if let TraceItem::Commit(tx, _) = item {
        txs.push(*tx)?;
    }
    Ok(())
}

impl Progress {
    pub(crate) fn new(alloc: Global) -> Progress
        ensures checker { Knows result.checker [] }
        ensures line { result.line ≡ 0 }
        ensures txs { result.txs.items ≡ [] }
    {
        Progress {
            checker: Checker::new(alloc),
            line: 0,
            txs: Vec::new(alloc),
        }
    }

    // Goes over the next line, which says this. Of more than 2^64 - 1 lines it answers Io.
    fn take_line(&mut self, alloc: Global, said: TraceReading) -> Result<(), Refusal>
        ensures line { TakesLine result self.old self.new said }
        ensures err { OnErr result (self.new.txs.items ≡ self.old.txs.items) }
    {
        let Some(line) = self.line.checked_add(1) else {
            return Err(Refusal::Io);
        };
        match said {
            TraceReading::Bad(cause) => Err(Refusal::TraceFault { line, cause }),
            TraceReading::Says(item) => {
                self.checker.take(alloc, &item, line)?;
                note_commit(&mut self.txs, &item)?;
                self.line = line;
                Ok(())
            }
        }
    }

    // Goes over all lines of a text that no more of the input changes, and of the last text of an input over all; answers how
    // many bytes are left.
    pub(crate) fn take_lines(
        &mut self,
        alloc: Global,
        text: &[u8],
        ended: bool,
    ) -> Result<usize, Refusal>
        ensures ok { IfOk result (λ left. (rest : List ℕ)
            × (length rest ≡ left) × GoesOver self.old self.new text.now rest) }
        ensures short { IfOk result (λ left. left ≤ 200) }
        ensures done { IfOk result (λ left. ended ≡ true → left ≡ 0) }
        ensures refused { IfErr result (λ refusal. Refuses refusal self.old text.now ended) }
        ensures stopped { OnErr result (StopsIn self.old self.new text.now) }
    {
        let mut rest = text;
        while let Some((said, after)) = first_line(rest, ended) {
            self.take_line(alloc, said)?;
            rest = after;
        }
        Ok(rest.len())
    }
}
