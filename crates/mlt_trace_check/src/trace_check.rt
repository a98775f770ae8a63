//! The check of a trace.

ghost use Rattle.std.specs.Prelude.{◌≡◌, ◌⊎◌, ℕ, List, Err, IfErr, IfOk, IsErrAnd, MatchResult, Some};
ghost use Rattle.mlt_types.specs.declared.refusal.TraceCause.{TraceCause};
ghost use Rattle.mlt_text.specs.Failures.{IsTraceFault, IsWant, ReadsWithinLimit, RefusesLong};
ghost use Rattle.mlt_text.specs.Inputs.{GivesWhole};
ghost use Rattle.mlt_trace_check.specs.Answering.{Answers, IsOrderOf};
ghost use Rattle.mlt_object_kinds.specs.Bases.{Base as ObjectBase};
ghost use Rattle.mlt_trace_check.specs.Traces.{IsAcceptedTrace, IsFirstFault};

use crate::progress::Progress;
use mlt_object_base::Base;
use mlt_text::read_input;
use mlt_types::{Refusal, TxId};
use std::alloc::Global;
use std::io::Read;

/// The transactions of a trace that committed, in the order of their commits, and the base that they lead to.
#[derive(Drop)]
pub struct Order {
    /// The transactions, in the order of their commits.
    pub txs: Vec<TxId>,
    /// The base after the last of them.
    pub base: Base,
}

// The committed order and the base of a text, or its first fault.
fn check_text(alloc: Global, text: &[u8]) -> Result<Order, Refusal>
    ensures { Answers IsOrderOf result text.now }
{
    let mut progress = Progress::new(alloc);
    progress.take_lines(alloc, text, true)?;
    Ok(Order {
        txs: progress.txs,
        base: progress.checker.base,
    })
}

/// Reads a trace to the end of the input, and answers the committed order and the base that its commits lead
/// to.
///
/// # Errors
/// `TraceFault` for an input that is no accepted trace, with its first fault; `Io` where a read fails, or the
/// input has more than 16,777,216 bytes, of which none past the first too many is read; `OutOfMemory` where a
/// growth was refused.
pub fn check<R: Read>(alloc: Global, reader: &mut R) -> Result<Order, Refusal>
    // what is answered is the order and the base of the trace read
    ensures accepted { IfOk result (λ order. (input : List ℕ)
        × GivesWhole (R.remaining reader.old) (R.remaining reader.new) input
        × IsAcceptedTrace input order.txs.items order.base) }
    // a fault is the first one of the input
    ensures fault { (line : ℕ) (cause : TraceCause) → result ≡ Err (Refusal.TraceFault line cause)
        → (input : List ℕ) × GivesWhole (R.remaining reader.old) (R.remaining reader.new) input
        × IsFirstFault input line cause }
    // of a trace nothing else is answered
    ensures only_accepted { (input txs : List ℕ) (base : ObjectBase)
        → R.remaining reader.old ≡ Some input → IsAcceptedTrace input txs base
        → MatchResult result (λ order. (order.txs.items ≡ txs) × (order.base ≡ base)) IsWant }
    // nor of a text that is faulty
    ensures only_faulty { (input : List ℕ) (line : ℕ) (cause : TraceCause)
        → R.remaining reader.old ≡ Some input → IsFirstFault input line cause
        → IsErrAnd result (λ refusal. (refusal ≡ Refusal.TraceFault line cause)
        ⊎ IsWant refusal) }
    ensures long { RefusesLong (R.remaining reader.old) result }
    ensures bounded { ReadsWithinLimit (R.remaining reader.old) (R.remaining reader.new) }
    ensures refusals { IfErr result (λ refusal. IsWant refusal ⊎ IsTraceFault refusal) }
{
    let input = read_input(alloc, reader)?;
    check_text(alloc, input.as_slice())
}
