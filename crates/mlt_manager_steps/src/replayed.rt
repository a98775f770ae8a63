//! What is known behind the events of a run: what each open transaction did, what is pending, and the base to which the history
//! leads.

ghost use Rattle.std.specs.Prelude.{◌≡◌, ℕ, List, ◌++◌, OnOk};
ghost use Rattle.std.specs.String.{string_bytes};
ghost use Rattle.mlt_manager_steps.specs.Steps.{explained_lines};

use crate::reasons::push_reasons;
use mlt_event::{Answer, Event, Told};
use mlt_object_base::{Base, take_back};
use mlt_object_kinds::{Account, Counter, Done, Element, Kind, ObjOp, ObjReply};
use mlt_trace::{KeptItem, TraceItem};
use mlt_types::{Refusal, TxId};
use std::alloc::{AllocError, Global};
use std::collections::BTreeMap;

/// An open transaction.
#[derive(Drop)]
pub(crate) struct ReplayedTx {
    /// All that it did, in order, undone or not: it holds this up to its end.
    pub(crate) held: Vec<Done>,
    /// How many of these, from the first one on, stand: it does nothing more once it has undone one.
    pub(crate) standing: usize,
    /// The operation that was called, and not done, refused or dropped since.
    pub(crate) pending: Option<ObjOp>,
    /// The transaction that blocks it, if its last step was blocked.
    pub(crate) blocked_by: Option<TxId>,
}

/// What is known behind the events of a run. After an `Err` it is of no more use.
#[derive(Drop)]
pub(crate) struct ReplayedState {
    pub(crate) alloc: Global,
    base: Base,
    txs: BTreeMap<u64, ReplayedTx>,
    // How many items the history had behind the last event.
    count: usize,
}

impl ReplayedState {
    /// Nothing has happened.
    pub(crate) fn new(alloc: Global) -> ReplayedState {
        ReplayedState {
            alloc,
            base: Base::new(alloc),
            txs: BTreeMap::new(alloc),
            count: 0,
        }
    }

    /// Takes one more event with its answer, and the whole history after it, of which only the new items are read.
    /// Appends the line of the answer, and then the lines of the reason: of a block the operation that conflicts, the reply that
    /// is at risk, and the deadlock that it closes; of a wait the page, and its holder.
    ///
    /// # Errors
    /// Where a growth was refused.
    pub(crate) fn explain(
        &mut self,
        text: &mut String,
        event: &Event,
        told: &Told,
        items: &[KeptItem],
    ) -> Result<(), Refusal>
        ensures text { OnOk result ((reasons : List ℕ) × (string_bytes text.new
            ≡ string_bytes text.old ++ explained_lines (told.now, reasons))) }
    {
        for place in self.count..items.len() {
            self.take(&items[place].get())?;
        }
        self.count = items.len();
        self.note(event, told);
        let mut reasons = String::new(self.alloc);
        push_reasons(&mut reasons, self, event, told)?;
        Ok(push_explained(text, told, reasons.as_str())?)
    }

    // One more item of the history.
    fn take(&mut self, item: &TraceItem) -> Result<(), Refusal> {
        match item {
            TraceItem::Begin(tx) => {
                let one = ReplayedTx {
                    held: Vec::new(self.alloc),
                    standing: 0,
                    pending: None,
                    blocked_by: None,
                };
                self.txs.insert(tx.0, one)?;
            }
            TraceItem::Op(tx, done) => {
                self.base.apply(&done.op())?;
                if let Some(one) = self.txs.get_mut(&tx.0) {
                    one.held.push(*done)?;
                    one.standing = one.held.len();
                }
            }
            TraceItem::Back(tx) => {
                if let Some(one) = self.txs.get_mut(&tx.0) {
                    one.standing = one.standing.saturating_sub(1);
                    if let Some(last) = one.held.get(one.standing) {
                        take_back(&mut self.base, &[*last])?;
                    }
                }
            }
            TraceItem::Commit(TxId(tx), _) | TraceItem::Abort(TxId(tx)) => {
                self.txs.remove(tx);
            }
        }
        Ok(())
    }

    // What an event and its answer make of what is pending. A whole operation is never left pending.
    fn note(&mut self, event: &Event, told: &Told) {
        let (Event::Call(tx, _) | Event::Step(tx) | Event::Cancel(tx)) = event else {
            return;
        };
        let Some(one) = self.txs.get_mut(&tx.0) else {
            return;
        };
        match (event, told) {
            (Event::Call(_, op), Told::Called) => one.pending = Some(*op),
            (Event::Cancel(_), Told::Cancelled)
            | (Event::Step(_), Told::Answered(Answer::Done(_) | Answer::Refused(_))) => {
                one.pending = None;
            }
            (Event::Step(_), Told::Answered(Answer::Blocked { by })) => {
                one.blocked_by = Some(*by);
                return;
            }
            (Event::Step(_), Told::Answered(Answer::Going | Answer::Waiting { .. })) => (),
            _ => return,
        }
        one.blocked_by = None;
    }

    /// What an open transaction did.
    pub(crate) fn tx(&self, tx: TxId) -> Option<&ReplayedTx> {
        self.txs.get(&tx.0)
    }

    /// The reply that an operation would get now.
    pub(crate) fn reply(&self, op: &ObjOp) -> ObjReply {
        let base = &self.base;
        match *op {
            ObjOp::Account(account, op) => Account::apply(&base.balance(account), &op).1,
            ObjOp::Element(set, element, op) => Element::apply(&base.has(set, element), &op).1,
            ObjOp::Counter(counter, op) => Counter::apply(&base.value(counter), &op).1,
            ObjOp::Size(set) => ObjReply::Is(base.size(set)),
        }
    }
}

// Appends the line of what an event was told, and behind it the lines of its reasons, each as a comment.
fn push_explained(text: &mut String, told: &Told, reasons: &str) -> Result<(), AllocError>
    ensures text { OnOk result (string_bytes text.new
        ≡ string_bytes text.old ++ explained_lines (told.now, reasons.now)) }
{
    writeln!(text, "{told}")?;
    for line in reasons.lines() {
        writeln!(text, "# {line}")?;
    }
    Ok(())
}
