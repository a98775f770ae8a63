//! How far a history has told what an outcome tells.

ghost use Rattle.std.specs.Prelude.{◌≡◌, ◌++◌, ◌∷◌, ◌<◌, ◌↔◌, [], IsTrue, List, false, true, length, slice_index_or};
ghost use Rattle.mlt_trace.specs.declared.item.TraceItem.{TraceItem as ItemForm};
ghost use Rattle.mlt_trace_audit.specs.Ordered.{is_told, tx_of};
ghost use Rattle.mlt_trace_audit.specs.Outcomes.{Closing, IsClosedSo, closing_by};
ghost use Rattle.mlt_trace_audit.specs.Telling.{HasTold, IsWhole, nothing_told};

use mlt_object_kinds::Done;
use mlt_script_serial::{End, Outcome};
use mlt_trace::TraceItem;

/// Whether the end is a commit of this number.
fn is_commit_of(end: End, number: u64) -> bool
    ensures { IsTrue result ↔ (closing_by end ≡ Closing.ByCommit number) }
{
    match end {
        End::Committed(own) => own == number,
        _ => false,
    }
}

/// Whether the end is none that commits.
fn is_no_commit(end: End) -> bool
    ensures { IsTrue result ↔ (closing_by end ≡ Closing.ByAbort) }
{
    match end {
        End::Committed(_) => false,
        _ => true,
    }
}

// What `==` of two of these answers is not known here, since a contract sees them as pairs; so their parts are compared.
fn is_same(one: &Done, other: &Done) -> bool
    ensures { IsTrue result ↔ (one.now ≡ other.now) }
{
    let one = one.packed();
    let other = other.packed();
    one.op == other.op
        && one.reply == other.reply
        && one.set == other.set
        && one.number == other.number
        && one.amount == other.amount
        && one.told == other.told
}

/// Whether what was done stands at this place of the list.
fn stands_at(done: &[Done], place: usize, one: &Done) -> bool
    ensures { IsTrue result
        ↔ ((place < length done.now) × (slice_index_or done.now place one.now ≡ one.now)) }
{
    place < done.len() && is_same(&done[place], one)
}

/// How far the items of a history that were read have told what an outcome tells.
#[derive(Clone, Copy, Debug)]
pub(crate) struct Progress {
    /// How many of its operations they have told.
    pub(crate) ops: usize,
    /// Whether they have told its close.
    pub(crate) closed: bool,
}

impl Progress {
    /// Nothing was told.
    pub(crate) fn new() -> Progress
        ensures { result ≡ nothing_told }
    {
        Progress {
            ops: 0,
            closed: false,
        }
    }

    /// Reads the next item of the outcome's transaction. `false` where the outcome does not tell it so.
    pub(crate) fn goes_on(&mut self, outcome: &Outcome, item: &TraceItem) -> bool
        requires own { tx_of item.now ≡ outcome.now.tx }
        ensures told { result ≡ true → (items : List ItemForm) → HasTold outcome.now items self.old
            → HasTold outcome.now (items ++ item.now ∷ []) self.new }
        ensures other { result ≡ false → (items later : List ItemForm)
            → HasTold outcome.now items self.old
            → IsClosedSo outcome.now.tx outcome.now.done outcome.now.end (items ++ item.now ∷ later)
            → ⊥ }
    {
        match item {
            TraceItem::Op(_, one) => {
                let fits = stands_at(outcome.done.as_slice(), self.ops, one);
                if fits {
                    self.ops += 1;
                }
                fits
            }
            TraceItem::Commit(_, number) => self.closes(is_commit_of(outcome.end, *number)),
            TraceItem::Abort(_) => self.closes(is_no_commit(outcome.end)),
            TraceItem::Begin(_) | TraceItem::Back(_) => true,
        }
    }

    // A close, which the outcome tells or does not: whether it is the first one, and told.
    fn closes(&mut self, told: bool) -> bool
        ensures result { IsTrue result ↔ ((self.old.closed ≡ false) × IsTrue told) }
        ensures closed { result ≡ true → self.new ≡ record self.old { closed = true } }
    {
        let fits = told && !self.closed;
        self.closed |= fits;
        fits
    }

    /// Whether all was told that the outcome tells.
    pub(crate) fn is_whole(&self, outcome: &Outcome) -> bool
        ensures { IsTrue result ↔ IsWhole self.now outcome.now }
    {
        self.closed && self.ops == outcome.done.as_slice().len()
    }
}
