//! Who takes the outcomes of a session.

ghost use Rattle.std.specs.Prelude.{◌≡◌, ◌<◌, ◌-◌, ◌++◌, ◌∷◌, [], ℕ, List, IfOk, IsPermutation, OnOk, vec_len};
ghost use Rattle.std.specs.Vec.{vec_capacity};
ghost use Rattle.mlt_script_serial.specs.declared.outcome.Outcome.{Outcome};
ghost use Rattle.mlt_serve_session.specs.Outcomes.{outcome_of};

use mlt_object_kinds::Done;
use mlt_script_serial::{End, Outcome, Transcript};
use mlt_types::TxId;
use std::alloc::{AllocError, Global};
use std::mem;

/// How a transaction ended.
#[derive(Clone, Copy)]
pub struct EndedTx {
    /// Whose it was.
    pub client: u32,
    /// Its number among those of the session, from 1.
    pub number: u64,
    pub tx: TxId,
    pub end: End,
}

impl EndedTx {
    /// Its outcome, where it has done this.
    pub(crate) fn outcome(self, done: Vec<Done>) -> Outcome
        ensures { result ≡ outcome_of self.client self.number self.tx done.items self.end }
    {
        Outcome {
            client: self.client,
            number: self.number,
            tx: self.tx.0,
            done: Transcript::new(done),
            end: self.end,
        }
    }
}

/// Who takes the outcomes of transactions, as each ends.
pub trait Receipts {
    // all outcomes that were ever put here, in order
    ghost receipts: { Self → List Outcome };

    // for how many more there is room
    ghost room: { Self → ℕ };

    /// One without outcomes. It takes no memory.
    fn none(alloc: Global) -> Self
        ensures { receipts result ≡ [] };

    /// Makes room for one outcome.
    ///
    /// # Errors
    /// Where a growth is refused.
    fn make_room(&mut self) -> Result<(), AllocError>
        ensures same { receipts self.new ≡ receipts self.old }
        ensures room { OnOk result (0 < room self.new) };

    /// Takes the outcome of a transaction that ended so and has done this, in order. What becomes of the list of what was done is not
    /// said.
    fn put(&mut self, alloc: Global, ended: EndedTx, done: &mut Vec<Done>)
        requires { 0 < room self.old }
        ensures { receipts self.new ≡ receipts self.old ++ outcome_of ended.client ended.number
            ended.tx done.old.items ended.end ∷ [] };

    /// Takes in all outcomes of another. In which order they stand then is not said.
    ///
    /// # Errors
    /// Where a growth is refused. Which outcomes are there then is not said.
    fn take_in(&mut self, more: Self) -> Result<(), AllocError>
        ensures { IfOk result
            (λ _. IsPermutation (receipts self.old ++ receipts more) (receipts self.new)) };
}

/// Keeps all outcomes. The list of what was done is copied where there is memory for that.
impl Receipts for Vec<Outcome> {
    ghost receipts = { λ list. list.items };

    ghost room = { λ list. vec_capacity list - vec_len list };

    fn none(alloc: Global) -> Vec<Outcome> {
        Vec::new(alloc)
    }

    fn make_room(&mut self) -> Result<(), AllocError> {
        self.reserve(1)
    }

    fn put(&mut self, alloc: Global, ended: EndedTx, done: &mut Vec<Done>) {
        self.push_reserved(ended.outcome(noted(alloc, done)));
    }

    fn take_in(&mut self, more: Vec<Outcome>) -> Result<(), AllocError> {
        join(self, more)
    }
}

/// Puts two lists into one, of which only the shorter one is moved.
///
/// # Errors
/// Where a growth is refused.
fn join(all: &mut Vec<Outcome>, more: Vec<Outcome>) -> Result<(), AllocError>
    ensures { IfOk result (λ _. IsPermutation (all.old.items ++ more.items) all.new.items) }
{
    let mut more = more;
    if all.len() < more.len() {
        mem::swap(all, &mut more);
    }
    all.append(&mut more)
}

/// What was done, in a list with no more room than that where there is memory for one, since outcomes are kept. The list in
/// which a session notes it then keeps its room for the next transaction.
fn noted(alloc: Global, done: &mut Vec<Done>) -> Vec<Done>
    ensures { result.items ≡ done.old.items }
{
    match Vec::from_slice(alloc, done.as_slice()) {
        Ok(copy) => copy,
        Err(_) => mem::replace(done, Vec::new(alloc)),
    }
}
