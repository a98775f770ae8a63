//! What became of scripts.

ghost use Rattle.std.specs.Prelude.{◌≡◌, [], ◌∷◌, ◌++◌, OnOk, OnErr};
ghost use Rattle.mlt_object_kinds.specs.declared.operation.ObjOp.{ObjOp};
ghost use Rattle.mlt_object_kinds.specs.declared.operation.ObjReply.{ObjReply};

use mlt_object_kinds::Done;
use mlt_types::Refusal;
use std::alloc::{AllocError, Global};
use std::marker::Model;

/// The operations of a transaction that were done, in order. A contract sees the list of the
/// operations with their replies.
#[derive(Debug, Drop)]
pub struct Transcript {
    done: Vec<Done>,
}

impl Model for Transcript {
    ghost use Rattle.std.specs.Prelude.{List};
    ghost use Rattle.mlt_object_kinds.specs.declared.operation.ObjOp.{ObjOp};
    ghost use Rattle.mlt_object_kinds.specs.declared.operation.ObjReply.{ObjReply};

    ghost Value = { List (ObjOp × ObjReply) };

    ghost view = { λ t. t.done.items };
}

impl Transcript {
    /// The transcript of what was done, in order. Room beyond it is given back, since transcripts are kept.
    pub fn new(done: Vec<Done>) -> Transcript
        ensures { result ≡ done.items }
    {
        let mut done = done;
        done.shrink_to_fit();
        Transcript { done }
    }

    /// What was done, in order.
    pub fn as_slice(&self) -> &[Done]
        ensures { result.now ≡ self.now }
    {
        self.done.as_slice()
    }
}

/// How a script ended.
#[derive(Clone, Copy, Debug, PartialEq, Eq)]
pub enum End {
    /// Its changes were kept, as the transaction of this commit number, from 1.
    Committed(u64),
    /// Its changes were taken back, as it asked.
    Aborted,
    /// A call was refused, and its changes were taken back.
    Refused(Refusal),
}

/// What became of a script.
#[derive(Debug, Drop)]
pub struct Outcome {
    /// The client's number.
    pub client: u32,
    /// The script's number within its client, from 1.
    pub number: u64,
    /// The transaction's number, 0 where none was begun.
    pub tx: u64,
    /// The operations that were done.
    pub done: Transcript,
    /// How it ended.
    pub end: End,
}

/// What became of scripts, in their order. A contract sees a list.
#[derive(Debug, Drop)]
pub struct Outcomes {
    outcomes: Vec<Outcome>,
}

impl Model for Outcomes {
    ghost use Rattle.std.specs.Prelude.{List};
    ghost use Rattle.mlt_script_serial.specs.declared.outcome.Outcome.{Outcome};

    ghost Value = { List Outcome };

    ghost view = { λ o. o.outcomes.items };
}

impl Outcomes {
    /// No outcome.
    pub fn new(alloc: Global) -> Outcomes
        ensures { result ≡ [] }
    {
        Outcomes {
            outcomes: Vec::new(alloc),
        }
    }

    /// These outcomes, in order. It takes no memory.
    pub fn of(outcomes: Vec<Outcome>) -> Outcomes
        ensures { result ≡ outcomes.items }
    {
        Outcomes { outcomes }
    }

    /// Adds an outcome at the end. An `Err` changes nothing.
    pub fn push(&mut self, outcome: Outcome) -> Result<(), AllocError>
        ensures ok { OnOk result (self.new ≡ self.old ++ outcome ∷ []) }
        ensures err { OnErr result (self.new ≡ self.old) }
    {
        self.outcomes.push(outcome)?;
        Ok(())
    }

    /// The outcomes, in order.
    pub fn as_slice(&self) -> &[Outcome]
        ensures { result.now ≡ self.now }
    {
        self.outcomes.as_slice()
    }
}
