//! The transactions that make a base, as texts.

use crate::object::Object;
use mlt_object_kinds::{AccountOp, CounterOp, ElementOp, ObjOp};
use std::alloc::{AllocError, Global};
use std::mem;

/// How many objects a transaction makes at most: each takes two operations, and a script has at most 256.
const MOST_OBJECTS: u64 = 100;

/// From how many bytes of text on a piece gets no more transactions.
const PIECE_BYTES: usize = 1_048_576;

/// How many transactions make a base of so many objects.
pub fn transactions_of(objects: u64) -> u64 {
    objects.div_ceil(MOST_OBJECTS)
}

/// Who is asked to make a base.
#[derive(Clone, Copy)]
pub enum Form {
    /// `solo`, by scripts.
    Solo,
    /// `run`, by scripts that each have a client of their own.
    Run,
    /// Sessions, by lines.
    Session,
}

/// Some of the transactions that make a base, and their answers.
#[derive(Drop)]
pub struct BasePiece {
    /// The scripts, or the lines of a session: some 1,048,576 bytes at most.
    pub text: String,
    /// What a manager answers them, which is new or has made the pieces before, where there is room and memory.
    pub answers: String,
    /// The number of the line of the base to which each line of the answers belongs.
    pub lines: Vec<u64>,
}

impl BasePiece {
    fn new(alloc: Global) -> BasePiece {
        BasePiece {
            text: String::new(alloc),
            answers: String::new(alloc),
            lines: Vec::new(alloc),
        }
    }
}

/// What is spelled of a piece so far.
#[derive(Drop)]
pub(crate) struct Speller {
    piece: BasePiece,
    form: Form,
    /// How many transactions there are, those of earlier pieces too.
    transactions: u64,
    /// How many objects the last one makes so far, if it is to make more.
    objects: u64,
}

impl Speller {
    pub(crate) fn new(alloc: Global, form: Form) -> Speller {
        Speller {
            piece: BasePiece::new(alloc),
            form,
            transactions: 0,
            objects: 0,
        }
    }

    /// Whether the piece gets no more transactions.
    pub(crate) fn is_full(&self) -> bool {
        self.objects == 0 && self.piece.text.len() >= PIECE_BYTES
    }

    /// The piece, unless it is empty. Another one begins.
    pub(crate) fn take(&mut self, alloc: Global) -> Option<BasePiece> {
        let piece = mem::replace(&mut self.piece, BasePiece::new(alloc));
        (!piece.text.is_empty()).then_some(piece)
    }

    /// Makes an object, which this line of the base names.
    pub(crate) fn make(&mut self, object: Object, line: u64) -> Result<(), AllocError> {
        if self.objects == 0 {
            self.begin(line)?;
        }
        match object {
            Object::Account(account, balance) => {
                self.ask(ObjOp::Account(account, AccountOp::Open), "opened", line)?;
                if balance > 0 {
                    let deposit = AccountOp::Deposit(balance);
                    self.ask(ObjOp::Account(account, deposit), "done", line)?;
                }
            }
            Object::Element(set, element) => {
                self.ask(ObjOp::Element(set, element, ElementOp::Add), "added", line)?;
            }
            Object::Counter(counter, value) => {
                self.ask(ObjOp::Counter(counter, CounterOp::Up(value)), "done", line)?;
            }
        }
        self.objects = self.objects.saturating_add(1);
        if self.objects >= MOST_OBJECTS {
            self.end(line)?;
        }
        Ok(())
    }

    fn begin(&mut self, line: u64) -> Result<(), AllocError> {
        self.transactions = self.transactions.saturating_add(1);
        let number = self.transactions;
        self.piece.text.push_str("begin\n")?;
        match self.form {
            Form::Solo => return Ok(()),
            Form::Run => self.piece.answers.push_str("client 0 script 1\n")?,
            Form::Session => write!(self.piece.answers, "begun {number}\n")?,
        }
        self.piece.lines.push(line)?;
        Ok(())
    }

    fn ask(&mut self, op: ObjOp, reply: &str, line: u64) -> Result<(), AllocError> {
        match self.form {
            Form::Solo | Form::Run => write!(self.piece.text, "need {op} is {reply}\n")?,
            Form::Session => write!(self.piece.text, "{op}\n")?,
        }
        write!(self.piece.answers, "{reply}\n")?;
        self.piece.lines.push(line)?;
        Ok(())
    }

    /// Ends the last transaction, if it is to make more.
    pub(crate) fn end(&mut self, line: u64) -> Result<(), AllocError> {
        if self.objects == 0 {
            return Ok(());
        }
        self.objects = 0;
        let number = self.transactions;
        self.piece.text.push_str("commit\n")?;
        write!(self.piece.answers, "committed {number}\n")?;
        self.piece.lines.push(line)?;
        Ok(())
    }
}
