//! A cursor over a script.

ghost use Rattle.std.specs.Prelude.{◌≡◌, true, Some, None, ◌<◌, ◌≤◌, length, drop};
ghost use Rattle.mlt_object_kinds.specs.declared.operation.ObjOp.{ObjOp as OpForm};
ghost use Rattle.mlt_script_serial.specs.Follows.{Questions, same_reply, wanted_reply, is_wanted, asked, asked_from, value_of, IsNext, IsAsking, answered, no_values, questions_of_script};
ghost use Rattle.mlt_script_serial.specs.Hearing.{heard, heard_values, question};
ghost use Rattle.mlt_script_serial.specs.Runs.{is_settled};

use crate::skipping::{Skipping, settled};
use mlt_object_kinds::{AccountOp, CounterOp, ObjOp, ObjReply};
use mlt_script::{Asking, Ending, Line, Script, Source, Statement, Wanted};

/// What a script does next.
#[derive(Clone, Copy, Debug, PartialEq, Eq)]
pub enum Next {
    /// It asks an operation, and waits for the reply.
    Op(ObjOp),
    /// It ends, and its changes are kept.
    Commit,
    /// It ends, and its changes are taken back.
    Abort,
}

fn is_same_reply(reply: ObjReply, wanted: ObjReply) -> bool
    ensures { result ≡ same_reply reply wanted }
{
    match (reply, wanted) {
        (ObjReply::Opened, ObjReply::Opened)
        | (ObjReply::Exists, ObjReply::Exists)
        | (ObjReply::Closed, ObjReply::Closed)
        | (ObjReply::NotEmpty, ObjReply::NotEmpty)
        | (ObjReply::Done, ObjReply::Done)
        | (ObjReply::Over, ObjReply::Over)
        | (ObjReply::Short, ObjReply::Short)
        | (ObjReply::Missing, ObjReply::Missing)
        | (ObjReply::Added, ObjReply::Added)
        | (ObjReply::Present, ObjReply::Present)
        | (ObjReply::Removed, ObjReply::Removed)
        | (ObjReply::Absent, ObjReply::Absent)
        | (ObjReply::Yes, ObjReply::Yes)
        | (ObjReply::No, ObjReply::No) => true,
        (ObjReply::Is(value), ObjReply::Is(amount)) => value == amount,
        _ => false,
    }
}

fn is_match(variables: &[u64; 26], wanted: Wanted, reply: ObjReply) -> bool
    ensures { result ≡ is_wanted variables.now wanted reply }
{
    match wanted {
        Wanted::Reply(wanted) => is_same_reply(reply, wanted),
        Wanted::ValueOf(letter) => {
            let value = variables[letter.index()];
            is_same_reply(reply, ObjReply::Is(value))
        }
    }
}

fn operation(variables: &[u64; 26], asking: Asking) -> ObjOp
    ensures { result ≡ asked variables.now asking }
{
    match asking {
        Asking::Fixed(op) => op,
        Asking::By(op, letter) => op.with(variables[letter.index()]),
    }
}

fn reading(source: Source) -> ObjOp
    ensures { result ≡ asked_from source }
{
    match source {
        Source::Balance(account) => ObjOp::Account(account, AccountOp::Balance),
        Source::Read(counter) => ObjOp::Counter(counter, CounterOp::Read),
        Source::Size(set) => ObjOp::Size(set),
    }
}

fn value(reply: ObjReply) -> u64
    ensures { result ≡ value_of reply }
{
    match reply {
        ObjReply::Is(value) => value,
        _ => 0,
    }
}

/// What a line asks. A line that asks nothing is answered by an abort.
fn question_of(variables: &[u64; 26], line: Line) -> Next
    ensures { result ≡ question line variables.now }
{
    match line {
        Line::Plain(Statement::Ask(asking))
        | Line::Plain(Statement::Need(asking, _))
        | Line::If(asking, _) => Next::Op(operation(variables, asking)),
        Line::Plain(Statement::Let(_, source)) => Next::Op(reading(source)),
        _ => Next::Abort,
    }
}

/// Where it goes on behind a line that was told the reply; None where the script aborts.
fn hear(variables: &mut [u64; 26], line: Line, reply: ObjReply) -> Option<Skipping>
    ensures skipping { result ≡ heard line variables.old reply }
    ensures variables { variables.new ≡ heard_values line variables.old reply }
{
    match line {
        Line::Plain(Statement::Need(_, wanted)) => {
            if is_match(variables, wanted, reply) {
                Some(Skipping::Nowhere)
            } else {
                None
            }
        }
        Line::If(_, wanted) => {
            if is_match(variables, wanted, reply) {
                Some(Skipping::Nowhere)
            } else {
                Some(Skipping::ToElse(0))
            }
        }
        Line::Plain(Statement::Let(letter, _)) => {
            variables[letter.index()] = value(reply);
            Some(Skipping::Nowhere)
        }
        _ => Some(Skipping::Nowhere),
    }
}

/// A place in a script, and the values of its variables. It takes no memory.
#[derive(Clone, Copy, Debug)]
pub struct Cursor<'a> {
    lines: &'a [Line],
    at: usize,
    variables: [u64; 26],
    ending: Ending,
    ghost within: { at ≤ length lines.now },
    ghost settled: { is_settled (drop at lines.now) ≡ true },
}

impl<'a> Cursor<'a> {
    ghost use Rattle.mlt_script_serial.specs.Cursors.{left_of, line_of, questions_of};

    /// A cursor at the begin of the script.
    pub fn new(script: &'a Script) -> Cursor<'a>
        ensures { questions_of result ≡ questions_of_script script.now }
    {
        let lines = script.lines();
        let variables = [0; 26];
        let at = settled(lines, 0, Skipping::Nowhere);
        let ending = script.ending();
        Cursor {
            lines,
            at,
            variables,
            ending,
        }
    }

    /// What the script does next.
    #[inline(always)]
    pub fn next(&self) -> Next
        ensures next { IsNext result (questions_of self.now) }
        ensures asking { (op : OpForm) → result ≡ Next.Op op → IsAsking (questions_of self.now) }
    {
        if self.at < self.lines.len() {
            return question_of(&self.variables, self.lines[self.at]);
        }
        match self.ending {
            Ending::Commit => Next::Commit,
            Ending::Abort => Next::Abort,
        }
    }

    /// The line of the script that asks what `next` returns, from 0; at the end how many lines there are.
    pub fn line(&self) -> usize
        ensures { result ≡ line_of self.now }
    {
        self.at
    }

    /// Goes on with the reply to the operation that `next` told.
    #[inline(always)]
    pub fn tell(&mut self, reply: ObjReply)
        requires { IsAsking (questions_of self.old) }
        ensures questions { questions_of self.new ≡ answered (questions_of self.old) reply }
        ensures left { left_of self.new < left_of self.old }
    {
        let line = self.lines[self.at];
        match hear(&mut self.variables, line, reply) {
            Some(skipping) => {
                self.at = settled(self.lines, self.at + 1, skipping);
            }
            None => {
                self.at = self.lines.len();
                self.ending = Ending::Abort;
            }
        }
    }
}
