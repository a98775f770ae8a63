//! The texts of lines.

use crate::statement::{AmountOp, Asking, Ending, Line, Source, Statement, Wanted};
use mlt_object_kinds::ObjReply;
use std::fmt;

impl fmt::Display for AmountOp {
    ghost use Rattle.std.specs.Prelude.{Some};
    ghost use Rattle.mlt_script.specs.LineTexts.{amount_op_text};

    ghost output = { λ op. Some (amount_op_text op) };

    fn fmt<W: fmt::Write>(&self, f: &mut fmt::Formatter<W>) -> fmt::Result {
        match *self {
            AmountOp::Deposit(account) => write!(f, "deposit {account}"),
            AmountOp::Withdraw(account) => write!(f, "withdraw {account}"),
            AmountOp::Up(counter) => write!(f, "up {counter}"),
            AmountOp::Down(counter) => write!(f, "down {counter}"),
        }
    }
}

impl fmt::Display for Asking {
    ghost use Rattle.std.specs.Prelude.{Some};
    ghost use Rattle.mlt_script.specs.LineTexts.{asking_text};

    ghost output = { λ asking. Some (asking_text asking) };

    fn fmt<W: fmt::Write>(&self, f: &mut fmt::Formatter<W>) -> fmt::Result {
        match *self {
            Asking::Fixed(op) => write!(f, "{op}"),
            Asking::By(op, letter) => write!(f, "{op} {letter}"),
        }
    }
}

impl fmt::Display for Wanted {
    ghost use Rattle.std.specs.Prelude.{Some};
    ghost use Rattle.mlt_script.specs.LineTexts.{wanted_text};

    ghost output = { λ wanted. Some (wanted_text wanted) };

    fn fmt<W: fmt::Write>(&self, f: &mut fmt::Formatter<W>) -> fmt::Result {
        match *self {
            Wanted::Reply(ObjReply::Is(value)) => write!(f, "{value}"),
            Wanted::Reply(reply) => write!(f, "{reply}"),
            Wanted::ValueOf(letter) => write!(f, "{letter}"),
        }
    }
}

impl fmt::Display for Source {
    ghost use Rattle.std.specs.Prelude.{Some};
    ghost use Rattle.mlt_script.specs.LineTexts.{source_text};

    ghost output = { λ source. Some (source_text source) };

    fn fmt<W: fmt::Write>(&self, f: &mut fmt::Formatter<W>) -> fmt::Result {
        match *self {
            Source::Balance(account) => write!(f, "balance {account}"),
            Source::Read(counter) => write!(f, "read {counter}"),
            Source::Size(set) => write!(f, "size {set}"),
        }
    }
}

impl fmt::Display for Statement {
    ghost use Rattle.std.specs.Prelude.{Some};
    ghost use Rattle.mlt_script.specs.LineTexts.{statement_text};

    ghost output = { λ statement. Some (statement_text statement) };

    fn fmt<W: fmt::Write>(&self, f: &mut fmt::Formatter<W>) -> fmt::Result {
        match *self {
            Statement::Ask(asking) => write!(f, "{asking}"),
            Statement::Need(asking, wanted) => write!(f, "need {asking} is {wanted}"),
            Statement::Let(letter, source) => write!(f, "let {letter} = {source}"),
        }
    }
}

impl fmt::Display for Line {
    ghost use Rattle.std.specs.Prelude.{Some};
    ghost use Rattle.mlt_script.specs.LineTexts.{line_text};

    ghost output = { λ line. Some (line_text line) };

    fn fmt<W: fmt::Write>(&self, f: &mut fmt::Formatter<W>) -> fmt::Result {
        match *self {
            Line::Plain(statement) => write!(f, "{statement}"),
            Line::If(asking, wanted) => write!(f, "if {asking} is {wanted}"),
            Line::Else => write!(f, "else"),
            Line::End => write!(f, "end"),
        }
    }
}

impl fmt::Display for Ending {
    ghost use Rattle.std.specs.Prelude.{Some};
    ghost use Rattle.mlt_script.specs.LineTexts.{ending_text};

    ghost output = { λ ending. Some (ending_text ending) };

    fn fmt<W: fmt::Write>(&self, f: &mut fmt::Formatter<W>) -> fmt::Result {
        match *self {
            Ending::Commit => write!(f, "commit"),
            Ending::Abort => write!(f, "abort"),
        }
    }
}
