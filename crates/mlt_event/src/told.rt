//! What events are told.

use crate::answer::Answer;
use mlt_types::{Refusal, TxId};
use std::fmt;

/// The answer to an event.
#[derive(Clone, Copy, Debug, PartialEq, Eq)]
pub enum Told {
    /// The transaction has begun, under this number.
    Begun(TxId),
    /// The operation is pending.
    Called,
    /// The answer to a step, or to the last step of a whole operation or abort.
    Answered(Answer),
    /// The operation is dropped.
    Cancelled,
    /// The transaction has committed. Its commit has this number, from 1.
    Committed(u64),
    /// The abort has begun. Where the transaction had nothing to take back, it is closed at once, and this is `true`.
    Aborting(bool),
    /// The event is refused, and nothing is done.
    Refused(Refusal),
}

impl fmt::Display for Told {
    ghost use Rattle.std.specs.Prelude.{Some};
    ghost use Rattle.mlt_event.specs.Texts.{tell_text};

    ghost output = { λ told. Some (tell_text told) };

    fn fmt<W: fmt::Write>(&self, f: &mut fmt::Formatter<W>) -> fmt::Result {
        match *self {
            Told::Begun(TxId(tx)) => write!(f, "begun {tx}"),
            Told::Called => write!(f, "called"),
            Told::Answered(answer) => write!(f, "{answer}"),
            Told::Cancelled => write!(f, "cancelled"),
            Told::Committed(number) => write!(f, "committed {number}"),
            Told::Aborting(true) => write!(f, "aborted"),
            Told::Aborting(false) => write!(f, "aborting"),
            Told::Refused(refusal) => {
                let answer = Answer::Refused(refusal);
                write!(f, "{answer}")
            }
        }
    }
}
