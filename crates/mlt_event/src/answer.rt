//! What a step of a transaction answers.

use mlt_object_kinds::ObjReply;
use mlt_types::{PageNo, Refusal, TxId};
use std::fmt;

/// The answer to a step of a transaction.
#[derive(Clone, Copy, Debug, PartialEq, Eq)]
pub enum Answer {
    /// Its operation, or inverse, goes on.
    Going,
    /// The page is held by this transaction, the lowest whose lock stands against the one asked for. Nothing has changed.
    Waiting { page: PageNo, by: TxId },
    /// This transaction holds an operation that clashes, the lowest that does. The operation is to be run anew.
    Blocked { by: TxId },
    /// The operation is done, with this reply.
    Done(ObjReply),
    /// The last operation that stood is taken back, and others stand.
    Undone,
    /// The last operation that stood is taken back, and the transaction is closed.
    Aborted,
    /// There is no room (`NoRoom`) or no memory (`OutOfMemory`). The operation is dropped.
    Refused(Refusal),
}

impl fmt::Display for Answer {
    ghost use Rattle.std.specs.Prelude.{Some};
    ghost use Rattle.mlt_event.specs.Texts.{answer_text};

    ghost output = { λ answer. Some (answer_text answer) };

    fn fmt<W: fmt::Write>(&self, f: &mut fmt::Formatter<W>) -> fmt::Result {
        match *self {
            Answer::Going => write!(f, "going"),
            Answer::Waiting { by: TxId(tx), .. } => write!(f, "waiting by {tx}"),
            Answer::Blocked { by: TxId(tx) } => write!(f, "blocked by {tx}"),
            Answer::Done(reply) => write!(f, "done {reply}"),
            Answer::Undone => write!(f, "undone"),
            Answer::Aborted => write!(f, "aborted"),
            Answer::Refused(refusal) => {
                let number = refusal.number();
                let name = refusal.name();
                write!(f, "refused {number} {name}")
            }
        }
    }
}
