//! What answers the calls of a script.

ghost use Rattle.mlt_script_serial.specs.Calls.{answer_by};

use crate::answering::Answering;
use crate::call::{DeskAnswer, DeskCall};
use mlt_types::{Refusal, TxId};

/// Where scripts are run. It answers their operations, and begins and ends their transactions. Each call and its answer are
/// one of the moves that the desk states.
pub trait Desk: Answering {
    /// Begins a transaction, and answers its number.
    ///
    /// # Errors
    /// Why none begins.
    fn begin(&mut self) -> Result<TxId, Refusal>
        ensures { Self.moves self.old DeskCall.Begin
            (answer_by DeskAnswer.Begun result) self.new };

    /// Commits, and answers the number of the commit.
    ///
    /// # Errors
    /// Why it does not commit.
    fn commit(&mut self, tx: TxId) -> Result<u64, Refusal>
        ensures { Self.moves self.old (DeskCall.Commit tx)
            (answer_by DeskAnswer.Committed result) self.new };

    /// Takes the transaction back.
    fn abort(&mut self, tx: TxId)
        ensures { Self.moves self.old (DeskCall.Abort tx) DeskAnswer.Aborted self.new };
}
