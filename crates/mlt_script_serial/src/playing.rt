//! A script that is played.

ghost use Rattle.std.specs.Prelude.{◌≡◌, [], vec_capacity};
ghost use Rattle.mlt_script_serial.specs.Follows.{AsksAtMost, questions_of_script};
ghost use Rattle.mlt_script_serial.specs.Plays.{PlaysAt};

use crate::answering::Answering;
use crate::cursor::{Cursor, Next};
use mlt_object_kinds::Done;
use mlt_script::{Ending, Script};
use mlt_types::{Refusal, TxId};

/// Asks what the script asks, until it ends or an operation is refused; what was done is added to the list. There is room
/// for all replies before it begins, so that no reply is lost.
///
/// # Errors
/// Why an operation was not done.
pub fn play<A: Answering>(
    desk: &mut A,
    tx: TxId,
    script: &Script,
    done: &mut Vec<Done>,
) -> Result<Ending, Refusal>
    requires empty { done.old.items ≡ [] }
    requires room { AsksAtMost (vec_capacity done.old) (questions_of_script script.now) }
    ensures { PlaysAt A.moves script.now tx desk.old done.new.items result desk.new }
{
    let mut cursor = Cursor::new(script);
    while let Next::Op(op) = cursor.next() {
        let reply = desk.operation(tx, op)?;
        done.push_reserved(Done::new(op, reply));
        cursor.tell(reply);
    }
    match cursor.next() {
        Next::Commit => Ok(Ending::Commit),
        _ => Ok(Ending::Abort),
    }
}
