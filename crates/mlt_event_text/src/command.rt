//! What a line asks.

ghost use Rattle.std.specs.Prelude.{◌≡◌};
ghost use Rattle.mlt_event_text.specs.Commands.{command_of, command_word};

use crate::forms::read_only_op;
use mlt_object_kinds::ObjOp;
use mlt_text_words::next_raw_word;

/// What a line of a session asks.
#[derive(Clone, Copy, Debug, PartialEq, Eq)]
pub enum Command {
    /// A transaction is to begin.
    Begin,
    /// An operation, its amount a number.
    Op(ObjOp),
    /// The transaction is to commit.
    Commit,
    /// The transaction is to be taken back.
    Abort,
    /// The session is to end.
    Quit,
    /// Spaces and tabs alone, or no byte.
    Blank,
    /// None of these.
    Other,
}

// What a word asks that is alone on its line.
fn read_word(word: &[u8]) -> Option<Command>
    ensures { result ≡ command_word word.now }
{
    if word == b"begin".as_slice() {
        Some(Command::Begin)
    } else if word == b"commit".as_slice() {
        Some(Command::Commit)
    } else if word == b"abort".as_slice() {
        Some(Command::Abort)
    } else if word == b"quit".as_slice() {
        Some(Command::Quit)
    } else {
        None
    }
}

/// What a line asks, without its LF and a CR before it. Takes no memory.
#[tactic(auto, unfolding(crate::specs::Commands::command_of))]
pub(crate) fn read_command(line: &[u8]) -> Command
    ensures { result ≡ command_of line.now }
{
    let Some((word, rest)) = next_raw_word(line) else {
        return Command::Blank;
    };
    if next_raw_word(rest).is_none() {
        if let Some(command) = read_word(word) {
            return command;
        }
    }
    match read_only_op(line) {
        Some(op) => Command::Op(op),
        None => Command::Other,
    }
}
