//! The words of a line of a trace.

ghost use Rattle.std.specs.Prelude.{◌≡◌, option_map};
ghost use Rattle.mlt_text_words.specs.Words.{raw_words, words_of};
ghost use Rattle.mlt_trace_check.specs.Words.{done_at, positive_at};

use mlt_object_kinds::Done;
use mlt_script::{read_op, read_reply};
use mlt_text_words::{next_raw_word, read_number};

// A number from 1 on, and the text after it.
#[tactic(auto, unfolding(crate::specs::Words::positive_at))]
pub(crate) fn positive(text: &[u8]) -> Option<(u64, &[u8])>
    ensures { option_map (λ x. (x.0, raw_words x.1.now)) result ≡ positive_at (raw_words text.now) }
{
    let (word, rest) = next_raw_word(text)?;
    match read_number(word)? {
        0 => None,
        value => Some((value, rest)),
    }
}

// An operation and its reply, where no word is left after them.
#[tactic(auto, unfolding(crate::specs::Words::done_at, mlt_text_words::specs::Words::words_of))]
pub(crate) fn done(text: &[u8]) -> Option<Done>
    ensures { result ≡ done_at (words_of text.now) }
{
    let (op, rest) = read_op(text)?;
    let (reply, rest) = read_reply(rest)?;
    match next_raw_word(rest) {
        None => Some(Done::new(op, reply)),
        Some(_) => None,
    }
}
