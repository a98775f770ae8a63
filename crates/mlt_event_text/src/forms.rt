//! The forms of a line.

ghost use Rattle.std.specs.Prelude.{◌≡◌, option_map};
ghost use Rattle.mlt_event_text.specs.Forms.{alone, asked_by, asked_of_tx, number_at, once, only_op, step_count};
ghost use Rattle.mlt_text_words.specs.Words.{raw_words, words_of};

use mlt_event::Event;
use mlt_object_kinds::ObjOp;
use mlt_script::read_op;
use mlt_text_words::{next_raw_word, read_number};
use mlt_types::TxId;

/// The event that a line asks for, and how many times.
#[derive(Clone, Copy)]
pub struct Asked {
    pub event: Event,
    /// From 1 to 1,000, and 1 of any other event than a step.
    pub times: u16,
}

fn once(event: Event) -> Asked
    ensures { result ≡ once event }
{
    Asked { event, times: 1 }
}

// A number, and a text of the words after it.
#[tactic(auto, unfolding(crate::specs::Forms::number_at))]
fn number(text: &[u8]) -> Option<(u64, &[u8])>
    ensures { option_map (λ x. (x.0, raw_words x.1.now)) result ≡ number_at (raw_words text.now) }
{
    let (word, rest) = next_raw_word(text)?;
    Some((read_number(word)?, rest))
}

// The event once, where no word is left.
fn last(event: Event, rest: &[u8]) -> Option<Asked>
    ensures { result ≡ alone event (raw_words rest.now) }
{
    match next_raw_word(rest) {
        None => Some(once(event)),
        Some(_) => None,
    }
}

/// The operation that is all the words, its amount a number. Takes no memory.
#[tactic(auto, unfolding(crate::specs::Forms::only_op, mlt_text_words::specs::Words::words_of))]
pub fn read_only_op(text: &[u8]) -> Option<ObjOp>
    ensures { result ≡ only_op (words_of text.now) }
{
    let (op, rest) = read_op(text)?;
    match next_raw_word(rest) {
        None => Some(op),
        Some(_) => None,
    }
}

// How many steps: one where there is no word, and else the number that is the only word.
#[tactic(auto, unfolding(crate::specs::Forms::step_count))]
fn count(text: &[u8]) -> Option<u16>
    ensures { result ≡ step_count (raw_words text.now) }
{
    let Some((word, rest)) = next_raw_word(text) else {
        return Some(1);
    };
    if next_raw_word(rest).is_some() {
        return None;
    }
    match read_number(word)? {
        times @ 1..=1000 => Some(times as u16),
        _ => None,
    }
}

// What a line asks for whose first word is this, and which goes on with the number of a transaction. Words of
// different lengths differ, so their bytes are not compared.
#[tactic(auto, unfolding(crate::specs::Forms::asked_of_tx, mlt_text_words::specs::Words::words_of))]
fn asked_of_tx(word: &[u8], tx: TxId, rest: &[u8]) -> Option<Asked>
    ensures { result ≡ asked_of_tx word.now tx (raw_words rest.now) }
{
    if word == b"step".as_slice() {
        Some(Asked {
            event: Event::Step(tx),
            times: count(rest)?,
        })
    } else if word == b"call".as_slice() {
        Some(once(Event::Call(tx, read_only_op(rest)?)))
    } else if word == b"whole".as_slice() {
        Some(once(Event::Whole(tx, read_only_op(rest)?)))
    } else if word == b"cancel".as_slice() {
        last(Event::Cancel(tx), rest)
    } else if word == b"commit".as_slice() {
        last(Event::Commit(tx), rest)
    } else if word == b"abort".as_slice() {
        last(Event::Abort(tx), rest)
    } else if word == b"undo".as_slice() {
        last(Event::WholeUndo(tx), rest)
    } else {
        None
    }
}

/// What a line asks for whose first word is this, if it has one of the forms. The text is that behind the word.
#[tactic(auto, unfolding(crate::specs::Forms::asked_by))]
pub fn asked_by(word: &[u8], rest: &[u8]) -> Option<Asked>
    ensures { result ≡ asked_by word.now (raw_words rest.now) }
{
    if word == b"begin".as_slice() {
        return last(Event::Begin, rest);
    }
    let (tx, rest) = number(rest)?;
    asked_of_tx(word, TxId(tx), rest)
}
