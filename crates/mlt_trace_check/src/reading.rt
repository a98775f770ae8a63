//! What a line of a trace says.

ghost use Rattle.std.specs.Prelude.{◌≡◌, ◌<◌, ◌∷◌, length};
ghost use Rattle.mlt_text_words.specs.Lines.{Raw, lines};
ghost use Rattle.mlt_text_words.specs.ReadLines.{Tells};
ghost use Rattle.mlt_trace_check.specs.Readings.{alone, item_of, item_or_fault, item_with, reading};
ghost use Rattle.mlt_text_words.specs.Words.{raw_words};

use crate::plain::plain_item;
use crate::words::{done, positive};
use mlt_text_words::{LineText, next_raw_word, read_line};
use mlt_trace::TraceItem;
use mlt_types::{TraceCause, TxId};

/// What a line is by itself.
#[derive(Clone, Copy)]
pub enum TraceReading {
    /// A fault, which is Line, Cut or Words.
    Bad(TraceCause),
    /// An item.
    Says(TraceItem),
}

// The item, where no word is left.
fn last(item: TraceItem, rest: &[u8]) -> Option<TraceItem>
    ensures { result ≡ alone item (raw_words rest.now) }
{
    match next_raw_word(rest) {
        None => Some(item),
        Some(_) => None,
    }
}

// The item of a line whose first word is this, and which goes on with a transaction's number.
#[tactic(auto, unfolding(crate::specs::Readings::item_with, mlt_text_words::specs::Words::words_of))]
fn item_after(word: &[u8], tx: TxId, rest: &[u8]) -> Option<TraceItem>
    ensures { result ≡ item_with word.now tx (raw_words rest.now) }
{
    if word == b"begin".as_slice() {
        last(TraceItem::Begin(tx), rest)
    } else if word == b"op".as_slice() {
        Some(TraceItem::Op(tx, done(rest)?))
    } else if word == b"back".as_slice() {
        last(TraceItem::Back(tx), rest)
    } else if word == b"commit".as_slice() {
        let (number, rest) = positive(rest)?;
        last(TraceItem::Commit(tx, number), rest)
    } else if word == b"abort".as_slice() {
        last(TraceItem::Abort(tx), rest)
    } else {
        None
    }
}

// The item of a line of one of the five forms.
#[tactic(auto, unfolding(crate::specs::Readings::item_of))]
fn read_item(line: &[u8]) -> Option<TraceItem>
    ensures { result ≡ item_of (raw_words line.now) }
{
    let (word, rest) = next_raw_word(line)?;
    let (tx, rest) = positive(rest)?;
    item_after(word, TxId(tx), rest)
}

// What the bytes of a line say, without its end.
fn read_words(line: &[u8]) -> TraceReading
    ensures { result ≡ item_or_fault (item_of (raw_words line.now)) }
{
    match read_item(line) {
        Some(item) => TraceReading::Says(item),
        None => TraceReading::Bad(TraceCause::Words),
    }
}

// What a line is.
#[tactic(auto, unfolding(crate::specs::Readings::reading))]
fn said(line: LineText) -> TraceReading
    ensures { (raw : Raw) → Tells line.entry raw → result ≡ reading raw }
{
    match line {
        LineText::Allowed(bytes, true) => read_words(bytes),
        LineText::Allowed(_, false) => TraceReading::Bad(TraceCause::Cut),
        LineText::TooLong | LineText::Faulty(_) => TraceReading::Bad(TraceCause::Line),
    }
}

/// What the first line of a text is, and the text after it.
pub fn read_first(text: &[u8]) -> (TraceReading, &[u8])
    requires { 0 < length text.now }
    ensures first { (raw : Raw) × (lines text.now ≡ raw ∷ lines result.1.now)
        × (result.0 ≡ reading raw) }
    ensures less { length result.1.now < length text.now }
{
    if let Some((item, rest)) = plain_item(text) {
        return (TraceReading::Says(item), rest);
    }
    let (line, rest) = read_line(text);
    (said(line), rest)
}
