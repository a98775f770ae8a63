//! The words of a line.

ghost use Rattle.std.specs.Prelude.{◌≡◌, is_some, option_map, Some, IfSome};
ghost use Rattle.std.specs.List.{position};
ghost use Rattle.mlt_text_words.specs.Words.{words_of, word_at, number_at, raw_words, first_word, is_blank, is_black, is_over};

use crate::keyword::{Word, classify};
use crate::number::digits;

fn find_word(text: &[u8]) -> Option<usize>
    ensures { result ≡ position is_black text.now }
{
    text.iter().position(|byte| *byte != b' ' && *byte != b'\t')
}

fn find_blank(text: &[u8]) -> Option<usize>
    ensures { result ≡ position is_blank text.now }
{
    text.iter().position(|byte| *byte == b' ' || *byte == b'\t')
}

/// Whether a text has a word. It is not told what the word is, which takes longer.
pub fn has_word(text: &[u8]) -> bool
    ensures { result ≡ is_some (word_at (words_of text.now)) }
{
    find_word(text).is_some()
}

/// The bytes of the first word of a text, and the text after it. Words are parted by spaces and tabs.
pub fn next_raw_word(text: &[u8]) -> Option<(&[u8], &[u8])>
    ensures { option_map (λ x. (x.0.now, raw_words x.1.now)) result
        ≡ first_word (raw_words text.now) }
{
    let start = find_word(text)?;
    let front = &text[start..];
    match find_blank(front) {
        Some(end) => Some((&front[..end], &front[end..])),
        None => Some((front, &[])),
    }
}

/// The first word of a text as what it is, and the text after it.
pub fn next_word(text: &[u8]) -> Option<(Word, &[u8])>
    ensures { option_map (λ x. (x.0, words_of x.1.now)) result ≡ word_at (words_of text.now) }
{
    let (word, rest) = next_raw_word(text)?;
    Some((classify(word), rest))
}

// Whether a word that stands before this text ends there.
fn is_over(text: &[u8]) -> bool
    ensures { result ≡ is_over text.now }
{
    match text.first() {
        Some(byte) => *byte == b' ' || *byte == b'\t',
        None => true,
    }
}

// The number that is the first word of a text, where it has few digits, and the text after it. It goes over the digits
// once.
fn short_number(text: &[u8]) -> Option<(u64, &[u8])>
    ensures { IfSome result
        (λ x. word_at (words_of text.now) ≡ Some (Word.Number x.0, words_of x.1.now)) }
{
    let start = find_word(text)?;
    let front = &text[start..];
    let (value, end) = digits(front);
    let rest = &front[end..];
    if end > 0 && end <= 20 && is_over(rest) {
        Some((value, rest))
    } else {
        None
    }
}

/// The first word of a text, where it is a number, and the text after it.
pub fn next_number(text: &[u8]) -> Option<(u64, &[u8])>
    ensures { option_map (λ x. (x.0, words_of x.1.now)) result ≡ number_at (words_of text.now) }
{
    if let Some(found) = short_number(text) {
        return Some(found);
    }
    match next_word(text)? {
        (Word::Number(number), rest) => Some((number, rest)),
        _ => None,
    }
}
