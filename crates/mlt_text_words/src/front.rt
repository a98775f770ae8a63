//! What stands at the front of a text, read in one pass over its bytes.

ghost use Rattle.std.specs.Prelude.{◌≡◌, ◌≢◌, ◌≤◌, ◌++◌, ℕ, List, length, take, drop, true, false, Some, None, IfSome, IfNone};
ghost use Rattle.std.specs.List.{list_all, position};
ghost use Rattle.std.specs.Str.Parse.{digits_value};
ghost use Rattle.mlt_text_words.specs.Fronts.{BeginsWithNumber, begins_with_digit, front_letters, is_no_letter};
ghost use Rattle.mlt_text_words.specs.Numbers.{is_digit};
ghost use Rattle.mlt_text_words.specs.Words.{keyword_of, spelling};

use crate::keyword::{Keyword, find_keyword};

/// The text behind these bytes, where it begins with them. `None` exactly where it does not. It is in line, so that bytes
/// which are written out at a call are compared one by one, without a loop.
#[inline(always)]
pub fn after<'a>(text: &'a [u8], bytes: &[u8]) -> Option<&'a [u8]>
    ensures some { IfSome result (λ rest. text.now ≡ bytes.now ++ rest.now) }
    ensures none { IfNone result ((rest : List ℕ) → text.now ≢ bytes.now ++ rest) }
{
    if text.len() < bytes.len() {
        return None;
    }
    for (at, byte) in bytes.iter().enumerate() {
        if text[at] != *byte {
            return None;
        }
    }
    Some(&text[bytes.len()..])
}

// The number that the digits at the front of a text write, and how many these are. The text has 19 bytes at most, so that
// no number of it is too great.
#[inline(always)]
fn digits_of_few(text: &[u8]) -> (u64, usize)
    requires { length text.now ≤ 19 }
    ensures length { result.1 ≤ length text.now }
    ensures digits { list_all is_digit (take result.1 text.now) ≡ true }
    ensures value { result.0 ≡ digits_value 10 (take result.1 text.now) }
    ensures stop { begins_with_digit (drop result.1 text.now) ≡ false }
{
    let mut value = 0u64;
    let mut end = 0;
    for byte in text {
        let digit = byte.wrapping_sub(b'0');
        if digit > 9 {
            return (value, end);
        }
        value = value * 10 + u64::from(digit);
        end += 1;
    }
    (value, end)
}

// The number that the digits at the front of a text write, all of them or the first 19, and how many these are.
#[inline(always)]
fn few_digits(text: &[u8]) -> (u64, usize)
    ensures length { result.1 ≤ length text.now }
    ensures few { result.1 ≤ 19 }
    ensures digits { list_all is_digit (take result.1 text.now) ≡ true }
    ensures value { result.0 ≡ digits_value 10 (take result.1 text.now) }
    ensures stop { begins_with_digit (drop result.1 text.now) ≡ true → result.1 ≡ 19 }
{
    let few = text.len().min(19);
    digits_of_few(&text[..few])
}

/// The number that the digits at the front of a text write, below 10^19, and the text behind them. Of more than 19
/// digits the first 19 are taken. `None` exactly where no digit stands there.
#[inline(always)]
pub fn front_number(text: &[u8]) -> Option<(u64, &[u8])>
    ensures some { IfSome result (λ x. BeginsWithNumber text.now x.0 x.1.now) }
    ensures none { IfNone result (begins_with_digit text.now ≡ false) }
{
    let (value, end) = few_digits(text);
    if end == 0 {
        None
    } else {
        Some((value, &text[end..]))
    }
}

// Where the first byte stands that is no small letter.
fn find_no_letter(text: &[u8]) -> Option<usize>
    ensures { result ≡ position is_no_letter text.now }
{
    text.iter()
        .position(|byte| !(*byte >= b'a' && *byte <= b'z'))
}

// The small letters at the front of a text, and the text behind them.
fn split_letters(text: &[u8]) -> (&[u8], &[u8])
    ensures letters { result.0.now ≡ front_letters text.now }
    ensures whole { text.now ≡ result.0.now ++ result.1.now }
{
    match find_no_letter(text) {
        Some(end) => (&text[..end], &text[end..]),
        None => (text, &[]),
    }
}

/// The keyword that all the small letters at the front of a text spell, and the text behind them. `None` exactly where
/// they spell none.
pub fn front_keyword(text: &[u8]) -> Option<(Keyword, &[u8])>
    ensures some { IfSome result (λ x. text.now ≡ spelling x.0 ++ x.1.now) }
    ensures letters { IfSome result (λ x. keyword_of (front_letters text.now) ≡ Some x.0) }
    ensures none { IfNone result (keyword_of (front_letters text.now) ≡ None) }
{
    let (letters, rest) = split_letters(text);
    let keyword = find_keyword(letters)?;
    Some((keyword, rest))
}
