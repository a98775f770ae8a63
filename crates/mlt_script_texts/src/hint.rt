//! What is noticed of a line that has none of its forms.

use crate::forms::{OPERATIONS, OTHER_NAMES, TextKind, find_nearest, find_row};
use crate::shown::show_front;
use crate::words::{WordAt, is_one_of, words_of};
use mlt_object_kinds::MAX_BALANCE;
use mlt_script::read_reply;
use mlt_text_words::{Word, next_number, next_word};
use std::alloc::{AllocError, Global};

// What is noticed of a line.
#[derive(Clone, Copy)]
enum Hint<'a> {
    // This, if anything, and at no word.
    OfLine(&'static str),
    // This, at a word.
    AtWord(WordAt<'a>, &'static str),
    // This of a word.
    OfWord(WordAt<'a>, &'static str),
    // A word is no reply: the operation gets others.
    NoReply(WordAt<'a>, &'static str),
    // Another word may be meant.
    Meant(WordAt<'a>, &'static str),
}

/// Appends what is noticed of a line that has none of the forms of a text of this kind: that it is of another kind of text, or
/// else what is odd of its words. Returns how many bytes of the line stand before the word at which that is, if it is at one.
pub(crate) fn push_hint(
    alloc: Global,
    text: &mut String,
    kind: TextKind,
    line: &[u8],
) -> Result<Option<usize>, AllocError> {
    let words = words_of(alloc, line)?;
    match find_hint(alloc, kind, words.as_slice())? {
        Hint::OfLine(said) => {
            text.push_str(said)?;
            Ok(None)
        }
        Hint::AtWord(word, said) => {
            text.push_str(said)?;
            Ok(Some(word.at))
        }
        Hint::OfWord(word, said) => {
            let shown = show_front(alloc, word.text)?;
            write!(text, "`{shown}` {said}; ")?;
            Ok(Some(word.at))
        }
        Hint::NoReply(word, replies) => {
            let shown = show_front(alloc, word.text)?;
            write!(text, "`{shown}` is no reply: {replies}; ")?;
            Ok(Some(word.at))
        }
        Hint::Meant(word, name) => {
            write!(text, "did you mean `{name}`? ")?;
            Ok(Some(word.at))
        }
    }
}

fn find_hint<'a>(
    alloc: Global,
    kind: TextKind,
    words: &[WordAt<'a>],
) -> Result<Hint<'a>, AllocError> {
    let Some(first) = words.first() else {
        return Ok(Hint::OfLine(""));
    };
    if let Some(said) = other_text(kind, first.text, words.len() > 1) {
        return Ok(Hint::OfLine(said));
    }
    if kind.find_form(first.text).is_none() {
        return unknown_word(alloc, Some(kind), *first);
    }
    let place = operation_place(kind, first.text);
    let operation = place.and_then(|at| words.get(at));
    let replies = operation.and_then(|word| find_row(OPERATIONS, word.text));
    let found = match kind {
        TextKind::Scripts if is_one_of(first.text, &["let"]) => let_hint(words),
        TextKind::Scripts if is_one_of(first.text, &["if", "need"]) => wanted_hint(words, replies),
        TextKind::Trace if is_one_of(first.text, &["op"]) && words.len() > 4 => {
            reply_hint(words.last(), replies)
        }
        TextKind::Base => amount_hint(first.text, words.get(2)),
        _ => None,
    };
    if let Some(hint) = found {
        return Ok(hint);
    }
    for (at, word) in words.iter().enumerate().skip(1) {
        if Some(at) == place && replies.is_none() {
            return unknown_word(alloc, None, *word);
        }
        if let Some(said) = variable_text(kind, word.text).or(number_text(word.text)) {
            return Ok(Hint::OfWord(*word, said));
        }
    }
    Ok(Hint::OfLine(""))
}

// Which other kind of text a line is of by its first word, if it is of one. Only a `begin` also goes by whether more words follow.
fn other_text(kind: TextKind, first: &[u8], has_more: bool) -> Option<&'static str> {
    let is_begin = is_one_of(first, &["begin"]);
    match kind {
        TextKind::Schedule if is_begin && has_more => {
            Some("this begins a script for `run` or a trace for `check`; ")
        }
        TextKind::Trace if is_begin && !has_more => {
            Some("this begins a script for `solo` and `run`, or a schedule for `steps`; ")
        }
        _ if kind.find_form(first).is_some() => None,
        _ if TextKind::Scripts.find_form(first).is_some() => {
            Some("this is a line of a script for `solo` and `run`; ")
        }
        _ if TextKind::Schedule.find_form(first).is_some() => {
            Some("this is a line of a schedule for `steps`; ")
        }
        _ if TextKind::Trace.find_form(first).is_some() => {
            Some("this is a line of a trace for `check`; ")
        }
        _ if TextKind::Base.find_form(first).is_some() => {
            Some("this is a line of a base for `--load`; ")
        }
        _ => None,
    }
}

// Of a word with which no line of this kind begins; or, of no kind, of one that is no operation.
fn unknown_word<'a>(
    alloc: Global,
    kind: Option<TextKind>,
    word: WordAt<'a>,
) -> Result<Hint<'a>, AllocError> {
    if word.text.starts_with(b"#") {
        return Ok(match kind {
            Some(TextKind::Trace) => Hint::AtWord(word, "traces have no comments; "),
            _ => Hint::AtWord(word, "comments have lines of their own; "),
        });
    }
    let mut lower = String::new(alloc);
    for byte in word.text {
        lower.push(char::from(byte.to_ascii_lowercase()))?;
    }
    let table = kind.map_or(OPERATIONS, TextKind::forms);
    if find_row(table, lower.as_bytes()).is_some() {
        return Ok(Hint::AtWord(word, "words are in lower case; "));
    }
    if let Some(said) = find_row(OTHER_NAMES, lower.as_bytes()) {
        return Ok(Hint::OfWord(word, said));
    }
    Ok(match (find_nearest(alloc, table, lower.as_str())?, kind) {
        (Some(name), _) => Hint::Meant(word, name),
        (None, Some(_)) => Hint::OfWord(word, "begins no line here"),
        (None, None) => Hint::OfWord(word, "is no operation"),
    })
}

// At which word behind the first one of a line of this kind an operation stands.
fn operation_place(kind: TextKind, first: &[u8]) -> Option<usize> {
    match kind {
        TextKind::Scripts if is_one_of(first, &["if", "need"]) => Some(1),
        TextKind::Scripts if is_one_of(first, &["let"]) => Some(3),
        TextKind::Schedule if is_one_of(first, &["call", "whole"]) => Some(2),
        TextKind::Trace if is_one_of(first, &["op"]) => Some(2),
        _ => None,
    }
}

// What is odd of the balance of an account, or of the value of a counter.
fn amount_hint<'a>(first: &[u8], amount: Option<&WordAt<'a>>) -> Option<Hint<'a>> {
    let amount = amount?;
    let (number, _) = next_number(amount.text)?;
    if is_one_of(first, &["account"]) && number > MAX_BALANCE {
        return Some(Hint::OfWord(*amount, "is too large: an account has at most 10^18 coins"));
    }
    if is_one_of(first, &["counter"]) && number == 0 {
        return Some(Hint::OfWord(*amount, "is left out: a counter at 0 has no line"));
    }
    None
}

// What is odd of a `let`.
fn let_hint<'a>(words: &[WordAt<'a>]) -> Option<Hint<'a>> {
    let variable = words.get(1)?;
    if !matches!(next_word(variable.text), Some((Word::Variable(_), _))) {
        let said = "is no variable: variables are single letters";
        return Some(Hint::OfWord(*variable, said));
    }
    let sign = words.iter().skip(4).find(|word| is_sign(word.text))?;
    Some(Hint::AtWord(*sign, "there is no arithmetic; "))
}

fn is_sign(word: &[u8]) -> bool {
    matches!(word, b"+" | b"-" | b"*" | b"/" | b"%")
}

// What is odd of an `if` or a `need`, whose operation gets these replies.
fn wanted_hint<'a>(words: &[WordAt<'a>], replies: Option<&'static str>) -> Option<Hint<'a>> {
    if let Some(word) = words.iter().find(|word| is_comparison(word.text)) {
        return Some(Hint::OfWord(*word, "is not used: compare replies by `is`"));
    }
    let at = words.iter().position(|word| word.text == b"is".as_slice())?;
    reply_hint(words.get(at.saturating_add(1)), replies)
}

fn is_comparison(word: &[u8]) -> bool {
    matches!(
        word,
        b"=" | b"==" | b"!=" | b"<>" | b"<" | b">" | b"<=" | b">="
    )
}

// Of a word that stands where a reply does, if it is none; the operation gets these.
fn reply_hint<'a>(word: Option<&WordAt<'a>>, replies: Option<&'static str>) -> Option<Hint<'a>> {
    let word = word?;
    if is_reply(word.text) {
        return None;
    }
    Some(Hint::NoReply(*word, replies?))
}

fn is_reply(word: &[u8]) -> bool {
    let is_value = matches!(
        next_word(word),
        Some((Word::Variable(_) | Word::Number(_), _))
    );
    is_value || word == b"is".as_slice() || read_reply(word).is_some()
}

// That a word is a variable, in a text that has none.
fn variable_text(kind: TextKind, word: &[u8]) -> Option<&'static str> {
    match (kind, next_word(word)) {
        (TextKind::Scripts, _) => None,
        (_, Some((Word::Variable(_), _))) => Some("is a variable, which scripts alone have"),
        _ => None,
    }
}

// What is odd of a word that stands where a number does.
fn number_text(word: &[u8]) -> Option<&'static str> {
    let Some((Word::Other, _)) = next_word(word) else {
        return None;
    };
    let (first, rest) = word.split_first()?;
    let is_numeral = !rest.is_empty() && rest.iter().all(u8::is_ascii_digit);
    Some(match *first {
        b'#' => "begins a comment: comments have lines of their own, and traces have none",
        b'-' | b'+' if is_numeral => "has a sign: numbers have none",
        b'0'..=b'9' if is_numeral => {
            "is too large: numbers have at most 20 digits, and are below 2^64"
        }
        b'0'..=b'9' => "is no whole number",
        _ => "is no number",
    })
}
