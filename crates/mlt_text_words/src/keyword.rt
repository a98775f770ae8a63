//! Keywords, and what a word of a line is.

ghost use Rattle.std.specs.Prelude.{◌≡◌, find};
ghost use Rattle.mlt_text_words.specs.Words.{spelling, keyword_of, letter_word, word_of, all_keywords, has_ends};

use crate::letter::{Letter, find_letter};
use crate::number::number;

/// A word with a meaning of its own.
#[derive(Clone, Copy)]
pub enum Keyword {
    Begin,
    Commit,
    Abort,
    Need,
    Let,
    If,
    Else,
    End,
    Is,
    Equals,
    Open,
    Close,
    Deposit,
    Withdraw,
    Balance,
    Add,
    Remove,
    Has,
    Up,
    Down,
    Read,
    Size,
    Opened,
    Exists,
    Closed,
    NotEmpty,
    Done,
    Over,
    Short,
    Missing,
    Added,
    Present,
    Removed,
    Absent,
    Yes,
    No,
}

/// What a word of a line is.
#[derive(Clone, Copy)]
pub enum Word {
    /// A word with a meaning of its own.
    Key(Keyword),
    /// The name of a variable.
    Variable(Letter),
    /// 1 to 20 digits of a number below 2^64.
    Number(u64),
    /// None of these.
    Other,
}

impl Keyword {
    /// How the keyword is written.
    pub fn text(self) -> &'static [u8]
        ensures { result.now ≡ spelling self }
    {
        match self {
            Keyword::Begin => b"begin",
            Keyword::Commit => b"commit",
            Keyword::Abort => b"abort",
            Keyword::Need => b"need",
            Keyword::Let => b"let",
            Keyword::If => b"if",
            Keyword::Else => b"else",
            Keyword::End => b"end",
            Keyword::Is => b"is",
            Keyword::Equals => b"=",
            Keyword::Open => b"open",
            Keyword::Close => b"close",
            Keyword::Deposit => b"deposit",
            Keyword::Withdraw => b"withdraw",
            Keyword::Balance => b"balance",
            Keyword::Add => b"add",
            Keyword::Remove => b"remove",
            Keyword::Has => b"has",
            Keyword::Up => b"up",
            Keyword::Down => b"down",
            Keyword::Read => b"read",
            Keyword::Size => b"size",
            Keyword::Opened => b"opened",
            Keyword::Exists => b"exists",
            Keyword::Closed => b"closed",
            Keyword::NotEmpty => b"notempty",
            Keyword::Done => b"done",
            Keyword::Over => b"over",
            Keyword::Short => b"short",
            Keyword::Missing => b"missing",
            Keyword::Added => b"added",
            Keyword::Present => b"present",
            Keyword::Removed => b"removed",
            Keyword::Absent => b"absent",
            Keyword::Yes => b"yes",
            Keyword::No => b"no",
        }
    }
}

// The only keyword that has this first byte, this length and this last byte.
fn candidate(first: u8, length: usize, last: u8) -> Option<Keyword>
    ensures { result ≡ find (has_ends first length last) all_keywords }
{
    match (first, length, last) {
        (b'=', 1, b'=') => Some(Keyword::Equals),
        (b'a', 3, b'd') => Some(Keyword::Add),
        (b'a', 5, b't') => Some(Keyword::Abort),
        (b'a', 5, b'd') => Some(Keyword::Added),
        (b'a', 6, b't') => Some(Keyword::Absent),
        (b'b', 5, b'n') => Some(Keyword::Begin),
        (b'b', 7, b'e') => Some(Keyword::Balance),
        (b'c', 5, b'e') => Some(Keyword::Close),
        (b'c', 6, b't') => Some(Keyword::Commit),
        (b'c', 6, b'd') => Some(Keyword::Closed),
        (b'd', 4, b'n') => Some(Keyword::Down),
        (b'd', 4, b'e') => Some(Keyword::Done),
        (b'd', 7, b't') => Some(Keyword::Deposit),
        (b'e', 3, b'd') => Some(Keyword::End),
        (b'e', 4, b'e') => Some(Keyword::Else),
        (b'e', 6, b's') => Some(Keyword::Exists),
        (b'h', 3, b's') => Some(Keyword::Has),
        (b'i', 2, b'f') => Some(Keyword::If),
        (b'i', 2, b's') => Some(Keyword::Is),
        (b'l', 3, b't') => Some(Keyword::Let),
        (b'm', 7, b'g') => Some(Keyword::Missing),
        (b'n', 2, b'o') => Some(Keyword::No),
        (b'n', 4, b'd') => Some(Keyword::Need),
        (b'n', 8, b'y') => Some(Keyword::NotEmpty),
        (b'o', 4, b'n') => Some(Keyword::Open),
        (b'o', 4, b'r') => Some(Keyword::Over),
        (b'o', 6, b'd') => Some(Keyword::Opened),
        (b'p', 7, b't') => Some(Keyword::Present),
        (b'r', 4, b'd') => Some(Keyword::Read),
        (b'r', 6, b'e') => Some(Keyword::Remove),
        (b'r', 7, b'd') => Some(Keyword::Removed),
        (b's', 4, b'e') => Some(Keyword::Size),
        (b's', 5, b't') => Some(Keyword::Short),
        (b'u', 2, b'p') => Some(Keyword::Up),
        (b'w', 8, b'w') => Some(Keyword::Withdraw),
        (b'y', 3, b's') => Some(Keyword::Yes),
        _ => None,
    }
}

/// The keyword that is spelled so. It is compared with one keyword at most.
pub fn find_keyword(word: &[u8]) -> Option<Keyword>
    ensures { result ≡ keyword_of word.now }
{
    if word.is_empty() {
        return None;
    }
    let keyword = candidate(word[0], word.len(), word[word.len() - 1])?;
    if keyword.text() == word {
        Some(keyword)
    } else {
        None
    }
}

fn variable(word: &[u8]) -> Option<Letter>
    ensures { result ≡ letter_word word.now }
{
    match word {
        [byte] => find_letter(*byte),
        _ => None,
    }
}

/// What a word is.
#[tactic(auto, unfolding(crate::specs::Words::word_of))]
pub fn classify(word: &[u8]) -> Word
    ensures { result ≡ word_of word.now }
{
    if let Some(keyword) = find_keyword(word) {
        return Word::Key(keyword);
    }
    if let Some(letter) = variable(word) {
        return Word::Variable(letter);
    }
    match number(word) {
        Some(value) => Word::Number(value),
        None => Word::Other,
    }
}
