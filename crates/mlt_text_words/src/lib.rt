//! Splits a text into lines, and a line into words: keywords, variables and numbers. `read_line`
//! returns the first line of a text, whether it is longer than 200 bytes, whether each byte is
//! allowed, and whether an LF ends it. `next_word` reads a word, and `front_number` and
//! `front_keyword` read the beginning of a text. What `next_word`, `next_number` and
//! `next_raw_word` return as the rest of the text is specified by its words alone.
#![tactic(auto)]

mod front;
mod keyword;
mod letter;
mod line;
mod number;
mod words;

pub use front::{after, front_keyword, front_number};
pub use keyword::{Keyword, Word};
pub use letter::Letter;
pub use line::{LineText, MOST_LINE_BYTES, find_lf, is_comment_line, read_line, trimmed};
pub use number::number as read_number;
pub use words::{has_word, next_number, next_raw_word, next_word};
