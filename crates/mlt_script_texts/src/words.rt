//! The words of a line, and where they stand.

use mlt_text_words::{has_word, is_comment_line, next_raw_word};
use std::alloc::{AllocError, Global};

/// A word of a line.
#[derive(Clone, Copy)]
pub(crate) struct WordAt<'a> {
    pub(crate) text: &'a [u8],
    /// How many bytes of the line stand before it.
    pub(crate) at: usize,
}

/// The words of a line, in order.
pub(crate) fn words_of(alloc: Global, line: &[u8]) -> Result<Vec<WordAt<'_>>, AllocError> {
    let mut words = Vec::new(alloc);
    let mut at: usize = 0;
    for text in line.split(|byte| *byte == b' ' || *byte == b'\t') {
        if !text.is_empty() {
            words.push(WordAt { text, at })?;
        }
        at = at.saturating_add(text.len()).saturating_add(1);
    }
    Ok(words)
}

/// The first word of a line, and no bytes where it has none.
pub(crate) fn first_word(line: &[u8]) -> &[u8] {
    match next_raw_word(line) {
        Some((word, _)) => word,
        None => &[],
    }
}

/// Whether a line has no words, or is a comment of a script or a schedule.
pub(crate) fn is_remark(line: &[u8]) -> bool {
    !has_word(line) || is_comment_line(line)
}

/// Whether a word is one of these.
pub(crate) fn is_one_of(word: &[u8], names: &[&str]) -> bool {
    names.iter().any(|name| name.as_bytes() == word)
}
