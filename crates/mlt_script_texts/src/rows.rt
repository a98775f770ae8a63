//! Lines beside answers to them, in two columns, and in colours.

use crate::words::is_remark;
use mlt_text_words::{next_number, next_raw_word, trimmed};
use std::alloc::{AllocError, Global};

// How many bytes stand between the columns at least.
const GAP: usize = 4;

// How wide the first column is at most. A longer line moves its answer to the right.
const MOST_WIDTH: usize = 60;

/// How answers look.
#[derive(Clone, Copy, PartialEq)]
pub enum Look {
    Plain,
    /// With the colours of ECMA-48: `blocked` is red, `refused` is yellow, and `committed` is green.
    Coloured,
}

/// The lines of a text, without the LF at the end of each and a CR before it.
pub(crate) fn lines_of(alloc: Global, text: &[u8]) -> Result<Vec<&[u8]>, AllocError> {
    let mut lines = Vec::new(alloc);
    for line in text.split_inclusive(|byte| *byte == b'\n') {
        lines.push(trimmed(line.strip_suffix(b"\n").unwrap_or(line)))?;
    }
    Ok(lines)
}

/// Rows of two columns.
#[derive(Drop)]
pub(crate) struct Rows<'a> {
    pub(crate) text: Vec<u8>,
    /// How many bytes of a line stand before its answer.
    indent: usize,
    look: Look,
    answers: &'a [&'a [u8]],
    /// How many of the answers have a row.
    taken: usize,
}

impl<'a> Rows<'a> {
    /// Without rows. The first column has room for these lines; without lines there is only the second.
    pub(crate) fn new(
        alloc: Global,
        lines: &[&[u8]],
        answers: &'a [&'a [u8]],
        look: Look,
    ) -> Rows<'a> {
        let mut width = 0;
        for line in lines {
            if !is_remark(line) {
                width = width.max(line.len());
            }
        }
        Rows {
            text: Vec::new(alloc),
            indent: if lines.is_empty() {
                0
            } else {
                width.min(MOST_WIDTH).saturating_add(GAP)
            },
            look,
            answers,
            taken: 0,
        }
    }

    /// Adds a row for a line that gets no answer.
    pub(crate) fn push(&mut self, line: &[u8]) -> Result<(), AllocError> {
        self.text.extend_from_slice(line)?;
        self.text.push(b'\n')?;
        Ok(())
    }

    /// Adds a row for a line, which may be empty, and the next answer, if there is one. Returns the answer.
    pub(crate) fn push_answered(&mut self, line: &[u8]) -> Result<&'a [u8], AllocError> {
        let answer = self.rest().first().copied().unwrap_or(&[]);
        self.taken = self.taken.saturating_add(1);
        self.text.extend_from_slice(line)?;
        if !answer.is_empty() {
            if line.len() >= self.indent && self.indent > 0 {
                self.text.push(b' ')?;
            }
            for _ in line.len()..self.indent {
                self.text.push(b' ')?;
            }
            self.push_coloured(answer)?;
        }
        self.text.push(b'\n')?;
        Ok(answer)
    }

    /// Adds a row for each answer that has none.
    pub(crate) fn push_rest(&mut self) -> Result<(), AllocError> {
        for _ in 0..self.rest().len() {
            self.push_answered(&[])?;
        }
        Ok(())
    }

    /// Adds a row for each line of a schedule, with its answer, and one for each further answer to it, and each reason.
    pub(crate) fn push_schedule(&mut self, lines: &[&[u8]]) -> Result<(), AllocError> {
        for line in lines {
            if is_remark(line) {
                self.push(line)?;
                continue;
            }
            let mut left: &[u8] = line;
            for _ in 0..count_of(line).unwrap_or(1) {
                self.push_answered(left)?;
                left = &[];
                let rest = self.rest().iter();
                for _ in 0..rest.take_while(|line| line.starts_with(b"#")).count() {
                    self.push_answered(&[])?;
                }
            }
        }
        Ok(())
    }

    // The answers that have no row yet.
    fn rest(&self) -> &'a [&'a [u8]] {
        self.answers.get(self.taken..).unwrap_or(&[])
    }

    fn push_coloured(&mut self, answer: &[u8]) -> Result<(), AllocError> {
        let colour = match self.look {
            Look::Plain => "",
            Look::Coloured => colour_of(answer),
        };
        self.text.extend_from_slice(colour.as_bytes())?;
        self.text.extend_from_slice(answer)?;
        if !colour.is_empty() {
            self.text.extend_from_slice(b"\x1b[0m")?;
        }
        Ok(())
    }
}

fn colour_of(answer: &[u8]) -> &'static str {
    if answer.starts_with(b"blocked ") {
        "\x1b[31m"
    } else if answer.starts_with(b"refused ") {
        "\x1b[33m"
    } else if answer.starts_with(b"committed ") {
        "\x1b[32m"
    } else {
        ""
    }
}

// How many answers an event gets, if it says so: `step T N` gets N.
fn count_of(line: &[u8]) -> Option<u64> {
    let (word, rest) = next_raw_word(line)?;
    let (_, rest) = next_raw_word(rest)?;
    let (count, _) = next_number(rest)?;
    (word == b"step".as_slice()).then_some(count)
}
