//! The text of a base, line by line.

ghost use Rattle.std.specs.Prelude.{◌≤◌, vec_len};

use crate::object::Object;
use crate::spelling::{BasePiece, Form, Speller};
use mlt_text_words::{LineText, MOST_LINE_BYTES, find_lf, has_word, is_comment_line, read_line};
use mlt_types::ScriptCause;
use std::alloc::{AllocError, Global};
use std::io;
use std::io::Read;
use std::ops::Range;

/// How many bytes are held at most: a line that goes on, and what came behind it.
const BUFFER: usize = 65_536;

/// Why a base is not read on.
#[derive(Drop)]
pub enum BaseFault {
    /// The line of this number is none of a base, or stands at a wrong place: `Line` and `Words` as for a script, `Place` where
    /// its object stands before that of an earlier line, or is the same. These are its first bytes, more than 200 if it has more.
    Line(u64, ScriptCause, Vec<u8>),
    /// A read failed.
    Read(io::Error),
    /// A growth was refused.
    Memory,
}

impl From<AllocError> for BaseFault {
    fn from(_refused: AllocError) -> BaseFault {
        BaseFault::Memory
    }
}

/// A base of any length, as a reader gives its text.
#[derive(Drop)]
pub struct BaseReader<R> {
    reader: R,
    /// What came. The bytes between `at` and `end` are not used yet.
    buffer: Vec<u8>,
    at: usize,
    end: usize,
    /// Whether nothing more comes.
    is_over: bool,
    /// The number of the last line, from 1; 0 before the first.
    line: u64,
    /// Where the last object stands among others, if there was one.
    last: Option<u64>,
    speller: Speller,
    ghost used: { at ≤ end },
    ghost held: { end ≤ vec_len buffer },
}

impl<R: Read + Drop> BaseReader<R> {
    /// That of this reader, which is to be made by transactions of this form.
    ///
    /// # Errors
    /// Where a growth is refused.
    pub fn new(alloc: Global, reader: R, form: Form) -> Result<BaseReader<R>, AllocError> {
        Ok(BaseReader {
            reader,
            buffer: vec![in alloc; 0; BUFFER]?,
            at: 0,
            end: 0,
            is_over: false,
            line: 0,
            last: None,
            speller: Speller::new(alloc, form),
        })
    }

    /// The next transactions, if more follow. What is read for them is no more than a few lines ahead.
    ///
    /// # Errors
    /// The first fault of the text, where it comes before the end of this piece.
    pub fn next(&mut self, alloc: Global) -> Result<Option<BasePiece>, BaseFault> {
        for _ in 0..u64::MAX {
            if self.speller.is_full() {
                break;
            }
            let Some(line) = self.next_line()? else {
                break;
            };
            self.line = self.line.saturating_add(1);
            let Some(object) = self.object_in(alloc, line)? else {
                continue;
            };
            self.last = Some(object.place());
            self.speller.make(object, self.line)?;
        }
        self.speller.end(self.line)?;
        Ok(self.speller.take(alloc))
    }

    /// The object of the last line, which stands there in the buffer, if it has one.
    ///
    /// # Errors
    /// What is wrong with the line.
    fn object_in(&self, alloc: Global, line: Range<usize>) -> Result<Option<Object>, BaseFault> {
        let bytes = self.buffer.get(line).unwrap_or(&[]);
        match object_of(bytes, self.last) {
            Ok(object) => Ok(object),
            Err(cause) => {
                let text = Vec::from_slice(alloc, without_lf(bytes))?;
                Err(BaseFault::Line(self.line, cause, text))
            }
        }
    }

    /// Where the next line stands in the buffer, with its LF, if there is one. Of one that is too long these are the first bytes.
    ///
    /// # Errors
    /// Where a read fails.
    fn next_line(&mut self) -> Result<Option<Range<usize>>, BaseFault> {
        for _ in 0..u64::MAX {
            if let Some(count) = self.held_line() {
                let line = self.at..self.at.saturating_add(count).min(self.end);
                self.at = line.end;
                return Ok(Some(line));
            }
            if self.is_over {
                break;
            }
            self.read_on()?;
        }
        Ok(None)
    }

    /// How many bytes the next line has that are held, if it is held whole, or as much of it as is too long.
    fn held_line(&self) -> Option<usize> {
        let held = self.buffer.get(self.at..self.end).unwrap_or(&[]);
        if let Some(before) = find_lf(held) {
            return Some(before.saturating_add(1));
        }
        let is_whole = self.is_over && !held.is_empty();
        (is_whole || held.len() > MOST_LINE_BYTES).then_some(held.len())
    }

    /// Moves what is not used yet to the front of the buffer, and reads once behind it.
    fn read_on(&mut self) -> Result<(), BaseFault> {
        self.buffer.copy_within(self.at..self.end, 0);
        self.end -= self.at;
        self.at = 0;
        let count = self
            .reader
            .read(&mut self.buffer[self.end..])
            .map_err(BaseFault::Read)?;
        self.end += count;
        self.is_over = count == 0;
        Ok(())
    }
}

/// A line without the LF at its end.
fn without_lf(line: &[u8]) -> &[u8] {
    match line.split_last() {
        Some((b'\n', before)) => before,
        _ => line,
    }
}

/// The object of a line, if it has one, behind one that stands there, if there was one.
///
/// # Errors
/// What is wrong with the line.
fn object_of(line: &[u8], last: Option<u64>) -> Result<Option<Object>, ScriptCause> {
    if line.is_empty() {
        return Ok(None);
    }
    let (read, _) = read_line(line);
    let bytes = match read {
        LineText::Faulty(bytes) if is_comment_line(bytes) => return Ok(None),
        LineText::TooLong | LineText::Faulty(_) => return Err(ScriptCause::Line),
        LineText::Allowed(bytes, _) if is_comment_line(bytes) || !has_word(bytes) => {
            return Ok(None);
        }
        LineText::Allowed(bytes, _) => bytes,
    };
    let object = Object::read(bytes).ok_or(ScriptCause::Words)?;
    if last.is_some_and(|last| object.place() <= last) {
        return Err(ScriptCause::Place);
    }
    Ok(Some(object))
}
