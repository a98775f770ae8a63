//! What the program reads: a file or standard input.

use mlt_text::MAX_INPUT;
use std::fs::File;
use std::io;
use std::io::{Read, Stdin};
use std::os::unix::fs::FileExt;

// With this word the first line of a trace begins, and that of no base.
const TRACE_WORD: &[u8] = b"begin ";

// How many bytes a line of a trace has at most, with its LF.
const TRACE_LINE: usize = 201;

// Where the program reads from.
#[derive(Drop)]
enum InputSource {
    // Standard input.
    Standard(Stdin),
    // A file.
    Opened(File),
    // A text, of which so many bytes were read.
    Text(Vec<u8>, usize),
}

/// An input, and what is known of it once it was read.
#[derive(Drop)]
pub(crate) struct Input {
    source: InputSource,
    // How many bytes came.
    length: usize,
    // These bytes, where they are kept.
    kept: Option<Vec<u8>>,
    // Why the last read that failed did.
    failed: Option<io::Error>,
}

impl Input {
    /// The input of this name on the command line; `-` is standard input. What is read is kept where that is wanted, as long
    /// as there is memory.
    ///
    /// # Errors
    /// The system's, where the file can't be opened.
    pub(crate) fn open(rt: &HostRuntime, file: &str, keeps: bool) -> io::Result<Input> {
        let source = if file == "-" {
            InputSource::Standard(rt.stdin())
        } else {
            InputSource::Opened(File::open(rt, file)?)
        };
        Ok(Input {
            source,
            length: 0,
            kept: if keeps {
                Some(Vec::new(rt.alloc()))
            } else {
                None
            },
            failed: None,
        })
    }

    /// That of a text.
    pub(crate) fn of_text(text: Vec<u8>) -> Input {
        Input {
            source: InputSource::Text(text, 0),
            length: 0,
            kept: None,
            failed: None,
        }
    }

    /// Whether it is a file whose first line begins as that of a trace.
    pub(crate) fn is_trace(&self) -> bool {
        let InputSource::Opened(file) = &self.source else {
            return false;
        };
        let mut front = [0; 6];
        let count = file.read_at(&mut front, 0).unwrap_or(0);
        front.get(..count) == Some(TRACE_WORD)
    }

    /// How many bytes the whole lines of a file have that is a trace, as far as the system tells.
    pub(crate) fn whole_lines(&self) -> Option<u64> {
        let InputSource::Opened(file) = &self.source else {
            return None;
        };
        let length = file.metadata().ok()?.len();
        let from = length.saturating_sub(TRACE_LINE as u64);
        let mut end = [0; TRACE_LINE];
        let count = file.read_at(&mut end, from).ok()?;
        let last = end.get(..count)?.iter().rposition(|byte| *byte == b'\n')?;
        Some(from.saturating_add(last as u64).saturating_add(1))
    }

    /// Why a read failed, if one did.
    pub(crate) fn failure(&self) -> Option<io::Error> {
        self.failed
    }

    /// Whether more bytes came than an input may have.
    pub(crate) fn is_long(&self) -> bool {
        self.length > MAX_INPUT
    }

    /// What was read, if it was kept.
    pub(crate) fn bytes(&self) -> Option<&[u8]> {
        match &self.kept {
            Some(text) => Some(text.as_slice()),
            None => None,
        }
    }

    /// The same.
    pub(crate) fn text(self) -> Option<Vec<u8>> {
        self.kept
    }

    fn keep(&mut self, bytes: &[u8]) {
        self.length = self.length.saturating_add(bytes.len());
        if let Some(mut kept) = self.kept.take() {
            if kept.extend_from_slice(bytes).is_ok() {
                self.kept = Some(kept);
            }
        }
    }
}

impl Read for Input {
    fn read(&mut self, buf: &mut [u8]) -> io::Result<usize> {
        let told = match &mut self.source {
            InputSource::Standard(stdin) => stdin.read(buf),
            InputSource::Opened(file) => file.read(buf),
            InputSource::Text(text, at) => {
                let mut rest = text.get(*at..).unwrap_or(&[]);
                let told = rest.read(buf);
                *at = at.saturating_add(told.unwrap_or(0));
                told
            }
        };
        match told {
            Ok(count) => self.keep(&buf[..count]),
            Err(error) => self.failed = Some(error),
        }
        told
    }
}
