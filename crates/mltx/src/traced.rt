//! The base to which a trace leads.

use crate::end_signals::EndSignals;
use crate::failure::{Failure, Known, Subject};
use crate::input::Input;
use crate::loading::LoadEnd;
use mlt_serve::EndSignal;
use mlt_trace_check::check_long_trace;
use mlt_types::Refusal;
use std::alloc::{AllocError, Global};
use std::io;
use std::io::{ErrorKind, Read, Write};

/// The base to which the committed transactions of a trace lead, as the checker writes it.
#[derive(Drop)]
pub(crate) struct TracedBase {
    /// The lines of its objects.
    pub(crate) text: Vec<u8>,
    /// How many transactions have committed.
    pub(crate) commits: u64,
    // Whether the next byte begins a line, and whether the line is that of an object.
    is_new: bool,
    is_object: bool,
}

impl TracedBase {
    /// That of a trace, which is read up to its last whole line.
    ///
    /// # Errors
    /// Where the trace is faulty or can't be read, memory runs out, or a signal asks for the end.
    pub(crate) fn read(
        alloc: Global,
        input: Input,
        signals: Option<&mut EndSignals>,
    ) -> Result<TracedBase, LoadEnd> {
        let mut base = TracedBase {
            text: Vec::new(alloc),
            commits: 0,
            is_new: true,
            is_object: false,
        };
        let left = input.whole_lines().unwrap_or(u64::MAX);
        let mut reader = TraceReader {
            input,
            left,
            signals,
            is_stopped: false,
        };
        match check_long_trace(alloc, &mut reader, &mut base) {
            Ok(()) => Ok(base),
            Err(_) if reader.is_stopped => Err(LoadEnd::Stopped),
            Err(refusal) => Err(LoadEnd::Failed(failure_of(refusal, &reader.input))),
        }
    }

    // More of a line. One of a commit begins with `serial`, and no other with that letter.
    fn add(&mut self, part: &[u8]) -> Result<(), AllocError> {
        let Some(first) = part.first() else {
            return Ok(());
        };
        if self.is_new {
            self.is_object = *first != b's';
            self.is_new = false;
        }
        if self.is_object {
            self.text.extend_from_slice(part)?;
        }
        Ok(())
    }

    // The end of a line.
    fn end_line(&mut self) -> Result<(), AllocError> {
        if self.is_object {
            self.text.push(b'\n')?;
        } else {
            self.commits = self.commits.saturating_add(1);
        }
        self.is_new = true;
        Ok(())
    }
}

impl Write for TracedBase {
    fn write(&mut self, buf: &[u8]) -> io::Result<usize> {
        for (number, part) in buf.split(|byte| *byte == b'\n').enumerate() {
            let ended = if number > 0 { self.end_line() } else { Ok(()) };
            if ended.is_err() || self.add(part).is_err() {
                return Err(ErrorKind::OutOfMemory.into());
            }
        }
        Ok(buf.len())
    }

    fn flush(&mut self) -> io::Result<()> {
        Ok(())
    }
}

// Why a trace was refused, which was read from here.
fn failure_of(refusal: Refusal, input: &Input) -> Failure {
    match (refusal, input.failure()) {
        (Refusal::Io, Some(error)) => Failure::of_call(Subject::Load, error),
        (Refusal::Io, None) => Failure::from(Refusal::OutOfMemory),
        _ => Failure {
            refusal,
            known: Known::Refused(Subject::Load),
        },
    }
}

// A trace that is read until so many bytes came, or a signal asks for the end.
#[derive(Drop)]
struct TraceReader<'a> {
    input: Input,
    left: u64,
    signals: Option<&'a mut EndSignals>,
    is_stopped: bool,
}

impl Read for TraceReader<'_> {
    fn read(&mut self, buf: &mut [u8]) -> io::Result<usize> {
        if let Some(signals) = &mut self.signals {
            self.is_stopped = signals.is_given();
        }
        if self.is_stopped {
            return Err(ErrorKind::Other.into());
        }
        let most = buf
            .len()
            .min(usize::try_from(self.left).unwrap_or(usize::MAX));
        let count = self.input.read(&mut buf[..most])?;
        self.left = self.left.saturating_sub(count as u64);
        Ok(count)
    }
}
