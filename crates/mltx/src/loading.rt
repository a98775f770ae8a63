//! The base that a run begins with.

ghost use Rattle.std.specs.Prelude.{◌≡◌, ◌≤◌, [], length};

use crate::end_signals::EndSignals;
use crate::failure::{Failure, Known, Subject};
use crate::input::Input;
use crate::traced::TracedBase;
use mlt_script::{Script, parse};
use mlt_script_load::{BaseFault, BaseReader, Form};
use mlt_serve::{BaseSource, LoadFailure, Piece};
use mlt_text_words::after;
use mlt_types::{GhostList, Refusal};
use std::alloc::{AllocError, Global};
use std::io::{ErrorKind, Read, Write};
use std::sync::{Arc, Mutex};
use std::{io, mem};

// How the answer of a script begins that found no room, and that of a session.
const NO_ROOM: [&[u8]; 2] = [b"refused 2 ", b"error 2 "];

/// The file of the base that a run begins with, or of a trace that leads to it, which is made by transactions of this form; none for the
/// empty base. A signal that asks for the end ends the reading of a trace.
///
/// # Errors
/// Where the file can't be opened, or is a trace that is faulty or not read to its end.
pub(crate) fn open_base(
    rt: &HostRuntime,
    file: Option<&str>,
    form: Form,
    signals: Option<&mut EndSignals>,
) -> Result<Option<BaseReader<Input>>, LoadEnd> {
    let Some(file) = file else {
        return Ok(None);
    };
    let input = Input::open(rt, file, false).map_err(|error| Failure::of_call(
        Subject::Load,
        error,
    ))?;
    let input = if input.is_trace() {
        Input::of_text(TracedBase::read(rt.alloc(), input, signals)?.text)
    } else {
        input
    };
    Ok(Some(BaseReader::new(rt.alloc(), input, form)?))
}

impl LoadEnd {
    /// Why the base is not loaded; nothing is said of one that was to end.
    pub(crate) fn failure(self) -> Failure {
        match self {
            LoadEnd::Stopped => Failure::from(Refusal::Io),
            LoadEnd::Failed(failure) => failure,
        }
    }
}

impl From<AllocError> for LoadEnd {
    fn from(refused: AllocError) -> LoadEnd {
        LoadEnd::Failed(Failure::from(refused))
    }
}

impl From<Failure> for LoadEnd {
    fn from(failure: Failure) -> LoadEnd {
        LoadEnd::Failed(failure)
    }
}

impl From<BaseFault> for Failure {
    fn from(fault: BaseFault) -> Failure {
        match fault {
            BaseFault::Line(line, cause, text) => Failure {
                refusal: Refusal::ScriptFault { line, cause },
                known: Known::FaultyBase(text),
            },
            BaseFault::Read(error) => Failure::of_call(Subject::Load, error),
            BaseFault::Memory => Failure::from(Refusal::OutOfMemory),
        }
    }
}

// Why a base is not loaded of whose answers so many bytes came, and then these. The numbers are those of the lines of the base to which
// the answers belong.
fn failure_at(lines: &[u64], answers: &[u8], at: usize, other: &[u8]) -> Failure {
    let came = answers.get(..at).unwrap_or(&[]);
    let answer = came.iter().filter(|byte| **byte == b'\n').count();
    let is_full = NO_ROOM.iter().any(|front| after(other, front).is_some());
    Failure {
        refusal: if is_full {
            Refusal::NoRoom
        } else {
            Refusal::OutOfMemory
        },
        known: Known::BaseLine(lines.get(answer).copied().unwrap_or(0)),
    }
}

// How many bytes at their beginning are the same.
fn count_same(one: &[u8], other: &[u8]) -> usize
    ensures { result ≤ length other.now }
{
    one.iter()
        .zip(other.iter())
        .take_while(|(one, other)| **one == **other)
        .count()
}

/// The scripts that make the base of a run, and how many of their answers have come. It takes what the run writes first, as long as
/// these are the answers that make the base.
#[derive(Drop)]
pub(crate) struct Loading {
    scripts: Vec<Script>,
    answers: String,
    // The number of the line of the base to which each answer belongs.
    lines: Vec<u64>,
    // How many bytes of the answers have come.
    at: usize,
    // Why the base is not loaded, if other answers came.
    failure: Option<Failure>,
}

impl Loading {
    /// Those of this base.
    ///
    /// # Errors
    /// Where it can't be read, or a line of it is no object of a base.
    pub(crate) fn read<R: Read + Drop>(
        alloc: Global,
        base: Option<BaseReader<R>>,
    ) -> Result<Loading, Failure> {
        let mut loading = Loading {
            scripts: Vec::new(alloc),
            answers: String::new(alloc),
            lines: Vec::new(alloc),
            at: 0,
            failure: None,
        };
        let Some(mut base) = base else {
            return Ok(loading);
        };
        for _ in 0..u64::MAX {
            let Some(mut piece) = base.next(alloc)? else {
                break;
            };
            let mut scripts = parse(alloc, piece.text.as_bytes())?;
            loading.scripts.append(&mut scripts)?;
            loading.answers.push_str(piece.answers.as_str())?;
            loading.lines.append(&mut piece.lines)?;
        }
        Ok(loading)
    }

    /// The scripts. They are handed out once.
    pub(crate) fn take_scripts(&mut self, alloc: Global) -> Vec<Script> {
        mem::replace(&mut self.scripts, Vec::new(alloc))
    }

    /// Whether all answers have come.
    pub(crate) fn is_done(&self) -> bool {
        self.at >= self.answers.len()
    }

    /// Why the base was not loaded, if it was not.
    pub(crate) fn take_failure(&mut self) -> Option<Failure> {
        self.failure.take()
    }
}

impl Write for Loading {
    fn write(&mut self, buf: &[u8]) -> io::Result<usize> {
        let answers = self.answers.as_bytes();
        let rest = answers.get(self.at..).unwrap_or(&[]);
        let same = count_same(rest, buf);
        self.at = self.at.saturating_add(same);
        if same < rest.len().min(buf.len()) || rest.is_empty() {
            let other = buf.get(same..).unwrap_or(&[]);
            let failure = failure_at(self.lines.as_slice(), answers, self.at, other);
            self.failure = Some(failure);
            return Err(ErrorKind::Other.into());
        }
        Ok(same)
    }

    fn flush(&mut self) -> io::Result<()> {
        Ok(())
    }
}

/// Why a run ended before its base was loaded.
#[derive(Drop)]
pub(crate) enum LoadEnd {
    /// A signal or an operator asked for the end.
    Stopped,
    /// The base can't be loaded.
    Failed(Failure),
}

/// Where a server is told why its base was not loaded, by the one that has the base.
#[derive(Drop)]
pub(crate) struct LoadSlot {
    end: Mutex<Option<LoadEnd>>,
}

impl LoadSlot {
    /// Nothing is told yet.
    ///
    /// # Errors
    /// `OutOfMemory`, where there is no memory for it.
    pub(crate) fn new(alloc: Global) -> Result<Arc<LoadSlot>, Refusal> {
        let slot = LoadSlot {
            end: Mutex::new(None),
        };
        Ok(Arc::new(alloc, slot)?)
    }

    // Tells this. No thread has the lock meanwhile.
    fn put(&self, end: LoadEnd) {
        if let Some(mut told) = self.end.try_lock() {
            *told = Some(end);
        }
    }

    /// What was told, which is taken out.
    pub(crate) fn take(&self) -> Option<LoadEnd> {
        match self.end.try_lock() {
            Some(mut told) => told.take(),
            None => None,
        }
    }
}

/// The base of a server, for sessions to make.
#[derive(Drop)]
pub(crate) struct ServedBase<R> {
    reader: Option<BaseReader<R>>,
    // The number of the line of the base to which each answer to the last piece belongs.
    lines: Vec<u64>,
    // Why the base is not loaded, if it is not.
    end: Arc<LoadSlot>,
    given: GhostList<Piece>,
    is_over: bool,
}

impl<R: Read + Drop> ServedBase<R> {
    /// That which this reader has, if there is one. Where it is not loaded, `end` is told why.
    pub(crate) fn new(
        alloc: Global,
        reader: Option<BaseReader<R>>,
        end: Arc<LoadSlot>,
    ) -> ServedBase<R>
        ensures { result.given.items ≡ [] }
    {
        ServedBase {
            reader,
            lines: Vec::new(alloc),
            end,
            given: GhostList::of(&(), &()),
            is_over: false,
        }
    }
}

// The next piece of what this reader has, if there is one and a piece follows, and the lines of the base to which its answers belong.
fn next_piece<R: Read + Drop>(
    alloc: Global,
    reader: &mut Option<BaseReader<R>>,
    lines: &mut Vec<u64>,
) -> Result<Option<Piece>, Failure> {
    let Some(reader) = reader else {
        return Ok(None);
    };
    let Some(piece) = reader.next(alloc)? else {
        return Ok(None);
    };
    *lines = piece.lines;
    Ok(Some(Piece {
        lines: piece.text.into_bytes(),
        answers: piece.answers.into_bytes(),
    }))
}

impl<R: Read + Drop> BaseSource for ServedBase<R> {
    ghost given = { λ base. base.given.items };

    ghost is_over = { λ base. base.is_over };

    fn next(&mut self, alloc: Global) -> Result<Option<Piece>, Refusal> {
        match next_piece(alloc, &mut self.reader, &mut self.lines) {
            Ok(Some(piece)) => {
                self.given = GhostList::of(&self.given, &piece);
                Ok(Some(piece))
            }
            Ok(None) => {
                self.is_over = true;
                Ok(None)
            }
            Err(failure) => {
                let refusal = failure.refusal;
                self.end.put(LoadEnd::Failed(failure));
                Err(refusal)
            }
        }
    }

    fn fail(&mut self, failure: LoadFailure<'_>) {
        self.end.put(match failure {
            LoadFailure::Stopped => LoadEnd::Stopped,
            LoadFailure::Answered(piece, came) => {
                let answers = piece.answers.as_slice();
                let at = count_same(answers, came);
                let other = came.get(at..).unwrap_or(&[]);
                LoadEnd::Failed(failure_at(self.lines.as_slice(), answers, at, other))
            }
            LoadFailure::Long => LoadEnd::Failed(Failure::from(Refusal::Io)),
        });
    }
}
