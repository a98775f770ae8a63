//! A fault, and what else is known of it.

use crate::input::Input;
use mlt_cli::{Job, Run};
use mlt_script_texts::{Detail, TextFault, report_verbose};
use mlt_text::MAX_INPUT;
use mlt_types::Refusal;
use std::alloc::AllocError;
use std::io;
use std::io::ErrorKind;

/// Why a job was not done.
#[derive(Drop)]
pub(crate) struct Failure {
    pub(crate) refusal: Refusal,
    pub(crate) known: Known,
}

/// What is known of a fault beside its refusal.
#[derive(Drop)]
pub(crate) enum Known {
    /// Nothing more.
    Nothing,
    /// That this is refused.
    Refused(Subject),
    /// What the system says of a file or an address.
    Said(Subject, io::Error),
    /// Why the base was not saved, and the name of a file that has it, if one does.
    Unsaved(io::Error, Option<String>),
    /// The input has more bytes than one may have.
    LongInput,
    /// This line of the base to begin with was not made.
    BaseLine(u64),
    /// The text of the line of the base that the refusal names.
    FaultyBase(Vec<u8>),
    /// The input's text, in which the refusal names a line.
    Text(Vec<u8>),
}

/// A file or an address of a job.
#[derive(Clone, Copy)]
pub(crate) enum Subject {
    /// What is read, or the address that is listened on.
    Input,
    /// Standard output.
    Output,
    /// The file for the trace.
    Trace,
    /// The operator's address.
    Admin,
    /// The file of the base to begin with.
    Load,
    /// The file for the base at the end.
    Save,
    /// The folder of all data.
    Data,
}

impl Failure {
    /// A call on this that failed.
    pub(crate) fn of_call(subject: Subject, error: io::Error) -> Failure {
        Failure {
            refusal: Refusal::Io,
            known: Known::Said(subject, error),
        }
    }

    /// A save that failed, where a file of this name has the base, if it has one.
    pub(crate) fn of_save(error: io::Error, left: Option<String>) -> Failure {
        Failure {
            refusal: match error.kind() {
                ErrorKind::OutOfMemory => Refusal::OutOfMemory,
                _ => Refusal::Io,
            },
            known: Known::Unsaved(error, left),
        }
    }

    /// Whether the second line is written in any case: it tells what was lost, or where it is.
    pub(crate) fn is_always_explained(&self) -> bool {
        matches!(self.known, Known::Unsaved(..))
    }

    /// A refusal of one that reads or writes this, where `failed` is why the last such call that failed did.
    pub(crate) fn of_stream(
        refusal: Refusal,
        subject: Subject,
        failed: Option<io::Error>,
    ) -> Failure {
        match (refusal, failed) {
            (Refusal::Io, Some(error)) => Failure::of_call(subject, error),
            _ => Failure::from(refusal),
        }
    }

    /// A run of this input that was refused, where `written` is what the system said of standard output. The input was read
    /// before anything was written, but for one of any length.
    pub(crate) fn of_run(refusal: Refusal, input: Input, written: Option<io::Error>) -> Failure {
        let known = match (refusal, input.failure(), written) {
            (Refusal::ScriptFault { .. } | Refusal::TraceFault { .. }, _, _) => match input.text() {
                Some(text) => Known::Text(text),
                None => Known::Nothing,
            },
            (Refusal::Io, Some(error), _) => Known::Said(Subject::Input, error),
            (Refusal::Io, None, Some(error)) => Known::Said(Subject::Output, error),
            (Refusal::Io, None, None) if input.is_long() => Known::LongInput,
            _ => Known::Nothing,
        };
        Failure { refusal, known }
    }
}

impl From<Refusal> for Failure {
    fn from(refusal: Refusal) -> Failure {
        Failure {
            refusal,
            known: Known::Nothing,
        }
    }
}

impl From<AllocError> for Failure {
    fn from(refused: AllocError) -> Failure {
        Failure::from(Refusal::from(refused))
    }
}

/// Writes the second line of a fault of this job on standard error. The line that a refusal names is shown where the text
/// is there, with a caret below if it points.
///
/// # Errors
/// `OutOfMemory` where memory runs out, and `Io` where it can't be written.
pub(crate) fn explain(
    rt: &HostRuntime,
    job: &Job,
    failure: &Failure,
    points: bool,
) -> Result<(), Refusal> {
    let alloc = rt.alloc();
    let refusal = failure.refusal;
    let (subject, words) = match &failure.known {
        Known::Nothing => (Subject::Input, format!(in alloc; "{refusal}")?),
        Known::Refused(subject) => (*subject, format!(in alloc; "{refusal}")?),
        Known::Said(subject, error) => {
            let expected = expected_of(job, *subject, *error);
            (*subject, format!(in alloc; "{error}{expected}")?)
        }
        Known::Unsaved(error, left) => {
            let words = match left {
                Some(name) => format!(in alloc; "{error}; what was to be saved is in {name}")?,
                None => format!(in alloc; "{error}; the file is as it was")?,
            };
            (Subject::Save, words)
        }
        Known::LongInput => (
            Subject::Input,
            format!(in alloc; "more than {MAX_INPUT} bytes")?,
        ),
        Known::BaseLine(line) => {
            let name = name_of(job, Subject::Load);
            let subject = format!(in alloc; "{name}, line {line}")?;
            let detail = Detail::Said(match refusal {
                Refusal::NoRoom => "there is no room for this object",
                _ => "memory ran out",
            });
            return report_verbose(alloc, subject.as_str(), &detail, &mut rt.stderr());
        }
        Known::FaultyBase(text) => {
            return explain_text(rt, job, Subject::Load, refusal, text.as_slice(), points);
        }
        Known::Text(text) => {
            return explain_text(rt, job, Subject::Input, refusal, text.as_slice(), points);
        }
    };
    let detail = Detail::Said(words.as_str());
    report_verbose(alloc, name_of(job, subject), &detail, &mut rt.stderr())
}

// The second line of a fault in a text that was read from this.
fn explain_text(
    rt: &HostRuntime,
    job: &Job,
    subject: Subject,
    refusal: Refusal,
    text: &[u8],
    points: bool,
) -> Result<(), Refusal> {
    let Some((fault, line)) = fault_of(job, subject, refusal) else {
        return Ok(());
    };
    let detail = Detail::Faulty(fault, line, text, points);
    report_verbose(rt.alloc(), name_of(job, subject), &detail, &mut rt.stderr())
}

// How an address is written, where this is said of one that is none.
fn expected_of(job: &Job, subject: Subject, error: io::Error) -> &'static str {
    match (subject, job, error.kind()) {
        (Subject::Admin, _, ErrorKind::InvalidInput)
        | (Subject::Input, Job::Serve(_), ErrorKind::InvalidInput) => {
            "; expected: an IP address or host name, a colon, and a port from 0 to 65535, such as 127.0.0.1:7000"
        }
        _ => "",
    }
}

// A file or an address as it stands on the command line; standard output for a job without input.
fn name_of(job: &Job, subject: Subject) -> &str {
    let is_data = matches!(
        subject,
        Subject::Trace | Subject::Load | Subject::Save | Subject::Data
    );
    if let (true, Some(folder)) = (is_data, data_of(job)) {
        return folder;
    }
    match (subject, job, run_of(job)) {
        (Subject::Input, Job::Serve(serve), _) => serve.run.input.as_str(),
        (Subject::Input, Job::Check(check), _) => file_name(check.input.as_str()),
        (Subject::Input, _, Some(run)) => file_name(run.input.as_str()),
        (Subject::Trace, _, Some(run)) => given(&run.trace),
        (Subject::Load, _, Some(run)) => file_name(given(&run.load)),
        (Subject::Admin, Job::Serve(serve), _) => given(&serve.operating.admin),
        (Subject::Save, Job::Serve(serve), _) => given(&serve.operating.save),
        _ => "standard output",
    }
}

/// The folder of all data of a server, if it has one.
pub(crate) fn data_of(job: &Job) -> Option<&str> {
    match job {
        Job::Serve(serve) => serve.operating.data.as_ref().map(|folder| folder.as_str()),
        _ => None,
    }
}

/// What a job runs, if it runs something.
pub(crate) fn run_of(job: &Job) -> Option<&Run> {
    match job {
        Job::Solo(run) => Some(run),
        Job::Steps(schedule) => Some(&schedule.run),
        Job::Work(work) => Some(&work.run),
        Job::Serve(serve) => Some(&serve.run),
        Job::Check(_) | Job::Tables(_) => None,
    }
}

pub(crate) fn given(name: &Option<String>) -> &str {
    match name {
        Some(name) => name.as_str(),
        None => "",
    }
}

pub(crate) fn file_name(file: &str) -> &str {
    if file == "-" { "standard input" } else { file }
}

// The fault of a text that a job read from this, and its line.
fn fault_of(job: &Job, subject: Subject, refusal: Refusal) -> Option<(TextFault, u64)> {
    match (refusal, subject, job) {
        (Refusal::TraceFault { line, cause }, _, _) => Some((TextFault::Trace(cause), line)),
        (Refusal::ScriptFault { line, cause }, Subject::Load, _) => {
            Some((TextFault::Base(cause), line))
        }
        (Refusal::ScriptFault { line, cause }, _, Job::Steps(_)) => {
            Some((TextFault::Schedule(cause), line))
        }
        (Refusal::ScriptFault { line, cause }, _, _) => Some((TextFault::Scripts(cause), line)),
        _ => None,
    }
}
