//! The folder in which a server keeps its data.

use crate::end_signals::EndSignals;
use crate::failure::{Failure, Subject};
use crate::files::move_away;
use crate::input::Input;
use crate::loading::LoadEnd;
use crate::saving::{Mark, SaveFile, is_loaded_mark, mark_of};
use crate::traced::TracedBase;
use mlt_types::Refusal;
use std::io::ErrorKind;
use std::{fs, io};

/// A folder with `base`, the objects as they were saved last, and `trace`, all that a server has done since it began. The trace of a
/// server that has ended in order is `trace.before`: so where there is a `trace` the server was killed, and the trace has the newest
/// data, unless the base was saved after more commits, or was put there by hand.
#[derive(Drop)]
pub(crate) struct DataFolder {
    rt: HostRuntime,
    /// The file of the base.
    pub(crate) base: String,
    /// The file of the trace.
    pub(crate) trace: String,
}

/// A base in the folder, and what its mark says, as `mark_of` reads it.
#[derive(Drop)]
struct MarkedBase {
    text: Vec<u8>,
    commits: u64,
}

impl DataFolder {
    /// The folder of this path, which is made where there is none.
    ///
    /// # Errors
    /// Where it can't be made.
    pub(crate) fn open(rt: &HostRuntime, folder: &str) -> io::Result<DataFolder> {
        match fs::create_dir(rt, folder) {
            Err(error) if error.kind() != ErrorKind::AlreadyExists => return Err(error),
            _ => (),
        }
        Ok(DataFolder {
            rt: *rt,
            base: format!(in rt.alloc(); "{folder}/base")?,
            trace: format!(in rt.alloc(); "{folder}/trace")?,
        })
    }

    /// Makes the newest data that are whole the base, and moves the trace away. It answers what there is to be told of that.
    ///
    /// # Errors
    /// Where a file can't be read or written, the trace is faulty and there is no base, or a signal asks for the end.
    pub(crate) fn recover(
        &self,
        save: &mut SaveFile,
        signals: &mut EndSignals,
    ) -> Result<String, LoadEnd> {
        let alloc = self.rt.alloc();
        let saved = self.marked_base().map_err(of_data)?;
        let trace = self.trace.as_str();
        if !fs::exists(&self.rt, trace).map_err(of_data)? {
            renew(save, saved).map_err(of_data)?;
            return Ok(String::new(alloc));
        }
        let input = Input::open(&self.rt, trace, false).map_err(of_data)?;
        let traced = TracedBase::read(alloc, input, Some(signals));
        self.keep_newer(save, saved, traced)
    }

    // Makes the newer of a base and that of a trace the base, and moves the trace away.
    fn keep_newer(
        &self,
        save: &mut SaveFile,
        saved: Option<MarkedBase>,
        traced: Result<TracedBase, LoadEnd>,
    ) -> Result<String, LoadEnd> {
        let alloc = self.rt.alloc();
        let (base, trace) = (self.base.as_str(), self.trace.as_str());
        let mark = saved.as_ref().map_or(0, |saved| saved.commits);
        let told = match (traced, saved) {
            (Ok(traced), _) if mark <= traced.commits => {
                let (text, commits) = (traced.text.as_slice(), traced.commits);
                save.replace(text, Mark::Loaded).map_err(of_data)?;
                format!(in alloc; "mltx: recovered {commits} transactions from {trace}\n")?
            }
            (Ok(_), saved) => {
                renew(save, saved).map_err(of_data)?;
                format!(in alloc; "mltx: {base} is newer than {trace}\n")?
            }
            (Err(LoadEnd::Failed(failure)), Some(saved)) if is_faulty(failure.refusal) => {
                let refusal = failure.refusal;
                renew(save, Some(saved)).map_err(of_data)?;
                let name = move_away(&self.rt, trace).map_err(of_data)?;
                let text = format!(in alloc;
                    "mltx: {trace} is faulty ({refusal}), and now {name}; recovered {base}\n"
                )?;
                return Ok(text);
            }
            (Err(end), _) => return Err(end),
        };
        self.keep_trace().map_err(of_data)?;
        Ok(told)
    }

    /// Keeps the trace as that of before, once a base has all of its data.
    ///
    /// # Errors
    /// Where it can't be renamed.
    pub(crate) fn keep_trace(&self) -> io::Result<()> {
        let trace = self.trace.as_str();
        let before = format!(in self.rt.alloc(); "{trace}.before")?;
        fs::rename(&self.rt, trace, before.as_str())
    }

    /// The file of the base, if it is there.
    ///
    /// # Errors
    /// Where that can't be seen.
    pub(crate) fn found_base(&self) -> io::Result<Option<&str>> {
        let base = self.base.as_str();
        Ok(fs::exists(&self.rt, base)?.then_some(base))
    }

    // The base, if there is one.
    fn marked_base(&self) -> io::Result<Option<MarkedBase>> {
        let mut text = match fs::read(&self.rt, self.base.as_str()) {
            Ok(text) => text,
            Err(error) if error.kind() == ErrorKind::NotFound => return Ok(None),
            Err(error) => return Err(error),
        };
        let (length, commits) = mark_of(text.as_slice());
        text.truncate(length);
        Ok(Some(MarkedBase { text, commits }))
    }
}

// Marks a base, if there is one, as what a server will load that has no trace yet.
fn renew(save: &mut SaveFile, saved: Option<MarkedBase>) -> io::Result<()> {
    let Some(saved) = saved else {
        return Ok(());
    };
    let text = saved.text.as_slice();
    if is_loaded_mark(text, saved.commits) {
        return Ok(());
    }
    save.replace(text, Mark::Loaded)
}

fn is_faulty(refusal: Refusal) -> bool {
    matches!(refusal, Refusal::TraceFault { .. })
}

fn of_data(error: io::Error) -> LoadEnd {
    LoadEnd::Failed(Failure::of_call(Subject::Data, error))
}
