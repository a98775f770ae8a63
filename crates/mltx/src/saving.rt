//! The file that a server saves its base in.

use crate::files::{create_dated, open_locked};
use crate::output::Output;
use mlt_object_base::{Base, write_base};
use mlt_script_load::transactions_of;
use mlt_serve::BaseFile;
use mlt_text::write_text;
use mlt_text_words::{after, has_word, is_comment_line};
use mlt_types::Refusal;
use std::fs::File;
use std::io::{ErrorKind, Write};
use std::os::unix::fs::PermissionsExt;
use std::{fs, io, str};

// The rights of a file that takes the place of none.
const RIGHTS: u32 = 0o666;

// The name of a file with a base that could not be saved, without its date, and its rights.
const UNSAVED: &str = "mltx-unsaved";

const OWN_RIGHTS: u32 = 0o600;

// How the mark of a base begins, its last line.
const MARK: &[u8] = b"# commits ";

/// What the mark of a base in a data folder tells.
#[derive(Clone, Copy)]
pub(crate) enum Mark {
    /// After how many commits it was saved of those of the trace beside it.
    After(u64),
    /// After how many commits of a trace a server has loaded it that begins with it.
    Loaded,
}

/// The file that a server saves its base in. Each save writes a new file, which then takes its place.
#[derive(Drop)]
pub(crate) struct SaveFile {
    rt: HostRuntime,
    // Where the file lies itself, if a symlink leads to it.
    path: String,
    // Whether it lies in a data folder: each base has a mark there, and the one before is kept.
    is_marked: bool,
    // The new file of the last save, if that has written all and failed then.
    left: Option<String>,
    // No other server saves its base there as long as this is open.
    _lock: File,
}

impl SaveFile {
    /// The file of this path, which need not be there yet. That another one can be made beside it is seen now.
    ///
    /// # Errors
    /// Where that fails, it is no regular file, or another server saves its base there.
    pub(crate) fn open(rt: &HostRuntime, path: &str, is_marked: bool) -> io::Result<SaveFile> {
        let path = resolve(rt, path)?;
        let lock = format!(in rt.alloc(); "{path}.lock")?;
        let lock = open_locked(rt, lock.as_str(), "another server saves its base there")?;
        let save = SaveFile {
            rt: *rt,
            path,
            is_marked,
            left: None,
            _lock: lock,
        };
        let (_, name) = save.create()?;
        fs::remove_file(rt, name.as_str())?;
        Ok(save)
    }

    /// Writes a base, with this mark in a data folder. It is on its disk, and whoever opens the file meanwhile gets the base of before.
    ///
    /// # Errors
    /// Where it can't be written, or can't take the place of the one before, which is as it was then.
    pub(crate) fn save_marked(&mut self, base: &Base, mark: Mark) -> io::Result<()> {
        let (rt, is_marked) = (self.rt, self.is_marked);
        self.write(|output| {
            let mut counting = LineCounter { output, lines: 0 };
            write_base(base, &mut counting)?;
            let LineCounter { output, lines } = counting;
            if is_marked {
                write_mark(&rt, output, mark, lines)?;
            }
            Ok(())
        })
    }

    /// Writes the text of a base, with this mark.
    ///
    /// # Errors
    /// As those of `save_marked`.
    pub(crate) fn replace(&mut self, text: &[u8], mark: Mark) -> io::Result<()> {
        let rt = self.rt;
        self.write(|output| {
            write_text(output, text)?;
            if !text.is_empty() && !text.ends_with(b"\n") {
                write_text(output, b"\n")?;
            }
            write_mark(&rt, output, mark, objects_in(text))
        })
    }

    // Writes a new file, which takes the place of the one before.
    fn write<F>(&mut self, write: F) -> io::Result<()>
    where
        F: FnOnce(&mut Output<File>) -> Result<(), Refusal>,
        requires { F.IsAlwaysCallable write }
    {
        if let Some(older) = self.left.take() {
            let _ = fs::remove_file(&self.rt, older.as_str());
        }
        let (file, name) = self.create()?;
        write_whole(&self.rt, file, name.as_str(), write)?;
        if self.is_marked {
            // A file system without hard links keeps none of before.
            let _ = self.keep_before();
        }
        if let Err(error) = fs::rename(&self.rt, name.as_str(), self.path.as_str()) {
            self.left = Some(name);
            return Err(error);
        }
        // Either base is whole, also where the folder can't be synced, as on some file systems.
        let _ = sync_folder(&self.rt, folder_of(self.path.as_str()).0);
        Ok(())
    }

    // Gives the base of before another name too.
    fn keep_before(&self) -> io::Result<()> {
        let path = self.path.as_str();
        let before = format!(in self.rt.alloc(); "{path}.before")?;
        ignore_absent(fs::remove_file(&self.rt, before.as_str()))?;
        ignore_absent(fs::hard_link(&self.rt, path, before.as_str()))
    }

    /// The name of a file that has the base of the last save, which failed: the new one, if that was written, or else one that is
    /// made in the current folder, if it can be.
    pub(crate) fn rescue(self, base: &Base) -> Option<String> {
        let SaveFile { rt, left, .. } = self;
        if left.is_some() {
            return left;
        }
        let (file, name) = create_dated(&rt, UNSAVED, OWN_RIGHTS).ok()?;
        write_whole(&rt, file, name.as_str(), |output| write_base(base, output)).ok()?;
        Some(name)
    }

    // Makes a new file beside it, with its rights, and returns it with its name.
    fn create(&self) -> io::Result<(File, String)> {
        let path = self.path.as_str();
        let rights = fs::metadata(&self.rt, path)
            .map(|found| found.permissions())
            .ok();
        let mode = rights
            .as_ref()
            .map_or(RIGHTS, |rights| rights.mode() & RIGHTS);
        let beside = format!(in self.rt.alloc(); "{path}.new")?;
        let (file, name) = create_dated(&self.rt, beside.as_str(), mode)?;
        if let Some(rights) = rights {
            // It has fewer rights where this fails.
            let _ = file.set_permissions(rights);
        }
        Ok((file, name))
    }
}

impl BaseFile for SaveFile {
    fn save(&mut self, base: &Base, commits: u64) -> io::Result<()> {
        self.save_marked(base, Mark::After(commits))
    }
}

// Where a regular file of this path lies itself, if a symlink leads to it, or where it is to lie.
fn resolve(rt: &HostRuntime, path: &str) -> io::Result<String> {
    let found = match fs::canonicalize(rt, path) {
        Ok(found) => found,
        Err(error) if error.kind() == ErrorKind::NotFound => return resolve_new(rt, path, error),
        Err(error) => return Err(error),
    };
    let metadata = fs::metadata(rt, found.as_str())?;
    if metadata.is_dir() {
        Err(io::Error::new(ErrorKind::IsADirectory, "it is a folder"))
    } else if metadata.is_file() {
        Ok(found.into_string())
    } else {
        Err(io::Error::other("it is no regular file"))
    }
}

// Where a file of this path is to lie, which is not found: in the folder that it names.
fn resolve_new(rt: &HostRuntime, path: &str, error: io::Error) -> io::Result<String> {
    if fs::symlink_metadata(rt, path).is_ok() {
        return Err(io::Error::other("it is a symlink that leads to no file"));
    }
    let (folder, name) = folder_of(path);
    if name.is_empty() {
        return Err(error);
    }
    let folder = fs::canonicalize(rt, folder)?;
    Ok(folder.join(rt.alloc(), name)?.into_string())
}

// The folder and the name in it of a path.
fn folder_of(path: &str) -> (&str, &str) {
    match path.rsplit_once('/') {
        None => (".", path),
        Some((folder, name)) if folder.is_empty() => ("/", name),
        Some((folder, name)) => (folder, name),
    }
}

// Writes a text into a new file of this name, and has it on its disk. Where that fails the file is removed.
fn write_whole<F>(rt: &HostRuntime, file: File, name: &str, write: F) -> io::Result<()>
where
    F: FnOnce(&mut Output<File>) -> Result<(), Refusal>,
    requires { F.IsAlwaysCallable write }
{
    let mut output = Output::new(file);
    let written = match write(&mut output) {
        Ok(()) => output.sync(),
        Err(Refusal::OutOfMemory) => Err(ErrorKind::OutOfMemory.into()),
        Err(_) => Err(output.failure().unwrap_or(ErrorKind::Other.into())),
    };
    if written.is_err() {
        let _ = fs::remove_file(rt, name);
    }
    written
}

// The mark of a base of so many objects.
fn write_mark(
    rt: &HostRuntime,
    output: &mut Output<File>,
    mark: Mark,
    objects: u64,
) -> Result<(), Refusal> {
    let commits = match mark {
        Mark::After(commits) => commits,
        Mark::Loaded => transactions_of(objects),
    };
    let mut line = Vec::from_slice(rt.alloc(), MARK)?;
    let number = format!(in rt.alloc(); "{commits}\n")?;
    line.extend_from_slice(number.as_bytes())?;
    write_text(output, line.as_slice())
}

/// How many bytes the text of a base has before its mark, and what that tells. One that has none was put there by hand, and is newer
/// than each trace.
pub(crate) fn mark_of(text: &[u8]) -> (usize, u64) {
    let lines = text.strip_suffix(b"\n").unwrap_or(text);
    let at = lines
        .iter()
        .rposition(|byte| *byte == b'\n')
        .map_or(0, |before| before.saturating_add(1));
    let number = after(lines.get(at..).unwrap_or(&[]), MARK).and_then(|digits| {
        str::from_utf8(digits).ok()?.parse::<u64>().ok()
    });
    match number {
        Some(commits) => (at, commits),
        None => (text.len(), u64::MAX),
    }
}

/// Whether this is the mark of a base of this text where it is what a server begins with.
pub(crate) fn is_loaded_mark(text: &[u8], commits: u64) -> bool {
    commits == transactions_of(objects_in(text))
}

// How many objects the text of a base has.
fn objects_in(text: &[u8]) -> u64 {
    text.split(|byte| *byte == b'\n')
        .filter(|line| has_word(*line) && !is_comment_line(*line))
        .count() as u64
}

// Takes that nothing is there as done.
fn ignore_absent(done: io::Result<()>) -> io::Result<()> {
    match done {
        Err(error) if error.kind() == ErrorKind::NotFound => Ok(()),
        other => other,
    }
}

// Counts the lines that it writes.
#[derive(Drop)]
struct LineCounter<'a> {
    output: &'a mut Output<File>,
    lines: u64,
}

impl Write for LineCounter<'_> {
    fn write(&mut self, buf: &[u8]) -> io::Result<usize> {
        let count = self.output.write(buf)?;
        let written = buf.get(..count).unwrap_or(buf);
        let lines = written.iter().filter(|byte| **byte == b'\n').count();
        self.lines = self.lines.saturating_add(lines as u64);
        Ok(count)
    }

    fn flush(&mut self) -> io::Result<()> {
        self.output.flush()
    }
}

fn sync_folder(rt: &HostRuntime, folder: &str) -> io::Result<()> {
    fs::open(rt, folder)?.sync_all()
}
