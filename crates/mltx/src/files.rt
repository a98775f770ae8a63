//! Files that a server makes: some are locked, and some have a date in their names.

use crate::streams::is_ready;
use jiff_core::civil::{Date, Time};
use std::fs::{File, TryLockError};
use std::io::ErrorKind;
use std::os::unix::fs::{FileTypeExt, OpenOptionsExt};
use std::time::{Duration, SystemTime};
use std::{fs, io};

const SECONDS_OF_A_DAY: u64 = 86_400;

/// Opens a file to append to it, and makes it where there is none. A regular file is locked, unless its file system has no locks.
///
/// # Errors
/// Where that fails; with the words `taken` where another process has locked it.
pub(crate) fn open_locked(rt: &HostRuntime, path: &str, taken: &str) -> io::Result<File> {
    let file = open_to_append(rt, path)?;
    if file.metadata()?.is_file() {
        if let Err(TryLockError::WouldBlock) = file.try_lock() {
            return Err(io::Error::new(ErrorKind::WouldBlock, taken));
        }
    }
    Ok(file)
}

// Opens a file to append to it. An open of a FIFO waits for a reader, and this one does not: there has to be one.
fn open_to_append(rt: &HostRuntime, path: &str) -> io::Result<File> {
    let is_fifo = fs::metadata(rt, path).is_ok_and(|found| found.file_type().is_fifo());
    // An open for both waits for nobody. It counts as a reader, until it is closed.
    let reader = if is_fifo {
        File::options().read(true).write(true).open(rt, path).ok()
    } else {
        None
    };
    let file = File::options().create(true).append(true).open(rt, path)?;
    drop(reader);
    if is_fifo && is_ready(&file, 0, 0) {
        return Err(io::Error::new(ErrorKind::NotConnected, "no process reads it"));
    }
    Ok(file)
}

/// Makes an empty file, with these rights at most, and returns it with its name: that of `path` with the time behind it, as in
/// `FILE.2026-11-30T22-55-35Z`, and where that is taken, `-2`, `-3` and so on.
///
/// # Errors
/// Where that fails.
pub(crate) fn create_dated(rt: &HostRuntime, path: &str, mode: u32) -> io::Result<(File, String)> {
    let time = time_text(rt)?;
    for number in 1..=u32::MAX {
        let name = match number {
            1 => format!(in rt.alloc(); "{path}.{time}")?,
            _ => format!(in rt.alloc(); "{path}.{time}-{number}")?,
        };
        let made = File::options()
            .write(true)
            .create_new(true)
            .mode(mode)
            .open(rt, name.as_str());
        match made {
            Ok(file) => return Ok((file, name)),
            Err(error) if error.kind() == ErrorKind::AlreadyExists => (),
            Err(error) => return Err(error),
        }
    }
    Err(ErrorKind::AlreadyExists.into())
}

/// Gives a file another name, with the time behind it, which it returns. No file that has such a name is lost.
///
/// # Errors
/// Where that fails.
pub(crate) fn move_away(rt: &HostRuntime, path: &str) -> io::Result<String> {
    // An empty file keeps the name free.
    let (_, name) = create_dated(rt, path, 0)?;
    fs::rename(rt, path, name.as_str())?;
    Ok(name)
}

// The time in UTC, as `2026-11-30T22-55-35Z`.
fn time_text(rt: &HostRuntime) -> io::Result<String> {
    let since = SystemTime::now(rt)?
        .duration_since(SystemTime::UNIX_EPOCH)
        .unwrap_or(Duration::ZERO);
    let days = (since.as_secs() / SECONDS_OF_A_DAY) as i64;
    let date = Date::from_unix_epoch_day(days).unwrap_or(Date::MAX);
    let (year, month, day) = (date.year, date.month, date.day);
    let time = Time::from_second((since.as_secs() % SECONDS_OF_A_DAY) as u32, 0);
    let (hour, minute, second) = (time.hour, time.minute, time.second);
    Ok(format!(in rt.alloc(); "{year}-{month:02}-{day:02}T{hour:02}-{minute:02}-{second:02}Z")?)
}
