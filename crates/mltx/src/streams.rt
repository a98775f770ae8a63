//! The standard streams.

use libc::net::poll;
use libc::types::pollfd;
use std::fs;
use std::fs::File;
use std::os::fd::AsRawFd;
use std::os::unix::fs::{FileTypeExt, MetadataExt};

/// Whether a file is ready for these events, or fails, for which it is waited for so many milliseconds.
pub(crate) fn is_ready<F: AsRawFd>(file: &F, events: i16, milliseconds: i32) -> bool {
    let mut fds = [pollfd {
        fd: file.as_raw_fd(),
        events,
        revents: 0,
    }];
    poll(&mut fds, milliseconds) > 0
}

/// The standard streams as paths.
pub(crate) const STDIN: &str = "/proc/self/fd/0";

pub(crate) const STDOUT: &str = "/proc/self/fd/1";

pub(crate) const STDERR: &str = "/proc/self/fd/2";

/// Whether a file of this path is a terminal: a character device with one of the major numbers that Linux keeps for these.
pub(crate) fn is_terminal(rt: &HostRuntime, path: &str) -> bool {
    fs::metadata(rt, path).is_ok_and(|found| {
        let major = found.rdev() >> 8 & 0xfff;
        found.file_type().is_char_device() && matches!(major, 4 | 5 | 136..=143)
    })
}

/// What stands in the place of standard streams that were closed as the program began.
#[derive(Drop)]
pub(crate) struct Streams {
    _input: Option<File>,
    _output: Option<File>,
    _error: Option<File>,
}

impl Streams {
    /// From now on a stream that is closed is one that fails, as before. Else the next file or socket would have its number, and get
    /// what is written to the stream.
    pub(crate) fn open(rt: &HostRuntime) -> Streams {
        let first = stream(rt);
        let second = first.as_ref().and_then(|_| stream(rt));
        let third = second.as_ref().and_then(|_| stream(rt));
        Streams {
            _input: first,
            _output: second,
            _error: third,
        }
    }
}

// What stands in the place of the first standard stream that is closed, if one is: an input that can't be read, or an output that
// can't be written.
fn stream(rt: &HostRuntime) -> Option<File> {
    let file = File::open(rt, "/dev/null").ok()?;
    match file.as_raw_fd() {
        libc::STDIN_FILENO => {
            drop(file);
            File::create(rt, "/dev/null").ok()
        }
        libc::STDOUT_FILENO | libc::STDERR_FILENO => Some(file),
        _ => None,
    }
}
