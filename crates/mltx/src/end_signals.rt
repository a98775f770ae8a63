//! What asks a server to end: the end of standard input, and signals.

use crate::streams::is_ready;
use libc::net::POLLIN;
use mlt_serve::EndSignal;
use mlt_text_words::after;
use mlt_types::Refusal;
use mlt_work_waits::tuning::INPUT_MILLISECONDS;
use std::fs::File;
use std::io::{ErrorKind, Read, Stdin};
use std::os::unix::fs::FileExt;
use std::sync::atomic::{AtomicBool, Ordering};
use std::sync::{Arc, Wait};
use std::thread;
use std::thread::Threads;

// SIGHUP, SIGINT and SIGTERM, as a mask of signals has them.
const ASK_TO_END: u64 = 1 << 0 | 1 << 1 | 1 << 14;

/// Tells where standard input has ended, if that is asked for, or a signal asks for the end. A signal does where the process was
/// started with it blocked, as by `./mltx serve`: it stays pending then, and ends no process.
#[derive(Drop)]
pub(crate) struct EndSignals {
    // Whether standard input has ended, where that is asked for.
    input_has_ended: Option<Arc<AtomicBool>>,
    // What the system says of this process, if it does.
    status: Option<File>,
}

impl EndSignals {
    /// Where the end of standard input asks for the end, a thread of its own reads away what it has, since a read waits where another
    /// process shares the input and was faster. No thread joins that one.
    ///
    /// # Errors
    /// `OutOfMemory`, where memory or the thread is refused.
    pub(crate) fn new<T: Threads + Wait + Sync + Send + Copy + 'static>(
        rt: &HostRuntime,
        threads: &T,
        until_eof: bool,
    ) -> Result<EndSignals, Refusal> {
        let input_has_ended = if until_eof {
            Some(watch_input(rt, threads)?)
        } else {
            None
        };
        Ok(EndSignals {
            input_has_ended,
            status: File::open(rt, "/proc/self/status").ok(),
        })
    }

    /// Whether each signal that asks for the end stays pending, or is ignored. One that does neither ends the process.
    pub(crate) fn are_held(&self) -> bool {
        let (blocked, ignored) = self.masks(b"SigBlk:\t");
        (blocked | ignored) & ASK_TO_END == ASK_TO_END
    }

    // Whether a signal that asks for the end is pending, and is not ignored.
    fn is_signalled(&self) -> bool {
        let (pending, ignored) = self.masks(b"ShdPnd:\t");
        pending & !ignored & ASK_TO_END != 0
    }

    // The mask of this process behind this name, and that of the signals which it ignores.
    fn masks(&self, name: &[u8]) -> (u64, u64) {
        let Some(file) = &self.status else {
            return (0, 0);
        };
        let mut buffer = [0; 4096];
        let count = file.read_at(&mut buffer, 0).unwrap_or(0);
        let status = buffer.get(..count).unwrap_or(&[]);
        (mask_of(status, name), mask_of(status, b"SigIgn:\t"))
    }
}

// The mask behind this name in what the system says of a process, in hexadecimal digits; 0 where the name does not stand there.
fn mask_of(status: &[u8], name: &[u8]) -> u64 {
    for line in status.split(|byte| *byte == b'\n') {
        if let Some(digits) = after(line, name) {
            let text = str::from_utf8(digits).unwrap_or("");
            return u64::from_str_radix(text, 16).unwrap_or(0);
        }
    }
    0
}

impl EndSignal for EndSignals {
    fn is_given(&mut self) -> bool {
        let input_has_ended = match &self.input_has_ended {
            Some(has_ended) => has_ended.load(Ordering::SeqCst),
            None => false,
        };
        input_has_ended || self.is_signalled()
    }
}

// Starts the thread that reads standard input, and tells where it has ended.
fn watch_input<T: Threads + Wait + Sync + Send + Copy + 'static>(
    rt: &HostRuntime,
    threads: &T,
) -> Result<Arc<AtomicBool>, Refusal> {
    let has_ended = Arc::new(rt.alloc(), AtomicBool::new(false))?;
    let told = has_ended.clone()?;
    let stdin = rt.stdin();
    let own = *threads;
    match thread::spawn(threads, move || read_away(&own, stdin, &told)) {
        Ok(_) => Ok(has_ended),
        Err(_) => Err(Refusal::OutOfMemory),
    }
}

// Reads standard input up to its end, or until a read fails, and tells so.
fn read_away<W: Wait>(rt: &W, mut stdin: Stdin, has_ended: &AtomicBool) {
    let mut buffer = [0; 4096];
    for _ in rt.forever() {
        if !is_ready(&stdin, POLLIN, INPUT_MILLISECONDS) {
            continue;
        }
        match stdin.read(&mut buffer) {
            Ok(0) => break,
            Ok(_) => (),
            Err(error) if error.kind() == ErrorKind::Interrupted => (),
            Err(_) => break,
        }
    }
    has_ended.store(true, Ordering::SeqCst);
}
