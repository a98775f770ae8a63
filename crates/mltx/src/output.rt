//! What the program writes to.

use std::fs::File;
use std::io;
use std::io::Write;

/// A writer, and why its last call that failed did.
#[derive(Drop)]
pub(crate) struct Output<W> {
    writer: W,
    failed: Option<io::Error>,
}

impl<W: Write> Output<W> {
    pub(crate) fn new(writer: W) -> Output<W> {
        Output {
            writer,
            failed: None,
        }
    }

    /// Why a write or a flush failed, if one did.
    pub(crate) fn failure(&self) -> Option<io::Error> {
        self.failed
    }
}

impl Output<File> {
    /// All that was written is on its disk.
    pub(crate) fn sync(&self) -> io::Result<()> {
        self.writer.sync_all()
    }

    /// Cuts so many bytes off the end of the file.
    pub(crate) fn cut(&self, count: u64) -> io::Result<()> {
        let length = self.writer.metadata()?.len();
        self.writer.set_len(length.saturating_sub(count))
    }
}

impl<W: Write> Write for Output<W> {
    fn write(&mut self, buf: &[u8]) -> io::Result<usize> {
        let told = self.writer.write(buf);
        if let Err(error) = told {
            self.failed = Some(error);
        }
        told
    }

    fn flush(&mut self) -> io::Result<()> {
        let told = self.writer.flush();
        if let Err(error) = told {
            self.failed = Some(error);
        }
        told
    }
}
