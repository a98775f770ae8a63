//! Where `solo`, `steps` and `run` print.

use crate::failure::Failure;
use crate::input::Input;
use crate::loading::Loading;
use crate::output::Output;
use crate::streams::{STDOUT, is_terminal};
use mlt_script_texts::{Echoed, Look, write_shown};
use mlt_types::Refusal;
use std::alloc::Global;
use std::io::{ErrorKind, Write};
use std::{env, io};

/// Standard output. The answers that make the base of the run are not shown. What is to stand beside the input, or in colours, is kept until the run is over.
#[derive(Drop)]
pub(crate) struct Screen<W> {
    loading: Loading,
    output: Output<W>,
    echoed: Echoed,
    look: Look,
    kept: Option<Vec<u8>>,
    // Whether there was no memory to keep more.
    is_refused: bool,
}

impl<W: Write> Screen<W> {
    pub(crate) fn new(
        alloc: Global,
        writer: W,
        loading: Loading,
        echoed: Echoed,
        look: Look,
    ) -> Screen<W> {
        let is_plain = echoed == Echoed::Nothing && look == Look::Plain;
        Screen {
            loading,
            output: Output::new(writer),
            echoed,
            look,
            kept: if is_plain {
                None
            } else {
                Some(Vec::new(alloc))
            },
            is_refused: false,
        }
    }

    /// Why a run of this input was refused so: the base was not loaded, or the answers were not kept, or what the input and
    /// standard output say.
    pub(crate) fn failure(&mut self, refusal: Refusal, input: Input) -> Failure {
        if self.is_refused {
            return Failure::from(Refusal::OutOfMemory);
        }
        match self.loading.take_failure() {
            Some(failure) => failure,
            None => Failure::of_run(refusal, input, self.output.failure()),
        }
    }

    /// Writes what was kept, if anything was, of a run of this input.
    ///
    /// # Errors
    /// `OutOfMemory` where memory runs out, or there was none to keep the input, and `Io` where a write fails.
    pub(crate) fn show(&mut self, alloc: Global, input: &Input) -> Result<(), Refusal> {
        let Some(text) = self.kept.take() else {
            return Ok(());
        };
        let (echoed, look) = (self.echoed, self.look);
        let input = match input.bytes() {
            Some(input) => input,
            None if echoed == Echoed::Nothing => &[],
            None => return Err(Refusal::OutOfMemory),
        };
        write_shown(
            alloc,
            echoed,
            look,
            input,
            text.as_slice(),
            &mut self.output,
        )
    }
}

impl<W: Write> Write for Screen<W> {
    fn write(&mut self, buf: &[u8]) -> io::Result<usize> {
        if !self.loading.is_done() {
            return self.loading.write(buf);
        }
        match &mut self.kept {
            Some(text) => match text.extend_from_slice(buf) {
                Ok(()) => Ok(buf.len()),
                Err(_) => {
                    self.is_refused = true;
                    Err(ErrorKind::OutOfMemory.into())
                }
            },
            None => self.output.write(buf),
        }
    }

    fn flush(&mut self) -> io::Result<()> {
        match self.kept {
            Some(_) => Ok(()),
            None => self.output.flush(),
        }
    }
}

/// How answers look: in colours at a terminal, unless the environment has a `NO_COLOR` that is not empty (no-color.org).
pub(crate) fn look_of(rt: &HostRuntime) -> Look {
    let has_no_color = env::var(rt, "NO_COLOR").is_ok_and(|value| !value.is_empty());
    if is_terminal(rt, STDOUT) && !has_no_color {
        Look::Coloured
    } else {
        Look::Plain
    }
}
