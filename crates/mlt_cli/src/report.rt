//! What is said where the words of the command line give no job, and the status.

ghost use Rattle.std.specs.Prelude.{◌≡◌, ◌≢◌, ◌⊎◌, IfOk, IfErr, IsOkUnless, Err};
ghost use Rattle.std.specs.Io.KnownBytes.{Keeps};
ghost use Rattle.clap.specs.Words.{kind_of};
ghost use Rattle.mlt_cli.specs.CommandLine.{words_status};

use clap::Error;
use clap::error::ErrorKind;
use mlt_text::flush;
use mlt_types::Refusal;
use std::io::Write;

/// The status that the program ends with where the words gave no job: 0 where they ask for help or the
/// version, 1 where memory ran out, and else 2.
pub fn command_line_status(error: &Error) -> u8
    ensures { result ≡ words_status (kind_of error.now) }
{
    match error.kind() {
        ErrorKind::DisplayHelp | ErrorKind::DisplayVersion => 0,
        ErrorKind::OutOfMemory => 1,
        _ => 2,
    }
}

/// Writes what `clap` says where the words gave no job, and answers the status that the program ends
/// with. Help and the version go to `output`, and what is wrong to `errors`, where a failed write changes
/// nothing.
///
/// # Errors
/// `OutOfMemory` exactly where memory ran out; nothing was written then. `Io` where help or the version
/// can't be written.
pub fn report_command_line<O: Write, E: Write>(
    error: &Error,
    output: &mut O,
    errors: &mut E,
) -> Result<u8, Refusal>
    ensures status { IfOk result
        (λ status. (status ≡ words_status (kind_of error.now)) × (status ≢ 1)) }
    // what was asked for goes to the output alone, and what is wrong to the errors alone
    ensures asked { words_status (kind_of error.now) ≡ 0
        → Keeps (E.contents errors.old) (E.contents errors.new) }
    ensures wrong { words_status (kind_of error.now) ≡ 2
        → Keeps (O.contents output.old) (O.contents output.new) }
    ensures memory { words_status (kind_of error.now) ≡ 1
        → (result ≡ Err Refusal.OutOfMemory) × Keeps (O.contents output.old) (O.contents output.new)
        × Keeps (E.contents errors.old) (E.contents errors.new) }
    ensures err { IfErr result (λ refusal.
        ((refusal ≡ Refusal.OutOfMemory) × (words_status (kind_of error.now) ≡ 1))
        ⊎ ((refusal ≡ Refusal.Io) × (words_status (kind_of error.now) ≡ 0))) }
{
    let status = command_line_status(error);
    if status == 1 {
        return Err(Refusal::OutOfMemory);
    }
    if status == 0 {
        write_error(error, output)?;
    } else {
        // The status tells of the error also where its text can't be written.
        let _ = write_error(error, errors);
    }
    Ok(status)
}

fn write_error<W: Write>(error: &Error, writer: &mut W) -> Result<(), Refusal>
    ensures { IsOkUnless result Refusal.Io }
{
    match write!(writer, "{error}") {
        Ok(()) => flush(writer),
        Err(_) => Err(Refusal::Io),
    }
}
