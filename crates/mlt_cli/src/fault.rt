//! What is said of a fault.

ghost use Rattle.std.specs.Prelude.{◌≡◌, IsOkUnless, OnErr, OnOk};
ghost use Rattle.std.specs.Io.KnownBytes.{Appends};
ghost use Rattle.mlt_text.specs.Texts.{AppendsFront};
ghost use Rattle.mlt_cli.specs.Faults.{fault_text, status_of};

use arrayvec::ArrayString;
use mlt_text::write_text;
use mlt_types::Refusal;
use std::fmt;
use std::fmt::Write as _;
use std::io::Write;

/// The line that tells of a fault. Its `Display` writes `mltx: N NAME`, for a faulty script or trace
/// ` line L CAUSE` after it, and a line feed.
#[derive(Drop)]
pub struct FaultLine(pub Refusal);

impl fmt::Display for FaultLine {
    ghost use Rattle.std.specs.Prelude.{Some};
    ghost use Rattle.mlt_cli.specs.Faults.{fault_text};

    ghost output = { λ fault. Some (fault_text fault.0) };

    fn fmt<W: fmt::Write>(&self, f: &mut fmt::Formatter<W>) -> fmt::Result {
        let refusal = self.0;
        let number = refusal.number();
        let name = refusal.name();
        match refusal {
            Refusal::ScriptFault { line, cause } => {
                let cause = cause.name();
                write!(f, "mltx: {number} {name} line {line} {cause}\n")
            }
            Refusal::TraceFault { line, cause } => {
                let cause = cause.name();
                write!(f, "mltx: {number} {name} line {line} {cause}\n")
            }
            _ => write!(f, "mltx: {number} {name}\n"),
        }
    }
}

// Longer than any line that tells of a fault.
const ROOM: usize = 96;

/// Writes the line that tells of the fault, and flushes. It takes no memory.
///
/// # Errors
/// `Io` where a write or the flush fails. The writer then has a prefix of the line.
pub fn report_fault<W: Write>(refusal: &Refusal, errors: &mut W) -> Result<(), Refusal>
    ensures ok { OnOk result (Appends (W.contents errors.old) (W.contents errors.new)
        (fault_text refusal.now)) }
    ensures err { OnErr result (AppendsFront (W.contents errors.old) (W.contents errors.new)
        (fault_text refusal.now)) }
    ensures refusal { IsOkUnless result Refusal.Io }
{
    let mut line = ArrayString::<ROOM>::new();
    match write!(line, "{}", FaultLine(*refusal)) {
        Ok(()) => write_text(errors, line.as_str().as_bytes()),
        Err(_) => Err(Refusal::Io),
    }
}

/// The status that the program ends with once its command line was read: 0 where all was done, and 1
/// at a fault.
pub fn status(outcome: &Result<(), Refusal>) -> u8
    ensures { result ≡ status_of outcome.now }
{
    match outcome {
        Ok(()) => 0,
        Err(_) => 1,
    }
}
