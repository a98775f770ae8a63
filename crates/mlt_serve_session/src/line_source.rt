//! Where a session reads from.

ghost use Rattle.std.specs.Prelude.{◌≡◌};

use std::io::Read;

/// A reader that is told where it may end before its input does: between two transactions. What a client sends later is then read by
/// another session, which so begins where this one has ended.
pub trait LineSource: Read {
    /// The next read is between two transactions. These bytes are read, and not answered: a line that goes on.
    fn pause(&mut self, held: &[u8])
        ensures { Self.remaining self.new ≡ Self.remaining self.old };
}

/// Bytes that are all there.
impl LineSource for &[u8] {
    fn pause(&mut self, _held: &[u8]) {}
}
