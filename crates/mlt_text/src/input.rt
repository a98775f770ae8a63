//! All that a reader has.

ghost use Rattle.std.specs.Prelude.{◌≡◌, ◌≤◌, ◌<◌, ◌⊎◌, ℕ, List, length, IfOk, IfErr, IsOkUnless, OnErr, IfSome, IsErr, take, vec_len, true, false, [], ◌++◌, ◌+◌};
ghost use Rattle.std.specs.Io.{ReadsAtMost};
ghost use Rattle.std.specs.Io.KnownBytes.{Consumes, IsAtEnd, Keeps, ReadConsumes};
ghost use Rattle.mlt_text.specs.Failures.{IsWant, ReadsWithinLimit, RefusesLong};
ghost use Rattle.mlt_text.specs.Inputs.{GivesWhole};

use crate::buffer::zeros;
use mlt_types::Refusal;
use std::alloc::Global;
use std::io::Read;

/// The greatest number of bytes of an input: 16,777,216.
pub const MAX_INPUT: usize = 16_777_216;

// How many bytes one read asks for at most.
const PIECE: usize = 65_536;

/// All that the reader has, up to its end.
///
/// # Errors
/// `Io` where a read fails, for whatever reason, or the reader has more than `MAX_INPUT` bytes; of these at most
/// one is read past the limit. `OutOfMemory` where a growth is refused. What was read before is lost.
pub fn read_input<R: Read>(alloc: Global, reader: &mut R) -> Result<Vec<u8>, Refusal>
    // all that the reader had, which fits
    ensures ok { IfOk result
        (λ bytes. GivesWhole (R.remaining reader.old) (R.remaining reader.new) bytes.items) }
    ensures long { RefusesLong (R.remaining reader.old) result }
    ensures bounded { ReadsWithinLimit (R.remaining reader.old) (R.remaining reader.new) }
    ensures refusals { IfErr result IsWant }
{
    let mut bytes = Vec::new(alloc);
    let mut piece = zeros(alloc, PIECE)?;
    // each read but the last gives a byte at least
    for _ in 0..MAX_INPUT + 1 {
        let room = PIECE.min(MAX_INPUT + 1 - bytes.len());
        if read_piece(reader, &mut piece[..room], &mut bytes)? {
            return Ok(bytes);
        }
    }
    unreachable!()
}

// Appends what one read gives, and answers whether the reader was at its end.
fn read_piece<R: Read>(
    reader: &mut R,
    piece: &mut [u8],
    bytes: &mut Vec<u8>,
) -> Result<bool, Refusal>
    requires room { 0 < length piece.old }
    requires within { length bytes.old.items + length piece.old ≤ 16777217 }
    ensures ok { IfOk result (λ ended. (read : List ℕ) × (bytes.new.items ≡ bytes.old.items ++ read)
        × Consumes (R.remaining reader.old) (R.remaining reader.new) read
        × (ended ≡ true → (read ≡ []) × IsAtEnd (R.remaining reader.new))
        × length bytes.new.items ≤ 16777216) }
    ensures grows { IfOk result (λ ended.
        ended ≡ false → length bytes.old.items < length bytes.new.items) }
    ensures err { OnErr result
        ((read : List ℕ) × Consumes (R.remaining reader.old) (R.remaining reader.new) read
        × length bytes.old.items + length read ≤ 16777217) }
    ensures refusals { IfErr result IsWant }
{
    let count = read_some(reader, piece)?;
    if bytes.len() + count > MAX_INPUT {
        return Err(Refusal::Io);
    }
    bytes.extend_from_slice(&piece[..count])?;
    Ok(count == 0)
}

/// One read. It answers how many bytes came, and 0 at the end of the input, or where the buffer has no room.
///
/// # Errors
/// `Io`, where the read failed, for whatever reason: a read that was interrupted is not tried again.
pub fn read_some<R: Read>(reader: &mut R, buffer: &mut [u8]) -> Result<usize, Refusal>
    ensures bound { ReadsAtMost result buffer.new }
    ensures bytes { ReadConsumes (R.remaining reader.old)
        (R.remaining reader.new) result buffer.new }
    ensures refusal { IsOkUnless result Refusal.Io }
{
    match reader.read(buffer) {
        Ok(count) => Ok(count),
        Err(_) => Err(Refusal::Io),
    }
}
