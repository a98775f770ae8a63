//! The buffer of a reader of lines: bytes are read behind those that are held, and what goes on is moved to the front.

ghost use Rattle.std.specs.Prelude.{◌≡◌, ◌<◌, ◌≤◌, ◌+◌, ◌-◌, ◌++◌, ℕ, List, length, take, drop, vec_len, IfOk, IsOkUnless, OnErr};
ghost use Rattle.std.specs.Io.KnownBytes.{Consumes, IsAtEnd, Keeps};

use crate::input::read_some;
use mlt_types::Refusal;
use std::alloc::Global;
use std::io::Read;

/// So many zeros.
///
/// # Errors
/// `OutOfMemory` where a growth is refused.
pub fn zeros(alloc: Global, count: usize) -> Result<Vec<u8>, Refusal>
    ensures length { IfOk result (λ zeros. vec_len zeros ≡ count) }
    ensures refusal { IsOkUnless result Refusal.OutOfMemory }
{
    Ok(vec![in alloc; 0; count]?)
}

/// Reads at most `most` bytes behind the `held` ones, and returns how many came: 0 at the end of the input alone.
///
/// # Errors
/// `Io`, where the read failed; the reader has what it had.
pub fn fill<R: Read>(
    reader: &mut R,
    buffer: &mut [u8],
    held: usize,
    most: usize,
) -> Result<usize, Refusal>
    requires room { held < length buffer.old }
    requires most { 0 < most }
    ensures ok { IfOk result (λ count. (piece : List ℕ)
        × (take (held + count) buffer.new ≡ take held buffer.old ++ piece)
        × (length piece ≡ count) × (count ≤ most) × (held + count ≤ length buffer.old)
        × Consumes (R.remaining reader.old) (R.remaining reader.new) piece
        × (count ≡ 0 → IsAtEnd (R.remaining reader.new))) }
    ensures err { OnErr result (Keeps (R.remaining reader.old) (R.remaining reader.new)) }
    ensures refusal { IsOkUnless result Refusal.Io }
{
    let room = most.min(buffer.len() - held);
    read_some(reader, &mut buffer[held..held + room])
}

/// Moves the bytes from `at` to `end` to the front, and returns how many they are.
pub fn keep(buffer: &mut [u8], at: usize, end: usize) -> usize
    requires { (at ≤ end) × (end ≤ length buffer.old) }
    ensures held { result ≡ end - at }
    ensures bytes { take result buffer.new ≡ drop at (take end buffer.old) }
{
    buffer.copy_within(at..end, 0);
    end - at
}
