//! A number in a text.

ghost use Rattle.std.specs.Prelude.{◌≡◌, ◌≤◌, [], ◌∷◌, ◌++◌, OnErr, OnOk, decimal, length};

use itoa::write_digits;
use std::alloc::AllocError;

// Room for a word of 19 bytes, 20 digits and one byte more.
const PIECE: usize = 40;

/// Adds a word, a number and one byte more to a text. They are put together first, so that the text takes them as one.
///
/// # Errors
/// Where a growth was refused; the text is then as before.
#[inline(always)]
pub fn push_numbered(
    text: &mut Vec<u8>,
    word: &[u8],
    number: u64,
    last: u8,
) -> Result<(), AllocError>
    requires { length word.now ≤ 19 }
    ensures ok { OnOk result
        (text.new.items ≡ text.old.items ++ word.now ++ decimal number ++ last ∷ []) }
    ensures err { OnErr result (text.new.items ≡ text.old.items) }
{
    let mut piece = [0; PIECE];
    piece[PIECE - 1] = last;
    let digits = write_digits(number, &mut piece, PIECE - 1);
    let start = digits - word.len();
    piece[start..digits].copy_from_slice(word);
    text.extend_from_slice(&piece[start..])
}
