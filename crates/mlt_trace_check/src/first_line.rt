//! The first line of what was read so far.

ghost use Rattle.std.specs.Prelude.{◌≡◌, ◌≤◌, ◌<◌, ◌∷◌, List, length, true, false, IfNone, IfSome};
ghost use Rattle.mlt_text_words.specs.Lines.{Raw, lines};
ghost use Rattle.mlt_trace_check.specs.Readings.{reading};
ghost use Rattle.mlt_trace_check.specs.Settled.{IsSettled};

use crate::reading::{TraceReading, read_first};
use mlt_text_words::{MOST_LINE_BYTES, find_lf};

// Whether the first line of a text may go on behind it: the input goes on, no LF came, and the line is not too long already.
fn may_go_on(text: &[u8], ended: bool) -> bool
    requires { 0 < length text.now }
    ensures short { result ≡ true → length text.now ≤ 200 }
    ensures going { result ≡ true → ended ≡ false }
    ensures settled { result ≡ false → ended ≡ false
        → (raw : Raw) (after : List Raw) → lines text.now ≡ raw ∷ after → IsSettled raw }
{
    if ended || text.len() > MOST_LINE_BYTES {
        return false;
    }
    match find_lf(text) {
        None => true,
        Some(_) => false,
    }
}

// What the first line of a text says and the text after it, where that stays so whatever comes behind; of the last text of an
// input, in any case. None where the text is empty, or its first line goes on.
pub(crate) fn first_line(text: &[u8], ended: bool) -> Option<(TraceReading, &[u8])>
    ensures some { IfSome result (λ x. (raw : Raw) × (lines text.now ≡ raw ∷ lines x.1.now)
        × (reading raw ≡ x.0) × (ended ≡ false → IsSettled raw)) }
    ensures less { IfSome result (λ x. length x.1.now < length text.now) }
    ensures short { IfNone result (length text.now ≤ 200) }
    ensures done { IfNone result (ended ≡ true → length text.now ≡ 0) }
{
    if text.is_empty() {
        return None;
    }
    let (said, rest) = read_first(text);
    match said {
        TraceReading::Says(_) => Some((said, rest)),
        TraceReading::Bad(_) => {
            if may_go_on(text, ended) {
                None
            } else {
                Some((said, rest))
            }
        }
    }
}
