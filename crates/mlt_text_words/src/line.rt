//! The lines of a text.

ghost use Rattle.std.specs.Prelude.{◌≡◌, ◌<◌, ◌∷◌, length, true, IfSome};
ghost use Rattle.std.specs.List.{list_all, position};
ghost use Rattle.mlt_text_words.specs.Lines.{Raw, lines, is_lf, is_comment, is_allowed, is_unprintable, without_cr};
ghost use Rattle.mlt_text_words.specs.ReadLines.{Tells};

/// How many bytes a line has at most before its LF, a CR among them.
pub const MOST_LINE_BYTES: usize = 200;

/// A line that was read, its bytes without the LF and a CR before it.
#[derive(Clone, Copy)]
pub enum LineText<'a> {
    /// More than 200 bytes stand before the LF, a CR counted.
    TooLong,
    /// A byte of it is not allowed.
    Faulty(&'a [u8]),
    /// Each byte is a tab or from 0x20 to 0x7E. The flag says whether an LF ends it.
    Allowed(&'a [u8], bool),
}

/// Where the first LF of a text is.
pub fn find_lf(text: &[u8]) -> Option<usize>
    ensures { result ≡ position is_lf text.now }
{
    text.iter().position(|byte| *byte == b'\n')
}

// The first line without its LF, whether an LF ends it, and the text after it.
fn first_line(text: &[u8]) -> (&[u8], bool, &[u8])
    requires { 0 < length text.now }
    ensures first { lines text.now
        ≡ record { bytes = result.0.now; ended = result.1 } ∷ lines result.2.now }
    ensures less { length result.2.now < length text.now }
{
    match find_lf(text) {
        Some(end) => (&text[..end], true, &text[end + 1..]),
        None => (text, false, &[]),
    }
}

fn find_unprintable(text: &[u8]) -> Option<usize>
    ensures { result ≡ position is_unprintable text.now }
{
    text.iter()
        .position(|byte| !(*byte >= 0x20 && *byte <= 0x7E))
}

// The first line and the text after it, found in one pass over its bytes. `None` where a byte of it is not from 0x20
// to 0x7E, or no LF ends it: then `first_line` has the line.
fn first_printable_line(text: &[u8]) -> Option<(&[u8], &[u8])>
    ensures first { IfSome result
        (λ x. lines text.now ≡ record { bytes = x.0.now; ended = true } ∷ lines x.1.now) }
    ensures allowed { IfSome result (λ x. list_all is_allowed x.0.now ≡ true) }
    ensures less { IfSome result (λ x. length x.1.now < length text.now) }
{
    let end = find_unprintable(text)?;
    if text[end] == b'\n' {
        Some((&text[..end], &text[end + 1..]))
    } else {
        None
    }
}

/// The line without a CR at its end.
pub fn trimmed(bytes: &[u8]) -> &[u8]
    ensures { result.now ≡ without_cr bytes.now }
{
    if !bytes.is_empty() && bytes[bytes.len() - 1] == b'\r' {
        &bytes[..bytes.len() - 1]
    } else {
        bytes
    }
}

/// Whether the first byte after spaces and tabs is a `#`.
pub fn is_comment_line(line: &[u8]) -> bool
    ensures { result ≡ is_comment line.now }
{
    for byte in line {
        if *byte != b' ' && *byte != b'\t' {
            return *byte == b'#';
        }
    }
    false
}

// Whether each byte is a tab or from 0x20 to 0x7E.
fn is_allowed_line(line: &[u8]) -> bool
    ensures { result ≡ list_all is_allowed line.now }
{
    line.iter()
        .all(|byte| *byte == b'\t' || (*byte >= 0x20 && *byte <= 0x7E))
}

// The line, whose bytes are allowed and stand before its LF.
#[tactic(auto, using(crate::proofs::Allowed::no_cr))]
fn allowed(line: &[u8]) -> LineText<'_>
    requires { list_all is_allowed line.now ≡ true }
    ensures { Tells result record { bytes = line.now; ended = true } }
{
    if line.len() > MOST_LINE_BYTES {
        LineText::TooLong
    } else {
        LineText::Allowed(line, true)
    }
}

// A line, given its bytes before the LF and whether an LF ends it.
fn judged(bytes: &[u8], ended: bool) -> LineText<'_>
    ensures { Tells result record { bytes = bytes.now; ended = ended } }
{
    if bytes.len() > MOST_LINE_BYTES {
        return LineText::TooLong;
    }
    let line = if ended { trimmed(bytes) } else { bytes };
    if is_allowed_line(line) {
        LineText::Allowed(line, ended)
    } else {
        LineText::Faulty(line)
    }
}

/// The first line of a text, and the text after it.
pub fn read_line(text: &[u8]) -> (LineText<'_>, &[u8])
    requires { 0 < length text.now }
    ensures first { (raw : Raw) × (lines text.now ≡ raw ∷ lines result.1.now)
        × Tells result.0 raw }
    ensures less { length result.1.now < length text.now }
{
    if let Some((line, rest)) = first_printable_line(text) {
        return (allowed(line), rest);
    }
    let (bytes, ended, rest) = first_line(text);
    (judged(bytes, ended), rest)
}
