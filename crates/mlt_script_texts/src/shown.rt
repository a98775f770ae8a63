//! Bytes as they are shown within one line.

use std::alloc::{AllocError, Global};

// How many bytes of a line are shown at most.
const MOST_SHOWN: usize = 60;

/// Bytes one after another, all in one line: each as itself where it is printed, and else behind a backslash.
pub(crate) fn show(alloc: Global, bytes: &[u8]) -> Result<String, AllocError> {
    let mut text = String::new(alloc);
    for byte in bytes {
        match *byte {
            b' '..=b'~' => text.push(char::from(*byte))?,
            b'\t' => text.push_str("\\t")?,
            _ => write!(text, "\\x{byte:02x}")?,
        }
    }
    Ok(text)
}

/// The front of a line, of at most 60 bytes, and dots where the line has more.
pub(crate) fn show_front(alloc: Global, line: &[u8]) -> Result<String, AllocError> {
    let mut text = show(alloc, line.get(..MOST_SHOWN).unwrap_or(line))?;
    if line.len() > MOST_SHOWN {
        text.push_str("..")?;
    }
    Ok(text)
}
