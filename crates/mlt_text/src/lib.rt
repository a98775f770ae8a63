//! Reads a whole input and writes a whole text: `read_input` returns all bytes of a reader or
//! refuses an input above 16,777,216 bytes, and `write_text` writes a text, or a prefix of it if a
//! write fails. `fill` and `keep` manage the buffer of a reader of lines. `FailsCleanly` is what
//! holds of the reader and the writer if an engine fails. That each error of a read, a write or a
//! flush is reported is only tested.
#![tactic(auto)]

mod buffer;
mod input;
mod numbered;
mod output;

pub use buffer::{fill, keep, zeros};
pub use input::{MAX_INPUT, read_input, read_some};
pub use numbered::push_numbered;
pub use output::{flush, write_text};
