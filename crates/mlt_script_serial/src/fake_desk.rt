//! The form of a desk with a list of answers.

use crate::call::DeskAnswer;

/// A desk for tests, with a list of answers that it gives one after another.
#[derive(Drop)]
pub struct FakeDesk {
    pub(crate) answers: Vec<DeskAnswer>,
    pub(crate) at: usize,
}
