//! Examples of conflicts.

/// A state and two operations with their replies, of which the first is held and the second is requested.
#[derive(Clone, Copy, Debug, PartialEq, Eq)]
pub struct Example<State, Op, Reply> {
    /// The state of the cell before both.
    pub state: State,
    /// The operation that is held.
    pub first: Op,
    /// What the first was told.
    pub first_reply: Reply,
    /// The operation that is requested.
    pub second: Op,
    /// The reply to the second, after the first.
    pub second_reply: Reply,
}
