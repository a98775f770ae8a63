//! Open ifs.

/// An `if` that is open: the operations on the longest path through its other part, counted from the script's begin,
/// and whether its `else` came. Before the `else` the other part is empty.
#[derive(Clone, Copy)]
pub struct Frame {
    pub other: u16,
    pub turned: bool,
}
