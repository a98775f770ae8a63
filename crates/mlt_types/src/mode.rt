//! Modes of page locks.

/// The mode of a page lock. Only `Shared` goes with `Shared` (Gray, Lorie, Putzolu and Traiger, Granularity of
/// Locks and Degrees of Consistency in a Shared Data Base, IFIP 1976, section 2).
#[derive(Clone, Copy, Debug, PartialEq, Eq)]
pub enum Mode {
    /// To read: any number may hold the page so.
    Shared,
    /// To write: nobody else holds the page.
    Exclusive,
}
