//! What a split does next.

/// What a split does next. Its new bucket is made.
#[derive(Clone, Copy, Debug, PartialEq, Eq)]
pub enum SplitPhase {
    /// It writes the old bucket.
    OldBucket,
    /// It writes the new bucket's entries on this page of a directory that keeps its depth, and on those after it up
    /// to the second place, excluded.
    InPlace(usize, usize),
    /// It rewrites this page of the directory as its first half doubled.
    Double(usize),
    /// It makes the page of the second half of this page.
    SecondHalf(usize),
    /// It writes the header of the doubled directory.
    Header,
}
