//! Passes of a walk, and where it stands in one.

ghost use Rattle.std.specs.Prelude.{◌≡◌};
ghost use Rattle.mlt_hash.specs.Passes.{directory_mode, header_mode, bucket_mode};

use mlt_types::{Mode, PageNo, Value};

/// A pass from the header to a key's bucket.
#[derive(Clone, Copy, Debug, PartialEq, Eq)]
pub enum Pass {
    /// The first one, which holds the header and a directory page shared, and splits nothing.
    First,
    /// One that may split its bucket, where the directory keeps its depth and one page of it has all entries of the
    /// bucket. The header is shared, all other pages are exclusive.
    Narrow,
    /// One that may split its bucket and double the directory. All pages are exclusive.
    Wide,
}

impl Pass {
    pub(crate) fn header_mode(self) -> Mode
        ensures { result ≡ header_mode self }
    {
        match self {
            Pass::First | Pass::Narrow => Mode::Shared,
            Pass::Wide => Mode::Exclusive,
        }
    }

    pub(crate) fn directory_mode(self) -> Mode
        ensures { result ≡ directory_mode self }
    {
        match self {
            Pass::First => Mode::Shared,
            Pass::Narrow | Pass::Wide => Mode::Exclusive,
        }
    }

    pub(crate) fn bucket_mode(self, mode: Mode) -> Mode
        ensures { result ≡ bucket_mode self mode }
    {
        match self {
            Pass::First => mode,
            Pass::Narrow | Pass::Wide => Mode::Exclusive,
        }
    }
}

/// A change of a key's record in its bucket.
#[derive(Clone, Copy, Debug, PartialEq, Eq)]
pub enum Change {
    /// A record of this value is put into a slot with room.
    Put(Value),
    /// The transaction's own ghost becomes a record of this value.
    Revive(Value),
    /// The record gets this value.
    Set(Value),
    /// The record becomes a ghost of the transaction.
    Remove,
}

/// Where a walk stands in its pass.
#[derive(Clone, Copy, Debug, PartialEq, Eq)]
pub enum Phase {
    /// Nothing is locked.
    Start,
    /// The header is read: the key's directory page, its entry there, and the directory's depth.
    Headed {
        dir: PageNo,
        row: usize,
        directory_depth: u8,
    },
    /// The directory page is read: the key's bucket, and the directory's depth.
    Placed(PageNo, u8),
    /// The bucket is read: its page, the directory's depth, and the value that the key has there, if it has one.
    AtBucket {
        number: PageNo,
        directory_depth: u8,
        found: Option<Value>,
    },
    /// The bucket has no room for the key, and this pass is to follow.
    Full(Pass),
    /// The bucket on this page has no room yet for a record of this value, but has it once it is split down to this depth; and
    /// whether nothing was split yet.
    Adding {
        value: Value,
        bucket: PageNo,
        room_depth: u8,
        unsplit: bool,
    },
    /// A split of the bucket is under way, to make room for a record of this value down to this depth.
    Splitting(Value, u8),
    /// The bucket on this page is written, with this change.
    Changed(PageNo, Change),
}
