//! Where the directory has a pseudokey, and where it gets a new bucket.

ghost use Rattle.std.specs.Prelude.{◌≡◌, ℕ, ◌+◌, ◌-◌, ◌*◌, ◌/◌, ◌%◌, ◌^◌, ◌<◌, ◌≤◌};
ghost use Rattle.mlt_page.specs.Bits.{first_bits};

/// The first bits of a pseudokey, as a number. At most 64 are asked for; the first is the highest.
pub fn first_bits(bits: u64, count: u8) -> u64
    requires { count ≤ 64 }
    ensures value { result ≡ first_bits count bits }
    ensures below { result < 2 ^ count }
{
    if count == 0 { 0 } else { bits >> (64 - count) }
}

/// The place of a pseudokey in a directory: which of its pages, and which entry there. Both are below 256.
#[derive(Clone, Copy, Debug, PartialEq, Eq)]
pub struct DirSlot {
    /// The page, counted from 0.
    pub dir: usize,
    /// The entry of the page, counted from 0.
    pub entry: usize,
}

impl DirSlot {
    /// The place of a pseudokey in a directory of this depth, 0 to 16.
    pub fn of(bits: u64, depth: u8) -> DirSlot
        requires { depth ≤ 16 }
        ensures dir { result.dir ≡ first_bits depth bits / 256 }
        ensures entry { result.entry ≡ first_bits depth bits % 256 }
        ensures within { (result.dir < 256) × (result.dir < 2 ^ (depth - 8))
            × (result.entry < 256) }
    {
        let place = first_bits(bits, depth) as usize;
        DirSlot {
            dir: place / 256,
            entry: place % 256,
        }
    }
}

/// The places that a split gives to a new bucket, where the directory is not doubled.
#[derive(Clone, Copy, Debug, PartialEq, Eq)]
pub struct NewPlaces {
    /// The first place, below 65,536.
    pub first: u64,
    /// How many there are, 1 to 32,768.
    pub count: u64,
}

impl NewPlaces {
    /// The places of the new bucket, where the bucket that a pseudokey leads to is split: its depth is below the
    /// directory's, which is at most 16.
    pub fn of(bits: u64, bucket_depth: u8, depth: u8) -> NewPlaces
        requires { (bucket_depth < depth) × (depth ≤ 16) }
        ensures first { let prefix = 2 * first_bits bucket_depth bits + 1 in
            result.first ≡ prefix * 2 ^ (depth - (bucket_depth + 1)) }
        ensures count { result.count ≡ 2 ^ (depth - (bucket_depth + 1)) }
        ensures within { result.first + result.count ≤ 2 ^ depth }
    {
        let count = 1 << (depth - (bucket_depth + 1));
        NewPlaces {
            first: (2 * first_bits(bits, bucket_depth) + 1) * count,
            count,
        }
    }
}
