//! Pseudokeys: the bits that lead a key to its bucket (Fagin, Nievergelt, Pippenger and Strong, ACM
//! TODS 4(3), 1979, section 2). The first bit of a pseudokey is its highest.

ghost use Rattle.std.specs.Prelude.{◌≡◌, ℕ, ◌^◌, ◌<◌};
ghost use Rattle.mlt_types.specs.Pseudokeys.{low_bits, mult_bits};

use crate::cell::Key;

/// A function from keys to pseudokeys of 64 bits.
pub trait Pseudo {
    /// The pseudokey of a key's number.
    ghost bits_of: { Self → ℕ → ℕ };

    /// The pseudokey of a key.
    fn bits(&self, key: &Key) -> u64
        ensures { result ≡ bits_of self.now key.now };

    /// A pseudokey has 64 bits, whatever number it is of.
    ghost has_64_bits: { (p : Self) (number : ℕ) → bits_of p number < 2 ^ 64 };
}

/// The key's number times 0x9E3779B97F4A7C15, modulo 2^64: neighbors lie far apart.
#[derive(Clone, Copy, Debug)]
pub struct Mult;

const GOLDEN: u64 = 0x9E37_79B9_7F4A_7C15;

impl Pseudo for Mult {
    ghost use Rattle.std.proofs.Common.{rules};

    ghost bits_of = { λ p number. mult_bits number };

    ghost has_64_bits = { λ p number. Prim.search rules };

    fn bits(&self, key: &Key) -> u64 {
        key.number().wrapping_mul(GOLDEN)
    }
}

/// The key's number modulo 2^16, as the 16 highest bits: neighbors share a bucket.
#[derive(Clone, Copy, Debug)]
pub struct Low;

impl Pseudo for Low {
    ghost use Rattle.std.proofs.Common.{rules};

    ghost bits_of = { λ p number. low_bits number };

    ghost has_64_bits = { λ p number. Prim.search rules };

    fn bits(&self, key: &Key) -> u64 {
        (key.number() % 65_536) << 48
    }
}
