//! The bits of eight words, and the full adder of such vectors.
ghost use Rattle.std.specs.Prelude.{◌≡◌, ℕ, ◌+◌, ◌*◌, length};
ghost use Rattle.vb_bits.specs.Bits.{bits, count};
ghost use Rattle.vb_count.specs.Lanes.{EightWords, ones};

use crate::sums::Sums;
use std::marker::Model;
use std::simd::prelude::*;

/// Eight words. Contracts see the number of their set bits.
#[derive(Drop)]
pub(crate) struct Ones {
    lanes: u64x8,
}

impl Model for Ones {
    ghost Value = { ℕ };

    ghost view = { λ s. ones s.lanes };

    ghost invariant = { λ s. EightWords s.lanes };
}

impl Ones {
    /// Returns words without a set bit.
    pub(crate) fn zero() -> Ones
        ensures { result ≡ 0 }
    {
        Ones {
            lanes: u64x8::splat(0),
        }
    }

    /// Returns the bits of a chunk.
    ///
    /// The chunk is a slice, since a proof knows that a slice's bytes are below 256, but not that
    /// an array's are.
    pub(crate) fn of(chunk: &[u8]) -> Ones
        requires { length chunk.now ≡ 64 }
        ensures { result ≡ count (bits chunk.now 0 512) }
    {
        Ones {
            lanes: u64x8::from_le_bytes(u8x64::from_slice(chunk)),
        }
    }

    /// Returns the number of set bits of each word.
    pub(crate) fn sums(self) -> Sums
        ensures { result ≡ self }
    {
        Sums {
            lanes: self.lanes.count_ones(),
        }
    }
}

/// The full adder: returns the sum of three bits at each index, and the carry to the next index.
#[inline(always)]
pub(crate) fn full_add(a: Ones, b: Ones, c: Ones) -> (Ones, Ones)
    ensures { result.0 + 2 * result.1 ≡ a + b + c }
{
    let half = a.lanes ^ b.lanes;
    let sum = half ^ c.lanes;
    let carry = (a.lanes & b.lanes) | (half & c.lanes);
    (Ones { lanes: sum }, Ones { lanes: carry })
}
