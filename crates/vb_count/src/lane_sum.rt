//! Sums of the set bits of chunks.
ghost use Rattle.std.specs.Prelude.{◌≡◌, ℕ, ◌+◌, ◌*◌, ◌^◌, ◌<◌, ◌≤◌, length};
ghost use Rattle.vb_bits.specs.Bits.{bits, count};

use std::marker::Model;
use vb_bits::word_at;

/// A sum in four parts, separate like the lanes of a vector, so that the counts of a chunk's words
/// don't wait for one another.
#[derive(Drop)]
pub struct LaneSum {
    a: usize,
    b: usize,
    c: usize,
    d: usize,
}

impl Model for LaneSum {
    ghost Value = { ℕ };

    ghost view = { λ s. s.a + s.b + s.c + s.d };

    ghost invariant = { λ s. s.a + s.b + s.c + s.d < 2 ^ 64 };
}

impl LaneSum {
    /// Returns the sum `ones`.
    pub fn of(ones: usize) -> LaneSum
        ensures { result ≡ ones }
    {
        LaneSum {
            a: ones,
            b: 0,
            c: 0,
            d: 0,
        }
    }

    /// Returns the sum of four parts. The caller must prove that it fits in a `usize`.
    pub fn of_four(a: usize, b: usize, c: usize, d: usize) -> LaneSum
        requires { a + b + c + d < 2 ^ 64 }
        ensures { result ≡ a + b + c + d }
    {
        LaneSum { a, b, c, d }
    }

    /// Returns the sum with the set bits of a chunk added: words 0 and 4 to the first part, 1 and 5
    /// to the second, and so on, which is the order of a vector of four words. The caller must
    /// prove that the sum plus 512 fits in a `usize`.
    pub fn add(self, chunk: &[u8; 64]) -> LaneSum
        requires { self + 512 < 2 ^ 64 }
        ensures { result ≡ self + count (bits chunk.now 0 512) }
    {
        LaneSum {
            a: self.a + word_ones_at(chunk, 0) + word_ones_at(chunk, 32),
            b: self.b + word_ones_at(chunk, 8) + word_ones_at(chunk, 40),
            c: self.c + word_ones_at(chunk, 16) + word_ones_at(chunk, 48),
            d: self.d + word_ones_at(chunk, 24) + word_ones_at(chunk, 56),
        }
    }

    /// Returns the sum of both. The caller must prove that it fits in a `usize`.
    pub fn plus(self, other: LaneSum) -> LaneSum
        requires { self + other < 2 ^ 64 }
        ensures { result ≡ self + other }
    {
        LaneSum {
            a: self.a + other.a,
            b: self.b + other.b,
            c: self.c + other.c,
            d: self.d + other.d,
        }
    }

    /// Returns the sum as one number.
    pub fn total(self) -> usize
        ensures { result ≡ self }
    {
        self.a + self.b + self.c + self.d
    }
}

/// Returns the number of set bits in the eight bytes from `at` on.
fn word_ones_at(bytes: &[u8], at: usize) -> usize
    requires { at + 8 ≤ length bytes.now }
    ensures value { result ≡ count (bits bytes.now (8 * at) 64) }
    ensures few { result ≤ 64 }
{
    word_at(bytes, at).count_ones() as usize
}
