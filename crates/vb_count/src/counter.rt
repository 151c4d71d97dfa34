//! Counts chunks sixteen at a time by the method of Harley and Seal: see Mula, Kurz and Lemire's
//! "Faster Population Counts Using AVX2 Instructions".
//!
//! Adders collect the set bits of sixteen vectors into one, so that only that one is counted.
ghost use Rattle.std.specs.Prelude.{◌≡◌, ℕ, ◌+◌, ◌*◌, ◌^◌, ◌<◌, ◌≤◌, length};
ghost use Rattle.vb_bits.specs.Bits.{bits, count};
ghost use Rattle.vb_count.specs.Looks.{LooksExactly};

use crate::glance::Glance;
use crate::ones::{Ones, full_add};
use crate::sums::Sums;
use std::marker::Model;

/// A count in five parts: bits that count 1, 2, 4 and 8 each, and sums that count 16.
#[derive(Drop)]
pub(crate) struct Counter {
    ones: Ones,
    twos: Ones,
    fours: Ones,
    eights: Ones,
    sixteens: Sums,
}

impl Model for Counter {
    ghost Value = { ℕ };

    ghost view = { λ s. s.ones + 2 * s.twos + 4 * s.fours + 8 * s.eights + 16 * s.sixteens };
}

impl Counter {
    /// Returns a count of 0.
    pub(crate) fn zero() -> Counter
        ensures { result ≡ 0 }
    {
        Counter {
            ones: Ones::zero(),
            twos: Ones::zero(),
            fours: Ones::zero(),
            eights: Ones::zero(),
            sixteens: Sums::zero(),
        }
    }

    /// Adds the set bits of sixteen chunks: four from byte `at` on, and four from each of the bytes
    /// `at + apart`, `at + 2 * apart` and `at + 3 * apart` on.
    #[inline(always)]
    pub(crate) fn add<G: Glance>(self, src: &mut G, at: usize, apart: usize) -> Counter
        requires inside { at + 3 * apart + 256 ≤ length (G.seen src.old).bytes }
        requires fits { at + 3 * apart + 256 < 2 ^ 64 }
        requires room { self + 8192 < 2 ^ 64 }
        ensures value { result ≡ self + count (bits (G.seen src.old).bytes (8 * at) 2048)
            + count (bits (G.seen src.old).bytes (8 * (at + apart)) 2048)
            + count (bits (G.seen src.old).bytes (8 * (at + 2 * apart)) 2048)
            + count (bits (G.seen src.old).bytes (8 * (at + 3 * apart)) 2048) }
        ensures looks { LooksExactly 16 (G.seen src.old) (G.seen src.new) }
    {
        let (ones, twos, one) = add_four(self.ones, self.twos, src, at);
        let (ones, twos, other) = add_four(ones, twos, src, at + apart);
        let (fours, low) = full_add(self.fours, one, other);
        let (ones, twos, one) = add_four(ones, twos, src, at + 2 * apart);
        let (ones, twos, other) = add_four(ones, twos, src, at + 3 * apart);
        let (fours, high) = full_add(fours, one, other);
        let (eights, sixteen) = full_add(self.eights, low, high);
        Counter {
            ones,
            twos,
            fours,
            eights,
            sixteens: self.sixteens.plus(sixteen.sums()),
        }
    }

    /// Returns the whole count.
    pub(crate) fn total(self) -> usize
        requires { self < 2 ^ 64 }
        ensures { result ≡ self }
    {
        let eights = self.sixteens.twice().plus(self.eights.sums());
        let fours = eights.twice().plus(self.fours.sums());
        let twos = fours.twice().plus(self.twos.sums());
        twos.twice().plus(self.ones.sums()).total()
    }
}

/// Returns the bits of the chunk from byte `at` on.
#[inline(always)]
fn ones_at<G: Glance>(src: &mut G, at: usize) -> Ones
    requires { at + 64 ≤ length (G.seen src.old).bytes }
    ensures value { result ≡ count (bits (G.seen src.old).bytes (8 * at) 512) }
    ensures look { LooksExactly 1 (G.seen src.old) (G.seen src.new) }
{
    Ones::of(&src.chunk(at))
}

/// Adds the bits of four chunks from byte `at` on. Returns the ones, the twos and the fours
/// carried.
#[inline(always)]
fn add_four<G: Glance>(ones: Ones, twos: Ones, src: &mut G, at: usize) -> (Ones, Ones, Ones)
    requires inside { at + 256 ≤ length (G.seen src.old).bytes }
    requires fits { at + 256 < 2 ^ 64 }
    ensures value { result.0 + 2 * result.1 + 4 * result.2
        ≡ ones + 2 * twos + count (bits (G.seen src.old).bytes (8 * at) 2048) }
    ensures looks { LooksExactly 4 (G.seen src.old) (G.seen src.new) }
{
    let first = ones_at(src, at);
    let second = ones_at(src, at + 64);
    let (ones, low) = full_add(ones, first, second);
    let third = ones_at(src, at + 128);
    let fourth = ones_at(src, at + 192);
    let (ones, high) = full_add(ones, third, fourth);
    let (twos, fours) = full_add(twos, low, high);
    (ones, twos, fours)
}
