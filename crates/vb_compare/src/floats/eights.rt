// Written in part by tools/write-lists from tools/families/lanes.txt.
//! 64 values of `f64`, compared eight at a time.
//!
//! For a comparison of 64 values at once the compiler builds code that tests each result again
//! before it becomes a bit; for eight values it doesn't.
ghost use Rattle.std.specs.Prelude.{◌≡◌, ◌^◌, ◌<◌, Bool, length};
ghost use Rattle.std.specs.Simd.Lanes.{zip2};
ghost use Rattle.vb_bits.specs.Digits.{digits};
ghost use lib.Ieee.{Float, eq, ne, lt, le};

use std::simd::prelude::*;

/// A comparison of eight floats with eight others.
pub(crate) trait Eight {
    // The result for two floats.
    ghost holds: { Float → Float → Bool };

    /// Returns a number below 256 whose bit `k` is the result for value `k` of each vector.
    fn eight(left: Simd<f64, 8>, right: Simd<f64, 8>) -> u64
        ensures digits { digits result 0 8 ≡ zip2 holds left right }
        ensures clear { result < 2 ^ 8 };
}

/// The floats are equal.
pub(crate) struct Equal;

/// The floats aren't equal.
pub(crate) struct NotEqual;

/// The left float is less than the right one.
pub(crate) struct Less;

/// The left float is less than the right one, or equal to it.
pub(crate) struct LessOrEqual;

impl Eight for Equal {
    ghost holds = { eq };

    #[inline(always)]
    fn eight(left: Simd<f64, 8>, right: Simd<f64, 8>) -> u64 {
        left.simd_eq(right).to_bitmask()
    }
}

impl Eight for NotEqual {
    ghost holds = { ne };

    #[inline(always)]
    fn eight(left: Simd<f64, 8>, right: Simd<f64, 8>) -> u64 {
        left.simd_ne(right).to_bitmask()
    }
}

impl Eight for Less {
    ghost holds = { lt };

    #[inline(always)]
    fn eight(left: Simd<f64, 8>, right: Simd<f64, 8>) -> u64 {
        left.simd_lt(right).to_bitmask()
    }
}

impl Eight for LessOrEqual {
    ghost holds = { le };

    #[inline(always)]
    fn eight(left: Simd<f64, 8>, right: Simd<f64, 8>) -> u64 {
        left.simd_le(right).to_bitmask()
    }
}

/// Returns a word whose bit `k` is the result of `C` for value `k` of both sides, which must have
/// 64.
#[inline(always)]
pub(crate) fn by_eights<C: Eight>(left: &[f64], right: &[f64]) -> u64
    requires left { length left.now ≡ 64 }
    requires right { length right.now ≡ 64 }
    ensures { digits result 0 64 ≡ zip2 C.holds left.now right.now }
{
    let mut word = 0u64;
    for k in 0..8 {
        let these = Simd::<f64, 8>::from_slice(&left[8 * k..]);
        let those = Simd::<f64, 8>::from_slice(&right[8 * k..]);
        word |= C::eight(these, those) << (8 * k);
    }
    word
}
