// Written in part by tools/write-lists from tools/families/operators.txt.
//! Operators on two bits.
ghost use Rattle.std.specs.Prelude.{◌≡◌, ℕ, ◌<◌, Bool, length};
ghost use Rattle.vb_bits.specs.Digits.{has_bit, lane_bits};
ghost use Rattle.vb_bits.specs.Operators.{merged_by};

use std::simd::prelude::*;

/// An operator on two bits, which combines all bits of four words, of one word or of a byte at
/// once.
///
/// It is a type, so that each operator has its own loops.
pub trait Merge {
    ghost bit: { Bool → Bool → Bool };

    /// Combines each digit of `left` with the same digit of `right`.
    fn word(left: u64, right: u64) -> u64
        ensures { (i : ℕ) → i < 64 → has_bit result i ≡ bit (has_bit left i) (has_bit right i) };

    /// Combines each digit of four words, as [`word`](Merge::word) does.
    fn words(left: u64x4, right: u64x4) -> u64x4
        requires left { length left ≡ 4 }
        requires right { length right ≡ 4 }
        ensures len { length result ≡ 4 }
        ensures digits { lane_bits result ≡ merged_by bit (lane_bits left) (lane_bits right) };

    /// Combines each digit of a byte, as [`word`](Merge::word) does.
    fn byte(left: u8, right: u8) -> u8
        ensures { (i : ℕ) → i < 8 → has_bit result i ≡ bit (has_bit left i) (has_bit right i) };
}

/// True if both bits are true.
pub struct And;

/// True if at least one bit is true.
pub struct Or;

/// True if exactly one bit is true.
pub struct Xor;

/// True if the left bit is true and the right one isn't.
pub struct AndNot;

/// The right bit.
pub(crate) struct Right;

impl Merge for And {
    ghost use Rattle.std.specs.Prelude.{◌&&◌};

    ghost bit = { λ a b. a && b };

    #[inline(always)]
    fn word(left: u64, right: u64) -> u64 {
        left & right
    }

    #[inline(always)]
    fn words(left: u64x4, right: u64x4) -> u64x4 {
        left & right
    }

    #[inline(always)]
    fn byte(left: u8, right: u8) -> u8 {
        left & right
    }
}

impl Merge for Or {
    ghost use Rattle.std.specs.Prelude.{◌||◌};

    ghost bit = { λ a b. a || b };

    #[inline(always)]
    fn word(left: u64, right: u64) -> u64 {
        left | right
    }

    #[inline(always)]
    fn words(left: u64x4, right: u64x4) -> u64x4 {
        left | right
    }

    #[inline(always)]
    fn byte(left: u8, right: u8) -> u8 {
        left | right
    }
}

impl Merge for Xor {
    ghost use Rattle.std.specs.Prelude.{cond, not};

    ghost bit = { λ a b. cond a (not b) b };

    #[inline(always)]
    fn word(left: u64, right: u64) -> u64 {
        left ^ right
    }

    #[inline(always)]
    fn words(left: u64x4, right: u64x4) -> u64x4 {
        left ^ right
    }

    #[inline(always)]
    fn byte(left: u8, right: u8) -> u8 {
        left ^ right
    }
}

impl Merge for AndNot {
    ghost use Rattle.std.specs.Prelude.{◌&&◌, not};

    ghost bit = { λ a b. a && not b };

    #[inline(always)]
    fn word(left: u64, right: u64) -> u64 {
        left & !right
    }

    #[inline(always)]
    fn words(left: u64x4, right: u64x4) -> u64x4 {
        // Equals `left & !right`. The lemmas about its digits hold for words of any size.
        left ^ (left & right)
    }

    #[inline(always)]
    fn byte(left: u8, right: u8) -> u8 {
        left & !right
    }
}

impl Merge for Right {
    ghost bit = { λ a b. b };

    #[inline(always)]
    fn word(left: u64, right: u64) -> u64 {
        right
    }

    #[inline(always)]
    fn words(left: u64x4, right: u64x4) -> u64x4 {
        right
    }

    #[inline(always)]
    fn byte(left: u8, right: u8) -> u8 {
        right
    }
}
