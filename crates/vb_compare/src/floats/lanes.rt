// Written in part by tools/write-lists from tools/families/lanes.txt.
//! Floats, compared 64 at a time.
ghost use Rattle.std.specs.Prelude.{◌≡◌, ◌≤◌, List, length, map, replicate, take};
ghost use Rattle.std.specs.Simd.Lanes.{zip2};
ghost use Rattle.vb_bits.specs.Digits.{digits};
ghost use lib.Ieee.{Float, eq, ne, lt, le};

use crate::floats::eights::{Equal, Less, LessOrEqual, NotEqual, by_eights};
use std::simd::prelude::*;

/// A float whose values are compared 64 at a time. `f32` and `f64` implement it.
pub trait FloatLanes: Copy {
    /// 64 values.
    type Block: Copy;

    // The value, by IEEE 754.
    ghost float: { Self → Float };

    // The values of a block, in order.
    ghost floats: { Self.Block → List Float };

    /// Returns the first 64 values. There must be at least 64.
    fn load(values: &[Self]) -> Self::Block
        requires { 64 ≤ length values.now }
        ensures { floats result ≡ map float (take 64 values.now) };

    /// Returns a block of 64 copies of `value`.
    fn splat(value: Self) -> Self::Block
        ensures { floats result ≡ replicate 64 (float value) };

    /// Returns a word whose bit `k` says whether value `k` of the left block equals value `k` of
    /// the right one.
    fn equal(left: Self::Block, right: Self::Block) -> u64
        ensures { digits result 0 64 ≡ zip2 eq (floats left) (floats right) };

    /// Returns a word whose bit `k` says whether value `k` of the left block doesn't equal value
    /// `k` of the right one.
    fn not_equal(left: Self::Block, right: Self::Block) -> u64
        ensures { digits result 0 64 ≡ zip2 ne (floats left) (floats right) };

    /// Returns a word whose bit `k` says whether value `k` of the left block is less than value `k`
    /// of the right one.
    fn less(left: Self::Block, right: Self::Block) -> u64
        ensures { digits result 0 64 ≡ zip2 lt (floats left) (floats right) };

    /// Returns a word whose bit `k` says whether value `k` of the left block is less than value `k`
    /// of the right one, or equal to it.
    fn less_or_equal(left: Self::Block, right: Self::Block) -> u64
        ensures { digits result 0 64 ≡ zip2 le (floats left) (floats right) };

    /// Returns whether this value equals `other`.
    fn is_equal(self, other: Self) -> bool
        ensures { result ≡ eq (float self) (float other) };

    /// Returns whether this value doesn't equal `other`.
    fn is_not_equal(self, other: Self) -> bool
        ensures { result ≡ ne (float self) (float other) };

    /// Returns whether this value is less than `other`.
    fn is_less(self, other: Self) -> bool
        ensures { result ≡ lt (float self) (float other) };

    /// Returns whether this value is less than `other`, or equal to it.
    fn is_less_or_equal(self, other: Self) -> bool
        ensures { result ≡ le (float self) (float other) };
}

impl FloatLanes for f64 {
    type Block = Simd<f64, 64>;

    ghost float = { λ x. x };

    ghost floats = { λ block. block };

    #[inline(always)]
    fn load(values: &[f64]) -> Simd<f64, 64> {
        Simd::<f64, 64>::from_slice(values)
    }

    #[inline(always)]
    fn splat(value: f64) -> Simd<f64, 64> {
        Simd::<f64, 64>::splat(value)
    }

    #[inline(always)]
    fn equal(left: Simd<f64, 64>, right: Simd<f64, 64>) -> u64 {
        by_eights::<Equal>(&left.to_array(), &right.to_array())
    }

    #[inline(always)]
    fn not_equal(left: Simd<f64, 64>, right: Simd<f64, 64>) -> u64 {
        by_eights::<NotEqual>(&left.to_array(), &right.to_array())
    }

    #[inline(always)]
    fn less(left: Simd<f64, 64>, right: Simd<f64, 64>) -> u64 {
        by_eights::<Less>(&left.to_array(), &right.to_array())
    }

    #[inline(always)]
    fn less_or_equal(left: Simd<f64, 64>, right: Simd<f64, 64>) -> u64 {
        by_eights::<LessOrEqual>(&left.to_array(), &right.to_array())
    }

    #[inline(always)]
    fn is_equal(self, other: f64) -> bool {
        self == other
    }

    #[inline(always)]
    fn is_not_equal(self, other: f64) -> bool {
        self != other
    }

    #[inline(always)]
    fn is_less(self, other: f64) -> bool {
        self < other
    }

    #[inline(always)]
    fn is_less_or_equal(self, other: f64) -> bool {
        self <= other
    }
}

impl FloatLanes for f32 {
    type Block = Simd<f32, 64>;

    ghost float = { λ x. x };

    ghost floats = { λ block. block };

    #[inline(always)]
    fn load(values: &[f32]) -> Simd<f32, 64> {
        Simd::<f32, 64>::from_slice(values)
    }

    #[inline(always)]
    fn splat(value: f32) -> Simd<f32, 64> {
        Simd::<f32, 64>::splat(value)
    }

    #[inline(always)]
    fn equal(left: Simd<f32, 64>, right: Simd<f32, 64>) -> u64 {
        left.simd_eq(right).to_bitmask()
    }

    #[inline(always)]
    fn not_equal(left: Simd<f32, 64>, right: Simd<f32, 64>) -> u64 {
        left.simd_ne(right).to_bitmask()
    }

    #[inline(always)]
    fn less(left: Simd<f32, 64>, right: Simd<f32, 64>) -> u64 {
        left.simd_lt(right).to_bitmask()
    }

    #[inline(always)]
    fn less_or_equal(left: Simd<f32, 64>, right: Simd<f32, 64>) -> u64 {
        left.simd_le(right).to_bitmask()
    }

    #[inline(always)]
    fn is_equal(self, other: f32) -> bool {
        self == other
    }

    #[inline(always)]
    fn is_not_equal(self, other: f32) -> bool {
        self != other
    }

    #[inline(always)]
    fn is_less(self, other: f32) -> bool {
        self < other
    }

    #[inline(always)]
    fn is_less_or_equal(self, other: f32) -> bool {
        self <= other
    }
}
