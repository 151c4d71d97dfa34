// Written in part by tools/write-lists from tools/families/lanes.txt.
//! The signed whole numbers, compared by vectors.
//!
//! `load` builds a vector from an array, value by value: only for the read of a single value
//! do contracts show that it is in its type. The compiler turns the reads into one load.
ghost use Rattle.std.specs.Prelude.{◌≡◌, All, length, FitsSigned};
ghost use Rattle.std.specs.Int.{w8, w16, w32, w64};

use crate::lanes::{CompareLanes, first_values};
use std::simd::prelude::*;

impl CompareLanes for i8 {
    type Block = Simd<i8, 64>;

    ghost numbers = { λ block. block };

    ghost is_block = { λ block. (length block ≡ 64) × All (FitsSigned w8) block };

    #[inline(always)]
    fn load(values: &[i8]) -> Simd<i8, 64> {
        Simd::<i8, 64>::from_array(first_values(values))
    }

    #[inline(always)]
    fn splat(value: i8) -> Simd<i8, 64> {
        Simd::<i8, 64>::splat(value)
    }

    #[inline(always)]
    fn equal(left: Simd<i8, 64>, right: Simd<i8, 64>) -> u64 {
        left.simd_eq(right).to_bitmask()
    }

    #[inline(always)]
    fn less(left: Simd<i8, 64>, right: Simd<i8, 64>) -> u64 {
        left.simd_lt(right).to_bitmask()
    }

    #[inline(always)]
    fn is_equal(self, other: i8) -> bool {
        self == other
    }

    #[inline(always)]
    fn is_less(self, other: i8) -> bool {
        self < other
    }
}

impl CompareLanes for i16 {
    type Block = Simd<i16, 64>;

    ghost numbers = { λ block. block };

    ghost is_block = { λ block. (length block ≡ 64) × All (FitsSigned w16) block };

    #[inline(always)]
    fn load(values: &[i16]) -> Simd<i16, 64> {
        Simd::<i16, 64>::from_array(first_values(values))
    }

    #[inline(always)]
    fn splat(value: i16) -> Simd<i16, 64> {
        Simd::<i16, 64>::splat(value)
    }

    #[inline(always)]
    fn equal(left: Simd<i16, 64>, right: Simd<i16, 64>) -> u64 {
        left.simd_eq(right).to_bitmask()
    }

    #[inline(always)]
    fn less(left: Simd<i16, 64>, right: Simd<i16, 64>) -> u64 {
        left.simd_lt(right).to_bitmask()
    }

    #[inline(always)]
    fn is_equal(self, other: i16) -> bool {
        self == other
    }

    #[inline(always)]
    fn is_less(self, other: i16) -> bool {
        self < other
    }
}

impl CompareLanes for i32 {
    type Block = Simd<i32, 64>;

    ghost numbers = { λ block. block };

    ghost is_block = { λ block. (length block ≡ 64) × All (FitsSigned w32) block };

    #[inline(always)]
    fn load(values: &[i32]) -> Simd<i32, 64> {
        Simd::<i32, 64>::from_array(first_values(values))
    }

    #[inline(always)]
    fn splat(value: i32) -> Simd<i32, 64> {
        Simd::<i32, 64>::splat(value)
    }

    #[inline(always)]
    fn equal(left: Simd<i32, 64>, right: Simd<i32, 64>) -> u64 {
        left.simd_eq(right).to_bitmask()
    }

    #[inline(always)]
    fn less(left: Simd<i32, 64>, right: Simd<i32, 64>) -> u64 {
        left.simd_lt(right).to_bitmask()
    }

    #[inline(always)]
    fn is_equal(self, other: i32) -> bool {
        self == other
    }

    #[inline(always)]
    fn is_less(self, other: i32) -> bool {
        self < other
    }
}

impl CompareLanes for i64 {
    type Block = Simd<i64, 64>;

    ghost numbers = { λ block. block };

    ghost is_block = { λ block. (length block ≡ 64) × All (FitsSigned w64) block };

    #[inline(always)]
    fn load(values: &[i64]) -> Simd<i64, 64> {
        Simd::<i64, 64>::from_array(first_values(values))
    }

    #[inline(always)]
    fn splat(value: i64) -> Simd<i64, 64> {
        Simd::<i64, 64>::splat(value)
    }

    #[inline(always)]
    fn equal(left: Simd<i64, 64>, right: Simd<i64, 64>) -> u64 {
        left.simd_eq(right).to_bitmask()
    }

    #[inline(always)]
    fn less(left: Simd<i64, 64>, right: Simd<i64, 64>) -> u64 {
        left.simd_lt(right).to_bitmask()
    }

    #[inline(always)]
    fn is_equal(self, other: i64) -> bool {
        self == other
    }

    #[inline(always)]
    fn is_less(self, other: i64) -> bool {
        self < other
    }
}

impl CompareLanes for isize {
    type Block = Simd<isize, 64>;

    ghost numbers = { λ block. block };

    ghost is_block = { λ block. (length block ≡ 64) × All (FitsSigned w64) block };

    #[inline(always)]
    fn load(values: &[isize]) -> Simd<isize, 64> {
        Simd::<isize, 64>::from_array(first_values(values))
    }

    #[inline(always)]
    fn splat(value: isize) -> Simd<isize, 64> {
        Simd::<isize, 64>::splat(value)
    }

    #[inline(always)]
    fn equal(left: Simd<isize, 64>, right: Simd<isize, 64>) -> u64 {
        left.simd_eq(right).to_bitmask()
    }

    #[inline(always)]
    fn less(left: Simd<isize, 64>, right: Simd<isize, 64>) -> u64 {
        left.simd_lt(right).to_bitmask()
    }

    #[inline(always)]
    fn is_equal(self, other: isize) -> bool {
        self == other
    }

    #[inline(always)]
    fn is_less(self, other: isize) -> bool {
        self < other
    }
}
