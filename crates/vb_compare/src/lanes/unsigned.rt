// Written in part by tools/write-lists from tools/families/lanes.txt.
//! The unsigned whole numbers, compared by vectors.
ghost use Rattle.std.specs.Prelude.{◌≡◌, length, map, pos};

use crate::lanes::CompareLanes;
use std::simd::prelude::*;

impl CompareLanes for u8 {
    type Block = Simd<u8, 64>;

    ghost numbers = { map pos };

    ghost is_block = { λ block. length block ≡ 64 };

    #[inline(always)]
    fn load(values: &[u8]) -> Simd<u8, 64> {
        Simd::<u8, 64>::from_slice(values)
    }

    #[inline(always)]
    fn splat(value: u8) -> Simd<u8, 64> {
        Simd::<u8, 64>::splat(value)
    }

    #[inline(always)]
    fn equal(left: Simd<u8, 64>, right: Simd<u8, 64>) -> u64 {
        left.simd_eq(right).to_bitmask()
    }

    #[inline(always)]
    fn less(left: Simd<u8, 64>, right: Simd<u8, 64>) -> u64 {
        left.simd_lt(right).to_bitmask()
    }

    #[inline(always)]
    fn is_equal(self, other: u8) -> bool {
        self == other
    }

    #[inline(always)]
    fn is_less(self, other: u8) -> bool {
        self < other
    }
}

impl CompareLanes for u16 {
    type Block = Simd<u16, 64>;

    ghost numbers = { map pos };

    ghost is_block = { λ block. length block ≡ 64 };

    #[inline(always)]
    fn load(values: &[u16]) -> Simd<u16, 64> {
        Simd::<u16, 64>::from_slice(values)
    }

    #[inline(always)]
    fn splat(value: u16) -> Simd<u16, 64> {
        Simd::<u16, 64>::splat(value)
    }

    #[inline(always)]
    fn equal(left: Simd<u16, 64>, right: Simd<u16, 64>) -> u64 {
        left.simd_eq(right).to_bitmask()
    }

    #[inline(always)]
    fn less(left: Simd<u16, 64>, right: Simd<u16, 64>) -> u64 {
        left.simd_lt(right).to_bitmask()
    }

    #[inline(always)]
    fn is_equal(self, other: u16) -> bool {
        self == other
    }

    #[inline(always)]
    fn is_less(self, other: u16) -> bool {
        self < other
    }
}

impl CompareLanes for u32 {
    type Block = Simd<u32, 64>;

    ghost numbers = { map pos };

    ghost is_block = { λ block. length block ≡ 64 };

    #[inline(always)]
    fn load(values: &[u32]) -> Simd<u32, 64> {
        Simd::<u32, 64>::from_slice(values)
    }

    #[inline(always)]
    fn splat(value: u32) -> Simd<u32, 64> {
        Simd::<u32, 64>::splat(value)
    }

    #[inline(always)]
    fn equal(left: Simd<u32, 64>, right: Simd<u32, 64>) -> u64 {
        left.simd_eq(right).to_bitmask()
    }

    #[inline(always)]
    fn less(left: Simd<u32, 64>, right: Simd<u32, 64>) -> u64 {
        left.simd_lt(right).to_bitmask()
    }

    #[inline(always)]
    fn is_equal(self, other: u32) -> bool {
        self == other
    }

    #[inline(always)]
    fn is_less(self, other: u32) -> bool {
        self < other
    }
}

impl CompareLanes for u64 {
    type Block = Simd<u64, 64>;

    ghost numbers = { map pos };

    ghost is_block = { λ block. length block ≡ 64 };

    #[inline(always)]
    fn load(values: &[u64]) -> Simd<u64, 64> {
        Simd::<u64, 64>::from_slice(values)
    }

    #[inline(always)]
    fn splat(value: u64) -> Simd<u64, 64> {
        Simd::<u64, 64>::splat(value)
    }

    #[inline(always)]
    fn equal(left: Simd<u64, 64>, right: Simd<u64, 64>) -> u64 {
        left.simd_eq(right).to_bitmask()
    }

    #[inline(always)]
    fn less(left: Simd<u64, 64>, right: Simd<u64, 64>) -> u64 {
        left.simd_lt(right).to_bitmask()
    }

    #[inline(always)]
    fn is_equal(self, other: u64) -> bool {
        self == other
    }

    #[inline(always)]
    fn is_less(self, other: u64) -> bool {
        self < other
    }
}

impl CompareLanes for usize {
    type Block = Simd<usize, 64>;

    ghost numbers = { map pos };

    ghost is_block = { λ block. length block ≡ 64 };

    #[inline(always)]
    fn load(values: &[usize]) -> Simd<usize, 64> {
        Simd::<usize, 64>::from_slice(values)
    }

    #[inline(always)]
    fn splat(value: usize) -> Simd<usize, 64> {
        Simd::<usize, 64>::splat(value)
    }

    #[inline(always)]
    fn equal(left: Simd<usize, 64>, right: Simd<usize, 64>) -> u64 {
        left.simd_eq(right).to_bitmask()
    }

    #[inline(always)]
    fn less(left: Simd<usize, 64>, right: Simd<usize, 64>) -> u64 {
        left.simd_lt(right).to_bitmask()
    }

    #[inline(always)]
    fn is_equal(self, other: usize) -> bool {
        self == other
    }

    #[inline(always)]
    fn is_less(self, other: usize) -> bool {
        self < other
    }
}
