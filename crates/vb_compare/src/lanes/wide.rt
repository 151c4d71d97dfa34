// Written in part by tools/write-lists from tools/families/lanes.txt.
//! The whole numbers of 128 bits, compared one by one, since no vector has them.
ghost use Rattle.std.specs.Prelude.{◌≡◌, All, length, map, pos, FitsSigned};
ghost use Rattle.std.specs.Int.{w128};

use crate::lanes::{CompareLanes, first_values};
use vb_pack::pack_bool_word_lanes;

impl CompareLanes for u128 {
    type Block = [u128; 64];

    ghost numbers = { map pos };

    ghost is_block = { λ block. length block ≡ 64 };

    #[inline(always)]
    fn load(values: &[u128]) -> [u128; 64] {
        first_values(values)
    }

    #[inline(always)]
    fn splat(value: u128) -> [u128; 64] {
        [value; 64]
    }

    #[inline(always)]
    fn equal(left: [u128; 64], right: [u128; 64]) -> u64 {
        let mut bools = [false; 64];
        for k in 0..64 {
            bools[k] = left[k] == right[k];
        }
        pack_bool_word_lanes(&bools)
    }

    #[inline(always)]
    fn less(left: [u128; 64], right: [u128; 64]) -> u64 {
        let mut bools = [false; 64];
        for k in 0..64 {
            bools[k] = left[k] < right[k];
        }
        pack_bool_word_lanes(&bools)
    }

    #[inline(always)]
    fn is_equal(self, other: u128) -> bool {
        self == other
    }

    #[inline(always)]
    fn is_less(self, other: u128) -> bool {
        self < other
    }
}

impl CompareLanes for i128 {
    type Block = [i128; 64];

    ghost numbers = { λ block. block };

    ghost is_block = { λ block. (length block ≡ 64) × All (FitsSigned w128) block };

    #[inline(always)]
    fn load(values: &[i128]) -> [i128; 64] {
        first_values(values)
    }

    #[inline(always)]
    fn splat(value: i128) -> [i128; 64] {
        [value; 64]
    }

    #[inline(always)]
    fn equal(left: [i128; 64], right: [i128; 64]) -> u64 {
        let mut bools = [false; 64];
        for k in 0..64 {
            bools[k] = left[k] == right[k];
        }
        pack_bool_word_lanes(&bools)
    }

    #[inline(always)]
    fn less(left: [i128; 64], right: [i128; 64]) -> u64 {
        let mut bools = [false; 64];
        for k in 0..64 {
            bools[k] = left[k] < right[k];
        }
        pack_bool_word_lanes(&bools)
    }

    #[inline(always)]
    fn is_equal(self, other: i128) -> bool {
        self == other
    }

    #[inline(always)]
    fn is_less(self, other: i128) -> bool {
        self < other
    }
}
