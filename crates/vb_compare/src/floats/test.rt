// Written in part by tools/write-lists from tools/families/lanes.txt.
//! The comparisons as types.
ghost use Rattle.std.specs.Prelude.{◌≡◌, Bool};
ghost use Rattle.std.specs.Simd.Lanes.{zip2};
ghost use Rattle.vb_bits.specs.Digits.{digits};
ghost use lib.Ieee.{Float, eq, ne, lt, le};

use crate::floats::lanes::FloatLanes;

/// A comparison of two floats. Each is a type, so that it has its own loops.
pub(crate) trait Test {
    // The result for two floats.
    ghost holds: { Float → Float → Bool };

    /// Returns the result for two values.
    fn one<T: FloatLanes>(left: T, right: T) -> bool
        ensures { result ≡ holds (T.float left) (T.float right) };

    /// Returns a word whose bit `k` is the result for value `k` of each block.
    fn word<T: FloatLanes>(left: T::Block, right: T::Block) -> u64
        ensures { digits result 0 64 ≡ zip2 holds (T.floats left) (T.floats right) };
}

/// The two values are equal.
pub(crate) struct IsEqual;

impl Test for IsEqual {
    ghost holds = { eq };

    #[inline(always)]
    fn one<T: FloatLanes>(left: T, right: T) -> bool {
        left.is_equal(right)
    }

    #[inline(always)]
    fn word<T: FloatLanes>(left: T::Block, right: T::Block) -> u64 {
        T::equal(left, right)
    }
}

/// The two values aren't equal.
pub(crate) struct IsNotEqual;

impl Test for IsNotEqual {
    ghost holds = { ne };

    #[inline(always)]
    fn one<T: FloatLanes>(left: T, right: T) -> bool {
        left.is_not_equal(right)
    }

    #[inline(always)]
    fn word<T: FloatLanes>(left: T::Block, right: T::Block) -> u64 {
        T::not_equal(left, right)
    }
}

/// The left value is less than the right one.
pub(crate) struct IsLess;

impl Test for IsLess {
    ghost holds = { lt };

    #[inline(always)]
    fn one<T: FloatLanes>(left: T, right: T) -> bool {
        left.is_less(right)
    }

    #[inline(always)]
    fn word<T: FloatLanes>(left: T::Block, right: T::Block) -> u64 {
        T::less(left, right)
    }
}

/// The left value is less than the right one, or equal to it.
pub(crate) struct IsLessOrEqual;

impl Test for IsLessOrEqual {
    ghost holds = { le };

    #[inline(always)]
    fn one<T: FloatLanes>(left: T, right: T) -> bool {
        left.is_less_or_equal(right)
    }

    #[inline(always)]
    fn word<T: FloatLanes>(left: T::Block, right: T::Block) -> u64 {
        T::less_or_equal(left, right)
    }
}

/// The left value is greater than the right one.
pub(crate) struct IsGreater;

impl Test for IsGreater {
    ghost holds = { λ a b. lt b a };

    #[inline(always)]
    fn one<T: FloatLanes>(left: T, right: T) -> bool {
        right.is_less(left)
    }

    #[inline(always)]
    fn word<T: FloatLanes>(left: T::Block, right: T::Block) -> u64 {
        T::less(right, left)
    }
}

/// The left value is greater than the right one, or equal to it.
pub(crate) struct IsGreaterOrEqual;

impl Test for IsGreaterOrEqual {
    ghost holds = { λ a b. le b a };

    #[inline(always)]
    fn one<T: FloatLanes>(left: T, right: T) -> bool {
        right.is_less_or_equal(left)
    }

    #[inline(always)]
    fn word<T: FloatLanes>(left: T::Block, right: T::Block) -> u64 {
        T::less_or_equal(right, left)
    }
}
