//! The comparisons as types.
ghost use Rattle.std.specs.Prelude.{◌≡◌, ℤ, Bool, not, int_lt};
ghost use Rattle.std.specs.Ordering.{int_eq};
ghost use Rattle.std.specs.Simd.Lanes.{zip2};
ghost use Rattle.vb_compare.specs.Digits.{digits};

use crate::lanes::CompareLanes;
use std::marker::PhantomData;

/// A comparison of two values. Each is a type, so that it has its own loops.
pub(crate) trait Test {
    // The result for two numbers.
    ghost holds: { ℤ → ℤ → Bool };

    /// Returns the result for two values.
    fn one<T: CompareLanes>(left: T, right: T) -> bool
        ensures { result ≡ holds (T.number left) (T.number right) };

    /// Returns a word whose bit `k` is the result for value `k` of each block.
    fn word<T: CompareLanes>(left: T::Block, right: T::Block) -> u64
        requires left { T.is_block left }
        requires right { T.is_block right }
        ensures { digits result 0 64 ≡ zip2 holds (T.numbers left) (T.numbers right) };
}

/// The two values are equal.
pub(crate) struct IsEqual;

/// The left value is less than the right one.
pub(crate) struct IsLess;

/// The left value is greater than the right one.
pub(crate) struct IsGreater;

/// The comparison `C` is false.
pub(crate) struct IsNot<C> {
    test: PhantomData<C>,
}

impl Test for IsEqual {
    ghost holds = { int_eq };

    #[inline(always)]
    fn one<T: CompareLanes>(left: T, right: T) -> bool {
        left.is_equal(right)
    }

    #[inline(always)]
    fn word<T: CompareLanes>(left: T::Block, right: T::Block) -> u64 {
        T::equal(left, right)
    }
}

impl Test for IsLess {
    ghost holds = { int_lt };

    #[inline(always)]
    fn one<T: CompareLanes>(left: T, right: T) -> bool {
        left.is_less(right)
    }

    #[inline(always)]
    fn word<T: CompareLanes>(left: T::Block, right: T::Block) -> u64 {
        T::less(left, right)
    }
}

impl Test for IsGreater {
    ghost holds = { λ a b. int_lt b a };

    #[inline(always)]
    fn one<T: CompareLanes>(left: T, right: T) -> bool {
        right.is_less(left)
    }

    #[inline(always)]
    fn word<T: CompareLanes>(left: T::Block, right: T::Block) -> u64 {
        T::less(right, left)
    }
}

impl<C: Test> Test for IsNot<C> {
    ghost holds = { λ a b. not (C.holds a b) };

    #[inline(always)]
    fn one<T: CompareLanes>(left: T, right: T) -> bool {
        !C::one::<T>(left, right)
    }

    #[inline(always)]
    fn word<T: CompareLanes>(left: T::Block, right: T::Block) -> u64 {
        !C::word::<T>(left, right)
    }
}
