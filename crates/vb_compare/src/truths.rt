// Written in part by tools/write-lists from tools/families/lanes.txt.
//! The results of a comparison of values, one or 64 at a time.
ghost use Rattle.std.specs.Prelude.{◌≡◌, ◌+◌, ◌<◌, ◌≤◌, Bool, List, length, map, take, drop};
ghost use Rattle.std.specs.Simd.Lanes.{zip2};
ghost use Rattle.vb_bits.specs.Bits.{at};
ghost use Rattle.vb_compare.specs.Digits.{digits};

use crate::lanes::CompareLanes;
use crate::test::Test;
use std::marker::PhantomData;

/// A sequence of truth values, such as the results of a comparison. It returns one of them, or 64
/// in a row at once.
pub trait Truths {
    /// Whether 64 calls of [`one`](Truths::one), eight at a time, are faster than a call of
    /// [`word`](Truths::word). True for whole numbers of eight bytes and more, since a vector holds
    /// few of these.
    const IS_WIDE: bool;

    // The truth values.
    ghost truths: { Self → List Bool };

    /// Returns the number of truth values.
    fn len(&self) -> usize
        ensures { result ≡ length (truths self.now) };

    /// Returns the truth value at index `k`, which must be below the length.
    fn one(&self, k: usize) -> bool
        requires { k < length (truths self.now) }
        ensures { result ≡ at (truths self.now) k };

    /// Returns a word whose bits are the 64 truth values from index `k` on. `k + 64` must be at
    /// most the length.
    fn word(&self, k: usize) -> u64
        requires { k + 64 ≤ length (truths self.now) }
        ensures { digits result 0 64 ≡ take 64 (drop k (truths self.now)) };
}

/// The results of `C` for each value and one number.
#[derive(Drop)]
pub(crate) struct ToNumber<'a, T, C> {
    values: &'a [T],
    number: T,
    test: PhantomData<C>,
}

impl<'a, T: CompareLanes, C: Test> ToNumber<'a, T, C> {
    pub(crate) fn new(values: &'a [T], number: T) -> Self
        ensures values { result.values.now ≡ values.now }
        ensures number { result.number ≡ number }
    {
        ToNumber {
            values,
            number,
            test: PhantomData,
        }
    }
}

impl<T: CompareLanes, C: Test> Truths for ToNumber<'_, T, C> {
    const IS_WIDE: bool = T::SIZE >= 8;

    ghost truths = { λ s. map (λ v. C.holds (T.number v) (T.number s.number)) s.values.now };

    #[inline(always)]
    fn len(&self) -> usize {
        self.values.len()
    }

    #[inline(always)]
    fn one(&self, k: usize) -> bool {
        C::one::<T>(self.values[k], self.number)
    }

    #[inline(always)]
    fn word(&self, k: usize) -> u64 {
        C::word::<T>(T::load(&self.values[k..]), T::splat(self.number))
    }
}

/// The results of `C` for each value and the one at the same index of `others`, which must be as
/// long.
#[derive(Drop)]
pub(crate) struct ToOthers<'a, T, C> {
    values: &'a [T],
    others: &'a [T],
    test: PhantomData<C>,
    ghost same_len: { length others.now ≡ length values.now },
}

impl<'a, T: CompareLanes, C: Test> ToOthers<'a, T, C> {
    pub(crate) fn new(values: &'a [T], others: &'a [T]) -> Self
        requires { length others.now ≡ length values.now }
        ensures values { result.values.now ≡ values.now }
        ensures others { result.others.now ≡ others.now }
    {
        ToOthers {
            values,
            others,
            test: PhantomData,
        }
    }
}

#[tactic(auto, using(crate::proofs::TruthLemmas::length_paired))]
impl<T: CompareLanes, C: Test> Truths for ToOthers<'_, T, C> {
    const IS_WIDE: bool = T::SIZE >= 8;

    ghost truths = { λ s. zip2 (λ v w. C.holds (T.number v) (T.number w))
        s.values.now s.others.now };

    #[inline(always)]
    fn len(&self) -> usize {
        self.values.len()
    }

    #[inline(always)]
    fn one(&self, k: usize) -> bool {
        C::one::<T>(self.values[k], self.others[k])
    }

    #[inline(always)]
    fn word(&self, k: usize) -> u64 {
        C::word::<T>(T::load(&self.values[k..]), T::load(&self.others[k..]))
    }
}
