// Written in part by tools/write-lists from tools/families/lanes.txt.
//! The results of a comparison of floats, one or 64 at a time.
//!
//! `IS_WIDE` is false for `f64` too, unlike for whole numbers of 64 bits: the compiler builds
//! vectors from comparisons of single whole numbers, but not of single floats.
ghost use Rattle.std.specs.Prelude.{◌≡◌, length, map};
ghost use Rattle.std.specs.Simd.Lanes.{zip2};

use crate::floats::lanes::FloatLanes;
use crate::floats::test::Test;
use crate::truths::Truths;
use std::marker::PhantomData;

/// The results of `C` for each float and one number.
#[derive(Drop)]
pub(crate) struct ToNumber<'a, T, C> {
    values: &'a [T],
    number: T,
    test: PhantomData<C>,
}

impl<'a, T: FloatLanes, C: Test> ToNumber<'a, T, C> {
    pub(crate) fn new(values: &'a [T], number: T) -> Self
        ensures values { result.values.now ≡ values.now }
        ensures number { result.number ≡ number }
    {
        ToNumber {
            values,
            number,
            test: PhantomData,
        }
    }
}

impl<T: FloatLanes, C: Test> Truths for ToNumber<'_, T, C> {
    const IS_WIDE: bool = false;

    ghost truths = { λ s. map (λ v. C.holds (T.float v) (T.float s.number)) s.values.now };

    #[inline(always)]
    fn len(&self) -> usize {
        self.values.len()
    }

    #[inline(always)]
    fn one(&self, k: usize) -> bool {
        C::one::<T>(self.values[k], self.number)
    }

    #[inline(always)]
    fn word(&self, k: usize) -> u64 {
        C::word::<T>(T::load(&self.values[k..]), T::splat(self.number))
    }
}

/// The results of `C` for each float and the one at the same index of `others`, which must be as
/// long.
#[derive(Drop)]
pub(crate) struct ToOthers<'a, T, C> {
    values: &'a [T],
    others: &'a [T],
    test: PhantomData<C>,
    ghost same_len: { length others.now ≡ length values.now },
}

impl<'a, T: FloatLanes, C: Test> ToOthers<'a, T, C> {
    pub(crate) fn new(values: &'a [T], others: &'a [T]) -> Self
        requires { length others.now ≡ length values.now }
        ensures values { result.values.now ≡ values.now }
        ensures others { result.others.now ≡ others.now }
    {
        ToOthers {
            values,
            others,
            test: PhantomData,
        }
    }
}

#[tactic(auto, using(crate::proofs::TruthLemmas::length_paired))]
impl<T: FloatLanes, C: Test> Truths for ToOthers<'_, T, C> {
    const IS_WIDE: bool = false;

    ghost truths = { λ s. zip2 (λ v w. C.holds (T.float v) (T.float w))
        s.values.now s.others.now };

    #[inline(always)]
    fn len(&self) -> usize {
        self.values.len()
    }

    #[inline(always)]
    fn one(&self, k: usize) -> bool {
        C::one::<T>(self.values[k], self.others[k])
    }

    #[inline(always)]
    fn word(&self, k: usize) -> u64 {
        C::word::<T>(T::load(&self.values[k..]), T::load(&self.others[k..]))
    }
}
