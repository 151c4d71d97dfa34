// Written in part by tools/write-lists from tools/families/masked_floats.txt.
//! The least and the greatest number among the floats that a mask selects.
ghost use Rattle.std.specs.Prelude.{◌≡◌, List, ◌++◌, length, IsTrue, MatchOption};
ghost use Rattle.vb_aggregate.specs.Floats.{AreNan, IsFirstNumber, IsFirstSoFar};
ghost use Rattle.vb_aggregate.specs.Floats.{upwards, downwards};
ghost use Rattle.vb_bits.specs.Kept.{kept_by};
ghost use Rattle.vb_view.specs.View.{bits_of};

use crate::float_summand::FloatSummand;
use crate::fold::{Fold, fold_word};
use crate::walk::{WordFold, fold_kept};
use std::marker::PhantomData;
use vb_view::BitBufferView;

/// A search for a number. Most words of a long mask leave its state unchanged.
trait Search<T>: Fold<T> {
    /// Returns true only if these values leave the state unchanged.
    fn stays(state: Self::State, values: &[T]) -> bool
        ensures { IsTrue result
            → (xs : List T) → Self.shows state xs → Self.shows state (xs ++ values.now) };
}

/// A search that skips a full word of the mask (all bits are true) if the word's values leave the
/// state unchanged. Most full words of a long mask do.
struct ByTests<S> {
    search: PhantomData<S>,
}

impl<T: Copy, S: Search<T>> WordFold<T> for ByTests<S> {
    type State = S::State;

    ghost shows = { S.shows };

    #[inline(always)]
    fn add_word(state: S::State, values: &[T], keep: u64) -> S::State {
        if keep.count_ones() as usize == values.len() && S::stays(state, values) {
            return state;
        }
        fold_word::<T, S>(state, values, keep)
    }
}

/// The least number so far; a NaN while there is none.
struct LeastNumber;

impl<T: FloatSummand> Fold<T> for LeastNumber {
    type State = T;

    ghost shows = { λ m xs. IsFirstSoFar upwards T.float xs m };

    #[inline(always)]
    fn add(state: T, value: T) -> T {
        if state.is_nan() || value.is_below(state) {
            value
        } else {
            state
        }
    }
}

impl<T: FloatSummand> Search<T> for LeastNumber {
    #[inline(always)]
    fn stays(state: T, values: &[T]) -> bool {
        if state.is_nan() {
            return false;
        }
        let mut is_below = false;
        for value in values {
            is_below |= value.is_below(state);
        }
        !is_below
    }
}

/// The greatest number so far; a NaN while there is none.
struct GreatestNumber;

impl<T: FloatSummand> Fold<T> for GreatestNumber {
    type State = T;

    ghost shows = { λ m xs. IsFirstSoFar downwards T.float xs m };

    #[inline(always)]
    fn add(state: T, value: T) -> T {
        if state.is_nan() || value.is_above(state) {
            value
        } else {
            state
        }
    }
}

impl<T: FloatSummand> Search<T> for GreatestNumber {
    #[inline(always)]
    fn stays(state: T, values: &[T]) -> bool {
        if state.is_nan() {
            return false;
        }
        let mut is_above = false;
        for value in values {
            is_above |= value.is_above(state);
        }
        !is_above
    }
}

/// Returns the least number among the floats whose bit of the mask is true; `None` if none of them
/// is a number. -0.0 is less than 0.0.
///
/// The mask must have one bit for each value. Does not allocate.
pub fn masked_float_min<T: FloatSummand>(values: &[T], mask: BitBufferView<'_>) -> Option<T>
    requires same_len { length values.now ≡ length (bits_of mask) }
    ensures { MatchOption result (AreNan T.float (kept_by (bits_of mask.entry) values.now))
        (IsFirstNumber upwards T.float (kept_by (bits_of mask.entry) values.now)) }
{
    let least = fold_kept::<T, ByTests<LeastNumber>>(T::nan(), values, mask);
    if least.is_nan() { None } else { Some(least) }
}

/// Returns the greatest number among the floats whose bit of the mask is true; `None` if none of
/// them is a number. 0.0 is greater than -0.0.
///
/// The mask must have one bit for each value. Does not allocate.
pub fn masked_float_max<T: FloatSummand>(values: &[T], mask: BitBufferView<'_>) -> Option<T>
    requires same_len { length values.now ≡ length (bits_of mask) }
    ensures { MatchOption result (AreNan T.float (kept_by (bits_of mask.entry) values.now))
        (IsFirstNumber downwards T.float (kept_by (bits_of mask.entry) values.now)) }
{
    let greatest = fold_kept::<T, ByTests<GreatestNumber>>(T::nan(), values, mask);
    if greatest.is_nan() {
        None
    } else {
        Some(greatest)
    }
}
