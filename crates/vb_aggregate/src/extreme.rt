//! The least and the greatest value that a mask selects.
ghost use Rattle.std.specs.Int.{trailing_zeros, w64};
ghost use Rattle.std.specs.Prelude.{◌≡◌, ◌^◌, ◌<◌, ◌≤◌, [], length, get_or, MatchOption};
ghost use Rattle.vb_aggregate.specs.Extremes.{IsLeast, IsGreatest, Chooses};
ghost use Rattle.vb_bits.specs.Kept.{kept_by};
ghost use Rattle.vb_view.specs.View.{bits_of};

use crate::fold::{Fold, fold_word};
use crate::summand::Summand;
use crate::walk::{WordFold, fold_kept};
use std::marker::PhantomData;
use vb_view::BitBufferView;

/// The least value so far.
struct Least;

#[tactic(auto, using(crate::proofs::ExtremesLemmas::extremes))]
impl<T: Summand> Fold<T> for Least {
    type State = T;

    ghost shows = { λ m xs. IsLeast T.number xs m };

    #[inline(always)]
    fn add(state: T, value: T) -> T {
        if value.is_less(state) { value } else { state }
    }
}

/// The greatest value so far.
struct Greatest;

#[tactic(auto, using(crate::proofs::ExtremesLemmas::extremes))]
impl<T: Summand> Fold<T> for Greatest {
    type State = T;

    ghost shows = { λ m xs. IsGreatest T.number xs m };

    #[inline(always)]
    fn add(state: T, value: T) -> T {
        if state.is_less(value) { value } else { state }
    }
}

/// A fold that starts from the first selected value; `None` while there is none.
struct FromFirst<F> {
    fold: PhantomData<F>,
}

impl<T: Copy, F: Fold<T, State = T>> WordFold<T> for FromFirst<F> {
    type State = Option<T>;

    ghost shows = { λ state xs. Chooses F.shows
        → MatchOption state (xs ≡ []) (λ found. F.shows found xs) };

    // The first value is folded twice, so that all values of a full word are in one loop.
    #[inline(always)]
    fn add_word(state: Option<T>, values: &[T], keep: u64) -> Option<T> {
        if keep == 0 {
            return state;
        }
        let start = or_first(state, values, keep);
        Some(fold_word::<T, F>(start, values, keep))
    }
}

/// Returns the value that was found; if there is none, the first value whose bit of `keep` is 1.
#[inline(always)]
fn or_first<T: Copy>(found: Option<T>, values: &[T], keep: u64) -> T
    requires few { length values.now ≤ 64 }
    requires clear { keep < 2 ^ length values.now }
    requires some { 0 < keep }
    ensures { MatchOption found
        (result ≡ get_or values.now (trailing_zeros w64 keep) result) (λ value. result ≡ value) }
{
    match found {
        Some(value) => value,
        None => values[keep.trailing_zeros() as usize],
    }
}

/// Returns the least of the values whose bit of the mask is true; `None` if no bit is true.
///
/// The mask must have one bit for each value. Does not allocate.
pub fn masked_min<T: Summand>(values: &[T], mask: BitBufferView<'_>) -> Option<T>
    requires same_len { length values.now ≡ length (bits_of mask) }
    ensures { MatchOption result (kept_by (bits_of mask.entry) values.now ≡ [])
        (IsLeast T.number (kept_by (bits_of mask.entry) values.now)) }
{
    fold_kept::<T, FromFirst<Least>>(None, values, mask)
}

/// Returns the greatest of the values whose bit of the mask is true; `None` if no bit is true.
///
/// The mask must have one bit for each value. Does not allocate.
pub fn masked_max<T: Summand>(values: &[T], mask: BitBufferView<'_>) -> Option<T>
    requires same_len { length values.now ≡ length (bits_of mask) }
    ensures { MatchOption result (kept_by (bits_of mask.entry) values.now ≡ [])
        (IsGreatest T.number (kept_by (bits_of mask.entry) values.now)) }
{
    fold_kept::<T, FromFirst<Greatest>>(None, values, mask)
}
