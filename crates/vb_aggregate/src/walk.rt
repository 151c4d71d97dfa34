//! Folds of the values that a mask selects, a word of the mask at a time.
ghost use Rattle.std.specs.Prelude.{◌≡◌, ◌*◌, ◌^◌, ◌<◌, ◌≤◌, List, ◌++◌, length, slice_range};
ghost use Rattle.vb_bits.specs.Bits.{bits, count};
ghost use Rattle.vb_bits.specs.Digits.{digits};
ghost use Rattle.vb_bits.specs.InBytes.{InBytes};
ghost use Rattle.vb_bits.specs.Kept.{kept_by};
ghost use Rattle.vb_view.specs.View.{bits_of};

use crate::fold::{Fold, fold_word};
use std::marker::PhantomData;
use vb_view::{BitBufferView, view_word};

/// A fold that takes at most 64 values and a word of the mask at a time.
pub(crate) trait WordFold<T> {
    /// The state, of the values so far.
    type State: Copy;

    // The relation of a state to the values folded into it, in order.
    ghost shows: { Self.State → List T → Type 0 };

    /// Returns the state after the values whose bit of `keep` is 1 are added.
    fn add_word(state: Self::State, values: &[T], keep: u64) -> Self::State
        requires few { length values.now ≤ 64 }
        requires clear { keep < 2 ^ length values.now }
        ensures { (xs : List T) → shows state xs
            → shows result (xs ++ kept_by (digits keep 0 (length values.now)) values.now) };
}

/// A fold that adds one value after the other.
pub(crate) struct OneByOne<F> {
    fold: PhantomData<F>,
}

impl<T: Copy, F: Fold<T>> WordFold<T> for OneByOne<F> {
    type State = F::State;

    ghost shows = { F.shows };

    #[inline(always)]
    fn add_word(state: F::State, values: &[T], keep: u64) -> F::State {
        fold_word::<T, F>(state, values, keep)
    }
}

/// Folds the values whose bit of the mask is true into `start`, and returns the state.
#[inline(always)]
pub(crate) fn fold_kept<T: Copy, W: WordFold<T>>(
    start: W::State,
    values: &[T],
    mask: BitBufferView<'_>,
) -> W::State
    requires same_len { length values.now ≡ length (bits_of mask) }
    ensures { (xs : List T) → W.shows start xs
        → W.shows result (xs ++ kept_by (bits_of mask.entry) values.now) }
{
    let whole = mask.len() / 64;
    let mut state = start;
    let mut t = 0;
    while t < whole {
        let keep = view_word(mask, 64 * t, 64);
        if keep == 0 {
            t = next_nonempty(mask, t + 1, whole);
        } else {
            state = W::add_word(state, &values[64 * t..64 * t + 64], keep);
            t += 1;
        }
    }
    let n = mask.len() % 64;
    if n == 0 {
        return state;
    }
    let keep = view_word(mask, 64 * whole, n);
    W::add_word(state, &values[64 * whole..64 * whole + n], keep)
}

/// Does [`fold_kept`], and up to 64 values by one word of the mask: such a call has no loop over
/// words, and doesn't save the registers for it.
#[inline(always)]
pub(crate) fn fold_few_or_kept<T: Copy, W: WordFold<T>>(
    start: W::State,
    values: &[T],
    mask: BitBufferView<'_>,
) -> W::State
    requires same_len { length values.now ≡ length (bits_of mask) }
    ensures { (xs : List T) → W.shows start xs
        → W.shows result (xs ++ kept_by (bits_of mask.entry) values.now) }
{
    let n = values.len();
    if n > 64 {
        return fold_many::<T, W>(start, values, mask.inner(), mask.offset());
    }
    if n == 64 {
        return W::add_word(start, &values[0..64], view_word(mask, 0, 64));
    }
    W::add_word(start, &values[0..n], view_word(mask, 0, n))
}

/// Does [`fold_kept`] by a mask that starts at bit `offset` of `bytes`. The parts of a view are
/// passed in registers, and a view itself in memory.
#[inline(never)]
fn fold_many<T: Copy, W: WordFold<T>>(
    start: W::State,
    values: &[T],
    bytes: &[u8],
    offset: usize,
) -> W::State
    requires mask { InBytes bytes.now offset (length values.now) }
    ensures { (xs : List T) → W.shows start xs
        → W.shows result (xs ++ kept_by (bits bytes.now offset (length values.now)) values.now) }
{
    let mask = BitBufferView::new_with_offset(bytes, values.len(), offset);
    fold_kept::<T, W>(start, values, mask)
}

/// Returns the first of the words `from` to `whole - 1` that has a true bit; `whole` if none has.
///
/// A separate loop takes the fewest instructions for each empty word.
#[inline(always)]
fn next_nonempty(mask: BitBufferView<'_>, from: usize, whole: usize) -> usize
    requires order { from ≤ whole }
    requires inside { 64 * whole ≤ length (bits_of mask) }
    ensures after { from ≤ result }
    ensures within { result ≤ whole }
    ensures empty { count (slice_range (bits_of mask.entry) (64 * from) (64 * result)) ≡ 0 }
{
    let mut t = from;
    while t < whole {
        let word = view_word(mask, 64 * t, 64);
        if word != 0 {
            return t;
        }
        t += 1;
    }
    t
}
