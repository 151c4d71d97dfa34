//! Folds of the values that a word of a mask selects, one by one.
ghost use Rattle.std.specs.Prelude.{◌≡◌, ◌^◌, ◌<◌, ◌≤◌, List, [], ◌∷◌, ◌++◌, length};
ghost use Rattle.vb_bits.specs.Digits.{digits};
ghost use Rattle.vb_bits.specs.Kept.{kept_by};

/// A fold of one value after the other. Each fold is a type, so that it has its own loops.
pub(crate) trait Fold<T> {
    /// The state, of the values so far.
    type State: Copy;

    // The relation of a state to the values folded into it, in order.
    ghost shows: { Self.State → List T → Type 0 };

    /// Returns the state with one more value added.
    fn add(state: Self::State, value: T) -> Self::State
        ensures { (xs : List T) → shows state xs → shows result (xs ++ (value ∷ [])) };
}

/// Folds the values whose bit of `keep` is 1 into `start`, and returns the state. There must be at
/// most 64 values.
#[inline(always)]
pub(crate) fn fold_word<T: Copy, F: Fold<T>>(start: F::State, values: &[T], keep: u64) -> F::State
    requires few { length values.now ≤ 64 }
    requires clear { keep < 2 ^ length values.now }
    ensures { (xs : List T) → F.shows start xs
        → F.shows result (xs ++ kept_by (digits keep 0 (length values.now)) values.now) }
{
    if keep == 0 {
        start
    } else if keep.count_ones() as usize == values.len() {
        fold_all::<T, F>(start, values)
    } else {
        fold_ones::<T, F>(start, values, keep)
    }
}

/// Folds all values into `start`, and returns the state.
#[inline(always)]
fn fold_all<T: Copy, F: Fold<T>>(start: F::State, values: &[T]) -> F::State
    ensures { (xs : List T) → F.shows start xs → F.shows result (xs ++ values.now) }
{
    let mut state = start;
    for value in values {
        state = F::add(state, *value);
    }
    state
}

/// Does [`fold_word`], and reads only the selected values.
#[inline(always)]
fn fold_ones<T: Copy, F: Fold<T>>(start: F::State, values: &[T], keep: u64) -> F::State
    requires few { length values.now ≤ 64 }
    requires clear { keep < 2 ^ length values.now }
    ensures { (xs : List T) → F.shows start xs
        → F.shows result (xs ++ kept_by (digits keep 0 (length values.now)) values.now) }
{
    let mut state = start;
    let mut left = keep;
    while left != 0 {
        let place = left.trailing_zeros() as usize;
        state = F::add(state, values[place]);
        left &= left - 1;
    }
    state
}
