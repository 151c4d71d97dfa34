//! Sums of the values that a mask selects.
ghost use Rattle.std.specs.Prelude.{◌≡◌, ◌^◌, ◌<◌, ◌≤◌, length, map};
ghost use Rattle.vb_aggregate.specs.Sums.{int_sum, IsSum, IsValueOf};
ghost use Rattle.vb_bits.specs.Kept.{kept_by};
ghost use Rattle.vb_view.specs.View.{bits_of};

use crate::fold::{Fold, fold_word};
use crate::summand::Summand;
use crate::walk::{OneByOne, WordFold, fold_few_or_kept};
use crate::wide_summand::WideSummand;
use vb_view::BitBufferView;

/// The sum so far, wrapped around at the end of its type.
struct WrappingSum;

impl<T: Summand> Fold<T> for WrappingSum {
    type State = T;

    ghost shows = { λ sum xs. sum ≡ T.wrapped (int_sum (map T.number xs)) };

    #[inline(always)]
    fn add(sum: T, value: T) -> T {
        sum.wrapping_plus(value)
    }
}

/// The sum so far of the values of one word.
struct PartSum;

impl<T: WideSummand> Fold<T> for PartSum {
    type State = T::Part;

    ghost shows = { λ sum xs. length xs ≤ 64 → IsSum T.number T.reach xs (T.part_number sum) };

    #[inline(always)]
    fn add(sum: T::Part, value: T) -> T::Part {
        T::plus(sum, value)
    }
}

/// The sum so far.
struct Sum;

impl<T: WideSummand> WordFold<T> for Sum {
    type State = T::Total;

    ghost shows = { λ sum xs. length xs < 2 ^ 64
        → IsSum T.number T.reach xs (T.total_number sum) };

    #[inline(always)]
    fn add_word(sum: T::Total, values: &[T], keep: u64) -> T::Total {
        if keep == 0 {
            return sum;
        }
        T::join(sum, fold_word::<T, PartSum>(T::no_part(), values, keep))
    }
}

/// Returns the sum of the values whose bit of the mask is true, wrapped around at the end of the
/// type.
///
/// The mask must have one bit for each value. Does not allocate.
pub fn masked_wrapping_sum<T: Summand>(values: &[T], mask: BitBufferView<'_>) -> T
    requires same_len { length values.now ≡ length (bits_of mask) }
    ensures { result
        ≡ T.wrapped (int_sum (map T.number (kept_by (bits_of mask.entry) values.now))) }
{
    fold_few_or_kept::<T, OneByOne<WrappingSum>>(T::zero(), values, mask)
}

/// Returns the exact sum of the values whose bit of the mask is true: a `u128` for unsigned types,
/// an `i128` for signed ones.
///
/// The mask must have one bit for each value. Does not allocate.
#[inline(always)]
pub fn masked_sum<T: WideSummand>(values: &[T], mask: BitBufferView<'_>) -> T::Total
    requires same_len { length values.now ≡ length (bits_of mask) }
    ensures { T.total_number result
        ≡ int_sum (map T.number (kept_by (bits_of mask.entry) values.now)) }
{
    // It is inlined, since a caller would pass the view in memory.
    fold_few_or_kept::<T, Sum>(T::no_total(), values, mask)
}

/// Returns the sum of the values whose bit of the mask is true; `None` if the type has no such
/// value. An intermediate sum may be outside the type.
///
/// The mask must have one bit for each value. Does not allocate.
pub fn masked_checked_sum<T: WideSummand>(values: &[T], mask: BitBufferView<'_>) -> Option<T>
    requires same_len { length values.now ≡ length (bits_of mask) }
    ensures { IsValueOf T.is_in_type T.number
        (int_sum (map T.number (kept_by (bits_of mask.entry) values.now))) result }
{
    T::narrow(masked_sum(values, mask))
}
