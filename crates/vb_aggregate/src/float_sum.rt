//! The sum of the floats that a mask selects.
ghost use Rattle.std.specs.Prelude.{◌≡◌, length, map};
ghost use Rattle.vb_aggregate.specs.Floats.{float_sum};
ghost use Rattle.vb_bits.specs.Kept.{kept_by};
ghost use Rattle.vb_view.specs.View.{bits_of};

use crate::float_summand::FloatSummand;
use crate::fold::Fold;
use crate::walk::{OneByOne, fold_kept};
use vb_view::BitBufferView;

/// The sum so far, rounded after each addition.
struct FloatSum;

impl<T: FloatSummand> Fold<T> for FloatSum {
    type State = T;

    ghost shows = { λ sum xs. T.float sum ≡ float_sum T.format (map T.float xs) };

    #[inline(always)]
    fn add(sum: T, value: T) -> T {
        sum.plus(value)
    }
}

/// Returns the sum of the floats whose bit of the mask is true. It starts from 0.0 and adds one
/// after the other, in the order of the rows; IEEE 754 says how each sum is rounded. The result is
/// that of a plain loop; the bits of a NaN may differ.
///
/// The mask must have one bit for each value. Does not allocate.
pub fn masked_float_sum<T: FloatSummand>(values: &[T], mask: BitBufferView<'_>) -> T
    requires same_len { length values.now ≡ length (bits_of mask) }
    ensures { T.float result
        ≡ float_sum T.format (map T.float (kept_by (bits_of mask.entry) values.now)) }
{
    fold_kept::<T, OneByOne<FloatSum>>(T::zero(), values, mask)
}
