//! Aggregates of the values whose bit of a mask is true, by a window of bytes.
ghost use Rattle.std.specs.Prelude.{◌≡◌, length};
ghost use Rattle.vb_aggregate.specs.Floats.{upwards, downwards};
ghost use Rattle.vb_aggregate.specs.Sums.{IsValueOf};
ghost use Rattle.vb_bits.specs.InBytes.{InBytes};
ghost use Rattle.vb_c_aggregate.specs.Selected.{sum_of, LeastOf, GreatestOf};
ghost use Rattle.vb_c_aggregate.specs.Selected.{float_sum_of, FirstOf};

use vb_aggregate::{FloatSummand, Summand, WideSummand};
use vb_view::BitBufferView;

/// Returns the exact sum of the values whose bit of `mask` from bit `m` on is true.
pub(crate) fn exact_sum<T: WideSummand>(values: &[T], mask: &[u8], m: usize) -> T::Total
    requires { InBytes mask.now m (length values.now) }
    ensures { T.total_number result ≡ sum_of T.number values.now mask.now m }
{
    let mask = BitBufferView::new_with_offset(mask, values.len(), m);
    vb_aggregate::masked_sum(values, mask)
}

/// Returns the sum of these values, if it fits in their type.
pub(crate) fn checked_sum<T: WideSummand>(values: &[T], mask: &[u8], m: usize) -> Option<T>
    requires { InBytes mask.now m (length values.now) }
    ensures { IsValueOf T.is_in_type T.number (sum_of T.number values.now mask.now m) result }
{
    let mask = BitBufferView::new_with_offset(mask, values.len(), m);
    vb_aggregate::masked_checked_sum(values, mask)
}

/// Returns the sum of these values, wrapped around at the end of the type.
pub(crate) fn wrapping_sum<T: Summand>(values: &[T], mask: &[u8], m: usize) -> T
    requires { InBytes mask.now m (length values.now) }
    ensures { result ≡ T.wrapped (sum_of T.number values.now mask.now m) }
{
    let mask = BitBufferView::new_with_offset(mask, values.len(), m);
    vb_aggregate::masked_wrapping_sum(values, mask)
}

/// Returns the least of these values, if there is one.
pub(crate) fn least<T: Summand>(values: &[T], mask: &[u8], m: usize) -> Option<T>
    requires { InBytes mask.now m (length values.now) }
    ensures { LeastOf T.number values.now mask.now m result }
{
    let mask = BitBufferView::new_with_offset(mask, values.len(), m);
    vb_aggregate::masked_min(values, mask)
}

/// Returns the greatest of these values, if there is one.
pub(crate) fn greatest<T: Summand>(values: &[T], mask: &[u8], m: usize) -> Option<T>
    requires { InBytes mask.now m (length values.now) }
    ensures { GreatestOf T.number values.now mask.now m result }
{
    let mask = BitBufferView::new_with_offset(mask, values.len(), m);
    vb_aggregate::masked_max(values, mask)
}

/// Returns the sum of the floats whose bit of `mask` from bit `m` on is true, added one after the
/// other.
pub(crate) fn float_sum<T: FloatSummand>(values: &[T], mask: &[u8], m: usize) -> T
    requires { InBytes mask.now m (length values.now) }
    ensures { T.float result ≡ float_sum_of T.format T.float values.now mask.now m }
{
    let mask = BitBufferView::new_with_offset(mask, values.len(), m);
    vb_aggregate::masked_float_sum(values, mask)
}

/// Returns the least number among these floats, if there is one.
pub(crate) fn least_number<T: FloatSummand>(values: &[T], mask: &[u8], m: usize) -> Option<T>
    requires { InBytes mask.now m (length values.now) }
    ensures { FirstOf upwards T.float values.now mask.now m result }
{
    let mask = BitBufferView::new_with_offset(mask, values.len(), m);
    vb_aggregate::masked_float_min(values, mask)
}

/// Returns the greatest number among these floats, if there is one.
pub(crate) fn greatest_number<T: FloatSummand>(values: &[T], mask: &[u8], m: usize) -> Option<T>
    requires { InBytes mask.now m (length values.now) }
    ensures { FirstOf downwards T.float values.now mask.now m result }
{
    let mask = BitBufferView::new_with_offset(mask, values.len(), m);
    vb_aggregate::masked_float_max(values, mask)
}
