//! Truth values that may be null, combined a word at a time.
//!
//! `T` computes which results are true, from which values of both sides are true; `F` computes
//! which are false, from which values are false. For `and`, `T` is `And` and `F` is `Or`; for `or`,
//! `T` is `Or` and `F` is `And`. A result that is neither is null.
ghost use Rattle.std.specs.Prelude.{◌≡◌, ◌+◌, ◌*◌, ◌≤◌, length, slice_range};
ghost use Rattle.vb_kleene.specs.Combined.{column, trues_by, valid_by};
ghost use Rattle.vb_kleene.specs.Digits.{digits, lane_bits};
ghost use Rattle.vb_kleene.specs.View.{bits_of};

use crate::column::Column;
use std::simd::prelude::*;
use vb_bits::{Merge, Or};

/// Returns which results are true, and which aren't null, for the 256 truth values from index
/// `256 * k` on.
#[inline(always)]
pub(crate) fn block<T: Merge, F: Merge>(
    left: &Column<'_>,
    right: &Column<'_>,
    k: usize,
) -> (u64x4, u64x4)
    requires inside { 256 * k + 256 ≤ length (bits_of left.now.values) }
    requires right { length (bits_of right.now.values) ≡ length (bits_of left.now.values) }
    ensures trues_len { length result.0 ≡ 4 }
    ensures valid_len { length result.1 ≡ 4 }
    ensures trues { lane_bits result.0 ≡ slice_range
        (trues_by T.bit (column left.now) (column right.now)) (256 * k) (256 * k + 256) }
    ensures valid { lane_bits result.1 ≡ slice_range
        (valid_by T.bit F.bit (column left.now) (column right.now)) (256 * k) (256 * k + 256) }
{
    let (left_trues, left_falses) = left.block(k);
    let (right_trues, right_falses) = right.block(k);
    let trues = T::words(left_trues, right_trues);
    (trues, Or::words(trues, F::words(left_falses, right_falses)))
}

/// Returns which results are true, and which aren't null, for the `n` truth values from index `at`
/// on, as the lowest bits of two words.
#[inline(always)]
pub(crate) fn word<T: Merge, F: Merge>(
    left: &Column<'_>,
    right: &Column<'_>,
    at: usize,
    n: usize,
) -> (u64, u64)
    requires few { n ≤ 64 }
    requires inside { at + n ≤ length (bits_of left.now.values) }
    requires right { length (bits_of right.now.values) ≡ length (bits_of left.now.values) }
    ensures trues { digits result.0 0 n ≡ slice_range
        (trues_by T.bit (column left.now) (column right.now)) at (at + n) }
    ensures valid { digits result.1 0 n ≡ slice_range
        (valid_by T.bit F.bit (column left.now) (column right.now)) at (at + n) }
{
    let (left_trues, left_falses) = left.word(at, n);
    let (right_trues, right_falses) = right.word(at, n);
    let trues = T::word(left_trues, right_trues);
    (trues, Or::word(trues, F::word(left_falses, right_falses)))
}
