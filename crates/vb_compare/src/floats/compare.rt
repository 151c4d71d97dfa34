// Written in part by tools/write-lists from tools/families/lanes.txt.
//! Comparisons of floats, with the results as bits.
ghost use Rattle.std.specs.Prelude.{◌≡◌, length, map};
ghost use Rattle.std.specs.Simd.Lanes.{zip2};
ghost use Rattle.vb_bits.specs.InBytes.{InBytes};
ghost use Rattle.vb_bits.specs.Writes.{Writes};
ghost use Rattle.vb_compare.specs.Floats.{compares_floats};

use crate::comparison::Comparison;
use crate::floats::lanes::FloatLanes;
use crate::floats::test::{
    IsEqual, IsGreater, IsGreaterOrEqual, IsLess, IsLessOrEqual, IsNotEqual,
};
use crate::floats::truths::{ToNumber, ToOthers};
use crate::write::write_truths;

/// Writes to bit `offset + k` of `out`, for each `k` below the number of values, whether
/// `values[k]` compares with `number` by `op`, as IEEE 754 defines it: with a NaN on either side
/// only `NotEqual` is true, and 0.0 equals -0.0. No other bit changes.
///
/// These bits must be in `out`, and `offset` plus the number of values must fit in a `usize`. Does
/// not allocate.
///
/// Compares 64 values at a time by vectors, fewer than 64 by eights, and fewer than eight one by
/// one.
pub fn compare_floats_into<T: FloatLanes>(
    out: &mut [u8],
    offset: usize,
    values: &[T],
    op: Comparison,
    number: T,
)
    requires window { InBytes out.old offset (length values.now) }
    ensures { Writes out.old out.new offset
        (map (λ value. compares_floats op (T.float value) (T.float number)) values.now) }
{
    match op {
        Comparison::Equal => {
            write_truths(out, offset, &ToNumber::<T, IsEqual>::new(values, number))
        }
        Comparison::NotEqual => {
            write_truths(out, offset, &ToNumber::<T, IsNotEqual>::new(values, number))
        }
        Comparison::Less => {
            write_truths(out, offset, &ToNumber::<T, IsLess>::new(values, number))
        }
        Comparison::LessOrEqual => write_truths(
            out,
            offset,
            &ToNumber::<T, IsLessOrEqual>::new(values, number),
        ),
        Comparison::Greater => {
            write_truths(out, offset, &ToNumber::<T, IsGreater>::new(values, number))
        }
        Comparison::GreaterOrEqual => write_truths(
            out,
            offset,
            &ToNumber::<T, IsGreaterOrEqual>::new(values, number),
        ),
    }
}

/// Writes to bit `offset + k` of `out`, for each `k` below the number of values, whether
/// `values[k]` compares with `others[k]` by `op`, as IEEE 754 defines it: with a NaN on either side
/// only `NotEqual` is true, and 0.0 equals -0.0. No other bit changes.
///
/// `others` must have the same length as `values`. These bits must be in `out`, and `offset` plus
/// the number of values must fit in a `usize`. Does not allocate.
///
/// Compares 64 values at a time by vectors, fewer than 64 by eights, and fewer than eight one by
/// one.
#[tactic(auto, using(crate::proofs::TruthLemmas::length_paired))]
pub fn compare_floats_with_into<T: FloatLanes>(
    out: &mut [u8],
    offset: usize,
    values: &[T],
    op: Comparison,
    others: &[T],
)
    requires others { length others.now ≡ length values.now }
    requires window { InBytes out.old offset (length values.now) }
    ensures { Writes out.old out.new offset
        (zip2 (λ left right. compares_floats op (T.float left) (T.float right))
        values.now others.now) }
{
    match op {
        Comparison::Equal => {
            write_truths(out, offset, &ToOthers::<T, IsEqual>::new(values, others))
        }
        Comparison::NotEqual => {
            write_truths(out, offset, &ToOthers::<T, IsNotEqual>::new(values, others))
        }
        Comparison::Less => {
            write_truths(out, offset, &ToOthers::<T, IsLess>::new(values, others))
        }
        Comparison::LessOrEqual => write_truths(
            out,
            offset,
            &ToOthers::<T, IsLessOrEqual>::new(values, others),
        ),
        Comparison::Greater => {
            write_truths(out, offset, &ToOthers::<T, IsGreater>::new(values, others))
        }
        Comparison::GreaterOrEqual => write_truths(
            out,
            offset,
            &ToOthers::<T, IsGreaterOrEqual>::new(values, others),
        ),
    }
}
