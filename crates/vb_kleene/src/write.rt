//! Truth values that may be null, combined and written.
ghost use Rattle.std.specs.Prelude.{◌≡◌, ◌+◌, ◌*◌, ◌%◌, ◌^◌, ◌<◌, ◌≤◌, length, slice_range, take};
ghost use Rattle.std.specs.Option.{ForSome, option_map};
ghost use Rattle.vb_kleene.specs.Combined.{column, trues_by, valid_by};
ghost use Rattle.vb_kleene.specs.Digits.{digits, lane_bits};
ghost use Rattle.vb_kleene.specs.InBytes.{InBytes};
ghost use Rattle.vb_kleene.specs.Kleene.{truths};
ghost use Rattle.vb_kleene.specs.View.{bits_of};
ghost use Rattle.vb_kleene.specs.Writes.{Writes};

use crate::column::Column;
use crate::combine::{block, word};
use std::simd::prelude::*;
use vb_bits::{Merge, copy_bits, write_digits, write_word};
use vb_view::BitBufferView;

/// The number of blocks of 256 truth values that are computed before they are copied to a window
/// that doesn't begin at a byte boundary. It is large enough that the call of the copy costs
/// little, and small enough that clearing the bytes of the blocks costs little.
const COPIED: usize = 16;

/// Writes two bits for each result: whether it is true, to `trues` from bit `t` on; and whether it
/// isn't null, to `valid` from bit `v` on. Every other bit is unchanged.
pub(crate) fn write_combined<T: Merge, F: Merge>(
    trues: &mut [u8],
    t: usize,
    valid: &mut [u8],
    v: usize,
    left: &Column<'_>,
    right: &Column<'_>,
)
    requires trues { InBytes trues.old t (length (bits_of left.now.values)) }
    requires valid { InBytes valid.old v (length (bits_of left.now.values)) }
    requires right { length (bits_of right.now.values) ≡ length (bits_of left.now.values) }
    ensures trues { Writes trues.old trues.new t
        (trues_by T.bit (column left.now) (column right.now)) }
    ensures valid { Writes valid.old valid.new v
        (valid_by T.bit F.bit (column left.now) (column right.now)) }
{
    let len = left.len();
    write_blocks::<T, F>(trues, t, valid, v, left, right, len / 256);
    for k in 4 * (len / 256)..len / 64 {
        write_part::<T, F>(trues, t, valid, v, left, right, 64 * k, 64);
    }
    let rest = len % 64;
    if rest != 0 {
        write_part::<T, F>(trues, t, valid, v, left, right, len - rest, rest);
    }
}

/// Does [`write_combined`] for at most 64 truth values: reads a word of each view, and writes two.
///
/// Inlined, so that no call has to store the views and columns first.
#[inline(always)]
pub(crate) fn write_few<T: Merge, F: Merge>(
    trues: &mut [u8],
    t: usize,
    valid: &mut [u8],
    v: usize,
    left: BitBufferView<'_>,
    left_validity: Option<BitBufferView<'_>>,
    right: BitBufferView<'_>,
    right_validity: Option<BitBufferView<'_>>,
)
    requires few { length (bits_of left) ≤ 64 }
    requires trues { InBytes trues.old t (length (bits_of left)) }
    requires valid { InBytes valid.old v (length (bits_of left)) }
    requires right { length (bits_of right) ≡ length (bits_of left) }
    requires left_valid { ForSome left_validity (λ v. length (bits_of v) ≡ length (bits_of left)) }
    requires right_valid { ForSome right_validity (λ v. length (bits_of v)
        ≡ length (bits_of left)) }
    ensures trues { Writes trues.old trues.new t (trues_by T.bit
        (truths (bits_of left.entry) (option_map bits_of left_validity.entry))
        (truths (bits_of right.entry) (option_map bits_of right_validity.entry))) }
    ensures valid { Writes valid.old valid.new v (valid_by T.bit F.bit
        (truths (bits_of left.entry) (option_map bits_of left_validity.entry))
        (truths (bits_of right.entry) (option_map bits_of right_validity.entry))) }
{
    let n = left.len();
    let left = Column::new(left, left_validity);
    let right = Column::new(right, right_validity);
    let (true_word, valid_word) = word::<T, F>(&left, &right, 0, n);
    write_results(trues, t, n, true_word);
    write_results(valid, v, n, valid_word);
}

/// Does [`write_combined`] for the first `256 * n` truth values. If one of the two windows doesn't
/// begin at a byte boundary, computes them in separate bytes and copies these.
fn write_blocks<T: Merge, F: Merge>(
    trues: &mut [u8],
    t: usize,
    valid: &mut [u8],
    v: usize,
    left: &Column<'_>,
    right: &Column<'_>,
    n: usize,
)
    requires inside { 256 * n ≤ length (bits_of left.now.values) }
    requires trues { InBytes trues.old t (length (bits_of left.now.values)) }
    requires valid { InBytes valid.old v (length (bits_of left.now.values)) }
    requires right { length (bits_of right.now.values) ≡ length (bits_of left.now.values) }
    ensures trues { Writes trues.old trues.new t
        (take (256 * n) (trues_by T.bit (column left.now) (column right.now))) }
    ensures valid { Writes valid.old valid.new v
        (take (256 * n) (valid_by T.bit F.bit (column left.now) (column right.now))) }
{
    if t % 8 == 0 && v % 8 == 0 {
        fill_blocks::<T, F>(trues, t / 8, valid, v / 8, left, right, 0, n);
        return;
    }
    for j in 0..n.div_ceil(COPIED) {
        let first = COPIED * j;
        copy_blocks::<T, F>(
            trues,
            t,
            valid,
            v,
            left,
            right,
            first,
            (n - first).min(COPIED),
        );
    }
}

/// Writes two bits for each of the `256 * n` results from index `256 * first` on: whether it is
/// true, to `trues` from byte `t` on; and whether it isn't null, to `valid` from byte `v` on.
fn fill_blocks<T: Merge, F: Merge>(
    trues: &mut [u8],
    t: usize,
    valid: &mut [u8],
    v: usize,
    left: &Column<'_>,
    right: &Column<'_>,
    first: usize,
    n: usize,
)
    requires inside { 256 * first + 256 * n ≤ length (bits_of left.now.values) }
    requires fits { first + n < 2 ^ 64 }
    requires trues { t + 32 * n ≤ length trues.old }
    requires valid { v + 32 * n ≤ length valid.old }
    requires right { length (bits_of right.now.values) ≡ length (bits_of left.now.values) }
    ensures trues { Writes trues.old trues.new (8 * t) (slice_range
        (trues_by T.bit (column left.now) (column right.now))
        (256 * first) (256 * first + 256 * n)) }
    ensures valid { Writes valid.old valid.new (8 * v) (slice_range
        (valid_by T.bit F.bit (column left.now) (column right.now))
        (256 * first) (256 * first + 256 * n)) }
{
    let (left, right) = (*left, *right);
    for k in 0..n {
        let (true_words, valid_words) = block::<T, F>(&left, &right, first + k);
        store_lanes(trues, t + 32 * k, true_words);
        store_lanes(valid, v + 32 * k, valid_words);
    }
}

/// Does [`write_combined`] for the `256 * n` truth values from index `256 * first` on. `n` must be
/// at most [`COPIED`].
#[inline(never)]
fn copy_blocks<T: Merge, F: Merge>(
    trues: &mut [u8],
    t: usize,
    valid: &mut [u8],
    v: usize,
    left: &Column<'_>,
    right: &Column<'_>,
    first: usize,
    n: usize,
)
    requires few { n ≤ 16 }
    requires inside { 256 * first + 256 * n ≤ length (bits_of left.now.values) }
    requires trues { InBytes trues.old t (length (bits_of left.now.values)) }
    requires valid { InBytes valid.old v (length (bits_of left.now.values)) }
    requires right { length (bits_of right.now.values) ≡ length (bits_of left.now.values) }
    ensures trues { Writes trues.old trues.new (t + 256 * first) (slice_range
        (trues_by T.bit (column left.now) (column right.now))
        (256 * first) (256 * first + 256 * n)) }
    ensures valid { Writes valid.old valid.new (v + 256 * first) (slice_range
        (valid_by T.bit F.bit (column left.now) (column right.now))
        (256 * first) (256 * first + 256 * n)) }
{
    let mut made = [0u8; 32 * COPIED];
    let mut made_valid = [0u8; 32 * COPIED];
    fill_blocks::<T, F>(&mut made, 0, &mut made_valid, 0, left, right, first, n);
    copy_bits(trues, t + 256 * first, &made, 0, 256 * n);
    copy_bits(valid, v + 256 * first, &made_valid, 0, 256 * n);
}

/// Does [`write_combined`] for the `n` truth values from index `at` on.
///
/// Not inlined: for a loop over words the compiler builds vectors by gathers, which are slower.
#[inline(never)]
fn write_part<T: Merge, F: Merge>(
    trues: &mut [u8],
    t: usize,
    valid: &mut [u8],
    v: usize,
    left: &Column<'_>,
    right: &Column<'_>,
    at: usize,
    n: usize,
)
    requires few { n ≤ 64 }
    requires inside { at + n ≤ length (bits_of left.now.values) }
    requires trues { InBytes trues.old t (length (bits_of left.now.values)) }
    requires valid { InBytes valid.old v (length (bits_of left.now.values)) }
    requires right { length (bits_of right.now.values) ≡ length (bits_of left.now.values) }
    ensures trues { Writes trues.old trues.new (t + at) (slice_range
        (trues_by T.bit (column left.now) (column right.now)) at (at + n)) }
    ensures valid { Writes valid.old valid.new (v + at) (slice_range
        (valid_by T.bit F.bit (column left.now) (column right.now)) at (at + n)) }
{
    let (true_word, valid_word) = word::<T, F>(left, right, at, n);
    write_results(trues, t + at, n, true_word);
    write_results(valid, v + at, n, valid_word);
}

/// Writes the `n` lowest bits of `word` to the bits from bit `at` on.
///
/// If these are 64 bits from a byte boundary on, needs no load and no mask, which would be a tenth
/// of the instructions for 64 truth values.
#[inline(always)]
fn write_results(out: &mut [u8], at: usize, n: usize, word: u64)
    requires in_word { n ≤ 64 }
    requires window { InBytes out.old at n }
    ensures { Writes out.old out.new at (digits word 0 n) }
{
    if n == 64 && at % 8 == 0 {
        write_word(out, at / 8, word);
    } else {
        write_digits(out, at, n, word);
    }
}

/// Writes four words to the bytes from byte `first` on.
#[inline(always)]
fn store_lanes(out: &mut [u8], first: usize, words: u64x4)
    requires len { length words ≡ 4 }
    requires inside { first + 32 ≤ length out.old }
    ensures { Writes out.old out.new (8 * first) (lane_bits words) }
{
    words
        .to_le_bytes()
        .copy_to_slice(&mut out[first..first + 32]);
}
