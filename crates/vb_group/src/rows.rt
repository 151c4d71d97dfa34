//! Additions of the rows that a mask selects, a word of the mask at a time.
ghost use Rattle.std.specs.Prelude.{◌≡◌, ◌&&◌, ◌^◌, ◌<◌, ◌≤◌, length, take, zip, true, false};
ghost use Rattle.std.specs.Prelude.{IfSome, IfNone};
ghost use Rattle.std.specs.Option.{ForSome, option_map};
ghost use Rattle.vb_bits.specs.Digits.{digits};
ghost use Rattle.vb_bits.specs.Kept.{kept_by};
ghost use Rattle.vb_group.specs.Groups.{TriesRows, selected};
ghost use Rattle.vb_view.specs.View.{bits_of};

use crate::addition::{Addition, add_row};
use vb_core::BitIndex;
use vb_view::{BitBufferView, view_word};

/// Adds the selected rows that have a total, in order. If a selected row has none, and the addition
/// doesn't pass over such rows, it stops: without a mask after that row, with a mask after the word
/// of the mask that has the row. Returns the number of rows up to there; `None` if it did not stop.
///
/// Inlined, as [`add_kept`] is: a call would pass the view in memory.
#[inline(always)]
pub(crate) fn add_selected<C: BitIndex, V: Copy, A: Addition<V>>(
    totals: &mut [A::Total],
    codes: &[C],
    values: &[V],
    mask: Option<BitBufferView<'_>>,
) -> Option<usize>
    requires same_len { length values.now ≡ length codes.now }
    requires mask { ForSome mask (λ m. length (bits_of m) ≡ length codes.now) }
    ensures all { IfNone result (TriesRows C.number A.plus A.is_total A.skips totals.old totals.new
        (selected (option_map bits_of mask.entry) (zip codes.now values.now)) true) }
    ensures front { IfSome result (λ n. TriesRows C.number A.plus A.is_total A.skips totals.old
        totals.new (selected (option_map (take n) (option_map bits_of mask.entry))
        (take n (zip codes.now values.now))) false) }
    ensures within { IfSome result (λ n. n ≤ length codes.now) }
{
    match mask {
        Some(mask) => add_kept::<C, V, A>(totals, codes, values, mask),
        None => add_each::<C, V, A>(totals, codes, values),
    }
}

/// Does [`add_selected`] for the rows whose bit of the mask is true.
#[inline(always)]
fn add_kept<C: BitIndex, V: Copy, A: Addition<V>>(
    totals: &mut [A::Total],
    codes: &[C],
    values: &[V],
    mask: BitBufferView<'_>,
) -> Option<usize>
    requires same_len { length values.now ≡ length codes.now }
    requires mask { length (bits_of mask) ≡ length codes.now }
    ensures all { IfNone result (TriesRows C.number A.plus A.is_total A.skips totals.old totals.new
        (kept_by (bits_of mask.entry) (zip codes.now values.now)) true) }
    ensures front { IfSome result (λ n. TriesRows C.number A.plus A.is_total A.skips totals.old
        totals.new (kept_by (take n (bits_of mask.entry)) (take n (zip codes.now values.now)))
        false) }
    ensures within { IfSome result (λ n. n ≤ length codes.now) }
{
    let whole = mask.len() / 64;
    for t in 0..whole {
        let keep = view_word(mask, 64 * t, 64);
        if !add_word::<C, V, A>(
            totals,
            &codes[64 * t..64 * t + 64],
            &values[64 * t..64 * t + 64],
            keep,
        ) {
            return Some(64 * t + 64);
        }
    }
    let n = mask.len() % 64;
    let keep = view_word(mask, 64 * whole, n);
    if add_word::<C, V, A>(
        totals,
        &codes[64 * whole..64 * whole + n],
        &values[64 * whole..64 * whole + n],
        keep,
    ) {
        None
    } else {
        Some(64 * whole + n)
    }
}

/// Does [`add_selected`] for all rows.
fn add_each<C: BitIndex, V: Copy, A: Addition<V>>(
    totals: &mut [A::Total],
    codes: &[C],
    values: &[V],
) -> Option<usize>
    requires same_len { length values.now ≡ length codes.now }
    ensures all { IfNone result (TriesRows C.number A.plus A.is_total A.skips totals.old totals.new
        (zip codes.now values.now) true) }
    ensures front { IfSome result (λ n. TriesRows C.number A.plus A.is_total A.skips totals.old
        totals.new (take n (zip codes.now values.now)) false) }
    ensures within { IfSome result (λ n. n ≤ length codes.now) }
{
    for row in 0..codes.len() {
        if !add_row::<C, V, A>(totals, codes[row], values[row]) {
            return Some(row + 1);
        }
    }
    None
}

/// Does [`add_selected`] for at most 64 rows and a mask, by one word of it.
#[inline(always)]
pub(crate) fn add_few<C: BitIndex, V: Copy, A: Addition<V>>(
    totals: &mut [A::Total],
    codes: &[C],
    values: &[V],
    mask: BitBufferView<'_>,
) -> Option<usize>
    requires few { length codes.now ≤ 64 }
    requires same_len { length values.now ≡ length codes.now }
    requires mask { length (bits_of mask) ≡ length codes.now }
    ensures all { IfNone result (TriesRows C.number A.plus A.is_total A.skips totals.old totals.new
        (kept_by (bits_of mask.entry) (zip codes.now values.now)) true) }
    ensures front { IfSome result (λ n. TriesRows C.number A.plus A.is_total A.skips totals.old
        totals.new (kept_by (take n (bits_of mask.entry)) (take n (zip codes.now values.now)))
        false) }
    ensures within { IfSome result (λ n. n ≤ length codes.now) }
{
    let n = codes.len();
    if add_word::<C, V, A>(totals, codes, values, view_word(mask, 0, n)) {
        None
    } else {
        Some(n)
    }
}

/// Calls [`add_row`] for each row whose bit of `keep` is 1, and returns whether all calls return
/// true. There must be at most 64 rows.
#[inline(always)]
fn add_word<C: BitIndex, V: Copy, A: Addition<V>>(
    totals: &mut [A::Total],
    codes: &[C],
    values: &[V],
    keep: u64,
) -> bool
    requires same_len { length values.now ≡ length codes.now }
    requires few { length codes.now ≤ 64 }
    requires clear { keep < 2 ^ length codes.now }
    ensures { TriesRows C.number A.plus A.is_total A.skips totals.old totals.new
        (kept_by (digits keep 0 (length codes.now)) (zip codes.now values.now)) result }
{
    if keep == 0 {
        return true;
    }
    if keep.count_ones() as usize == codes.len() {
        add_all::<C, V, A>(totals, codes, values)
    } else {
        add_ones::<C, V, A>(totals, codes, values, keep)
    }
}

/// Does [`add_word`] for all rows.
#[inline(always)]
fn add_all<C: BitIndex, V: Copy, A: Addition<V>>(
    totals: &mut [A::Total],
    codes: &[C],
    values: &[V],
) -> bool
    requires same_len { length values.now ≡ length codes.now }
    ensures { TriesRows C.number A.plus A.is_total A.skips totals.old totals.new
        (zip codes.now values.now) result }
{
    let mut good = true;
    for row in 0..codes.len() {
        let has_total = add_row::<C, V, A>(totals, codes[row], values[row]);
        good = both(has_total, good);
    }
    good
}

/// Does [`add_word`], and reads only the selected rows.
#[inline(always)]
fn add_ones<C: BitIndex, V: Copy, A: Addition<V>>(
    totals: &mut [A::Total],
    codes: &[C],
    values: &[V],
    keep: u64,
) -> bool
    requires same_len { length values.now ≡ length codes.now }
    requires few { length codes.now ≤ 64 }
    requires clear { keep < 2 ^ length codes.now }
    ensures { TriesRows C.number A.plus A.is_total A.skips totals.old totals.new
        (kept_by (digits keep 0 (length codes.now)) (zip codes.now values.now)) result }
{
    let mut good = true;
    let mut left = keep;
    while left != 0 {
        let row = left.trailing_zeros() as usize;
        let has_total = add_row::<C, V, A>(totals, codes[row], values[row]);
        good = both(has_total, good);
        left &= left - 1;
    }
    good
}

/// Returns whether both are true. Because it branches, `good = both(has_total, good)` in a loop
/// does not write `good` for a row that has a total.
#[inline(always)]
fn both(first: bool, second: bool) -> bool
    ensures { result ≡ (first && second) }
{
    if first { second } else { false }
}
