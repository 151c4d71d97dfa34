//! Sums, the least and the greatest of values that a mask keeps, in worked rows.
ghost use Rattle.std.specs.Prelude.{◌≡◌, length};
ghost use Rattle.vb_view.specs.View.{bits_of};

use crate::compared::holds;
use std::process::Abort;
use vb_aggregate::{
    WideSummand, masked_checked_sum, masked_max, masked_min, masked_sum, masked_wrapping_sum,
};
use vb_bits::window_fits;
use vb_view::BitBufferView;

/// A mask of `len` bits, the first one at bit 3 of the bytes.
fn mask<'a>(rt: &impl Abort, bytes: &'a [u8], len: usize) -> BitBufferView<'a>
    ensures { length (bits_of result) ≡ len }
{
    holds(rt, window_fits(bytes, 3, len));
    BitBufferView::new_with_offset(bytes, len, 3)
}

/// What each call returns for some values.
#[derive(Drop)]
struct Row<T, S> {
    sum: S,
    wrapping: T,
    checked: Option<T>,
    least: Option<T>,
    greatest: Option<T>,
}

/// Asserts the row of the values that the mask selects. The mask begins at bit 3 of the bytes.
fn answers<T: WideSummand<Total = S> + PartialEq + Drop, S: PartialEq + Drop>(
    rt: &impl Abort,
    values: &[T],
    bytes: &[u8],
    row: Row<T, S>,
) {
    let mask = mask(rt, bytes, values.len());
    assert!(rt; masked_sum(values, mask) == row.sum);
    assert!(rt; masked_wrapping_sum(values, mask) == row.wrapping);
    assert!(rt; masked_checked_sum(values, mask) == row.checked);
    assert!(rt; masked_min(values, mask) == row.least);
    assert!(rt; masked_max(values, mask) == row.greatest);
}

#[test]
fn a_sum_past_the_end_wraps_and_is_none(rt: HostRuntime) {
    let row = Row {
        sum: 356,
        wrapping: 100,
        checked: None,
        least: Some(56),
        greatest: Some(200),
    };
    answers(&rt, &[200u8, 7, 100, 56], &[0b0110_1000], row);
}

#[test]
fn a_sum_that_is_past_the_end_on_the_way_alone_is_checked(rt: HostRuntime) {
    let row = Row {
        sum: 82,
        wrapping: 82,
        checked: Some(82),
        least: Some(-128),
        greatest: Some(100),
    };
    answers(&rt, &[100i8, 55, 55, -1, -128], &[0b1011_1000], row);
}

#[test]
fn sums_of_64_bits_are_exact(rt: HostRuntime) {
    let row = Row {
        sum: 55_340_232_221_128_654_845,
        wrapping: 18_446_744_073_709_551_613,
        checked: None,
        least: Some(u64::MAX),
        greatest: Some(u64::MAX),
    };
    answers(&rt, &[u64::MAX, u64::MAX, u64::MAX], &[0xFF], row);
    let row = Row {
        sum: -18_446_744_073_709_551_616,
        wrapping: 0,
        checked: None,
        least: Some(i64::MIN),
        greatest: Some(i64::MIN),
    };
    answers(&rt, &[i64::MIN, 9, i64::MIN], &[0b0010_1000], row);
}

#[test]
fn values_of_128_bits_wrap_and_compare(rt: HostRuntime) {
    let values = [u128::MAX, 1, 5];
    let both = mask(&rt, &[0b0001_1000], values.len());
    assert!(rt; masked_wrapping_sum(&values, both) == 0);
    assert!(rt; masked_min(&values, both) == Some(1));
    assert!(rt; masked_max(&values, both) == Some(u128::MAX));
    let values = [i128::MIN, -1, 7];
    let both = mask(&rt, &[0b0001_1000], values.len());
    assert!(rt; masked_wrapping_sum(&values, both) == i128::MAX);
    assert!(rt; masked_min(&values, both) == Some(i128::MIN));
    assert!(rt; masked_max(&values, both) == Some(-1));
}

#[test]
fn of_no_values_a_sum_is_0_and_there_is_no_least_one(rt: HostRuntime) {
    let none = || Row {
        sum: 0,
        wrapping: 0,
        checked: Some(0),
        least: None,
        greatest: None,
    };
    answers::<i32, i128>(&rt, &[3, -4, 5], &[0b1100_0111], none());
    answers::<i32, i128>(&rt, &[], &[0xFF], none());
}
