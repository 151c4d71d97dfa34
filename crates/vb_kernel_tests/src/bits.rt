//! Single bits and windows.
use crate::compared::{equal, equal_at};
use vb_kernel::{
    get_bit, get_bit_unchecked, last_set_index, read_u64_le, set_bit_unchecked,
    unset_bit_unchecked, window_fits,
};

#[test]
fn a_single_bit_is_set_unset_and_read(rt: HostRuntime) {
    let rt = &rt;
    let mut bytes = [0u8, 0];
    set_bit_unchecked(&mut bytes, 3);
    set_bit_unchecked(&mut bytes, 15);
    equal(rt, bytes, [0b0000_1000, 0b1000_0000]);
    equal(rt, get_bit(&bytes, 15), true);
    equal(rt, get_bit(&bytes, 14), false);
    equal(rt, get_bit_unchecked(&bytes, 3), true);
    equal(rt, get_bit_unchecked(&bytes, 4), false);
    unset_bit_unchecked(&mut bytes, 3);
    equal(rt, bytes, [0, 0b1000_0000]);
}

/// Windows, and whether they fit in a slice of one byte.
const WINDOWS: [(usize, usize, bool); 8] = [
    (0, 8, true),
    (3, 5, true),
    (3, 6, false),
    (8, 0, true),
    (9, 0, false),
    (usize::MAX, 0, false),
    (usize::MAX, 1, false),
    (1, usize::MAX, false),
];

#[test]
fn windows_fit_where_they_end_in_the_bytes(rt: HostRuntime) {
    for (offset, len, fits) in WINDOWS {
        equal_at(&rt, window_fits(&[0], offset, len), fits, (offset, len));
    }
    equal(&rt, window_fits(&[], 0, 0), true);
}

/// Bytes that are not there are 0.
#[test]
fn bytes_that_are_missing_are_read_as_zeros(rt: HostRuntime) {
    equal(&rt, read_u64_le(&[0x34, 0x12]), 4660);
}

#[test]
fn the_last_true_bit_is_sought_in_the_window(rt: HostRuntime) {
    let bytes = &[0x76];
    equal(&rt, last_set_index(bytes, 0, 7), Some(6));
    equal(&rt, last_set_index(bytes, 0, 4), Some(2));
    equal(&rt, last_set_index(bytes, 3, 1), None);
}
