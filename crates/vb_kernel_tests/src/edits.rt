//! Fills, negated, copied and combined windows, compared with single bits.
use crate::compared::{equal, equal_at, holds};
use crate::plain;
use crate::sample::mix;
use std::process::Abort;
use vb_kernel::{BitOp, copy_bits, fill_bits, get_bit, map_words, zip_words};

const OFFSETS: [usize; 5] = [0, 3, 5, 7, 13];

const LENS: [usize; 9] = [0, 1, 7, 8, 63, 64, 65, 129, 200];

fn fill_is_plain(rt: &impl Abort, before: &[u8; 32], offset: usize, len: usize, v: bool) {
    let mut after = *before;
    let end = offset.saturating_add(len);
    holds(rt, end <= 256);
    fill_bits(&mut after, offset, end, v);
    for i in 0..256 {
        let wanted = if offset <= i && i < end {
            v
        } else {
            get_bit(before, i)
        };
        equal_at(rt, get_bit(&after, i), wanted, (offset, len, i));
    }
}

fn map_is_plain(rt: &impl Abort, before: &[u8; 32], offset: usize, len: usize) {
    let mut after = *before;
    let end = offset.saturating_add(len);
    holds(rt, end <= 256);
    map_words(&mut after, offset, end - offset);
    for i in 0..256 {
        let inside = offset <= i && i < end;
        let wanted = get_bit(before, i) != inside;
        equal_at(rt, get_bit(&after, i), wanted, (offset, len, i));
    }
}

/// How a window is combined with one of other bytes: by an operation, or by a copy if it is None.
pub(crate) type Combined = Option<BitOp>;

/// Copied, and by each operation.
pub(crate) const COMBINED: [Combined; 5] = [
    None,
    Some(BitOp::And),
    Some(BitOp::Or),
    Some(BitOp::Xor),
    Some(BitOp::AndNot),
];

/// One bit.
pub(crate) fn combined_bit(how: Combined, left: bool, right: bool) -> bool {
    match how {
        None => right,
        Some(op) => plain::combined_bit(op, left, right),
    }
}

/// Where the window that is written begins, where the one that is read begins, and how long both
/// are.
type Windows = (usize, usize, usize);

fn combined_is_plain(
    rt: &impl Abort,
    left: &[u8; 32],
    right: &[u8; 32],
    how: Combined,
    (d, s, len): Windows,
) {
    let mut after = *left;
    holds(rt, d <= 16);
    holds(rt, s <= 16);
    holds(rt, len <= 200);
    match how {
        None => copy_bits(&mut after, d, right, s, len),
        Some(op) => zip_words(&mut after, d, right, s, len, op),
    }
    for i in 0..256 {
        let old = get_bit(left, i);
        let wanted = if d <= i && i < d + len {
            combined_bit(how, old, get_bit(right, s + i - d))
        } else {
            old
        };
        equal_at(rt, get_bit(&after, i), wanted, (how, (d, s, len), i));
    }
}

#[test]
fn edits_are_plain(rt: HostRuntime) {
    let bytes = &mut [0; 32];
    mix(bytes);
    for offset in OFFSETS {
        for len in LENS {
            fill_is_plain(&rt, bytes, offset, len, true);
            fill_is_plain(&rt, bytes, offset, len, false);
            map_is_plain(&rt, bytes, offset, len);
        }
    }
}

/// Each way to combine two windows of these lengths.
fn combined_are_plain(rt: &impl Abort, left: &[u8; 32], right: &[u8; 32], d: usize, s: usize) {
    for len in LENS {
        for how in COMBINED {
            combined_is_plain(rt, left, right, how, (d, s, len));
        }
    }
}

#[test]
fn combined_windows_are_plain(rt: HostRuntime) {
    let left = &mut [0; 32];
    mix(left);
    let right = &left.map(|byte| byte.rotate_left(3));
    for d in OFFSETS {
        for s in OFFSETS {
            combined_are_plain(&rt, left, right, d, s);
        }
    }
}

#[test]
fn a_copy_leaves_the_bits_beside_it(rt: HostRuntime) {
    let mut bytes = [0xFF; 2];
    copy_bits(&mut bytes, 3, &[0; 2], 5, 7);
    equal(&rt, bytes, [0x07, 0xFC]);
}

#[test]
fn a_fill_leaves_the_bits_beside_it(rt: HostRuntime) {
    let mut bytes = [0u8; 9];
    let filled = [0xF8, 0xFF, 0xFF, 0xFF, 0xFF, 0xFF, 0xFF, 0xFF, 0x3F];
    fill_bits(&mut bytes, 3, 70, true);
    equal(&rt, bytes, filled);
    fill_bits(&mut bytes, 70, 3, false);
    equal(&rt, bytes, filled);
    fill_bits(&mut bytes, 0, 72, false);
    equal(&rt, bytes, [0; 9]);
}
