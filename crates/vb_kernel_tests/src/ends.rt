//! Windows of slices of a few bytes, and windows that end near the end of their slice, compared
//! with single bits.
use crate::compared::{equal_at, holds};
use crate::edits::{COMBINED, Combined, combined_bit};
use crate::sample::mix;
use std::process::Abort;
use vb_kernel::{copy_bits, get_bit, read_bits, set_bit_to, zip_words};

/// The most bytes of a slice: two words and a half.
const MOST: usize = 20;

/// The bytes that are written, and those that are read.
type Sides = ([u8; MOST], [u8; MOST + 2]);

/// Where the window that is written begins, where the one that is read begins, and how long both
/// are.
type Windows = (usize, usize, usize);

/// What a plain loop makes of the window that is written.
fn combined_plainly(
    rt: &impl Abort,
    (left, right): &Sides,
    how: Combined,
    (d, s, len): Windows,
) -> [u8; MOST] {
    holds(rt, d < 16);
    holds(rt, s < 16);
    holds(rt, len <= 160);
    holds(rt, d + len <= 160);
    let mut wanted = *left;
    for i in 0..len {
        let bit = combined_bit(how, get_bit(left, d + i), get_bit(right, s + i));
        set_bit_to(&mut wanted, d + i, bit);
    }
    wanted
}

/// Writes a window of the first `n` bytes, from the fewest bytes that have the bits to read, and
/// compares it with a plain loop.
fn end_is_plain(rt: &impl Abort, sides: &Sides, n: usize, how: Combined, at: Windows) {
    let (left, right) = sides;
    let (d, s, len) = at;
    holds(rt, d < 16);
    holds(rt, s < 16);
    holds(rt, n <= MOST);
    holds(rt, len <= 160);
    holds(rt, d + len <= 8 * n);
    let mut after = *left;
    let dst = &mut after[..n];
    let src = &right[..(s + len).div_ceil(8)];
    match how {
        None => copy_bits(dst, d, src, s, len),
        Some(op) => zip_words(dst, d, src, s, len, op),
    }
    equal_at(
        rt,
        after,
        combined_plainly(rt, sides, how, at),
        (how, n, at),
    );
}

/// The windows from bit `d` on, each of them copied and combined.
fn ends_are_plain(rt: &impl Abort, sides: &Sides, n: usize, d: usize) {
    holds(rt, n <= MOST);
    holds(rt, d < 16);
    holds(rt, d <= 8 * n);
    for len in 0..8 * n - d + 1 {
        let at = (d, (5 * d + 3) % 16, len);
        end_is_plain(rt, sides, n, None, at);
        end_is_plain(rt, sides, n, COMBINED[len % 5], at);
    }
}

#[test]
fn ends_of_windows_are_plain(rt: HostRuntime) {
    let mut sides = ([0; MOST], [0; MOST + 2]);
    mix(&mut sides.0);
    mix(&mut sides.1);
    sides.1 = sides.1.map(|byte| byte.rotate_left(3));
    for n in 0..MOST + 1 {
        for d in 0..(8 * n + 1).min(16) {
            ends_are_plain(&rt, &sides, n, d);
        }
    }
}

/// Up to 64 bits as one number, bit by bit.
fn read_plainly(rt: &impl Abort, bytes: &[u8; MOST], at: usize, count: usize) -> u64 {
    holds(rt, at <= 160);
    holds(rt, count <= 64);
    holds(rt, at + count <= 160);
    let mut word = 0;
    for i in 0..count {
        if get_bit(bytes, at + i) {
            word |= 1 << i;
        }
    }
    word
}

/// All windows from bit `at` on of the first `n` bytes.
fn reads_are_plain(rt: &impl Abort, bytes: &[u8; MOST], n: usize, at: usize) {
    holds(rt, n <= MOST);
    holds(rt, at <= 8 * n);
    for count in 0..(8 * n - at).min(64) + 1 {
        let wanted = read_plainly(rt, bytes, at, count);
        equal_at(
            rt,
            read_bits(&bytes[..n], at, count),
            wanted,
            (n, at, count),
        );
    }
}

#[test]
fn reads_near_the_end_are_plain(rt: HostRuntime) {
    let bytes = &mut [0; MOST];
    mix(bytes);
    for n in 0..MOST + 1 {
        for at in 0..8 * n + 1 {
            reads_are_plain(&rt, bytes, n, at);
        }
    }
}
