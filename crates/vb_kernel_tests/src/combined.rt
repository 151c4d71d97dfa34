//! Counts of two windows that are combined.
ghost use Rattle.vb_bits.specs.InBytes.{InBytes};

use crate::compared::{equal, equal_at, holds};
use crate::looks::looks_at;
use crate::plain::combined_bit;
use crate::sample::mix;
use std::process::Abort;
use vb_kernel::{
    BitOp, Tally, and_count, and_count_by, andnot_count, andnot_count_by, get_bit, is_disjoint,
    is_subset, or_count, or_count_by, window_fits, xor_count, xor_count_by,
};

/// Where two windows begin, and how long both are.
pub(crate) type Windows = (usize, usize, usize);

/// The operators whose ones are counted.
const OPERATORS: [BitOp; 4] = [BitOp::And, BitOp::Or, BitOp::Xor, BitOp::AndNot];

/// The number of ones that each of these gives for two windows.
pub(crate) type Counts = [usize; 4];

/// Updates the counts of two windows for one more bit of each.
pub(crate) fn count_more(counts: &mut Counts, left: bool, right: bool) {
    for (count, op) in counts.iter_mut().zip(OPERATORS) {
        *count = count.saturating_add(usize::from(combined_bit(op, left, right)));
    }
}

/// The counts of two windows, bit by bit.
pub(crate) fn plain_counts(left: &[u8], l: usize, right: &[u8], r: usize, len: usize) -> Counts
    requires left { InBytes left.now l len }
    requires right { InBytes right.now r len }
{
    let mut counts = [0; 4];
    for i in 0..len {
        count_more(&mut counts, get_bit(left, l + i), get_bit(right, r + i));
    }
    counts
}

/// The counts of two windows by the calls over slices.
pub(crate) fn slice_counts(left: &[u8], l: usize, right: &[u8], r: usize, len: usize) -> Counts
    requires left { InBytes left.now l len }
    requires right { InBytes right.now r len }
{
    [
        and_count(left, l, right, r, len),
        or_count(left, l, right, r, len),
        xor_count(left, l, right, r, len),
        andnot_count(left, l, right, r, len),
    ]
}

/// The counts are those that are wanted.
fn counts_are(rt: &impl Abort, left: &[u8], right: &[u8], (l, r, len): Windows, wanted: Counts) {
    holds(rt, window_fits(left, l, len));
    holds(rt, window_fits(right, r, len));
    let counted = slice_counts(left, l, right, r, len);
    equal_at(rt, counted, wanted, (l, r, len));
}

/// The counts of sources that count their looks are `wanted`, and the looks at each are those of
/// [`looks_at`]. Windows are disjoint exactly if `and` has no ones, and the left one is a subset of
/// the right one exactly if `and not` has none.
pub(crate) fn looks_tell(
    rt: &impl Abort,
    left: &[u8],
    right: &[u8],
    (l, r, len): Windows,
    wanted: Counts,
) {
    holds(rt, window_fits(left, l, len));
    holds(rt, window_fits(right, r, len));
    let (one, other) = (&mut Tally::new(left), &mut Tally::new(right));
    let counted = [
        and_count_by(one, l, other, r, len),
        or_count_by(one, l, other, r, len),
        xor_count_by(one, l, other, r, len),
        andnot_count_by(one, l, other, r, len),
    ];
    equal_at(rt, counted, wanted, (l, r, len));
    let looks = (one.looks(), other.looks());
    let each = [looks_at(l, l, len), looks_at(r, l, len)];
    let [all_left, all_right] = each.map(|looks| looks.saturating_mul(4));
    equal_at(rt, looks, (all_left, all_right), (l, r, len));
    let [and, _, _, andnot] = wanted;
    let disjoint = is_disjoint(left, l, right, r, len);
    equal_at(rt, disjoint, and == 0, (l, r, len));
    let within = is_subset(left, l, right, r, len);
    equal_at(rt, within, andnot == 0, (l, r, len));
}

/// Windows from these bits on, of each length below `most`.
fn counts_are_plain(rt: &impl Abort, left: &[u8], l: usize, right: &[u8], r: usize, most: usize) {
    holds(rt, window_fits(left, l, most));
    holds(rt, window_fits(right, r, most));
    let mut wanted = [0; 4];
    for len in 0..most {
        counts_are(rt, left, right, (l, r, len), wanted);
        count_more(&mut wanted, get_bit(left, l + len), get_bit(right, r + len));
    }
}

#[test]
fn counts_of_short_windows_are_plain(rt: HostRuntime) {
    let left = &mut [0; 28];
    mix(left);
    let right = &left.map(|byte| byte.rotate_left(3));
    for l in 0..=16 {
        for r in 0..=16 {
            counts_are_plain(&rt, left, l, right, r, 201);
        }
    }
}

/// Lengths around those of the parts that are counted as a whole: bytes, words and chunks.
const LENS: [usize; 14] = [0, 1, 8, 9, 63, 64, 73, 200, 511, 512, 513, 519, 767, 1031];

#[test]
fn counts_of_long_windows_are_plain(rt: HostRuntime) {
    let left = &mut [0; 130];
    mix(left);
    let right = &left.map(|byte| byte.rotate_left(3));
    for l in 0..8 {
        for r in 0..8 {
            for len in LENS {
                holds(&rt, window_fits(left, l, len));
                holds(&rt, window_fits(right, r, len));
                let wanted = plain_counts(left, l, right, r, len);
                counts_are(&rt, left, right, (l, r, len), wanted);
                looks_tell(&rt, left, right, (l, r, len), wanted);
            }
        }
    }
}

/// Compares a window, whose only true bit is bit 203 (if it has that bit), with one of true bits
/// and with one of false bits. So bit 203 alone decides.
#[test]
fn windows_are_told_by_their_last_bit(rt: HostRuntime) {
    let (clear, full) = (&[0; 40], &[0xFF; 40]);
    let mut last = [0; 40];
    last[25] = 0b1000;
    for len in [200, 203, 204, 205, 300] {
        let seen = len > 203;
        equal_at(&rt, is_disjoint(&last, 0, full, 7, len), !seen, len);
        equal_at(&rt, is_subset(&last, 0, clear, 7, len), !seen, len);
        equal_at(&rt, is_subset(&last, 0, full, 7, len), true, len);
        equal_at(&rt, is_disjoint(&last, 0, clear, 7, len), true, len);
    }
}

/// No count includes bits outside of the windows.
#[test]
fn bits_beside_two_windows_count_in_none(rt: HostRuntime) {
    let (left, right) = (&[0xFF, 0xF0], &[0x00, 0xFF]);
    equal(&rt, and_count(left, 4, right, 6, 8), 2);
    equal(&rt, or_count(left, 4, right, 6, 8), 8);
    equal(&rt, xor_count(left, 4, right, 6, 8), 6);
    equal(&rt, andnot_count(left, 4, right, 6, 8), 2);
}
