//! Whether views are disjoint, or one is a subset of the other, and the number of ones that an
//! operator gives: compared with plain loops over their bits.
use crate::compared::{equal, equal_at};
use crate::sample::{mix, view};
use std::process::Abort;
use vb_bits::set_bit_to;
use vb_core::{BufferError, Result};
use vb_view::BitBufferView;

/// How the right bits are made from the left ones and noise.
#[derive(Clone, Copy)]
enum Right {
    Noise,
    Apart,
    Around,
    Same,
}

const RIGHTS: [Right; 4] = [Right::Noise, Right::Apart, Right::Around, Right::Same];

impl Right {
    fn bit(self, left: bool, noise: bool) -> bool {
        match self {
            Right::Noise => noise,
            Right::Apart => noise && !left,
            Right::Around => noise || left,
            Right::Same => left,
        }
    }
}

/// Writes the right bits into the noise of the bytes, from bit `offset` on.
fn write(bytes: &mut [u8], offset: usize, left: &BitBufferView<'_>, right: Right) {
    for i in 0..left.len() {
        let place = offset.saturating_add(i);
        if place / 8 < bytes.len() {
            let noise = bytes[place / 8] >> (place % 8) & 1 == 1;
            set_bit_to(bytes, place, right.bit(left.value(i), noise));
        }
    }
}

/// Flips a bit, if the bytes have it.
fn turn(bytes: &mut [u8], place: usize) {
    if place / 8 < bytes.len() {
        bytes[place / 8] ^= 1 << (place % 8);
    }
}

/// What a loop over the bits finds: whether no index is true in both views, and whether each index
/// that is true in the left one is true in the right one.
fn plain(left: &BitBufferView<'_>, right: &BitBufferView<'_>) -> (bool, bool) {
    let (mut disjoint, mut within) = (true, true);
    for i in 0..left.len().min(right.len()) {
        match (left.value(i), right.value(i)) {
            (true, true) => disjoint = false,
            (true, false) => within = false,
            (false, _) => {},
        }
    }
    (disjoint, within)
}

/// The numbers of ones of `and`, `or`, `xor` and `and not`, by the calls that compare lengths.
type Counts = (Result<usize>, Result<usize>, Result<usize>, Result<usize>);

fn counts(left: &BitBufferView<'_>, right: &BitBufferView<'_>) -> Counts {
    (
        left.try_and_count(right),
        left.try_or_count(right),
        left.try_xor_count(right),
        left.try_andnot_count(right),
    )
}

/// The same by a loop over the bits.
fn plain_counts(left: &BitBufferView<'_>, right: &BitBufferView<'_>) -> Counts {
    let (mut both, mut first, mut second) = (0usize, 0usize, 0usize);
    for i in 0..left.len().min(right.len()) {
        match (left.value(i), right.value(i)) {
            (true, true) => both = both.saturating_add(1),
            (true, false) => first = first.saturating_add(1),
            (false, true) => second = second.saturating_add(1),
            (false, false) => {},
        }
    }
    let apart = first.saturating_add(second);
    (
        Ok(both),
        Ok(both.saturating_add(apart)),
        Ok(apart),
        Ok(first),
    )
}

/// Views that begin at these bits and have this length.
fn is_plain(rt: &impl Abort, left: &[u8], right: &[u8], case: (usize, usize, usize)) {
    let (l, r, len) = case;
    let (one, other) = (&view(rt, left, l, len), &view(rt, right, r, len));
    let (disjoint, within) = plain(one, other);
    equal_at(rt, one.is_disjoint(other), Ok(disjoint), case);
    equal_at(rt, one.is_subset(other), Ok(within), case);
    equal_at(rt, counts(one, other), plain_counts(one, other), case);
}

/// Right bits of each kind, and with one of them flipped: the first, one in the middle, the last.
fn each_is_plain(rt: &impl Abort, left: &[u8], noise: &[u8], (l, r, len): (usize, usize, usize)) {
    let mut bytes = [0; 600];
    let bytes = &mut bytes[..noise.len().min(600)];
    for right in RIGHTS {
        bytes.copy_from_slice(&noise[..bytes.len()]);
        write(bytes, r, &view(rt, left, l, len), right);
        is_plain(rt, left, bytes, (l, r, len));
        for place in [0, len / 2, len.saturating_sub(1)] {
            turn(bytes, r.saturating_add(place));
            is_plain(rt, left, bytes, (l, r, len));
            turn(bytes, r.saturating_add(place));
        }
    }
}

/// Each length at eight pairs of offsets within a byte; all lengths together cover each pair.
#[test]
fn relations_of_short_views_are_plain(rt: HostRuntime) {
    let (mut left, mut noise) = ([0; 27], [0; 28]);
    mix(&mut left);
    mix(&mut noise);
    for len in 0..=200usize {
        for l in 0..8 {
            each_is_plain(&rt, &left, &noise[1..], (l, len.wrapping_add(l) % 8, len));
        }
    }
}

/// Where two views begin, and how long they are.
const LONG: [(usize, usize, usize); 6] = [
    (0, 0, 511),
    (0, 0, 512),
    (3, 5, 513),
    (7, 1, 1031),
    (13, 64, 4096),
    (5, 5, 4700),
];

#[test]
fn relations_of_long_views_are_plain(rt: HostRuntime) {
    let (mut left, mut noise) = ([0; 600], [0; 601]);
    mix(&mut left);
    mix(&mut noise);
    for case in LONG {
        each_is_plain(&rt, &left, &noise[1..], case);
    }
}

/// Lengths of two views that differ.
const LENGTHS: [(usize, usize); 6] = [(0, 1), (1, 0), (63, 64), (65, 64), (5, 69), (200, 199)];

#[test]
fn views_of_two_lengths_are_refused(rt: HostRuntime) {
    let bytes = &[0x5A; 26];
    for (left, right) in LENGTHS {
        let (one, other) = (&view(&rt, bytes, 3, left), &view(&rt, bytes, 5, right));
        let refused = Err(BufferError::LengthMismatch { left, right });
        equal(&rt, one.is_disjoint(other), refused);
        equal(&rt, one.is_subset(other), refused);
        let refused = Err(BufferError::LengthMismatch { left, right });
        equal(
            &rt,
            counts(one, other),
            (refused, refused, refused, refused),
        );
    }
}
