//! The looks at two windows that are combined.
use crate::combined::{count_more, looks_tell, plain_counts, slice_counts};
use crate::compared::{equal_at, holds};
use crate::sample::mix;
use std::process::Abort;
use vb_kernel::{Tally, and_count_by, count_ones_by, get_bit, most_looks, window_fits};

/// Reads of a window part by part, none of a byte that was read before.
#[derive(Drop)]
struct Reads {
    /// The bit behind the parts so far.
    at: usize,
    /// The bit behind the bytes that were read.
    end: usize,
    looks: u64,
}

impl Reads {
    /// Reads the byte of bit `at`, if the window has that bit and doesn't begin with the byte.
    fn from(at: usize, len: usize) -> Reads {
        let is_inside = 0 < len && 0 < at % 8;
        Reads {
            at,
            end: if is_inside {
                at.div_ceil(8).saturating_mul(8)
            } else {
                at
            },
            looks: u64::from(is_inside),
        }
    }

    /// Goes over `n` parts of `bits` bits. Each part with unread bits takes one look.
    fn parts(mut self, n: usize, bits: usize) -> Reads {
        for _ in 0..n {
            self.at = self.at.saturating_add(bits);
            if self.end < self.at {
                self.end = self.at.div_ceil(8).saturating_mul(8);
                self.looks = self.looks.saturating_add(1);
            }
        }
        self
    }
}

/// The number of looks at a source whose window begins at bit `at`. The parts are those of the left
/// window, which begins at bit `l`: a head, chunks, words, bytes and a tail.
pub(crate) fn looks_at(at: usize, l: usize, len: usize) -> u64 {
    let head = len.min((8 - l % 8) % 8);
    let rest = len - head;
    Reads::from(at, len)
        .parts(1, head)
        .parts(rest / 512, 512)
        .parts(rest % 512 / 64, 64)
        .parts(rest % 64 / 8, 8)
        .parts(1, rest % 8)
        .looks
}

/// Neither window is looked at more often than the bound says, and the right one gets at most one
/// look more than the left one.
fn looks_are_few(rt: &impl Abort, l: usize, r: usize, len: usize) {
    let (left, right) = (looks_at(l, l, len), looks_at(r, l, len));
    let most = most_looks(len) as u64;
    equal_at(rt, left <= most && right <= most, true, (l, r, len));
    equal_at(rt, right <= left.saturating_add(1), true, (l, r, len));
    equal_at(rt, 512 < len || right <= 16, true, (l, r, len));
}

/// Windows from these bits on, of each length below `most`.
fn looks_are_exact(rt: &impl Abort, left: &[u8], l: usize, right: &[u8], r: usize, most: usize) {
    holds(rt, window_fits(left, l, most));
    holds(rt, window_fits(right, r, most));
    let mut wanted = [0; 4];
    for len in 0..most {
        looks_tell(rt, left, right, (l, r, len), wanted);
        looks_are_few(rt, l, r, len);
        count_more(&mut wanted, get_bit(left, l + len), get_bit(right, r + len));
    }
}

#[test]
fn looks_at_short_windows_are_exact(rt: HostRuntime) {
    let left = &mut [0; 77];
    mix(left);
    let right = &left.map(|byte| byte.rotate_left(3));
    for l in 0..8 {
        for r in 0..8 {
            looks_are_exact(&rt, left, l, right, r, 601);
        }
    }
}

/// The counts are compared with those of slices. For each offset of the left window they are also
/// compared with a plain loop, at one offset of the right window.
#[test]
fn looks_at_long_windows_are_exact(rt: HostRuntime) {
    let left = &mut [0; 12_501];
    mix(left);
    let right = &left.map(|byte| byte.rotate_left(3));
    for l in 0..8 {
        for r in 0..8 {
            holds(&rt, window_fits(left, l, 100_000));
            holds(&rt, window_fits(right, r, 100_000));
            let wanted = slice_counts(left, l, right, r, 100_000);
            looks_tell(&rt, left, right, (l, r, 100_000), wanted);
            looks_are_few(&rt, l, r, 100_000);
            if r == (5 * l + 3) % 8 {
                let plain = plain_counts(left, l, right, r, 100_000);
                equal_at(&rt, plain, wanted, (l, r, 100_000));
            }
        }
    }
}

/// Where two windows begin, how long they are, and how often each is looked at. A left window
/// without a chunk gets at most 16 looks: at a head, seven words, seven bytes and a tail. The right
/// one gets at most one more, at its first byte.
const LOOKS: [(usize, usize, usize, u64, u64); 10] = [
    (0, 0, 513, 2, 2),
    (0, 3, 513, 2, 2),
    (3, 0, 600, 6, 5),
    (3, 3, 600, 6, 6),
    (5, 7, 3, 1, 2),
    (1, 2, 0, 0, 0),
    (0, 1, 51_200, 100, 101),
    (1, 7, 518, 16, 17),
    (1, 7, 511, 15, 16),
    (9, 15, 512, 16, 16),
];

#[test]
fn looks_at_two_windows_are_known(rt: HostRuntime) {
    let (left, right) = (&[0xFF; 6_401], &[0xFF; 6_401]);
    for (l, r, len, at_left, at_right) in LOOKS {
        holds(&rt, window_fits(left, l, len));
        holds(&rt, window_fits(right, r, len));
        let (one, other) = (&mut Tally::new(left), &mut Tally::new(right));
        equal_at(&rt, and_count_by(one, l, other, r, len), len, (l, r, len));
        let looks = (one.looks(), other.looks());
        equal_at(&rt, looks, (at_left, at_right), (l, r, len));
        let alone = &mut Tally::new(left);
        equal_at(&rt, count_ones_by(alone, l, len), len, (l, r, len));
        equal_at(&rt, alone.looks(), at_left, (l, r, len));
    }
}
