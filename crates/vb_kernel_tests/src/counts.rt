//! Counts, and the looks that they take.
use crate::compared::{equal, equal_at, holds};
use crate::plain;
use crate::sample::mix;
use std::process::Abort;
use vb_kernel::{Tally, count_ones, count_ones_by, count_ones_wide, most_looks, window_fits};

fn count_is_plain(rt: &impl Abort, bytes: &[u8], offset: usize, len: usize) {
    holds(rt, window_fits(bytes, offset, len));
    let ones = count_ones(bytes, offset, len);
    let wanted = plain::count_ones(bytes, offset, len);
    equal_at(rt, ones, wanted, (offset, len));
    let wide = count_ones_wide(bytes, offset, len);
    equal_at(rt, wide, wanted, (offset, len));
    let src = &mut Tally::new(bytes);
    let counted = count_ones_by(src, offset, len);
    equal_at(rt, counted, ones, (offset, len));
    let is_within = src.looks() <= most_looks(len) as u64;
    equal_at(rt, is_within, true, (offset, len));
}

/// Lengths of the windows that begin at each bit up to bit 30.
const SHORT: [usize; 21] = [
    0, 1, 2, 7, 8, 9, 15, 16, 17, 31, 32, 33, 63, 64, 65, 127, 128, 255, 256, 257, 513,
];

/// Where longer windows begin, and how long they are.
const LONG: [(usize, usize); 8] = [
    (0, 1024),
    (5, 1024),
    (0, 4096),
    (5, 4096),
    (0, 4097),
    (5, 4097),
    (0, 65537),
    (5, 65537),
];

#[test]
fn counts_are_plain(rt: HostRuntime) {
    let mut bytes = [0; 8200];
    mix(&mut bytes);
    for offset in 0..=30 {
        for len in SHORT {
            count_is_plain(&rt, &bytes, offset, len);
        }
    }
    for (offset, len) in LONG {
        count_is_plain(&rt, &bytes, offset, len);
    }
}

/// From 8 MiB on, each turn counts four chunks of each of four quarters.
#[test]
fn counts_past_the_caches_are_plain(rt: HostRuntime) {
    let mut bytes = Vec::from_elem(rt.alloc(), 0, 8 * 1024 * 1024 + 700).expect(&rt, "memory");
    mix(&mut bytes);
    count_is_plain(&rt, &bytes, 0, 67_108_864);
    count_is_plain(&rt, &bytes, 3, 67_114_000);
    drop(bytes);
}

/// Windows of true bits, and how often their count looks.
const LOOKS: [(usize, usize, u64); 8] = [
    (0, 513, 2),
    (3, 7, 2),
    (5, 600, 6),
    (7, 506, 16),
    (0, 8000, 20),
    (1, 512, 16),
    (0, 512, 1),
    (3, 0, 0),
];

#[test]
fn looks_of_counts_are_exact(rt: HostRuntime) {
    let bytes = &[0xFF; 1001];
    for (offset, len, looks) in LOOKS {
        holds(&rt, window_fits(bytes, offset, len));
        let src = &mut Tally::new(bytes);
        let counted = count_ones_by(src, offset, len);
        equal_at(&rt, counted, len, (offset, len));
        equal_at(&rt, src.looks(), looks, (offset, len));
    }
    equal(&rt, most_looks(506), 16);
    equal(&rt, most_looks(8000), 31);
}

/// A window of a chunk and one bit more, and a window of seven bits, of which five are true.
#[test]
fn bits_behind_the_window_count_in_none(rt: HostRuntime) {
    let src = &mut Tally::new(&[0xFF; 65]);
    equal(&rt, count_ones_by(src, 0, 513), 513);
    equal(&rt, src.looks(), 2);
    equal(&rt, count_ones(&[0x76], 0, 7), 5);
}
