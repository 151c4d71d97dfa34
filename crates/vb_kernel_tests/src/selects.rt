//! Selects, by every rank.
use crate::compared::{equal, equal_at, holds};
use crate::plain;
use crate::sample::mix;
use std::process::Abort;
use vb_kernel::{
    Tally, bit_select, bit_select_by, bit_select_unset, bit_select_unset_by, bit_select_unset_wide,
    bit_select_wide, count_ones_by, window_fits,
};

fn selects_are_plain(rt: &impl Abort, bytes: &[u8], offset: usize, len: usize) {
    holds(rt, window_fits(bytes, offset, len));
    for n in 0..=len {
        let set = bit_select(bytes, offset, len, n);
        let wanted = plain::bit_select(bytes, offset, len, n);
        equal_at(rt, set, wanted, (offset, len, n));
        let unset = bit_select_unset(bytes, offset, len, n);
        let wanted = plain::bit_select_unset(bytes, offset, len, n);
        equal_at(rt, unset, wanted, (offset, len, n));
    }
}

/// Where windows begin, and how long they are.
const WINDOWS: [(usize, usize); 15] = [
    (0, 128),
    (3, 100),
    (7, 50),
    (1, 7),
    (5, 5),
    (0, 1),
    (0, 64),
    (1, 64),
    (0, 65),
    (3, 256),
    (0, 512),
    (0, 513),
    (5, 1024),
    (0, 4096),
    (3, 5500),
];

#[test]
fn selects_are_those_of_a_loop(rt: HostRuntime) {
    let mut bytes = [0; 700];
    mix(&mut bytes);
    for (offset, len) in WINDOWS {
        selects_are_plain(&rt, &bytes, offset, len);
    }
}

/// A window of more than 64 chunks, whose bits the wide selects count with adders.
#[test]
fn wide_selects_are_those_by_words(rt: HostRuntime) {
    let mut bytes = [0; 8200];
    mix(&mut bytes);
    holds(&rt, window_fits(&bytes, 3, 65_537));
    for n in [0, 16_000, 32_000, 65_537] {
        let set = bit_select_wide(&bytes, 3, 65_537, n);
        equal_at(&rt, set, bit_select(&bytes, 3, 65_537, n), n);
        let unset = bit_select_unset_wide(&bytes, 3, 65_537, n);
        equal_at(&rt, unset, bit_select_unset(&bytes, 3, 65_537, n), n);
    }
}

#[test]
fn selects_of_one_byte_end_behind_its_last_true_bit(rt: HostRuntime) {
    let bytes = &[0b0001_0100];
    equal(&rt, bit_select(bytes, 0, 8, 0), Some(2));
    equal(&rt, bit_select(bytes, 0, 8, 1), Some(4));
    equal(&rt, bit_select(bytes, 0, 8, 2), None);
}

#[test]
fn false_bits_end_with_the_window(rt: HostRuntime) {
    let bytes = &[0, 0, 0];
    for n in 0..7 {
        equal(&rt, bit_select_unset(bytes, 3, 7, n), Some(n));
    }
    equal(&rt, bit_select_unset(bytes, 3, 7, 7), None);
}

#[test]
fn a_true_bit_behind_a_chunk_is_found(rt: HostRuntime) {
    let bytes = &[0xFF; 65];
    equal(&rt, bit_select(bytes, 0, 513, 512), Some(512));
    equal(&rt, bit_select(bytes, 0, 513, 513), None);
    equal(&rt, count_ones_by(&mut Tally::new(bytes), 0, 513), 513);
}

/// Ranks, and the number of looks of a select among 260 true or 260 false bits.
const LOOKS: [(usize, u64); 6] = [(0, 1), (255, 1), (256, 2), (259, 2), (260, 2), (1000, 2)];

#[test]
fn selects_look_no_further_than_the_bit(rt: HostRuntime) {
    let rt = &rt;
    let bytes = &[0xF0; 65];
    for (n, looks) in LOOKS {
        let src = &mut Tally::new(bytes);
        equal_at(rt, bit_select_by(src, 0, 520, n).is_some(), n < 260, n);
        equal_at(rt, src.looks(), looks, n);
        let src = &mut Tally::new(bytes);
        equal_at(
            rt,
            bit_select_unset_by(src, 0, 520, n).is_some(),
            n < 260,
            n,
        );
        equal_at(rt, src.looks(), looks, n);
    }
}
