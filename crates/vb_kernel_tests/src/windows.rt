//! Windows of many offsets and lengths: the result of each call compared with a loop over bits.
use crate::compared::{equal_at, holds};
use crate::sample::{mix, stretch};
use crate::walks::{bits_are_plain, ends_are_plain, places_are_plain, runs_are_plain};
use crate::words::{chunks_are_plain, unaligned_is_plain};
use std::process::Abort;
use vb_bits::window_fits;
use vb_select::last_set_index;
use vb_view::BitBufferView;
use vb_walk::{BitIndexIterator, BitIterator, BitSliceIterator};

fn window_is_plain(rt: &impl Abort, bytes: &[u8], offset: usize, len: usize) {
    holds(rt, window_fits(bytes, offset, len));
    let view = &BitBufferView::new_with_offset(bytes, len, offset);
    bits_are_plain(rt, view, BitIterator::new(bytes, offset, len));
    ends_are_plain(rt, view, BitIterator::new(bytes, offset, len));
    runs_are_plain(rt, view, BitSliceIterator::new(bytes, offset, len));
    let last = places_are_plain(rt, view, BitIndexIterator::new(bytes, offset, len));
    equal_at(rt, last_set_index(bytes, offset, len), last, (offset, len));
    chunks_are_plain(rt, view);
    unaligned_is_plain(rt, view);
}

/// Lengths of the windows that begin at each bit up to bit 30.
const SHORT: [usize; 21] = [
    0, 1, 2, 7, 8, 9, 15, 16, 17, 31, 32, 33, 63, 64, 65, 127, 128, 255, 256, 257, 513,
];

/// Where longer windows begin, and how long they are.
const LONG: [(usize, usize); 9] = [
    (9, 700),
    (0, 1024),
    (5, 1024),
    (0, 4096),
    (5, 4096),
    (0, 4097),
    (5, 4097),
    (0, 65537),
    (5, 65537),
];

fn windows_are_plain(rt: &impl Abort, bytes: &[u8]) {
    for offset in 0..=30 {
        for len in SHORT {
            window_is_plain(rt, bytes, offset, len);
        }
    }
    for (offset, len) in LONG {
        window_is_plain(rt, bytes, offset, len);
    }
}

/// Bytes without a pattern, and the same with stretches.
#[test]
fn walks_of_mixed_bytes_are_those_of_a_loop(rt: HostRuntime) {
    for len in [0, 1, 3, 20, 90] {
        let mut bytes = [0; 8200];
        mix(&mut bytes);
        stretch(&mut bytes, len);
        windows_are_plain(&rt, &bytes);
    }
}

/// One byte differs from the others, which are all 0 or all ones. It is in each of the words that
/// are skipped four at a time, and in the rest.
#[test]
fn a_byte_that_differs_is_found_in_each_word(rt: HostRuntime) {
    for equal in [0, u8::MAX] {
        for place in 0..120 {
            let mut bytes = [equal; 120];
            bytes[place] ^= 0x18;
            window_is_plain(&rt, &bytes, 0, 960);
            window_is_plain(&rt, &bytes, 3, 940);
        }
    }
}
