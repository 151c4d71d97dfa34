//! The nearest bits from each index on, compared with plain loops.
use crate::compared::{equal, equal_at, holds};
use crate::plain::{next_match, previous_match};
use crate::sample::mix;
use std::process::Abort;
use vb_kernel::{
    all_set, any_set, fill_bits, last_set_index, next_set, next_unset, previous_set,
    previous_unset, set_bit_to, window_fits,
};

/// A window: its bytes, the bit at which it begins, and how many bits it has.
type Window<'a> = (&'a [u8], usize, usize);

/// The bits from an index on, and those before it.
fn place_is_plain(rt: &impl Abort, (bytes, offset, len): Window<'_>, place: usize) {
    holds(rt, window_fits(bytes, offset, len));
    let given = (
        next_set(bytes, offset, len, place),
        next_unset(bytes, offset, len, place),
        previous_set(bytes, offset, len, place),
        previous_unset(bytes, offset, len, place),
    );
    let wanted = (
        next_match(bytes, offset, len, place, true),
        next_match(bytes, offset, len, place, false),
        previous_match(bytes, offset, len, place, true),
        previous_match(bytes, offset, len, place, false),
    );
    equal_at(rt, given, wanted, (offset, len, place));
}

/// The whole window: its last true bit, whether any bit is true, and whether all bits are.
fn window_is_plain(rt: &impl Abort, (bytes, offset, len): Window<'_>) {
    holds(rt, window_fits(bytes, offset, len));
    let given = (
        any_set(bytes, offset, len),
        all_set(bytes, offset, len),
        last_set_index(bytes, offset, len),
    );
    let wanted = (
        next_match(bytes, offset, len, 0, true).is_some(),
        next_match(bytes, offset, len, 0, false).is_none(),
        previous_match(bytes, offset, len, len, true),
    );
    equal_at(rt, given, wanted, (offset, len));
}

/// Searches from each index of the window, from its end, and from the greatest number.
fn places_are_plain(rt: &impl Abort, window: Window<'_>) {
    window_is_plain(rt, window);
    for place in 0..=window.2 {
        place_is_plain(rt, window, place);
    }
    place_is_plain(rt, window, usize::MAX);
}

/// The most bytes of a slice: five words, and a part of one.
const MOST: usize = 44;

/// Searches the window from every index, in the fewest bytes that contain the window.
fn front_is_plain(rt: &impl Abort, bytes: &[u8; MOST], offset: usize, len: usize) {
    let end = offset.saturating_add(len).div_ceil(8).min(MOST);
    places_are_plain(rt, (&bytes[..end], offset, len));
}

/// Lengths of windows. The longest one, from bit 64 on, ends with the bytes.
const LENGTHS: [usize; 11] = [0, 1, 7, 8, 9, 63, 64, 65, 128, 200, 288];

/// Windows from this bit on.
fn windows_are_plain(rt: &impl Abort, bytes: &[u8; MOST], offset: usize) {
    for len in LENGTHS {
        front_is_plain(rt, bytes, offset, len);
        window_is_plain(rt, (bytes, offset, len));
    }
}

#[test]
fn places_in_mixed_bytes(rt: HostRuntime) {
    let mut bytes = [0; MOST];
    mix(&mut bytes);
    for offset in 0..=64 {
        windows_are_plain(&rt, &bytes, offset);
    }
}

/// One byte differs from all others. It is in a word that is read alone, in one of several words
/// that are skipped together, or after these.
#[test]
fn places_in_equal_bytes(rt: HostRuntime) {
    for equal in [0, u8::MAX] {
        for place in [0, 7, 20, 39, 43] {
            let mut bytes = [equal; MOST];
            bytes[place] ^= 0x18;
            windows_are_plain(&rt, &bytes, 0);
            windows_are_plain(&rt, &bytes, 61);
        }
    }
}

/// One byte differs among many, which are passed by eight words at once, by four, and one by one.
#[test]
fn places_behind_many_words(rt: HostRuntime) {
    for equal in [0, u8::MAX] {
        for place in 0..200 {
            let mut bytes = [equal; 200];
            bytes[place] ^= 0x24;
            for (offset, len) in [(0, 1600), (3, 1590), (61, 1539)] {
                for from in [0, 1, 700, len, usize::MAX] {
                    place_is_plain(&rt, (&bytes, offset, len), from);
                }
                window_is_plain(&rt, (&bytes, offset, len));
            }
        }
    }
}

/// Windows of up to this many bits cover all cases: fewer than eight bytes, one word, two words
/// that overlap, and words between the first and the last one.
const MOST_BITS: usize = 200;

/// The bit at `place` differs from the other bits of the window, and equals the bits outside of it.
/// The bytes are the fewest that have the window.
fn one_bit_is_plain(rt: &impl Abort, offset: usize, len: usize, place: usize) {
    holds(rt, offset < 8);
    holds(rt, len <= MOST_BITS);
    for equal in [false, true] {
        let mut bytes = [if equal { 0 } else { u8::MAX }; MOST_BITS / 8 + 1];
        fill_bits(&mut bytes, offset, offset + len, equal);
        if place < len {
            set_bit_to(&mut bytes, offset + place, !equal);
        }
        let window = (&bytes[..(offset + len).div_ceil(8)], offset, len);
        window_is_plain(rt, window);
        place_is_plain(rt, window, place);
    }
}

#[test]
fn one_bit_of_every_length(rt: HostRuntime) {
    for offset in 0..8 {
        for len in 0..=MOST_BITS {
            for place in [0, len / 2, len.saturating_sub(1), len] {
                one_bit_is_plain(&rt, offset, len, place);
            }
        }
    }
}

/// A slice that ends with the window has no byte to read behind it.
#[test]
fn places_in_one_byte(rt: HostRuntime) {
    let rt = &rt;
    let bytes = &[0b0110_1000];
    equal(rt, next_set(bytes, 1, 6, 0), Some(2));
    equal(rt, next_set(bytes, 1, 6, 3), Some(4));
    equal(rt, next_set(bytes, 1, 4, 3), None);
    equal(rt, next_unset(bytes, 1, 6, 2), Some(3));
    equal(rt, previous_set(bytes, 1, 6, 2), None);
    equal(rt, previous_set(bytes, 1, 6, 5), Some(4));
    equal(rt, previous_unset(bytes, 1, 6, 9), Some(3));
    equal(rt, any_set(bytes, 0, 3), false);
    equal(rt, all_set(bytes, 5, 2), true);
    equal(rt, any_set(bytes, 8, 0), false);
    equal(rt, all_set(bytes, 8, 0), true);
}
