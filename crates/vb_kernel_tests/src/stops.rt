//! The looks of searches that stop at what they find, compared with a plain loop.
use crate::compared::{equal, equal_at, holds};
use crate::looks::looks_at;
use crate::plain::{next_match, previous_match};
use std::process::Abort;
use vb_kernel::{
    Tally, all_set_by, any_set_by, is_disjoint, is_disjoint_by, is_subset, is_subset_by,
    last_set_index_by, next_set_by, next_unset_by, previous_set_by, previous_unset_by, window_fits,
};

/// A window: its bytes, the bit at which it begins, and how many bits it has.
type Window<'a> = (&'a [u8], usize, usize);

/// The number of bits that a search reads, part by part, of `len` bits from bit `at` on: those up
/// to the end of the part that contains `place`, or all if `place` is None.
fn bits_read(at: usize, len: usize, place: Option<usize>) -> usize {
    let head = len.min((8 - at % 8) % 8);
    let Some(place) = place else {
        return len;
    };
    if place < head {
        return head;
    }
    let (behind, rest) = (place - head, len.saturating_sub(head));
    for part in [512, 64, 8] {
        if behind < rest / part * part {
            return head.saturating_add((behind / part).saturating_add(1).saturating_mul(part));
        }
    }
    len
}

/// How many looks a search takes from bit `at` on, towards the end: one for each part up to the one
/// that has its result, and none after it.
fn looks_to(at: usize, len: usize, place: Option<usize>) -> u64 {
    looks_at(at, at, bits_read(at, len, place))
}

/// The number of looks of a search from the end of the window to its front: that of a search in the
/// mirrored window.
fn looks_back(offset: usize, len: usize, place: Option<usize>) -> u64 {
    let at = (8 - offset.saturating_add(len) % 8) % 8;
    let place = place.map(|place| len.saturating_sub(place).saturating_sub(1));
    looks_to(at, len, place)
}

/// A search from index `from` to the back.
fn next_is_exact(rt: &impl Abort, (bytes, offset, len): Window<'_>, from: usize, value: bool) {
    holds(rt, window_fits(bytes, offset, len));
    let src = &mut Tally::new(bytes);
    let found = if value {
        next_set_by(src, offset, len, from)
    } else {
        next_unset_by(src, offset, len, from)
    };
    let wanted = next_match(bytes, offset, len, from, value);
    let (at, left) = (offset.saturating_add(from), len.saturating_sub(from));
    let looks = looks_to(at, left, wanted.map(|place| place.saturating_sub(from)));
    equal_at(
        rt,
        (found, src.looks()),
        (wanted, looks),
        (offset, len, from),
    );
}

/// A search from index `before` to the front.
fn previous_is_exact(
    rt: &impl Abort,
    (bytes, offset, len): Window<'_>,
    before: usize,
    value: bool,
) {
    holds(rt, window_fits(bytes, offset, len));
    let src = &mut Tally::new(bytes);
    let found = if value {
        previous_set_by(src, offset, len, before)
    } else {
        previous_unset_by(src, offset, len, before)
    };
    let wanted = previous_match(bytes, offset, len, before, value);
    let looks = looks_back(offset, len.min(before), wanted);
    equal_at(
        rt,
        (found, src.looks()),
        (wanted, looks),
        (offset, len, before),
    );
}

/// The searches of the whole window.
fn whole_is_exact(rt: &impl Abort, (bytes, offset, len): Window<'_>) {
    holds(rt, window_fits(bytes, offset, len));
    let (any, all, last) = (
        &mut Tally::new(bytes),
        &mut Tally::new(bytes),
        &mut Tally::new(bytes),
    );
    let found = (
        any_set_by(any, offset, len),
        all_set_by(all, offset, len),
        last_set_index_by(last, offset, len),
    );
    let set = next_match(bytes, offset, len, 0, true);
    let unset = next_match(bytes, offset, len, 0, false);
    let end = previous_match(bytes, offset, len, len, true);
    equal_at(
        rt,
        found,
        (set.is_some(), unset.is_none(), end),
        (offset, len),
    );
    let wanted = (
        looks_to(offset, len, set),
        looks_to(offset, len, unset),
        looks_back(offset, len, end),
    );
    let looks = (any.looks(), all.looks(), last.looks());
    equal_at(rt, looks, wanted, (offset, len));
}

/// How many bytes the windows are in.
const MOST: usize = 400;

/// How long windows are: a byte or less, a word, a chunk and one bit more or less, and several.
const LENGTHS: [usize; 12] = [0, 1, 7, 8, 63, 64, 511, 512, 513, 1000, 1607, 3100];

/// Where the one bit is that differs, in bits from the front of the bytes: in each kind of part.
const PLACES: [usize; 14] = [
    0, 5, 8, 17, 70, 200, 511, 519, 700, 1030, 1599, 1606, 2060, 3106,
];

/// Both searches from several indices, in bytes of one value except for one bit.
fn window_is_exact(rt: &impl Abort, window: Window<'_>, value: bool) {
    whole_is_exact(rt, window);
    for from in [0, 1, 6, 64, 530, window.2] {
        next_is_exact(rt, window, from, value);
        previous_is_exact(rt, window, from, value);
    }
    previous_is_exact(rt, window, usize::MAX, value);
}

/// Windows of each length from bit `offset` on.
fn lengths_are_exact(rt: &impl Abort, bytes: &[u8; MOST], offset: usize, value: bool) {
    for len in LENGTHS {
        window_is_exact(rt, (bytes, offset, len), value);
    }
}

/// Windows from each bit of a byte on.
fn offsets_are_exact(rt: &impl Abort, bytes: &[u8; MOST], value: bool) {
    for offset in 0..8 {
        lengths_are_exact(rt, bytes, offset, value);
    }
}

#[test]
fn searches_stop_at_what_they_find(rt: HostRuntime) {
    for place in PLACES {
        let bytes = &mut [0; MOST];
        bytes[place / 8] = 1 << (place % 8);
        offsets_are_exact(&rt, bytes, true);
        let bytes = &bytes.map(|byte| !byte);
        offsets_are_exact(&rt, bytes, false);
    }
}

/// Two windows of which only the bits at `place` are both true.
fn two_are_exact(rt: &impl Abort, l: usize, r: usize, len: usize, place: usize) {
    let (left, right) = (&mut [0; MOST], &mut [0; MOST]);
    let (at, beside) = (l.saturating_add(place), r.saturating_add(place));
    left[at / 8 % MOST] = 1 << (at % 8);
    right[beside / 8 % MOST] = 1 << (beside % 8);
    let place = if place < len { Some(place) } else { None };
    let end = bits_read(l, len, place);
    let looks = (looks_at(l, l, end), looks_at(r, l, end));
    disjoint_is_exact(rt, (left, l, len), (right, r), looks);
    subset_is_exact(rt, (left, l, len), (&right.map(|byte| !byte), r), looks);
}

fn disjoint_is_exact(
    rt: &impl Abort,
    (left, l, len): Window<'_>,
    (right, r): (&[u8], usize),
    looks: (u64, u64),
) {
    holds(rt, window_fits(left, l, len));
    holds(rt, window_fits(right, r, len));
    let (one, other) = (&mut Tally::new(left), &mut Tally::new(right));
    let found = is_disjoint_by(one, l, other, r, len);
    equal_at(rt, found, is_disjoint(left, l, right, r, len), (l, r, len));
    equal_at(rt, (one.looks(), other.looks()), looks, (l, r, len));
}

fn subset_is_exact(
    rt: &impl Abort,
    (left, l, len): Window<'_>,
    (right, r): (&[u8], usize),
    looks: (u64, u64),
) {
    holds(rt, window_fits(left, l, len));
    holds(rt, window_fits(right, r, len));
    let (one, other) = (&mut Tally::new(left), &mut Tally::new(right));
    let found = is_subset_by(one, l, other, r, len);
    equal_at(rt, found, is_subset(left, l, right, r, len), (l, r, len));
    equal_at(rt, (one.looks(), other.looks()), looks, (l, r, len));
}

/// The bits at each index in turn.
fn places_are_exact(rt: &impl Abort, l: usize, r: usize, len: usize) {
    for place in PLACES {
        two_are_exact(rt, l, r, len, place);
    }
}

/// Windows from these bits on, of some lengths.
fn pairs_are_exact(rt: &impl Abort, l: usize, r: usize) {
    for len in [7, 64, 513, 1607, 3100] {
        places_are_exact(rt, l, r, len);
    }
}

#[test]
fn relations_stop_at_what_they_find(rt: HostRuntime) {
    for l in 0..8 {
        for r in [0, l, (5 * l + 3) % 8] {
            pairs_are_exact(&rt, l, r);
        }
    }
}

#[test]
fn looks_of_searches_are_known(rt: HostRuntime) {
    let rt = &rt;
    let bytes = &mut [0; MOST];
    bytes[130] = 0x10;
    let src = &mut Tally::new(bytes);
    // Bit 1044 is in the third chunk, and bits from bit 3 on begin within a byte.
    equal(rt, next_set_by(src, 0, 3200, 0), Some(1044));
    equal(rt, src.looks(), 3);
    let src = &mut Tally::new(bytes);
    equal(rt, next_set_by(src, 3, 3000, 0), Some(1041));
    equal(rt, src.looks(), 4);
    // The last 2155 bits are 7 bits of a byte, four chunks, and 100 bits of a fifth one.
    let src = &mut Tally::new(bytes);
    equal(rt, last_set_index_by(src, 0, 3199), Some(1044));
    equal(rt, src.looks(), 6);
}
