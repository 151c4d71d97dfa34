//! Counts and sums by group, compared with a plain loop.
use crate::compared::{equal, holds};
use crate::plain_loop::{LONG, first};
use std::alloc::Global;
use std::process::Abort;
use vb_aggregate::Summand;
use vb_bits::{get_bit, window_fits};
use vb_core::Element;
use vb_group::{group_counts, group_sums};
use vb_view::BitBufferView;

/// The number of groups.
const GROUPS: usize = 7;

/// The number of bytes that hold the longest window at any offset.
const ROOM: usize = 150;

/// The counts and the sums of the groups, and the first selected row without a group.
#[derive(Clone, Copy, Debug, PartialEq)]
struct Found {
    counts: [u64; GROUPS],
    sums: [i64; GROUPS],
    past: Option<usize>,
}

/// What counts and sums are before the calls: a count and two sums are at a limit of their type.
const BEFORE: Found = Found {
    counts: [0, 1, 2, u64::MAX, 4, 5, 6],
    sums: [0, -1, i64::MAX, 3, -4, i64::MIN, 6],
    past: None,
};

/// Whether the row is selected: a mask is given by its bytes and its first bit.
fn is_selected(mask: Option<(&[u8], usize)>, row: usize) -> bool {
    let Some((bytes, offset)) = mask else {
        return true;
    };
    let place = offset.saturating_add(row);
    place / 8 < bytes.len() && get_bit(bytes, place)
}

/// One row after the other.
fn found_by_loop<C: Summand>(codes: &[C], values: &[i32], mask: Option<(&[u8], usize)>) -> Found {
    let mut found = BEFORE;
    for (row, (code, value)) in codes.iter().zip(values).enumerate() {
        if !is_selected(mask, row) {
            continue;
        }
        let group = code.place().unwrap_or(GROUPS);
        if group >= GROUPS {
            return Found {
                past: Some(row),
                ..BEFORE
            };
        }
        found.counts[group] = found.counts[group].wrapping_add(1);
        found.sums[group] = found.sums[group].wrapping_add(i64::from(*value));
    }
    found
}

/// Both calls.
fn both_calls<C: Summand>(
    rt: &impl Abort,
    codes: &[C],
    values: &[i32],
    mask: Option<(&[u8], usize)>,
) -> Found {
    holds(rt, values.len() == codes.len());
    let view = match mask {
        Some((bytes, offset)) => {
            holds(rt, window_fits(bytes, offset, codes.len()));
            Some(BitBufferView::new_with_offset(bytes, codes.len(), offset))
        }
        None => None,
    };
    let mut found = BEFORE;
    let past = group_counts(&mut found.counts, codes, view).err();
    found.past = group_sums(&mut found.sums, codes, values, view).err();
    holds(rt, found.past == past);
    found
}

/// Byte `k` of a mask of some kind: none, all, every second one, few, all but few, every second
/// word, or any.
fn byte(kind: usize, k: usize) -> u8 {
    match kind {
        0 => 0,
        1 => 0xFF,
        2 => 0x55,
        3 => if k % 17 == 16 { 0x20 } else { 0 },
        4 => if k % 13 == 12 { 0xF7 } else { 0xFF },
        5 => if k / 8 % 2 == 0 { 0xFF } else { 0 },
        _ => ((k % 256) as u8).wrapping_mul(151).wrapping_add(77) ^ (k / 8 % 32) as u8,
    }
}

/// The code that the lowest bytes of the number represent.
fn code<C: Element>(number: u64) -> C {
    let bytes = number.to_le_bytes();
    if C::SIZE > 8 {
        return C::zero();
    }
    C::get(&bytes[..C::SIZE])
}

/// The calls for one window of each kind of mask, and without one.
fn at_offset<C: Summand>(rt: &impl Abort, codes: &[C], values: &[i32], offset: usize) {
    for kind in 0..7 {
        let mut bytes = [0u8; ROOM];
        for k in 0..ROOM {
            bytes[k] = byte(kind, k);
        }
        let mask = Some((&bytes[..], offset));
        let wanted = found_by_loop(codes, values, mask);
        equal(rt, both_calls(rt, codes, values, mask), wanted);
    }
    let wanted = found_by_loop(codes, values, None);
    equal(rt, both_calls(rt, codes, values, None), wanted);
}

/// First all codes name groups. Then the code of row 0, 63, 64 or 199 doesn't.
fn beside_a_loop<C: Summand>(rt: &impl Abort, alloc: Global) {
    let mut codes = Vec::new(alloc);
    let mut values = Vec::new(alloc);
    for row in 0..1027u32 {
        let number = u64::from(row.wrapping_mul(31) % 7);
        codes.push(code::<C>(number)).expect(rt, "room");
        values
            .push(i32::MAX.wrapping_sub_unsigned(row))
            .expect(rt, "room");
    }
    for bad in [None, Some(0), Some(63), Some(64), Some(199)] {
        let kept = bad.and_then(|row: usize| codes.get(row).copied());
        set(&mut codes, bad, code::<C>(0x8080_8080_8080_8087));
        for len in 0..=200usize {
            at_offset(rt, first(&codes, len), first(&values, len), len % 9);
        }
        for len in LONG {
            at_offset(rt, first(&codes, len), first(&values, len), len % 10);
        }
        if let Some(code) = kept {
            set(&mut codes, bad, code);
        }
    }
    drop((codes, values));
}

/// Sets the code of a row.
fn set<C: Copy>(codes: &mut [C], row: Option<usize>, code: C) {
    if let Some(place) = row.and_then(|row| codes.get_mut(row)) {
        *place = code;
    }
}

#[test]
fn unsigned_codes_are_counted_and_summed_as_in_a_loop(rt: HostRuntime) {
    beside_a_loop::<u8>(&rt, rt.alloc());
    beside_a_loop::<u16>(&rt, rt.alloc());
    beside_a_loop::<u32>(&rt, rt.alloc());
}

#[test]
fn signed_codes_are_counted_and_summed_as_in_a_loop(rt: HostRuntime) {
    beside_a_loop::<i8>(&rt, rt.alloc());
    beside_a_loop::<i16>(&rt, rt.alloc());
    beside_a_loop::<i32>(&rt, rt.alloc());
}

#[test]
fn values_of_each_width_are_summed(rt: HostRuntime) {
    let codes = [1u8, 9, 1];
    let mask = [0b0010_1000u8];
    let view = BitBufferView::new_with_offset(&mask, 3, 3);
    let mut sums = [7u64, 7];
    equal(
        &rt,
        group_sums(&mut sums, &codes, &[200u8, 1, 100], Some(view)),
        Ok(()),
    );
    equal(
        &rt,
        group_sums(&mut sums, &codes, &[u64::MAX, 1, 2], Some(view)),
        Ok(()),
    );
    equal(
        &rt,
        group_sums(&mut sums, &codes, &[5usize, 1, 2], None),
        Err(1),
    );
    equal(&rt, sums, [7, 308]);
    let mut sums = [-7i64, 7];
    equal(
        &rt,
        group_sums(&mut sums, &codes, &[-128i8, 1, 27], Some(view)),
        Ok(()),
    );
    equal(
        &rt,
        group_sums(&mut sums, &codes, &[i64::MIN, 1, i64::MIN], Some(view)),
        Ok(()),
    );
    equal(
        &rt,
        group_sums(&mut sums, &codes, &[-5isize, 1, -1], None),
        Err(1),
    );
    equal(&rt, sums, [-7, -94]);
}
