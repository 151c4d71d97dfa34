//! Sums, the least and the greatest of values that a mask keeps, compared with a plain loop.
use crate::compared::holds;
use crate::plain_loop::{LONG, first};
use crate::terms::Term;
use crate::values::values;
use std::alloc::Global;
use std::process::Abort;
use vb_aggregate::{masked_checked_sum, masked_max, masked_min, masked_sum, masked_wrapping_sum};
use vb_bits::{get_bit, window_fits};
use vb_view::BitBufferView;

/// The number of bytes that hold the longest window at any offset.
const ROOM: usize = 150;

/// What a loop finds.
#[derive(Drop)]
struct Found<T> {
    sum: i128,
    least: Option<T>,
    greatest: Option<T>,
}

/// Visits the values that the mask selects, one after the other. The mask begins at bit `offset`.
fn found_by_loop<T: Term>(values: &[T], mask: &[u8], offset: usize) -> Found<T> {
    let mut found: Found<T> = Found {
        sum: 0,
        least: None,
        greatest: None,
    };
    for (k, value) in values.iter().enumerate() {
        let place = offset.saturating_add(k);
        if place / 8 >= mask.len() || !get_bit(mask, place) {
            continue;
        }
        found.sum = found.sum.wrapping_add(value.number());
        found.least = match found.least {
            Some(least) => Some(least.min(*value)),
            None => Some(*value),
        };
        found.greatest = match found.greatest {
            Some(greatest) => Some(greatest.max(*value)),
            None => Some(*value),
        };
    }
    found
}

/// The value whose bits are the lowest ones of the number; None if the type has more than 16 bytes.
fn wrapped<T: Term>(number: i128) -> Option<T> {
    let bytes = number.to_le_bytes();
    if T::SIZE > 16 {
        return None;
    }
    Some(T::get(&bytes[..T::SIZE]))
}

/// The value that equals the number; None if no value of the type does.
fn checked<T: Term>(number: i128) -> Option<T> {
    wrapped::<T>(number).filter(|value| value.number() == number)
}

/// All calls for one window of the mask.
fn at_offset<T: Term>(rt: &impl Abort, values: &[T], mask: &[u8], offset: usize) {
    let found = found_by_loop(values, mask, offset);
    holds(rt, window_fits(mask, offset, values.len()));
    let view = BitBufferView::new_with_offset(mask, values.len(), offset);
    let sum = T::sum(masked_sum(values, view));
    assert!(rt; sum == Some(found.sum));
    assert!(rt; Some(masked_wrapping_sum(values, view)) == wrapped(found.sum));
    assert!(rt; masked_checked_sum(values, view) == checked(found.sum));
    assert!(rt; masked_min(values, view) == found.least);
    assert!(rt; masked_max(values, view) == found.greatest);
}

/// Byte `k` of a mask of some kind: none, all, every second one, few, all but few, every second
/// word, or any.
fn byte(kind: usize, k: usize) -> u8 {
    match kind {
        0 => 0,
        1 => 0xFF,
        2 => 0x55,
        3 => if k % 17 == 16 { 0x20 } else { 0 },
        4 => if k % 13 == 12 { 0xF7 } else { 0xFF },
        5 => if k / 8 % 2 == 0 { 0xFF } else { 0 },
        _ => ((k % 256) as u8).wrapping_mul(151).wrapping_add(77) ^ (k / 8 % 32) as u8,
    }
}

/// All lengths below 201, at offsets from 0 to 8 in turn and at 0, and some long ones, for each
/// kind of mask.
fn beside_a_loop<T: Term>(rt: &impl Abort, alloc: Global) {
    let all = values::<T>(rt, alloc, 1027, 1);
    for kind in 0..7 {
        let mut mask = [0u8; ROOM];
        for k in 0..ROOM {
            mask[k] = byte(kind, k);
        }
        for len in 0..=200usize {
            at_offset(rt, first(&all, len), &mask, len % 9);
            at_offset(rt, first(&all, len), &mask, 0);
        }
        for len in LONG {
            at_offset(rt, first(&all, len), &mask, len % 10);
        }
    }
    drop(all);
}

#[test]
fn unsigned_values_are_summed_as_in_a_loop(rt: HostRuntime) {
    beside_a_loop::<u8>(&rt, rt.alloc());
    beside_a_loop::<u16>(&rt, rt.alloc());
    beside_a_loop::<u32>(&rt, rt.alloc());
    beside_a_loop::<u64>(&rt, rt.alloc());
    beside_a_loop::<usize>(&rt, rt.alloc());
}

#[test]
fn signed_values_are_summed_as_in_a_loop(rt: HostRuntime) {
    beside_a_loop::<i8>(&rt, rt.alloc());
    beside_a_loop::<i16>(&rt, rt.alloc());
    beside_a_loop::<i32>(&rt, rt.alloc());
    beside_a_loop::<i64>(&rt, rt.alloc());
    beside_a_loop::<isize>(&rt, rt.alloc());
}
