//! Bits unpacked to bytes, and values scattered by a mask, compared with a plain loop.
use crate::compared::{equal_at, holds};
use crate::plain_loop::LONG;
use crate::values::values;
use std::alloc::Global;
use std::fmt::Debug;
use std::process::Abort;
use vb_bits::{get_bit, window_fits};
use vb_core::Element;
use vb_expand::{scatter_values_into, unpack_bytes};
use vb_view::BitBufferView;

/// The number of bytes that hold the longest window at any offset.
const ROOM: usize = 150;

/// The number of items that calls write to, more than the longest window has.
const ITEMS: usize = 1030;

/// Byte `k` of bits of some kind: none, all, every second one, few, all but few, every second word,
/// or any.
fn byte(kind: usize, k: usize) -> u8 {
    match kind {
        0 => 0,
        1 => 0xFF,
        2 => 0x55,
        3 => if k % 17 == 16 { 0x20 } else { 0 },
        4 => if k % 13 == 12 { 0xF7 } else { 0xFF },
        5 => if k / 8 % 2 == 0 { 0xFF } else { 0 },
        _ => ((k % 256) as u8).wrapping_mul(151).wrapping_add(77) ^ (k / 8 % 32) as u8,
    }
}

/// The bit at index `k` of a window.
fn bit(bytes: &[u8], offset: usize, k: usize) -> bool {
    let place = offset.saturating_add(k);
    place / 8 < bytes.len() && get_bit(bytes, place)
}

/// Unpacks a window over stale bytes: byte `k` becomes bit `k`, and the bytes after them stay.
fn unpacked_at(rt: &impl Abort, bytes: &[u8], offset: usize, len: usize) {
    let mut out = [7u8; ITEMS];
    holds(rt, window_fits(bytes, offset, len));
    holds(rt, len <= out.len());
    unpack_bytes(&mut out, bytes, offset, len);
    for (k, byte) in out.iter().enumerate() {
        let wanted = if k < len {
            u8::from(bit(bytes, offset, k))
        } else {
            7
        };
        equal_at(rt, *byte, wanted, (offset, len, k));
    }
}

/// Scatters values over zeros by a mask: each true bit takes the next value.
fn scattered_at<T: Element + PartialEq + Debug>(
    rt: &impl Abort,
    items: &mut [T],
    kept: &[T],
    bytes: &[u8],
    offset: usize,
) {
    for item in items.iter_mut() {
        *item = T::zero();
    }
    holds(rt, window_fits(bytes, offset, items.len()));
    let mask = BitBufferView::new_with_offset(bytes, items.len(), offset);
    holds(rt, mask.true_count() <= kept.len());
    let count = scatter_values_into(items, kept, mask);
    let mut taken = 0usize;
    for (k, item) in items.iter().enumerate() {
        let is_set = bit(bytes, offset, k);
        let wanted = if is_set {
            kept.get(taken).copied()
        } else {
            Some(T::zero())
        };
        equal_at(rt, Some(*item), wanted, (offset, k, kept.len()));
        taken = taken.saturating_add(usize::from(is_set));
    }
    equal_at(rt, count, taken, (offset, 0, kept.len()));
}

/// The bytes of one kind.
fn bytes_of(kind: usize) -> [u8; ROOM] {
    let mut bytes = [0u8; ROOM];
    for k in 0..ROOM {
        bytes[k] = byte(kind, k);
    }
    bytes
}

/// All lengths below 201, at offsets from 0 to 8 in turn, and some long ones, for each kind of
/// mask.
fn scattered_beside_a_loop<T: Element + PartialEq + Debug>(rt: &impl Abort, alloc: Global) {
    let kept = values::<T>(rt, alloc, ITEMS, 1);
    let mut items = values::<T>(rt, alloc, ITEMS, 2);
    for kind in 0..7 {
        let bytes = bytes_of(kind);
        for len in 0..=200usize {
            let end = len.min(items.len());
            scattered_at(rt, &mut items[..end], &kept, &bytes, len % 9);
        }
        for len in LONG {
            let end = len.min(items.len());
            scattered_at(rt, &mut items[..end], &kept, &bytes, len % 10);
        }
    }
    drop((kept, items));
}

#[test]
fn values_are_scattered_as_in_a_loop(rt: HostRuntime) {
    scattered_beside_a_loop::<u8>(&rt, rt.alloc());
    scattered_beside_a_loop::<i16>(&rt, rt.alloc());
    scattered_beside_a_loop::<u32>(&rt, rt.alloc());
    scattered_beside_a_loop::<i64>(&rt, rt.alloc());
    scattered_beside_a_loop::<u128>(&rt, rt.alloc());
}

#[test]
fn bits_are_unpacked_as_in_a_loop(rt: HostRuntime) {
    for kind in 0..7 {
        let bytes = bytes_of(kind);
        for len in 0..=200usize {
            unpacked_at(&rt, &bytes, len % 9, len);
        }
        for len in LONG {
            unpacked_at(&rt, &bytes, len % 10, len);
        }
    }
}
