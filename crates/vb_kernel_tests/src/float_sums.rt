//! Sums, the least and the greatest of floats that a mask keeps, compared with a plain loop over
//! their bits, and in worked rows.
use crate::compared::{equal, holds};
use crate::float_values::{ByBits, bits_of, rank};
use crate::plain_loop::{LONG, first};
use std::alloc::Global;
use std::process::Abort;
use vb_aggregate::{FloatSummand, masked_float_max, masked_float_min, masked_float_sum};
use vb_bits::{get_bit, window_fits};
use vb_view::BitBufferView;

/// The number of bytes that hold the longest window at any offset.
const ROOM: usize = 150;

/// A float that a loop can sum.
trait Term: ByBits + FloatSummand {
    /// The bits of 1.0.
    const ONE: u64;

    /// The number of digits after the leading one.
    const DIGITS: u32;

    /// The sum of both.
    fn added(self, other: Self) -> Self;

    /// The bits, None for a NaN.
    fn bits(self) -> Option<u64>;
}

impl Term for f32 {
    const ONE: u64 = 0x3F80_0000;

    const DIGITS: u32 = 23;

    fn added(self, other: f32) -> f32 {
        self + other
    }

    fn bits(self) -> Option<u64> {
        if self.is_nan() {
            return None;
        }
        Some(u64::from(self.to_bits()))
    }
}

impl Term for f64 {
    const ONE: u64 = 0x3FF0_0000_0000_0000;

    const DIGITS: u32 = 52;

    fn added(self, other: f64) -> f64 {
        self + other
    }

    fn bits(self) -> Option<u64> {
        if self.is_nan() {
            return None;
        }
        Some(self.to_bits())
    }
}

/// The rank of a number among all numbers, with -0.0 below 0.0. None for a NaN.
fn order<T: Term>(bits: u64) -> Option<i128> {
    let rank = rank::<T>(bits)?;
    Some(if bits >= T::SIGN {
        rank.wrapping_sub(1)
    } else {
        rank
    })
}

/// The same of a float.
fn order_of<T: Term>(float: Option<T>) -> Option<i128> {
    order::<T>(float?.bits()?)
}

/// What a loop finds, the sum by its bits.
#[derive(Clone, Copy, Debug, PartialEq)]
struct Found {
    sum: Option<u64>,
    least: Option<i128>,
    greatest: Option<i128>,
}

/// One float after the other.
fn found_by_loop<T: Term>(
    floats: &[T],
    orders: &[Option<i128>],
    bytes: &[u8],
    offset: usize,
) -> Found {
    let mut sum = T::of_bits(0);
    let mut found = Found {
        sum: None,
        least: None,
        greatest: None,
    };
    for (k, (float, order)) in floats.iter().zip(orders).enumerate() {
        let place = offset.saturating_add(k);
        if place / 8 >= bytes.len() || !get_bit(bytes, place) {
            continue;
        }
        sum = sum.added(*float);
        let Some(order) = *order else {
            continue;
        };
        found.least = Some(found.least.map_or(order, |least| least.min(order)));
        found.greatest = Some(found.greatest.map_or(order, |greatest| greatest.max(order)));
    }
    found.sum = sum.bits();
    found
}

/// The three calls for one window of the mask.
fn at_offset<T: Term>(
    rt: &impl Abort,
    floats: &[T],
    orders: &[Option<i128>],
    bytes: &[u8],
    offset: usize,
) {
    holds(rt, window_fits(bytes, offset, floats.len()));
    let mask = BitBufferView::new_with_offset(bytes, floats.len(), offset);
    let found = Found {
        sum: masked_float_sum(floats, mask).bits(),
        least: order_of(masked_float_min(floats, mask)),
        greatest: order_of(masked_float_max(floats, mask)),
    };
    equal(rt, found, found_by_loop(floats, orders, bytes, offset));
}

/// Byte `k` of a mask of some kind: none, all, every second one, few, all but few, every second
/// word, or any.
fn byte(kind: usize, k: usize) -> u8 {
    match kind {
        0 => 0,
        1 => 0xFF,
        2 => 0x55,
        3 => if k % 17 == 16 { 0x20 } else { 0 },
        4 => if k % 13 == 12 { 0xF7 } else { 0xFF },
        5 => if k / 8 % 2 == 0 { 0xFF } else { 0 },
        _ => ((k % 256) as u8).wrapping_mul(151).wrapping_add(77) ^ (k / 8 % 32) as u8,
    }
}

/// The bits of a float: one of [`ByBits::BITS`], or a number of either sign whose absolute value is
/// between 2^-8 and 2^8, so that sums are rounded.
fn some_bits<T: Term>(is_any: bool, state: u32) -> u64 {
    if is_any {
        return bits_of::<T>((state >> 20) as usize);
    }
    let digits = u64::from(state) << (T::DIGITS % 64) >> 23;
    let size = u64::from(state >> 28) << (T::DIGITS % 64);
    let sign = if state % 3 == 0 { T::SIGN } else { 0 };
    let one = T::ONE.wrapping_sub(8 << (T::DIGITS % 64));
    one.wrapping_add(size) ^ (digits % (1 << (T::DIGITS % 64))) ^ sign
}

/// All lengths below 201, at offsets from 0 to 8 in turn, and some long ones, for each kind of
/// mask.
fn beside_a_loop<T: Term>(rt: &impl Abort, alloc: Global, is_any: bool) {
    let (mut floats, mut orders) = (Vec::new(alloc), Vec::new(alloc));
    let mut state = 1u32;
    for _ in 0..1027 {
        state = state.wrapping_mul(1_664_525).wrapping_add(1_013_904_223);
        let bits = some_bits::<T>(is_any, state);
        floats.push(T::of_bits(bits)).expect(rt, "room");
        orders.push(order::<T>(bits)).expect(rt, "room");
    }
    for kind in 0..7 {
        let mut bytes = [0u8; ROOM];
        for k in 0..ROOM {
            bytes[k] = byte(kind, k);
        }
        for len in 0..=200usize {
            at_offset(
                rt,
                first(&floats, len),
                first(&orders, len),
                &bytes,
                len % 9,
            );
        }
        for len in LONG {
            at_offset(
                rt,
                first(&floats, len),
                first(&orders, len),
                &bytes,
                len % 10,
            );
        }
    }
    drop((floats, orders));
}

#[test]
fn floats_of_32_bits_are_aggregated_as_in_a_loop(rt: HostRuntime) {
    beside_a_loop::<f32>(&rt, rt.alloc(), false);
    beside_a_loop::<f32>(&rt, rt.alloc(), true);
}

#[test]
fn floats_of_64_bits_are_aggregated_as_in_a_loop(rt: HostRuntime) {
    beside_a_loop::<f64>(&rt, rt.alloc(), false);
    beside_a_loop::<f64>(&rt, rt.alloc(), true);
}

/// What the calls return for the floats that the mask selects.
fn answers(rt: &impl Abort, floats: &[f64], bytes: &[u8]) -> [Option<u64>; 3] {
    holds(rt, window_fits(bytes, 0, floats.len()));
    let mask = BitBufferView::new_with_offset(bytes, floats.len(), 0);
    let least = match masked_float_min(floats, mask) {
        Some(least) => least.bits(),
        None => None,
    };
    let greatest = match masked_float_max(floats, mask) {
        Some(greatest) => greatest.bits(),
        None => None,
    };
    [masked_float_sum(floats, mask).bits(), least, greatest]
}

#[test]
fn the_least_and_the_greatest_are_numbers_and_zeros_have_an_order(rt: HostRuntime) {
    let nan = f64::NAN;
    let minus = Some(0x8000_0000_0000_0000);
    let found = answers(&rt, &[0.0, nan, -0.0, 1.0], &[0b0111]);
    equal(&rt, found, [None, minus, Some(0)]);
    equal(&rt, answers(&rt, &[-0.0], &[1]), [Some(0), minus, minus]);
    equal(&rt, answers(&rt, &[nan, nan, 1.0], &[0b011]), [None; 3]);
    equal(&rt, answers(&rt, &[1.0, nan], &[0]), [Some(0), None, None]);
    equal(&rt, answers(&rt, &[], &[]), [Some(0), None, None]);
}

#[test]
fn a_sum_is_rounded_after_each_addition(rt: HostRuntime) {
    let found = answers(&rt, &[1e16, 7.0, 1.0, -1e16], &[0b1101]);
    equal(
        &rt,
        found,
        [
            Some(0),
            Some(0xC341_C379_37E0_8000),
            Some(0x4341_C379_37E0_8000),
        ],
    );
}
