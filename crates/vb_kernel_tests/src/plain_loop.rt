//! Comparisons of whole numbers, compared with a plain loop.
use crate::values::{value, values};
use crate::written::{ALL, Pairs, ROOM, STALE, are_written, holds};
use std::alloc::Global;
use std::process::Abort;
use vb_bits::window_fits;
use vb_compare::{CompareLanes, Comparison, compare_into, compare_with_into};

/// Lengths above 200.
pub(crate) const LONG: [usize; 4] = [256, 511, 1000, 1027];

/// The result of the operator.
fn answer<T: Ord>(left: &T, op: Comparison, right: &T) -> bool {
    match op {
        Comparison::Equal => left == right,
        Comparison::NotEqual => left != right,
        Comparison::Less => left < right,
        Comparison::LessOrEqual => left <= right,
        Comparison::Greater => left > right,
        Comparison::GreaterOrEqual => left >= right,
    }
}

/// Values and others, and how they are compared.
#[derive(Drop)]
struct Values<'a, T> {
    left: &'a [T],
    op: Comparison,
    right: &'a [T],
}

impl<T: Ord> Pairs for Values<'_, T> {
    fn answer(&self, k: usize) -> Option<bool> {
        Some(answer(self.left.get(k)?, self.op, self.right.get(k)?))
    }
}

/// Compares the values with the others, and with one number.
fn at_offset<T: CompareLanes + Ord>(
    rt: &impl Abort,
    alloc: Global,
    left: &[T],
    right: &[T],
    offset: usize,
    number: T,
) {
    let mut same = Vec::new(alloc);
    for _ in left {
        same.push(number).expect(rt, "room");
    }
    for op in ALL {
        let mut out = [STALE; ROOM];
        holds(rt, window_fits(&out, offset, left.len()));
        compare_into(&mut out, offset, left, op, number);
        let pairs = Values {
            left,
            op,
            right: &same,
        };
        are_written(rt, &out, (offset, left.len()), &pairs);
        let mut out = [STALE; ROOM];
        holds(rt, window_fits(&out, offset, left.len()));
        holds(rt, left.len() == right.len());
        compare_with_into(&mut out, offset, left, op, right);
        are_written(rt, &out, (offset, left.len()), &Values { left, op, right });
    }
    drop(same);
}

pub(crate) fn first<T>(items: &[T], count: usize) -> &[T] {
    &items[..count.min(items.len())]
}

/// All lengths below 201 at each offset within a byte, and some long ones.
fn beside_a_loop<T: CompareLanes + Ord>(rt: &impl Abort, alloc: Global) {
    let left = values::<T>(rt, alloc, 1027, 1);
    let right = values::<T>(rt, alloc, 1027, 2);
    for len in 0..=200usize {
        let (a, b) = (first(&left, len), first(&right, len));
        for offset in 0..9 {
            at_offset(rt, alloc, a, b, offset, value((len + offset) % 7, 77));
        }
    }
    for len in LONG {
        let (a, b) = (first(&left, len), first(&right, len));
        at_offset(rt, alloc, a, b, len % 10, value(len % 7, 11));
    }
    drop((left, right));
}

#[test]
fn unsigned_values_compare_as_in_a_loop(rt: HostRuntime) {
    beside_a_loop::<u8>(&rt, rt.alloc());
    beside_a_loop::<u16>(&rt, rt.alloc());
    beside_a_loop::<u32>(&rt, rt.alloc());
    beside_a_loop::<u64>(&rt, rt.alloc());
    beside_a_loop::<u128>(&rt, rt.alloc());
    beside_a_loop::<usize>(&rt, rt.alloc());
}

#[test]
fn signed_values_compare_as_in_a_loop(rt: HostRuntime) {
    beside_a_loop::<i8>(&rt, rt.alloc());
    beside_a_loop::<i16>(&rt, rt.alloc());
    beside_a_loop::<i32>(&rt, rt.alloc());
    beside_a_loop::<i64>(&rt, rt.alloc());
    beside_a_loop::<i128>(&rt, rt.alloc());
    beside_a_loop::<isize>(&rt, rt.alloc());
}
