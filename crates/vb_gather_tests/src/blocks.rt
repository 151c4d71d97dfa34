//! Values taken at indices in blocks of 64 positions, compared with a plain loop.
use crate::compared::{equal, equal_lists};
use crate::masks::{Kept, Row, mask};
use std::alloc::Global;
use std::fmt::Debug;
use std::process::Abort;
use vb_core::{BitIndex, Element};
use vb_take::take_values_into;
use vb_view::BitBufferView;

/// How many positions there are: blocks alone, one fewer and one more.
const LENGTHS: &[usize] = &[0, 1, 63, 64, 65, 128];

/// Which positions count: all, none, or 20 (the threshold) or more of each 64 positions.
const COUNTING: &[Kept] = &[
    Kept::OneIn(1),
    Kept::OneIn(5000),
    Kept::AllButOneIn(10),
    Kept::Runs(20, 64),
    Kept::Runs(21, 64),
    Kept::Runs(70, 90),
];

/// The plain loop over the positions: what it leaves in `out`, and the position that it refuses.
fn loop_takes<T: Element, I: BitIndex>(
    out: &mut [T],
    values: &[T],
    indices: &[I],
    row: &Row,
) -> Option<usize> {
    for k in 0..indices.len().min(out.len()) {
        let item = if row.has(k) {
            named(values, indices[k])
        } else {
            Some(T::zero())
        };
        match item {
            Some(value) => out[k] = value,
            None => return Some(k),
        }
    }
    None
}

/// The value that an index names.
fn named<T: Copy, I: BitIndex>(values: &[T], index: I) -> Option<T> {
    values.get(index.place()?).copied()
}

/// 130 copies of an item.
fn copies<T: Copy>(rt: &impl Abort, alloc: Global, item: T) -> Vec<T> {
    let mut items = Vec::new(alloc);
    for _ in 0..130 {
        items.push(item).expect(rt, "memory");
    }
    items
}

/// A take returns the same as the loop, and leaves the same in items that were `other`.
fn leaves_what_a_loop_leaves<T: Element + PartialEq + Debug, I: BitIndex>(
    rt: &impl Abort,
    alloc: Global,
    values: &[T],
    indices: &[I],
    row: &Row,
    validity: Option<BitBufferView<'_>>,
    other: T,
) {
    let mut out = copies(rt, alloc, other);
    let mut wanted = copies(rt, alloc, other);
    let fits = match validity {
        Some(valid) => valid.len() == indices.len(),
        None => true,
    };
    let refused = if fits && indices.len() <= out.len() {
        take_values_into(out.as_mut_slice(), values, indices, validity).err()
    } else {
        Some(usize::MAX)
    };
    let answer = loop_takes(wanted.as_mut_slice(), values, indices, row);
    equal(rt, refused, answer);
    equal_lists(rt, out.as_slice(), wanted.as_slice());
    drop((out, wanted));
}

/// `len` indices: the five in turn, except that the one at position `at` names no value.
fn indices<I: BitIndex>(
    rt: &impl Abort,
    alloc: Global,
    five: &[I],
    bad: I,
    len: usize,
    at: usize,
) -> Vec<I> {
    let mut indices = Vec::new(alloc);
    for k in 0..len {
        let good = five.get(k % 5).copied().unwrap_or(bad);
        let index = if k == at { bad } else { good };
        indices.push(index).expect(rt, "memory");
    }
    indices
}

/// Takes at the positions of a row: once for each position whose index names no value, and once
/// with no such index.
fn is_that_of_a_loop<T: Element + PartialEq + Debug, I: BitIndex>(
    rt: &impl Abort,
    alloc: Global,
    values: &[T],
    five: &[I],
    bad: I,
    row: &Row,
    other: T,
) {
    let mask = mask(alloc, row).expect(rt, "memory");
    for at in 0..row.0.saturating_add(1) {
        let indices = indices(rt, alloc, five, bad, row.0, at);
        let valid = Some(mask.as_view());
        leaves_what_a_loop_leaves(rt, alloc, values, indices.as_slice(), row, valid, other);
        drop(indices);
    }
    drop(mask);
}

/// The same without a validity, at `len` positions.
fn is_that_of_a_loop_over_all<T: Element + PartialEq + Debug, I: BitIndex>(
    rt: &impl Abort,
    alloc: Global,
    values: &[T],
    five: &[I],
    bad: I,
    len: usize,
    other: T,
) {
    let all = Row(len, 0, Kept::OneIn(1));
    for at in 0..len.saturating_add(1) {
        let indices = indices(rt, alloc, five, bad, len, at);
        leaves_what_a_loop_leaves(rt, alloc, values, indices.as_slice(), &all, None, other);
        drop(indices);
    }
}

/// Takes by these five indices at all kinds of positions.
fn beside_a_loop<T: Element + PartialEq + Debug, I: BitIndex>(
    rt: &impl Abort,
    alloc: Global,
    values: &[T],
    five: &[I],
    bad: I,
    other: T,
) {
    for len in LENGTHS {
        is_that_of_a_loop_over_all(rt, alloc, values, five, bad, *len, other);
        for kept in COUNTING {
            let row = Row(*len, 3, *kept);
            is_that_of_a_loop(rt, alloc, values, five, bad, &row, other);
        }
    }
}

#[test]
fn bytes_at_indices_of_a_byte_are_those_of_a_loop(rt: HostRuntime) {
    beside_a_loop(
        &rt,
        rt.alloc(),
        &[3u8, 1, 4, 1, 5],
        &[4u8, 0, 3, 1, 2],
        5,
        7,
    );
}

#[test]
fn an_index_below_0_is_refused(rt: HostRuntime) {
    let five = &[4i64, 0, 3, 1, 2];
    beside_a_loop(&rt, rt.alloc(), &[3u32, 1, 4, 1, 5], five, -1, 7);
    beside_a_loop(&rt, rt.alloc(), &[3u64, 1, 4, 1, 5], five, i64::MIN, 7);
    let five = &[4i8, 0, 3, 1, 2];
    beside_a_loop(&rt, rt.alloc(), &[3u16, 1, 4, 1, 5], five, -1, 7);
}

#[test]
fn an_index_past_all_places_is_refused(rt: HostRuntime) {
    let five = &[4u128, 0, 3, 1, 2];
    let bad = 18_446_744_073_709_551_616;
    beside_a_loop(&rt, rt.alloc(), &[3u32, 1, 4, 1, 5], five, bad, 7);
    let five = &[4i128, 0, 3, 1, 2];
    let bad = 18_446_744_073_709_551_617;
    beside_a_loop(&rt, rt.alloc(), &[3i64, 1, -4, 1, 5], five, bad, 7);
}

#[test]
fn values_of_sixteen_bytes_are_those_of_a_loop(rt: HostRuntime) {
    let values = &[3u128, u128::MAX, 4, 1, 5];
    beside_a_loop(&rt, rt.alloc(), values, &[4u32, 0, 3, 1, 2], 5, 7);
    beside_a_loop(&rt, rt.alloc(), values, &[4u64, 0, 3, 1, 2], u64::MAX, 7);
}

#[test]
fn no_values_are_enough_where_none_counts(rt: HostRuntime) {
    let five = &[0u32; 5];
    beside_a_loop(&rt, rt.alloc(), &[0u64; 0], five, 1, 7);
}
