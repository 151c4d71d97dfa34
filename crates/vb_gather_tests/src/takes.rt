//! Values of buffers at indices.
use crate::compared::{equal, equal_lists, shows};
use crate::masks::{Kept, Row, mask};
use std::alloc::{Allocator, Global};
use std::process::Abort;
use vb_bit_buffer::BitBuffer;
use vb_core::{BitIndex, BufferError, Result};
use vb_gather::Take;
use vb_mem::Buffer;
use vb_take::take_values_into;
use vb_testing::{Handle, Refusing};

/// The squares that are taken from.
const SQUARES: &[u32] = &[0, 1, 4, 9, 16];

/// A take at the positions that are valid. The validity has a bit per index.
fn taken<A: Allocator + Clone, I: BitIndex>(
    values: &Buffer<u32, A>,
    indices: &[I],
    validity: Result<BitBuffer<A>>,
) -> Result<Buffer<u32, A>> {
    let validity = validity?;
    let taken = if validity.len() == indices.len() {
        values.taken(indices, Some(validity.as_view()))
    } else {
        Err(BufferError::NotAligned)
    };
    drop(validity);
    taken
}

/// A take of squares, at the positions that are valid.
fn squares<A: Allocator + Clone, I: BitIndex>(
    alloc: A,
    indices: &[I],
    valid: &[bool],
) -> Result<Buffer<u32, A>> {
    let values = Buffer::copy_from(alloc.clone()?, SQUARES)?;
    let taken = taken(&values, indices, BitBuffer::from_bools(alloc, valid));
    drop(values);
    taken
}

/// Takes the squares of 4, 0 and 4 by these indices.
fn takes<I: BitIndex>(rt: &impl Abort, alloc: Global, indices: &[I]) {
    let values = Buffer::copy_from(alloc, SQUARES).expect(rt, "memory");
    let taken = values.taken(indices, None);
    equal(rt, shows(rt, taken, &[16, 0, 16]), Ok(()));
    drop(values);
}

#[test]
fn indices_are_of_each_whole_number_type(rt: HostRuntime) {
    takes(&rt, rt.alloc(), &[4u8, 0, 4]);
    takes(&rt, rt.alloc(), &[4u16, 0, 4]);
    takes(&rt, rt.alloc(), &[4u32, 0, 4]);
    takes(&rt, rt.alloc(), &[4u64, 0, 4]);
    takes(&rt, rt.alloc(), &[4u128, 0, 4]);
    takes(&rt, rt.alloc(), &[4usize, 0, 4]);
    takes(&rt, rt.alloc(), &[4i8, 0, 4]);
    takes(&rt, rt.alloc(), &[4i16, 0, 4]);
    takes(&rt, rt.alloc(), &[4i32, 0, 4]);
    takes(&rt, rt.alloc(), &[4i64, 0, 4]);
    takes(&rt, rt.alloc(), &[4i128, 0, 4]);
    takes(&rt, rt.alloc(), &[4isize, 0, 4]);
}

#[test]
fn positions_that_are_null_give_zero(rt: HostRuntime) {
    let taken = squares(rt.alloc(), &[3i64, 99, -1, 2], &[true, false, false, true]);
    equal(&rt, shows(&rt, taken, &[9, 0, 0, 4]), Ok(()));
}

#[test]
fn the_first_valid_index_past_the_values_is_refused(rt: HostRuntime) {
    let refused = squares(rt.alloc(), &[7i8, 4, -1, 5], &[false, true, true, true]);
    let wanted = BufferError::TakeOutOfRange { position: 2 };
    equal(&rt, shows(&rt, refused, &[]), Err(wanted));
}

/// Which of 130 positions count, in two blocks of 64 and behind them.
const COUNTING: &[Row] = &[
    Row(130, 0, Kept::OneIn(1)),
    Row(130, 3, Kept::OneIn(2)),
    Row(130, 5, Kept::OneIn(64)),
    Row(130, 2, Kept::OneIn(5000)),
    Row(130, 1, Kept::AllButOneIn(64)),
];

/// A take of the values by the indices, at the positions that a row has.
fn taken_where<A: Allocator + Clone>(
    alloc: A,
    values: &[u32],
    indices: &[u64],
    row: &Row,
) -> Result<Buffer<u32, A>> {
    let values = Buffer::copy_from(alloc.clone()?, values)?;
    let taken = taken(&values, indices, mask(alloc, row));
    drop(values);
    taken
}

/// The first position from `from` on that counts.
fn first_counting(row: &Row, from: usize) -> Option<usize> {
    (from..row.0).find(|position| row.has(*position))
}

/// Takes squares at indices of which those from position `bad` on are out of range. The result is
/// that of a loop, or an error with the first of these positions that counts.
fn is_that_of_a_loop(rt: &impl Abort, alloc: Global, row: &Row, bad: usize) {
    let mut indices = [5u64; 130];
    let mut wanted = [0u32; 130];
    for k in 0..bad.min(130) {
        indices[k] = (k % 5) as u64;
        if row.has(k) {
            wanted[k] = SQUARES[k % 5];
        }
    }
    let answer = match first_counting(row, bad) {
        Some(position) => Err(BufferError::TakeOutOfRange { position }),
        None => Ok(()),
    };
    let taken = taken_where(alloc, SQUARES, &indices, row);
    equal(rt, shows(rt, taken, &wanted), answer);
}

#[test]
fn blocks_take_what_a_loop_takes(rt: HostRuntime) {
    for row in COUNTING {
        for bad in 0..131 {
            is_that_of_a_loop(&rt, rt.alloc(), row, bad);
        }
    }
}

/// A loop over all positions: writes `out`, and returns the first valid position with a bad index.
fn loop_takes(out: &mut [u32], indices: &[u64], row: &Row) -> Option<usize> {
    for k in 0..indices.len().min(out.len()) {
        let named = SQUARES.get(indices[k] as usize).copied();
        match if row.has(k) { named } else { Some(0) } {
            Some(value) => out[k] = value,
            None => return Some(k),
        }
    }
    None
}

/// A take into items that were 7. Those from the refused position on stay 7.
fn leaves_what_a_loop_leaves(rt: &impl Abort, alloc: Global, row: &Row, bad: usize) {
    let mut indices = [5u64; 130];
    for k in 0..bad.min(130) {
        indices[k] = (k % 5) as u64;
    }
    let mut out = [7u32; 140];
    let mut wanted = [7u32; 140];
    let mask = mask(alloc, row).expect(rt, "memory");
    let refused = if mask.len() == indices.len() {
        take_values_into(&mut out, SQUARES, &indices, Some(mask.as_view())).err()
    } else {
        None
    };
    drop(mask);
    equal(rt, refused, loop_takes(&mut wanted, &indices, row));
    equal_lists(rt, &out, &wanted);
}

#[test]
fn a_refused_take_leaves_what_a_loop_leaves(rt: HostRuntime) {
    for row in COUNTING {
        for bad in 0..131 {
            leaves_what_a_loop_leaves(&rt, rt.alloc(), row, bad);
        }
    }
}

#[test]
fn null_positions_need_no_value(rt: HostRuntime) {
    let taken = taken_where(rt.alloc(), &[], &[0; 130], &Row(130, 2, Kept::OneIn(5000)));
    equal(&rt, shows(&rt, taken, &[0; 130]), Ok(()));
}

#[test]
fn values_and_owners_are_one_request_each(rt: HostRuntime) {
    let heap = Refusing::new(rt.alloc(), 0);
    let values = Buffer::copy_from(&heap, SQUARES).expect(&rt, "memory");
    heap.refuse(0);
    let taken = values.taken(&[1u16, 4], None);
    let answer = shows(&rt, taken, &[1, 16]);
    equal(&rt, (answer, heap.asked()), (Ok(()), 2));
    drop(values);
}

#[test]
fn each_request_is_refused(rt: HostRuntime) {
    let heap = Refusing::new(rt.alloc(), 0);
    let refused = Err(BufferError::OutOfMemory);
    for _ in heap.in_turn() {
        let taken = squares(Handle { inner: &heap }, &[1usize, 9], &[true, false]);
        let answer = shows(&rt, taken, &[1, 0]);
        equal(&rt, answer, heap.wanted(Ok(()), refused));
    }
    equal(&rt, (heap.has_refused(), heap.asked()), (false, 14));
}
