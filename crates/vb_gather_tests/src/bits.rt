//! Bits of sets.
use crate::compared::equal;
use crate::filters::{filtered, filtered_by_two};
use crate::masks::{Kept, ROWS, Row, mask};
use std::alloc::Allocator;
use vb_bit_buffer::BitBuffer;
use vb_core::{BufferError, Result};
use vb_testing::{Handle, Refusing};

/// One bit per bit of a row's mask, from bit 2 of their bytes on. Every third bit of the bytes is
/// true.
pub(crate) fn bits(row: &Row) -> Row {
    Row(row.0, 2, Kept::OneIn(3))
}

/// Whether these are the bits of a row that a plain loop keeps by its mask.
fn are_plain<A: Allocator + Clone>(made: Result<BitBuffer<A>>, row: &Row) -> Result<bool> {
    let given = made?;
    let bits = bits(row);
    let places = (0..row.0).filter(|place| row.has(*place));
    let answer = given.iter().eq(places.map(|place| bits.has(place)));
    drop(given);
    Ok(answer)
}

/// Those that the mask of a row keeps.
pub(crate) fn kept_bits<A: Allocator + Clone>(alloc: A, row: &Row) -> Result<BitBuffer<A>> {
    filtered(alloc.clone()?, mask(alloc, &bits(row)), row)
}

#[test]
fn kept_bits_are_those_of_a_plain_loop_or_refused(rt: HostRuntime) {
    let heap = Refusing::new(rt.alloc(), 0);
    let refused = Err(BufferError::OutOfMemory);
    for row in ROWS {
        for _ in heap.in_turn() {
            let answer = are_plain(kept_bits(Handle { inner: &heap }, row), row);
            equal(&rt, answer, heap.wanted(Ok(true), refused));
        }
        let requests = row.requests([14, 15, 16, 19, 23]);
        equal(&rt, heap.has_ended(requests), true);
    }
}

#[test]
fn bytes_and_owners_are_one_request_each(rt: HostRuntime) {
    let heap = Refusing::new(rt.alloc(), 0);
    let values = BitBuffer::new_set(&heap, 9).expect(&rt, "memory");
    let kept = filtered_by_two(&rt, &heap, &values, values.as_view());
    equal(&rt, (kept.true_count(), kept.offset()), (9, 0));
    drop((values, kept));
}
