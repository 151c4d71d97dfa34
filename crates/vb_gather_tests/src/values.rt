//! Values of buffers.
use crate::compared::{equal, shows};
use crate::filters::{filtered, filtered_by_two};
use crate::masks::{ROWS, Row, mask};
use std::alloc::Allocator;
use vb_bit_buffer::BitBuffer;
use vb_core::{BufferError, Result};
use vb_filter::{filter_elements_into, filter_values_into, retain_values};
use vb_mem::Buffer;
use vb_testing::{Handle, Refusing};
use vb_view::BitBufferView;

/// Whether these are the indices that a plain loop keeps by the mask of a row.
fn is_plain(given: &[u32], row: &Row) -> bool {
    let places = (0..row.0).filter(|place| row.has(*place));
    given.iter().map(|value| *value as usize).eq(places)
}

/// The numbers from 0 on, one per bit of a row's mask.
fn numbers<A: Allocator + Clone>(alloc: A, row: &Row) -> Result<Buffer<u32, A>> {
    Buffer::from_trusted_len_iter(alloc, 0..u32::try_from(row.0).unwrap_or(0))
}

fn kept_values<A: Allocator + Clone>(alloc: A, row: &Row) -> Result<Buffer<u32, A>> {
    filtered(alloc.clone()?, numbers(alloc, row), row)
}

fn are_plain<A: Allocator>(made: Result<Buffer<u32, A>>, row: &Row) -> Result<bool> {
    let kept = made?;
    let answer = is_plain(kept.as_slice(), row);
    drop(kept);
    Ok(answer)
}

#[test]
fn kept_values_are_those_of_a_plain_loop_or_refused(rt: HostRuntime) {
    let heap = Refusing::new(rt.alloc(), 0);
    let refused = Err(BufferError::OutOfMemory);
    for row in ROWS {
        for _ in heap.in_turn() {
            let answer = are_plain(kept_values(Handle { inner: &heap }, row), row);
            equal(&rt, answer, heap.wanted(Ok(true), refused));
        }
        let requests = row.requests([12, 14, 14, 16, 18]);
        equal(&rt, heap.has_ended(requests), true);
    }
}

#[test]
fn values_and_owners_are_one_request_each(rt: HostRuntime) {
    let heap = Refusing::new(rt.alloc(), 0);
    let values = Buffer::copy_from(&heap, &[7u8, 8, 9]).expect(&rt, "memory");
    let mask = BitBuffer::from_bools(&heap, &[true, false, true]).expect(&rt, "memory");
    let kept = filtered_by_two(&rt, &heap, &values, mask.as_view());
    equal(&rt, shows(&rt, Ok(kept), &[7, 9]), Ok(()));
    drop((values, mask));
}

/// Whether the call for values and the one for elements write the values that a row's mask keeps to
/// the front of a slice, and leave its other items.
fn writes_in_front(values: &[u32], mask: BitBufferView<'_>, row: &Row) -> bool {
    let mut out = [u32::MAX; 1001];
    let mut elements = [u32::MAX; 1001];
    if values.len() != mask.len() || mask.true_count() > out.len() {
        return false;
    }
    let len = filter_values_into(&mut out, values, mask);
    let same = filter_elements_into(&mut elements, values, mask) == len && elements == out;
    same && is_plain(&out[..len], row) && out[len..].iter().all(|item| *item == u32::MAX)
}

/// Whether the values that a row's mask keeps are moved to the front of their slice, and the items
/// after them are unchanged.
fn moves_to_the_front(values: &[u32], mask: BitBufferView<'_>, row: &Row) -> bool {
    let mut items = [u32::MAX; 1001];
    let many = values.len();
    if many != mask.len() || many > items.len() {
        return false;
    }
    items[..many].copy_from_slice(values);
    let len = retain_values(&mut items[..many], mask);
    len <= many
        && is_plain(&items[..len], row)
        && items[len..many] == values[len..]
        && items[many..].iter().all(|item| *item == u32::MAX)
}

#[test]
fn kept_values_are_written_in_front(rt: HostRuntime) {
    for row in ROWS {
        let values = numbers(rt.alloc(), row).expect(&rt, "memory");
        let mask = mask(rt.alloc(), row).expect(&rt, "memory");
        let is_written = writes_in_front(values.as_slice(), mask.as_view(), row);
        let is_moved = moves_to_the_front(values.as_slice(), mask.as_view(), row);
        equal(&rt, (is_written, is_moved), (true, true));
        drop((values, mask));
    }
}
