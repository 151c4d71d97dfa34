//! Buffers: the number of items that are polled when memory runs out or an item is an error.
//! Iterators are passed by `by_ref`, so items that weren't polled are left.
use crate::compared::{equal, is_made};
use crate::watched::Watched;
use std::alloc::{Allocator, Global};
use std::cell::Cell;
use std::process::Abort;
use vb_core::{BufferError, ExtendError, Result, TrustedLen};
use vb_mem::{Buffer, BufferMut};
use vb_testing::Refusing;

/// How many numbers are added.
const MANY: usize = 100;

const FEW: &[u32] = &[7, 8, 9];

/// Passes each item. An iterator that is filtered by it gives no hint of its length.
fn each(_item: &u32) -> bool {
    true
}

fn refusal(stopped: ExtendError<BufferError>) -> BufferError {
    match stopped {
        ExtendError::Memory => BufferError::OutOfMemory,
        ExtendError::Item(error) => error,
    }
}

/// Appends numbers to a few, by an iterator without a hint of its length. If a request for memory
/// is refused, the buffer is filled up to its capacity, and one more number has been polled.
fn fill<A: Allocator>(rt: &impl Abort, made: Result<BufferMut<u32, A>>) -> Result<()> {
    let mut buffer = made?;
    let mut numbers = 0..100u32;
    let answer = buffer.extend(numbers.by_ref().filter(each));
    let polled = MANY.saturating_sub(numbers.exact_len());
    let added = buffer.len().saturating_sub(FEW.len());
    let lost = usize::from(answer.is_err());
    equal(rt, polled, added.saturating_add(lost));
    let full = (buffer.len() == buffer.capacity(), added == MANY);
    equal(rt, full.0 || full.1, true);
    equal(rt, answer.is_ok(), full.1);
    drop(buffer);
    answer
}

#[test]
fn a_refused_extend_polls_one_item_past_the_room(rt: HostRuntime) {
    let heap = Refusing::new(rt.alloc(), 0);
    for _ in heap.in_turn() {
        let answer = fill(&rt, BufferMut::copy_from(&heap, FEW));
        let refused = Err(BufferError::OutOfMemory);
        equal(&rt, answer, heap.wanted(Ok(()), refused));
    }
}

/// Makes a buffer of numbers that come without a hint, to be shared or to be edited. Returns
/// whether it was made, and how many numbers were polled.
fn polled<A: Allocator + Clone>(alloc: A, is_shared: bool) -> (bool, usize) {
    let mut numbers = 0..100u32;
    let given = numbers.by_ref().filter(each);
    let is_made = if is_shared {
        is_made(Buffer::from_iter(alloc, given))
    } else {
        is_made(BufferMut::from_iter(alloc, given))
    };
    (is_made, MANY.saturating_sub(numbers.exact_len()))
}

/// The last polled number is the first that doesn't fit in the bytes of the previous request.
fn stops_at_a_refusal(rt: &impl Abort, heap: &Refusing<Global>, is_shared: bool) {
    let (mut asked, mut room) = (0usize, 0usize);
    for _ in heap.in_turn() {
        let answer = polled(heap, is_shared);
        let wanted = if heap.has_refused() {
            (room / 4).saturating_add(1).min(MANY)
        } else {
            MANY
        };
        equal(rt, answer, (!heap.has_refused(), wanted));
        room = heap.asked_bytes().saturating_sub(asked);
        asked = heap.asked_bytes();
    }
}

#[test]
fn no_item_is_polled_behind_a_refusal(rt: HostRuntime) {
    let heap = Refusing::new(rt.alloc(), 0);
    stops_at_a_refusal(&rt, &heap, false);
    stops_at_a_refusal(&rt, &heap, true);
}

/// Adds items of known number to a few. If memory runs out, none is polled, and the buffer stays.
fn add_whole<A: Allocator>(rt: &impl Abort, made: Result<BufferMut<u32, A>>) -> Result<()> {
    let mut buffer = made?;
    let given = Cell::new(0usize);
    let answer = buffer.extend_trusted(Watched {
        left: MANY,
        item: 5,
        second_last: 6,
        given: &given,
    });
    let wanted = if answer.is_ok() { (103, MANY) } else { (3, 0) };
    equal(rt, (buffer.len(), given.get()), wanted);
    drop((buffer, given));
    answer
}

/// The same with an error as the last item but one: the last one isn't polled.
fn add_tried<A: Allocator>(rt: &impl Abort, made: Result<BufferMut<u32, A>>) -> Result<()> {
    let mut buffer = made?;
    let given = Cell::new(0usize);
    let answer = buffer.try_extend_trusted(Watched {
        left: MANY,
        item: Ok(5),
        second_last: Err(BufferError::NotAligned),
        given: &given,
    });
    let answer = answer.map_err(refusal);
    let wanted = if answer == Err(BufferError::NotAligned) {
        (101, 99)
    } else {
        (3, 0)
    };
    equal(rt, (buffer.len(), given.get()), wanted);
    drop((buffer, given));
    answer
}

#[test]
fn refused_items_of_known_length_are_not_polled(rt: HostRuntime) {
    let heap = Refusing::new(rt.alloc(), 0);
    let refused = Err(BufferError::OutOfMemory);
    for _ in heap.in_turn() {
        let answer = add_whole(&rt, BufferMut::copy_from(&heap, FEW));
        equal(&rt, answer, heap.wanted(Ok(()), refused));
    }
    equal(&rt, (heap.has_refused(), heap.asked()), (false, 2));
    for _ in heap.in_turn() {
        let answer = add_tried(&rt, BufferMut::copy_from(&heap, FEW));
        let stopped = Err(BufferError::NotAligned);
        equal(&rt, answer, heap.wanted(stopped, refused));
    }
    equal(&rt, (heap.has_refused(), heap.asked()), (false, 2));
}
