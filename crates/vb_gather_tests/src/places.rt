//! Sets made from indices: worked rows, and how far the iterator is polled.
use crate::compared::{answers, equal};
use std::alloc::Allocator;
use vb_set::{BitBuffer, BitBufferMut, BufferError, Result};
use vb_testing::{Handle, Refusing};

/// A length, indices below it or not, and the bits or the refusal.
const PLACES: &[(usize, &[usize], Result<&str>)] = &[
    (4, &[1, 1, 3], Ok("0101")),
    (0, &[], Ok("")),
    (
        4,
        &[4],
        Err(BufferError::IndexOutOfRange { index: 4, len: 4 }),
    ),
    (
        10,
        &[9, 12, 11],
        Err(BufferError::IndexOutOfRange { index: 12, len: 10 }),
    ),
];

/// A set to be shared, made directly or from a set to edit.
fn made<A: Allocator + Clone>(
    alloc: A,
    is_shared: bool,
    len: usize,
    places: &[usize],
) -> Result<BitBuffer<A>> {
    let places = places.iter().copied();
    if is_shared {
        return BitBuffer::from_indices(alloc, len, places);
    }
    BitBufferMut::from_indices(alloc, len, places)?.freeze()
}

#[test]
fn places_make_sets_or_are_refused(rt: HostRuntime) {
    for (len, places, wanted) in PLACES {
        answers(&rt, made(rt.alloc(), true, *len, places), *wanted);
        answers(&rt, made(rt.alloc(), false, *len, places), *wanted);
    }
}

/// The error of a call that gets the indices 2, 3, 4 and 5 for a length of 4, and the next index
/// that the iterator has left.
fn number_left<A: Allocator + Clone>(
    alloc: A,
    is_shared: bool,
) -> (Option<BufferError>, Option<usize>) {
    let mut numbers = 2..6usize;
    let error = if is_shared {
        error_of(BitBuffer::from_indices(alloc, 4, numbers.by_ref()))
    } else {
        error_of(BitBufferMut::from_indices(alloc, 4, numbers.by_ref()))
    };
    (error, numbers.next())
}

fn error_of<S: Drop>(made: Result<S>) -> Option<BufferError> {
    match made {
        Ok(set) => {
            drop(set);
            None
        }
        Err(error) => Some(error),
    }
}

/// All memory is requested before the first number is polled, and no number is polled after the
/// first one that isn't below the length.
#[test]
fn no_number_is_asked_for_in_vain(rt: HostRuntime) {
    let heap = &Refusing::new(rt.alloc(), 0);
    let past = Some(BufferError::IndexOutOfRange { index: 4, len: 4 });
    for (is_shared, requests) in [(false, 1), (true, 4)] {
        for _ in heap.in_turn() {
            let answer = number_left(Handle { inner: heap }, is_shared);
            let wanted = heap.wanted((past, Some(5)), (Some(BufferError::OutOfMemory), Some(2)));
            equal(&rt, answer, wanted);
        }
        equal(&rt, (heap.has_refused(), heap.asked()), (false, requests));
    }
}
