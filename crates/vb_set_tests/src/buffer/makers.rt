//! Calls that make a set: the bits that they make, and each of their requests for memory refused in
//! turn.
use crate::buffer::compared::{equal, shows};
use std::alloc::Allocator;
use vb_bit_buffer::BitBuffer;
use vb_core::{BufferError, Result};
use vb_mem::ByteBuffer;
use vb_testing::{Handle, Refusing};

/// A call that makes a set. Calls that need another set get one of nine true bits.
enum Call {
    NewSet,
    NewUnset,
    Full,
    Clone,
    Slice,
    SliceOfClone,
    Derived,
}

impl Call {
    fn make<A: Allocator + Clone>(&self, alloc: A) -> Result<BitBuffer<A>> {
        match self {
            Call::NewSet => BitBuffer::new_set(alloc, 9),
            Call::NewUnset => BitBuffer::new_unset(alloc, 9),
            Call::Full => BitBuffer::full(alloc, true, 3),
            Call::Clone => twin(BitBuffer::new_set(alloc, 9)),
            Call::Slice => sliced(BitBuffer::new_set(alloc, 9), 0, 5),
            Call::SliceOfClone => sliced(twin(BitBuffer::new_set(alloc, 9)), 0, 5),
            Call::Derived => derived(BitBuffer::new_set(alloc, 9)),
        }
    }
}

/// A second owner of the bytes of a set that was made.
pub(crate) fn twin<A: Allocator + Clone>(made: Result<BitBuffer<A>>) -> Result<BitBuffer<A>> {
    let set = made?;
    let twin = set.clone();
    drop(set);
    twin
}

/// A column as engines have it. Std derives its `clone` from those of the buffer and the set.
#[derive(Clone, Drop)]
struct Column<A: Allocator + Clone> {
    values: ByteBuffer<A>,
    valid: BitBuffer<A>,
}

/// Builds a column of the set and its bytes, copies the column, and returns the set of the copy.
fn derived<A: Allocator + Clone>(made: Result<BitBuffer<A>>) -> Result<BitBuffer<A>> {
    let valid = made?;
    let values = match valid.inner().clone() {
        Ok(values) => values,
        Err(error) => {
            drop(valid);
            return Err(error);
        }
    };
    let column = Column { values, valid };
    let copy: Result<_, _> = column.clone();
    drop(column);
    let Column { values, valid } = copy?;
    drop(values);
    Ok(valid)
}

/// The bits from `start` up to `end` of a set that was made, or to its end.
pub(crate) fn sliced<A: Allocator + Clone>(
    made: Result<BitBuffer<A>>,
    start: usize,
    end: usize,
) -> Result<BitBuffer<A>> {
    let set = made?;
    let end = end.min(set.len());
    let part = set.slice(start.min(end)..end);
    drop(set);
    part
}

/// The calls, each with the bits that it makes, and how many requests it makes.
const ROWS: &[(Call, &str, u64)] = &[
    (Call::NewSet, "111111111", 4),
    (Call::NewUnset, "000000000", 4),
    (Call::Full, "111", 4),
    (Call::Clone, "111111111", 5),
    (Call::Slice, "11111", 5),
    (Call::SliceOfClone, "11111", 6),
    (Call::Derived, "111111111", 7),
];

#[test]
fn filled_cloned_and_sliced_sets_are_made_or_refused(rt: HostRuntime) {
    let heap = Refusing::new(rt.alloc(), 0);
    for (call, bits, requests) in ROWS {
        for _ in heap.in_turn() {
            let answer = shows(&rt, call.make(Handle { inner: &heap }), bits);
            let wanted = heap.wanted(Ok(()), Err(BufferError::OutOfMemory));
            equal(&rt, answer, wanted);
        }
        equal(&rt, (heap.has_refused(), heap.asked()), (false, *requests));
    }
}
