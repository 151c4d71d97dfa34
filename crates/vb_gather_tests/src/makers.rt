//! Calls that make a set in memory of an allocator that they are given.
use crate::compared::{asked_for, equal};
use crate::given::{Bits, fits, numbers};
use std::alloc::{Allocator, Global};
use std::process::Abort;
use vb_bit_buffer::BitBuffer;
use vb_compare::Comparison;
use vb_core::{BufferError, Result};
use vb_gather::{compared, compared_with, take_bits};
use vb_testing::Refusing;
use vb_view::BitBufferView;

/// Which call makes the set.
#[derive(Clone, Copy)]
enum Call {
    TakeBits,
    Compared,
    ComparedWith,
}

impl Call {
    /// Uses the values as values or as indices; if there is a validity, only the valid ones.
    fn make<A: Allocator + Clone>(
        self,
        alloc: A,
        bits: BitBufferView<'_>,
        values: &[u32],
        validity: Option<BitBufferView<'_>>,
    ) -> Result<BitBuffer<A>> {
        if !fits(validity, values.len()) {
            drop(alloc);
            return Err(BufferError::NotAligned);
        }
        match self {
            Call::TakeBits => take_bits(alloc, bits, values, validity),
            Call::Compared => compared(alloc, values, Comparison::Less, 7, validity),
            Call::ComparedWith => {
                compared_with(alloc, values, Comparison::Less, values, validity)
            }
        }
    }
}

/// Bodies that allocate for all bits that they take from, or twice the bytes, fail here.
const CALLS: &[Call] = &[Call::TakeBits, Call::Compared, Call::ComparedWith];

/// A call allocates the bytes of the bits that it makes, and the count of their owners, with and
/// without a validity.
fn asks_for_what_it_makes(rt: &impl Abort, alloc: Global, call: Call, len: u32) {
    let heap = Refusing::new(alloc, 0);
    let bits = Bits(100_000, 3).set(alloc).expect(rt, "memory");
    let values = numbers(alloc, len).expect(rt, "memory");
    let valid = Bits(values.len(), 2).set(alloc).expect(rt, "memory");
    for validity in [None, Some(valid.as_view())] {
        heap.refuse(0);
        let made = call.make(&heap, bits.as_view(), values.as_slice(), validity);
        let made = made.expect(rt, "memory");
        asked_for(rt, &heap, 1, values.len().div_ceil(8));
        equal(rt, made.len(), values.len());
        drop(made);
    }
    drop((bits, values, valid));
}

#[test]
fn sets_take_the_bytes_of_their_bits(rt: HostRuntime) {
    for call in CALLS {
        for len in [0, 9, 8000] {
            asks_for_what_it_makes(&rt, rt.alloc(), *call, len);
        }
    }
}
