//! Three-valued logic, which makes two sets.
use crate::compared::{asked_for, equal};
use crate::given::{Bits, fits};
use std::alloc::{Allocator, Global};
use std::process::Abort;
use vb_bit_buffer::BitBuffer;
use vb_core::{BufferError, Result};
use vb_gather::{and_kleene, or_kleene};
use vb_testing::Refusing;
use vb_view::BitBufferView;

/// Which connective.
#[derive(Clone, Copy)]
enum Call {
    And,
    Or,
}

/// A call on these bits on both sides, with a validity on one side, or on both, or on none.
fn made<A: Allocator + Clone>(
    alloc: A,
    call: Call,
    bits: BitBufferView<'_>,
    (left_valid, right_valid): (bool, bool),
) -> Result<(BitBuffer<A>, BitBuffer<A>)> {
    let left = if left_valid { Some(bits) } else { None };
    let right = if right_valid { Some(bits) } else { None };
    if !fits(left, bits.len()) || !fits(right, bits.len()) {
        drop(alloc);
        return Err(BufferError::NotAligned);
    }
    match call {
        Call::And => and_kleene(alloc, bits, left, bits, right),
        Call::Or => or_kleene(alloc, bits, left, bits, right),
    }
}

/// Bodies that allocate more bytes than those of two sets, or that copy a validity, fail here.
const ROWS: &[(Call, bool, bool)] = &[
    (Call::And, false, false),
    (Call::And, false, true),
    (Call::And, true, false),
    (Call::And, true, true),
    (Call::Or, false, false),
    (Call::Or, false, true),
    (Call::Or, true, false),
    (Call::Or, true, true),
];

fn asks_for_two_sets(rt: &impl Abort, alloc: Global, len: usize) {
    let heap = Refusing::new(alloc, 0);
    let bits = Bits(len, 3).set(alloc).expect(rt, "memory");
    for (call, left_valid, right_valid) in ROWS {
        heap.refuse(0);
        let made = made(&heap, *call, bits.as_view(), (*left_valid, *right_valid));
        let (trues, valid) = made.expect(rt, "memory");
        asked_for(rt, &heap, 2, len.div_ceil(8));
        equal(rt, (trues.len(), valid.len()), (len, len));
        drop((trues, valid));
    }
    drop(bits);
}

#[test]
fn two_sets_take_the_bytes_of_their_bits(rt: HostRuntime) {
    for len in [0, 9, 8000] {
        asks_for_two_sets(&rt, rt.alloc(), len);
    }
}
