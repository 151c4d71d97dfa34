//! Which of two allocators is used: operators, and later calls on their results, allocate from the
//! left value's. No contract can say it.
//!
//! Each request to the left value's heap is refused in turn, and the call returns that error. The
//! right value's heap would refuse its first request, but gets none.
use crate::buffer::calls::{LENT, OWNED, Two};
use crate::buffer::compared::equal;
use crate::buffer::made::ones;
use std::alloc::{Allocator, Global};
use std::process::Abort;
use vb_bit_buffer::BitBuffer;
use vb_core::{BufferError, Result};
use vb_mem::ByteBuffer;
use vb_testing::{Handle, Refusing};

/// Clones a set that was made, drops the set, and adds bytes to those of the clone. Returns the
/// number of bits of the set.
fn grown<A: Allocator + Clone>(made: Result<BitBuffer<A>>) -> Result<usize> {
    let set = made?;
    let twin = set.clone();
    drop(set);
    let (_, len, bytes) = twin?.into_inner();
    lengthened(bytes)?;
    Ok(len)
}

/// Adds a thousand bytes.
fn lengthened<A: Allocator + Clone>(bytes: ByteBuffer<A>) -> Result<()> {
    let mut bytes = bytes.into_mut()?;
    let added = bytes.push_n(0, 1000);
    drop(bytes);
    added
}

fn asks_the_left_one(
    rt: &impl Abort,
    (left, right): (&Refusing<Global>, &Refusing<Global>),
    call: Two,
    requests: u64,
) {
    for _ in left.in_turn() {
        right.refuse(0);
        let other = ones(Handle { inner: right }, 5, 70);
        right.refuse(1);
        let answer = grown(call.of_made(ones(Handle { inner: left }, 3, 70), other));
        let wanted = left.wanted(Ok(70), Err(BufferError::OutOfMemory));
        equal(rt, answer, wanted);
        equal(rt, right.asked(), 0);
    }
    equal(rt, (left.has_refused(), left.asked()), (false, requests));
}

#[test]
fn operators_ask_the_left_one(rt: HostRuntime) {
    let (left, right) = (Refusing::new(rt.alloc(), 0), Refusing::new(rt.alloc(), 0));
    for call in OWNED {
        asks_the_left_one(&rt, (&left, &right), *call, 9);
    }
    for call in LENT {
        asks_the_left_one(&rt, (&left, &right), *call, 11);
    }
}
