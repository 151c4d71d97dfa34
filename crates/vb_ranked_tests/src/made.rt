//! Sets to start from. No clause says what they hold, since the proof of a test would search among
//! these facts at each of its calls.
use crate::compared::holds;
use std::alloc::{Allocator, Global};
use std::process::Abort;
use vb_set::{BitBufferMut, ByteBufferMut, Result, window_fits};

/// True bits.
pub(crate) fn ones<A: Allocator + Clone>(alloc: A, len: usize) -> Result<BitBufferMut<A>> {
    BitBufferMut::new_set(alloc, len)
}

/// Bits that are true where 5 divides the index.
pub(crate) fn by_fives(rt: &impl Abort, alloc: Global, len: usize) -> BitBufferMut<Global> {
    let mut set = BitBufferMut::empty(alloc);
    for i in 0..len {
        set.append(i % 5 == 0).expect(rt, "room");
    }
    set
}

/// A window of bytes without a pattern, by a linear congruence.
pub(crate) fn mixed(
    rt: &impl Abort,
    alloc: Global,
    offset: usize,
    len: usize,
) -> BitBufferMut<Global> {
    let mut bytes = ByteBufferMut::empty(alloc);
    let mut state = 0x2545_F491_4F6C_DD1Du64;
    for _ in 0..offset.saturating_add(len).div_ceil(8) {
        state = state
            .wrapping_mul(6_364_136_223_846_793_005)
            .wrapping_add(1_442_695_040_888_963_407);
        bytes.push((state >> 56) as u8).expect(rt, "room");
    }
    holds(rt, window_fits(bytes.as_slice(), offset, len));
    BitBufferMut::from_buffer(bytes, offset, len)
}
