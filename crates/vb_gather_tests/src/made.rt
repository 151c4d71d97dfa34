//! Sets to start from, and calls on them. No clause says what they hold, since the proof of a test
//! would search among these facts at each of its calls.
use crate::compared::holds;
use std::alloc::Allocator;
use std::process::Abort;
use vb_gather::{Take, take_bits};
use vb_set::{BitBuffer, BitBufferMut, BitBufferView, BitIndex, BufferError, Result};

/// A set of these bits, `1` for a true one, behind three bits that are left out.
pub(crate) fn bits<A: Allocator + Clone>(rt: &impl Abort, alloc: A, digits: &str) -> BitBuffer<A> {
    let mut set = BitBufferMut::new_set(alloc, 3).expect(rt, "a set");
    for digit in digits.bytes() {
        set.append(digit == b'1').expect(rt, "room");
    }
    behind_three(rt, set.freeze().expect(rt, "memory"))
}

fn behind_three<A: Allocator + Clone>(rt: &impl Abort, set: BitBuffer<A>) -> BitBuffer<A> {
    let len = set.len();
    holds(rt, 3 <= len);
    let part = set.slice(3..len).expect(rt, "memory");
    drop(set);
    part
}

/// [`take_bits`], where the validity is as long as the indices.
pub(crate) fn taken<A: Allocator + Clone, I: BitIndex>(
    alloc: A,
    bits: BitBufferView<'_>,
    indices: &[I],
    validity: Option<BitBufferView<'_>>,
) -> Result<BitBuffer<A>> {
    match validity {
        Some(validity) if validity.len() == indices.len() => {
            take_bits(alloc, bits, indices, Some(validity))
        }
        Some(_) => Err(BufferError::NotAligned),
        None => take_bits(alloc, bits, indices, None),
    }
}

/// [`Take::taken`] of a set, where the validity is as long as the indices.
pub(crate) fn own_taken<A: Allocator + Clone, I: BitIndex>(
    set: &BitBuffer<A>,
    indices: &[I],
    validity: Option<BitBufferView<'_>>,
) -> Result<BitBuffer<A>> {
    match validity {
        Some(validity) if validity.len() == indices.len() => set.taken(indices, Some(validity)),
        Some(_) => Err(BufferError::NotAligned),
        None => set.taken(indices, None),
    }
}
