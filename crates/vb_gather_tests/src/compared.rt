//! Comparisons of what is given with what is wanted, each proved once.
ghost use Rattle.std.specs.Prelude.{IsTrue};

use std::alloc::{Allocator, Global};
use std::fmt::Debug;
use std::process::Abort;
use vb_bit_buffer::BitBuffer;
use vb_core::{BufferError, Element, Result};
use vb_mem::Buffer;
use vb_testing::Refusing;

/// What a call returns when memory runs out.
pub(crate) const REFUSED: Result<()> = Err(BufferError::OutOfMemory);

/// The condition holds.
pub(crate) fn holds(rt: &impl Abort, condition: bool)
    ensures { IsTrue condition }
{
    assert!(rt; condition);
}

/// The two values are equal.
pub(crate) fn equal<T: Copy + PartialEq + Debug>(rt: &impl Abort, given: T, wanted: T) {
    assert_eq!(rt; given, wanted);
}

/// The two lists are equal.
pub(crate) fn equal_lists<T: PartialEq + Debug>(rt: &impl Abort, given: &[T], wanted: &[T]) {
    assert_eq!(rt; given, wanted);
}

/// What was made has these items.
pub(crate) fn shows<T: Element + PartialEq + Debug, A: Allocator>(
    rt: &impl Abort,
    made: Result<Buffer<T, A>>,
    items: &[T],
) -> Result<()> {
    let buffer = made?;
    equal_lists(rt, buffer.as_slice(), items);
    drop(buffer);
    Ok(())
}

/// The set has these bits, `1` for a true one, and no others.
pub(crate) fn shows_set<A: Allocator + Clone>(rt: &impl Abort, set: &BitBuffer<A>, bits: &str) {
    let digits = bits.as_bytes();
    equal(rt, set.len(), digits.len());
    for i in 0..set.len().min(digits.len()) {
        equal(rt, set.value(i), digits[i] == b'1');
    }
}

/// The call made a set of these bits, or failed with this error.
pub(crate) fn answers<A: Allocator + Clone>(
    rt: &impl Abort,
    made: Result<BitBuffer<A>>,
    wanted: Result<&str>,
) {
    match made {
        Ok(set) => {
            equal(rt, None, wanted.err());
            shows_set(rt, &set, wanted.unwrap_or(""));
            drop(set);
        }
        Err(error) => equal(rt, Some(error), wanted.err()),
    }
}

/// More bytes than the block that counts owners takes.
const OWNER: usize = 256;

/// This number of blocks of `bytes` bytes each was requested, and an owner of each. Blocks of no
/// bytes aren't requested.
pub(crate) fn asked_for(rt: &impl Abort, heap: &Refusing<Global>, blocks: u64, bytes: usize) {
    let owners = blocks;
    let requests = if bytes > 0 {
        owners.saturating_mul(2)
    } else {
        owners
    };
    equal(rt, heap.asked(), requests);
    let least = bytes.saturating_mul(blocks as usize);
    let most = least.saturating_add(OWNER.saturating_mul(owners as usize));
    equal(rt, heap.asks_within(least, most), true);
}
