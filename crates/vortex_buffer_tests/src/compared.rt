//! Comparisons of what is given with what is wanted, each proved once.
ghost use Rattle.std.specs.Prelude.{IsTrue};

use std::alloc::Allocator;
use std::fmt::Debug;
use std::process::Abort;
use vortex_buffer::{BufferError, ByteBuffer, Result};

/// The two values are equal.
pub fn equal<T: Copy + PartialEq + Debug>(rt: &impl Abort, given: T, wanted: T) {
    assert_eq!(rt; given, wanted);
}

/// The two lists of bytes are equal.
pub fn equal_bytes(rt: &impl Abort, given: &[u8], wanted: &[u8]) {
    assert_eq!(rt; given, wanted);
}

/// The condition holds.
pub fn holds(rt: &impl Abort, condition: bool)
    ensures { IsTrue condition }
{
    assert!(rt; condition);
}

/// The buffer has these bytes, and these alignments: the reported and the declared one.
pub fn has<A: Allocator>(
    rt: &impl Abort,
    buffer: &ByteBuffer<A>,
    bytes: &[u8],
    alignments: (usize, usize),
) {
    equal_bytes(rt, buffer.as_slice(), bytes);
    let given = (buffer.alignment().as_usize(), buffer.declared().as_usize());
    equal(rt, given, alignments);
}

/// What was made has these bytes and alignments, as [`has`] compares them.
pub fn shows<A: Allocator>(
    rt: &impl Abort,
    made: Result<ByteBuffer<A>>,
    bytes: &[u8],
    alignments: (usize, usize),
) -> Result<()> {
    let buffer = made?;
    has(rt, &buffer, bytes, alignments);
    drop(buffer);
    Ok(())
}

/// The error of a call, without the value.
pub fn refusal<T: Drop>(answer: Result<T>) -> Option<BufferError> {
    answer.err()
}
