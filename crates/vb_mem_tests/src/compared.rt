//! Comparisons of what is given with what is wanted, which are proved once.
use std::alloc::Allocator;
use std::fmt::Debug;
use std::process::Abort;
use vb_core::{BufferError, Element, Result};
use vb_mem::{Buffer, BufferMut};
use vb_testing::Refusing;

/// The two values are equal.
pub fn equal<T: Copy + PartialEq + Debug>(rt: &impl Abort, given: T, wanted: T) {
    assert_eq!(rt; given, wanted);
}

/// The items are the numbers below `n` in order.
pub fn counts(rt: &impl Abort, items: &[usize], n: usize) {
    equal(rt, items.iter().copied().eq(0..n), true);
}

/// The answer is `OutOfMemory` exactly if the heap refused a request.
pub fn answers<B: Allocator>(rt: &impl Abort, heap: &Refusing<B>, answer: Result<()>) {
    let refused = Err(BufferError::OutOfMemory);
    equal(rt, answer, heap.wanted(Ok(()), refused));
}

/// These are the alignments of the buffer in bytes: the reported and the declared one.
pub fn is_aligned<T: Element, A: Allocator>(
    rt: &impl Abort,
    buffer: &Buffer<T, A>,
    wanted: (usize, usize),
) {
    let given = (buffer.alignment().as_usize(), buffer.declared().as_usize());
    equal(rt, given, wanted);
}

/// What was made has these items, and these alignments.
pub fn shows<A: Allocator>(
    rt: &impl Abort,
    made: Result<Buffer<u32, A>>,
    items: &[u32],
    alignments: (usize, usize),
) -> Result<()> {
    let buffer = made?;
    equal(rt, buffer.as_slice(), items);
    is_aligned(rt, &buffer, alignments);
    drop(buffer);
    Ok(())
}

/// What was made to be changed has these items.
pub fn holds<A: Allocator>(
    rt: &impl Abort,
    made: Result<BufferMut<u32, A>>,
    items: &[u32],
) -> Result<()> {
    let buffer = made?;
    equal(rt, buffer.as_slice(), items);
    drop(buffer);
    Ok(())
}
