//! What a refused `items_mut` leaves of a part of a storage that has another owner: everything.
use crate::compared::equal;
use std::alloc::Allocator;
use std::ops::Range;
use std::process::Abort;
use vb_core::{Alignment, BufferError, Result};
use vb_mem::{Buffer, BufferMut};
use vb_testing::{Handle, Refusing};

/// The numbers below 256, whose storage has a declared alignment of 1024 bytes.
fn numbers<A: Allocator + Clone>(alloc: A) -> Result<Buffer<u32, A>> {
    let (four, wide) = (Alignment::of::<u32>(), Alignment::from_exponent(10));
    let made = BufferMut::with_capacity_preferred_aligned(alloc, 256, four, Some(wide));
    filled(made?)?.freeze()
}

fn filled<A: Allocator>(mut open: BufferMut<u32, A>) -> Result<BufferMut<u32, A>> {
    open.extend_trusted(0..256)?;
    Ok(open)
}

/// The items are these numbers.
fn counts(rt: &impl Abort, items: &[u32], numbers: Range<u32>) {
    equal(rt, items.iter().copied().eq(numbers), true);
}

/// The upper half of the numbers begins at byte 512 of its storage.
fn is_upper_half<A: Allocator>(rt: &impl Abort, part: &Buffer<u32, A>) {
    counts(rt, part.as_slice(), 128..256);
    let alignments = (part.alignment().as_usize(), part.declared().as_usize());
    equal(rt, alignments, (4, 1024));
    let (half, whole) = (Alignment::from_exponent(9), Alignment::from_exponent(10));
    let is_aligned = (part.is_aligned(half), part.is_aligned(whole));
    equal(rt, is_aligned, (true, false));
    equal(rt, part.can_slice(0..1, half), true);
    equal(rt, part.can_slice(128..129, half), false);
    equal(rt, part.can_slice(0..1, whole), false);
}

/// The items are sevens, in a storage of their own.
fn is_written<A: Allocator>(rt: &impl Abort, part: &Buffer<u32, A>) {
    equal(rt, SEVENS.starts_with(part.as_slice()), true);
    equal(rt, (part.len(), part.declared().as_usize()), (128, 256));
}

const SEVENS: [u32; 128] = [7; 128];

fn fill<A: Allocator + Clone>(part: &mut Buffer<u32, A>) -> Result<()> {
    part.items_mut()?.as_mut_slice().fill(7);
    Ok(())
}

/// Writes sevens over a part. A refusal leaves the part as it is.
fn write_part<A: Allocator + Clone>(rt: &impl Abort, made: Result<Buffer<u32, A>>) -> Result<()> {
    let mut part = made?;
    is_upper_half(rt, &part);
    let answer = fill(&mut part);
    if answer.is_ok() {
        is_written(rt, &part);
    } else {
        is_upper_half(rt, &part);
    }
    drop(part);
    answer
}

fn upper_half<A: Allocator + Clone>(whole: &Buffer<u32, A>) -> Result<Buffer<u32, A>> {
    if whole.len() < 256 {
        return Err(BufferError::NotAligned);
    }
    whole.slice_unaligned(128..256)
}

/// Writes the upper half of numbers that another buffer owns too, which keeps them.
fn write_half<A: Allocator + Clone>(rt: &impl Abort, made: Result<Buffer<u32, A>>) -> Result<()> {
    let whole = made?;
    let answer = write_part(rt, upper_half(&whole));
    counts(rt, whole.as_slice(), 0..256);
    equal(rt, whole.declared().as_usize(), 1024);
    drop(whole);
    answer
}

#[test]
fn a_refused_write_leaves_the_part(rt: HostRuntime) {
    let heap = Refusing::new(rt.alloc(), 0);
    for _ in heap.in_turn() {
        let answer = write_half(&rt, numbers(Handle { inner: &heap }));
        let wanted = heap.wanted(Ok(()), Err(BufferError::OutOfMemory));
        equal(&rt, answer, wanted);
    }
    // Requests for the storage and its owner, for the copy and its owner, and for five copies of
    // the allocator.
    equal(&rt, (heap.has_refused(), heap.asked()), (false, 9));
}
