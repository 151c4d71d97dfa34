//! Alignments of buffers and of their slices at several offsets.
use crate::compared::{equal, is_aligned, shows};
use std::alloc::Allocator;
use std::ops::Range;
use std::process::Abort;
use vb_core::{Alignment, BufferError, Element, Result};
use vb_mem::{Buffer, BufferMut};

/// A part of a buffer. It may begin at any item.
pub fn part<T: Element, A: Allocator + Clone>(
    rt: &impl Abort,
    whole: &Buffer<T, A>,
    range: Range<usize>,
) -> Buffer<T, A> {
    let is_within = range.start <= range.end && range.end <= whole.len();
    let part = if is_within {
        whole.slice_unaligned(range)
    } else {
        Err(BufferError::NotAligned)
    };
    part.expect(rt, "a part")
}

/// The tail of a buffer of 1, 2 and 3, from its second item on.
fn tail_of<A: Allocator + Clone>(rt: &impl Abort, made: Result<Buffer<u32, A>>) -> Buffer<u32, A> {
    let buffer = made.expect(rt, "a buffer");
    equal(rt, buffer.len(), 3);
    is_aligned(rt, &buffer, (4, 256));
    equal(rt, buffer.is_aligned(Alignment::DEFAULT_ALIGNMENT), true);
    is_nothing(rt, part(rt, &buffer, 0..0), 4);
    let tail = part(rt, &buffer, 1..3);
    drop(buffer);
    tail
}

/// The tail begins at byte 4, which is no multiple of eight. So `aligned` copies its items.
fn tail_is_copied<A: Allocator + Clone>(
    rt: &impl Abort,
    tail: Buffer<u32, A>,
) -> Result<Buffer<u32, A>> {
    equal(rt, tail.is_aligned(Alignment::of::<u32>()), true);
    let eight = Alignment::of::<u64>();
    let twin = tail.clone().expect(rt, "a part");
    let refused = twin.ensure_aligned(eight).err();
    equal(rt, refused, Some(BufferError::NotAligned));
    tail.aligned(eight)
}

/// The half begins at byte 8, so it is already aligned to eight bytes.
fn half_is_there<A: Allocator + Clone>(
    rt: &impl Abort,
    made: Result<Buffer<u32, A>>,
) -> Result<Buffer<u32, A>> {
    let four = made.expect(rt, "a buffer");
    equal(rt, four.len(), 4);
    let half = part(rt, &four, 2..4);
    drop(four);
    half.ensure_aligned(Alignment::of::<u64>())
}

#[test]
fn a_slice_keeps_its_place(rt: HostRuntime) {
    let tail = tail_of(&rt, Buffer::copy_from(rt.alloc(), &[1, 2, 3]));
    let copy = shows(&rt, tail_is_copied(&rt, tail), &[2, 3], (8, 256));
    equal(&rt, copy, Ok(()));
    let four = Buffer::copy_from(rt.alloc(), &[1, 2, 3, 4]);
    let there = shows(&rt, half_is_there(&rt, four), &[3, 4], (8, 256));
    equal(&rt, there, Ok(()));
}

/// The slice has no items, and reports an alignment of `alignment` bytes.
fn is_nothing<T: Element, A: Allocator>(rt: &impl Abort, nothing: Buffer<T, A>, alignment: usize) {
    equal(rt, nothing.is_empty(), true);
    equal(rt, nothing.alignment().as_usize(), alignment);
    equal(rt, nothing.is_aligned(Alignment::MAX), true);
    drop(nothing);
}

/// Empty slices of a buffer that is aligned to 64 bytes.
fn slices_of_nothing<A: Allocator + Clone>(rt: &impl Abort, made: Result<Buffer<u64, A>>) {
    let zeros = made.expect(rt, "zeros");
    let nothing = if zeros.can_slice(0..0, zeros.alignment()) {
        zeros.slice(0..0)
    } else {
        Err(BufferError::NotAligned)
    };
    is_nothing(rt, nothing.expect(rt, "a part"), 64);
    is_nothing(rt, part(rt, &zeros, 0..0), 8);
    drop(zeros);
}

#[test]
fn a_slice_of_nothing_keeps_its_alignment(rt: HostRuntime) {
    let wide = Alignment::from_exponent(6);
    slices_of_nothing(&rt, Buffer::zeroed_aligned(rt.alloc(), 8, wide));
}

/// What was made has these alignments.
fn aligned_to<T: Element, A: Allocator>(
    rt: &impl Abort,
    made: Result<Buffer<T, A>>,
    wanted: (usize, usize),
) {
    let buffer = made.expect(rt, "a buffer");
    is_aligned(rt, &buffer, wanted);
    drop(buffer);
}

#[test]
fn storage_is_over_aligned_unless_asked(rt: HostRuntime) {
    let wide = Alignment::from_exponent(5);
    let bytes = Buffer::copy_from_aligned(rt.alloc(), &[0u8, 1, 2], wide);
    aligned_to(&rt, bytes, (32, 256));
    let eight = Alignment::of::<u64>();
    let word = Buffer::copy_from_preferred_aligned(rt.alloc(), &[7u64], eight, None);
    aligned_to(&rt, word, (8, 8));
}

#[test]
fn empty_buffers_have_the_alignment_of_an_item(rt: HostRuntime) {
    let empty = Buffer::<u64, _>::empty(rt.alloc());
    equal(&rt, empty.alignment().as_usize(), 8);
    drop(empty);
    let empty = BufferMut::<u64, _>::empty(rt.alloc());
    equal(&rt, empty.declared().as_usize(), 256);
    drop(empty);
}

/// The bytes of five numbers, from the second byte on.
fn tail_of_bytes<A: Allocator + Clone>(
    rt: &impl Abort,
    made: Result<Buffer<i32, A>>,
) -> Buffer<u8, A> {
    let numbers = made.expect(rt, "a buffer");
    let bytes = numbers.into_byte_buffer().expect(rt, "bytes");
    equal(rt, bytes.can_slice(1..2, Alignment::of::<i32>()), false);
    equal(rt, bytes.len(), 20);
    is_zero(rt, part(rt, &bytes, 1..2));
    let tail = part(rt, &bytes, 1..20);
    drop(bytes);
    tail
}

/// It is a single byte, which is 0.
fn is_zero<A: Allocator>(rt: &impl Abort, byte: Buffer<u8, A>) {
    equal(rt, byte.as_slice(), &[0]);
    drop(byte);
}

fn starts_a_byte_late<A: Allocator + Clone>(rt: &impl Abort, tail: Buffer<u8, A>) {
    equal(rt, tail.len(), 19);
    equal(rt, tail.can_slice(0..4, Alignment::of::<i32>()), false);
    equal(rt, tail.can_slice(3..7, Alignment::of::<i32>()), true);
    let first = part(rt, &tail, 0..1);
    drop(tail);
    is_zero(rt, first);
}

#[test]
fn a_slice_is_placed_from_the_start_of_the_storage(rt: HostRuntime) {
    let numbers = Buffer::copy_from(rt.alloc(), &[0, 1, 2, 3, 4]);
    starts_a_byte_late(&rt, tail_of_bytes(&rt, numbers));
}
