//! Worked rows: results and errors of calls.
use crate::compared::{equal, equal_bytes, has, holds, refusal, shows};
use std::alloc::{Allocator, Global};
use std::process::Abort;
use vb_testing::Refusing;
use vortex_buffer::{
    AlignedBuf, Alignment, Buffer, BufferError, BufferString, ByteBuffer, ConstBuffer, Element,
    copy_to_const_aligned,
};

/// The error of turning a buffer with the alignment of its items into one of alignment `N`.
fn refused_as<const N: usize, T: Element>(
    rt: &impl Abort,
    alloc: Global,
    items: &[T],
) -> Option<BufferError> {
    let buffer = Buffer::copy_from(alloc, items).expect(rt, "memory");
    refusal(ConstBuffer::<T, N, _>::try_from_buffer(buffer))
}

#[test]
fn an_alignment_of_a_type_is_tested(rt: HostRuntime) {
    let eight = refused_as::<8, u32>(&rt, rt.alloc(), &[1, 2]);
    let two = refused_as::<2, u32>(&rt, rt.alloc(), &[1, 2]);
    equal(&rt, (eight, two), (Some(BufferError::NotAligned), None));
    let three = refused_as::<3, u8>(&rt, rt.alloc(), b"bytes");
    equal(&rt, three, Some(BufferError::NotPowerOfTwo { value: 3 }));
    let none = refused_as::<0, u8>(&rt, rt.alloc(), b"bytes");
    equal(&rt, none, Some(BufferError::NotPowerOfTwo { value: 0 }));
}

/// A fixed buffer of these items has the same length, and gives them in turn.
fn gives_items<const N: usize>(rt: &impl Abort, alloc: Global, items: &[u32]) {
    let buffer = Buffer::copy_from(alloc, items).expect(rt, "memory");
    let fixed = ConstBuffer::<u32, N, _>::try_from_buffer(buffer).expect(rt, "its alignment");
    equal(
        rt,
        (fixed.len(), fixed.is_empty()),
        (items.len(), items.is_empty()),
    );
    equal(rt, fixed.iter().eq(items.iter()), true);
    let mut wanted = items.iter();
    for item in &fixed {
        equal(rt, Some(*item), wanted.next().copied());
    }
    equal(rt, wanted.next(), None);
    drop(fixed);
}

#[test]
fn a_fixed_buffer_gives_its_items(rt: HostRuntime) {
    gives_items::<4>(&rt, rt.alloc(), &[3, 1, 4]);
    gives_items::<2>(&rt, rt.alloc(), &[]);
}

/// The first text is "hello", the bytes are "world", and the last text is empty.
fn are_texts<A: Allocator>(
    rt: &impl Abort,
    hello: &BufferString<A>,
    bytes: ByteBuffer<A>,
    empty: &BufferString<A>,
) {
    has(rt, hello.inner(), b"hello", (1, 256));
    equal(rt, hello.as_str(), "hello");
    let sizes = (hello.len(), hello.is_empty(), empty.is_empty());
    equal(rt, sizes, (5, false, true));
    let world = BufferString::try_from_buffer(bytes).expect(rt, "a text");
    let answers = (*hello == world, *hello < world, *empty < *hello);
    equal(rt, answers, (false, true, true));
    drop(world);
}

#[test]
fn a_text_is_its_bytes(rt: HostRuntime) {
    let hello = BufferString::from_str(rt.alloc(), "hello").expect(&rt, "memory");
    let world = Buffer::copy_from(rt.alloc(), b"world").expect(&rt, "memory");
    let empty = BufferString::empty(rt.alloc());
    are_texts(&rt, &hello, world, &empty);
    drop((hello, empty));
}

/// A body that allocates before it looks at the text fails here.
#[test]
fn a_text_is_tested_before_memory_is_asked(rt: HostRuntime) {
    let heap = Refusing::new(rt.alloc(), 1);
    let mut long = [b'a'; 301];
    long[300] = 0xE2;
    let short = refusal(BufferString::try_from_slice(&heap, &[0, 255]));
    equal(&rt, short, Some(BufferError::NotUtf8 { valid_up_to: 1 }));
    let long = refusal(BufferString::try_from_slice(&heap, &long));
    equal(&rt, long, Some(BufferError::NotUtf8 { valid_up_to: 300 }));
    equal(&rt, heap.asked(), 0);
}

/// The bytes that are left are "world".
fn is_world<A: Allocator>(rt: &impl Abort, text: ByteBuffer<A>) {
    equal(rt, text.remaining(), 5);
    equal_bytes(rt, text.chunk(), b"world");
    drop(text);
}

/// Eight bytes of alignment 4 can advance by four, but not by two or twelve.
fn steps_by_four<A: Allocator>(rt: &impl Abort, eight: ByteBuffer<A>) {
    let (two, four) = (eight.can_advance(2), eight.can_advance(4));
    equal(rt, (two, four, eight.can_advance(12)), (false, true, false));
    drop(eight);
}

#[test]
fn bytes_are_read_from_the_front(rt: HostRuntime) {
    let mut text = Buffer::copy_from(rt.alloc(), b"helloworld").expect(&rt, "memory");
    text.advance(5);
    is_world(&rt, text);
    let eight = Buffer::copy_from_aligned(rt.alloc(), &[7; 8], Alignment::new(4));
    steps_by_four(&rt, eight.expect(&rt, "memory"));
    let mut four: &[u8] = &[1, 2, 3, 4];
    let copy = four.copy_to_aligned(rt.alloc(), 3, Alignment::new(16));
    equal(&rt, shows(&rt, copy, &[1, 2, 3], (16, 256)), Ok(()));
    equal(&rt, four.remaining(), 1);
}

/// The rest has these bytes. It reports alignment 4, in storage that is declared with 256;
/// `aligned` says whether it is aligned to 8 and to 16.
fn is_left(rt: &impl Abort, rest: &ByteBuffer<Global>, bytes: &[u8], aligned: (bool, bool)) {
    has(rt, rest, bytes, (4, 256));
    let (eight, sixteen) = (Alignment::new(8), Alignment::new(16));
    let given = (rest.is_aligned(eight), rest.is_aligned(sixteen));
    equal(rt, given, aligned);
}

/// Bytes that equal their indices.
const BYTES: &[u8] = &[0, 1, 2, 3, 4, 5, 6, 7, 8, 9, 10, 11, 12, 13, 14, 15];

/// A copy that gives the rest another alignment, or another storage, fails here.
#[test]
fn copies_leave_the_alignments_of_the_rest(rt: HostRuntime) {
    let made = Buffer::copy_from_aligned(rt.alloc(), BYTES, Alignment::new(4));
    let mut rest = made.expect(&rt, "memory");
    is_left(&rt, &rest, BYTES, (true, true));
    holds(&rt, rest.can_advance(4));
    let copy = rest.copy_to_aligned(rt.alloc(), 4, Alignment::new(16));
    is_left(&rt, &rest, &BYTES[4..], (false, false));
    equal(&rt, shows(&rt, copy, &BYTES[..4], (16, 256)), Ok(()));
    holds(&rt, rest.can_advance(4));
    let fixed = copy_to_const_aligned::<512, _, _>(&mut rest, rt.alloc(), 4).expect(&rt, "memory");
    is_left(&rt, &rest, &BYTES[8..], (true, false));
    equal_bytes(&rt, fixed.as_slice(), &BYTES[4..8]);
    drop((fixed, rest));
}
