//! The items of buffers as bytes, and back: bytes that are known, and each request for memory
//! refused in turn.
use crate::compared::{equal, shows};
use bytes::Bytes;
use std::alloc::Allocator;
use std::fmt::Debug;
use std::process::Abort;
use vb_core::{Alignment, BufferError, Element, Result, byte_count, item_count};
use vb_mem::{Buffer, BufferMut};
use vb_testing::{Handle, Refusing};

/// The items that were made have these bytes.
fn has_bytes<T: Element, A: Allocator + Clone>(
    rt: &impl Abort,
    made: Result<Buffer<T, A>>,
    wanted: &[u8],
) {
    let items = made.expect(rt, "items");
    let bytes = items.as_bytes().expect(rt, "bytes");
    equal(rt, bytes.as_slice(), wanted);
    drop((items, bytes));
}

#[test]
fn bytes_stand_in_little_endian_order(rt: HostRuntime) {
    let words = Buffer::copy_from(rt.alloc(), &[1u32, 256]);
    has_bytes(&rt, words, &[1, 0, 0, 0, 0, 1, 0, 0]);
    let negative = Buffer::copy_from(rt.alloc(), &[-2i16]);
    has_bytes(&rt, negative, &[0xfe, 0xff]);
}

const SEVEN: BufferError = BufferError::ByteLength { len: 7, size: 4 };

/// Seven bytes are no items, in a buffer and as `Bytes`.
fn seven_are_refused<A: Allocator + Clone>(rt: &impl Abort, made: Result<Buffer<u8, A>>, alloc: A) {
    let seven = made.expect(rt, "bytes");
    let twin = seven.clone().expect(rt, "bytes");
    equal(
        rt,
        Buffer::<u32, _>::from_byte_buffer(twin).err(),
        Some(SEVEN),
    );
    let bytes = seven.into_bytes().expect(rt, "bytes");
    let answer = Buffer::<u32, _>::from_bytes(alloc, bytes);
    equal(rt, answer.err(), Some(SEVEN));
}

#[test]
fn bytes_that_are_no_items_are_refused(rt: HostRuntime) {
    seven_are_refused(&rt, Buffer::copy_from(rt.alloc(), &[0; 7]), rt.alloc());
}

/// One request allocates a thousand items, and another one the count of owners. A body that copies
/// the bytes first, or allocates before it counts them, fails here.
#[test]
fn bytes_of_a_slice_are_read_once(rt: HostRuntime) {
    let heap = Refusing::new(rt.alloc(), 0);
    let item = Alignment::of::<u32>();
    let made = Buffer::read_from(&heap, &[1; 4000], item);
    equal(&rt, heap.asked(), 2);
    equal(&rt, heap.asks_within(4000, 4256), true);
    has_items(&rt, made, &[0x0101_0101u32; 1000], 4);
    let seven = Buffer::<u32, _>::read_from(&heap, &[1; 7], item);
    equal(&rt, seven.err(), Some(SEVEN));
    equal(&rt, heap.asked(), 0);
}

/// No list has more bytes than a `usize` can count, so only the calls that count are tested.
#[test]
fn byte_counts_past_usize_are_refused(rt: HostRuntime) {
    equal(&rt, byte_count::<u32>(3), Ok(12));
    equal(&rt, item_count::<u32>(12), Ok(3));
    let refused = Err(BufferError::TooManyBytes);
    equal(&rt, byte_count::<u128>(1 << 60), refused);
}

/// The items that were made are these, and have this alignment in bytes.
fn has_items<T: Element + PartialEq + Debug, A: Allocator>(
    rt: &impl Abort,
    made: Result<Buffer<T, A>>,
    items: &[T],
    alignment: usize,
) {
    let buffer = made.expect(rt, "items");
    equal(rt, buffer.as_slice(), items);
    equal(rt, buffer.alignment().as_usize(), alignment);
    drop(buffer);
}

/// Two numbers, read with a wide alignment from the bytes of a growing buffer.
fn read_wide<A: Allocator + Clone>(
    rt: &impl Abort,
    made: Result<BufferMut<i64, A>>,
) -> Result<Buffer<i64, A>> {
    let open = made.expect(rt, "items").into_byte_buffer();
    let bytes = open.expect(rt, "bytes").freeze().expect(rt, "bytes");
    equal(rt, (bytes.len(), bytes.alignment().as_usize()), (16, 8));
    Buffer::from_byte_buffer_aligned(bytes, Alignment::from_exponent(5))
}

#[test]
fn bytes_go_both_ways(rt: HostRuntime) {
    let open = BufferMut::copy_from(rt.alloc(), &[-1, i64::MIN]);
    has_items(&rt, read_wide(&rt, open), &[-1, i64::MIN], 32);
}

/// Two numbers by `Bytes`.
fn read_bytes<A: Allocator + Clone>(
    rt: &impl Abort,
    made: Result<Buffer<u128, A>>,
    alloc: A,
) -> Result<Buffer<u128, A>> {
    let bytes = made.expect(rt, "items").into_bytes().expect(rt, "bytes");
    equal(rt, bytes.len(), 32);
    Buffer::from_bytes(alloc, bytes)
}

#[test]
fn bytes_of_another_crate_go_both_ways(rt: HostRuntime) {
    let items = Buffer::copy_from(rt.alloc(), &[u128::MAX, 1]);
    let back = read_bytes(&rt, items, rt.alloc());
    has_items(&rt, back, &[u128::MAX, 1], 16);
}

/// How the items become bytes.
enum Form {
    AsBytes,
    IntoByteBuffer,
    OfGrowing,
}

impl Form {
    /// The bytes of 1 and 2.
    fn make<A: Allocator + Clone>(&self, alloc: A) -> Result<Buffer<u8, A>> {
        match self {
            Form::AsBytes => bytes_of(Buffer::copy_from(alloc, ITEMS)),
            Form::IntoByteBuffer => bytes_from(Buffer::copy_from(alloc, ITEMS)),
            Form::OfGrowing => bytes_of_growing(BufferMut::copy_from(alloc, ITEMS)),
        }
    }
}

const ITEMS: &[u32] = &[1, 2];

fn bytes_of<A: Allocator + Clone>(made: Result<Buffer<u32, A>>) -> Result<Buffer<u8, A>> {
    let items = made?;
    let bytes = items.as_bytes();
    drop(items);
    bytes
}

fn bytes_from<A: Allocator + Clone>(made: Result<Buffer<u32, A>>) -> Result<Buffer<u8, A>> {
    made?.into_byte_buffer()
}

fn bytes_of_growing<A: Allocator + Clone>(
    made: Result<BufferMut<u32, A>>,
) -> Result<Buffer<u8, A>> {
    made?.into_byte_buffer()?.freeze()
}

/// The bytes of 1 and 2 as `Bytes`.
fn in_bytes<A: Allocator + Clone>(alloc: &A) -> Result<Bytes<A>> {
    Buffer::copy_from(alloc.clone()?, ITEMS)?.into_bytes()
}

/// The bytes of 1 and 2.
const BYTES: &[u8] = &[1, 0, 0, 0, 2, 0, 0, 0];

/// How items become bytes and items again, or bytes become items.
enum Way {
    Buffer(Form),
    BufferAligned(Form),
    Bytes,
    BytesAligned,
    Slice,
    SliceAligned,
}

impl Way {
    fn make<A: Allocator + Clone>(&self, alloc: A) -> Result<Buffer<u32, A>> {
        let wide = Alignment::from_exponent(9);
        match self {
            Way::Buffer(form) => Buffer::from_byte_buffer(form.make(alloc)?),
            Way::BufferAligned(form) => Buffer::from_byte_buffer_aligned(form.make(alloc)?, wide),
            Way::Bytes => of_bytes(alloc, false),
            Way::BytesAligned => of_bytes(alloc, true),
            Way::Slice => Buffer::read_from(alloc, BYTES, Alignment::of::<u32>()),
            Way::SliceAligned => Buffer::read_from(alloc, BYTES, wide),
        }
    }
}

/// The items of `Bytes`, aligned as they are or to 512 bytes.
fn of_bytes<A: Allocator + Clone>(alloc: A, is_wide: bool) -> Result<Buffer<u32, A>> {
    let bytes = match in_bytes(&alloc) {
        Ok(bytes) => bytes,
        Err(refused) => {
            drop(alloc);
            return Err(refused);
        }
    };
    if is_wide {
        Buffer::from_bytes_aligned(alloc, bytes, Alignment::from_exponent(9))
    } else {
        Buffer::from_bytes(alloc, bytes)
    }
}

/// The ways, each with the reported and the declared alignment of what it makes, and how many
/// requests it makes, including those for its input.
const WAYS: &[(Way, (usize, usize), u64)] = &[
    (Way::Buffer(Form::AsBytes), (4, 256), 14),
    (Way::Buffer(Form::IntoByteBuffer), (4, 256), 14),
    (Way::Buffer(Form::OfGrowing), (4, 256), 11),
    (Way::BufferAligned(Form::AsBytes), (512, 512), 14),
    (Way::Bytes, (4, 256), 14),
    (Way::BytesAligned, (512, 512), 14),
    (Way::Slice, (4, 256), 5),
    (Way::SliceAligned, (512, 512), 5),
];

#[test]
fn bytes_are_made_and_read_or_refused(rt: HostRuntime) {
    let heap = Refusing::new(rt.alloc(), 0);
    for (way, alignments, requests) in WAYS {
        for _ in heap.in_turn() {
            let made = way.make(Handle { inner: &heap });
            let answer = shows(&rt, made, ITEMS, *alignments);
            let refused = Err(BufferError::OutOfMemory);
            equal(&rt, answer, heap.wanted(Ok(()), refused));
        }
        equal(&rt, (heap.has_refused(), heap.asked()), (false, *requests));
    }
}
