//! Calls that allocate: what they make, and each of their requests refused in turn.
use crate::compared::{equal, equal_bytes, holds, shows};
use std::alloc::{Allocator, Global};
use std::process::Abort;
use vb_testing::{Handle, Refusing};
use vortex_buffer::{
    AlignedBuf, Alignment, Buffer, BufferError, BufferString, ByteBuffer, ConstBuffer,
    ConstByteBuffer, Result, copy_to_const_aligned,
};

/// The allocator of the calls. Calls with a number in a type, such as those of `ConstByteBuffer`,
/// are proved for an allocator of known size.
type Heap<'a> = Handle<&'a Refusing<Global>>;

/// A call that makes a buffer of the bytes of "hello".
enum Call {
    FixedCopyFrom,
    FixedAlignFrom,
    FixedAlignFromShared,
    FixedClone,
    TextFromStr,
    TextFromString,
    TextTryFromSlice,
    TextClone,
    CopyOfSlice,
    CopyOfBuffer,
    FixedCopyOfSlice,
}

impl Call {
    fn make<'a>(
        &self,
        rt: &impl Abort,
        heap: &'a Refusing<Global>,
    ) -> Result<ByteBuffer<Heap<'a>>> {
        match self {
            Call::FixedCopyFrom => of_fixed(fixed(heap)),
            Call::FixedAlignFrom => aligned(Buffer::copy_from(handle(heap), b"hello")),
            Call::FixedAlignFromShared => aligned_of_shared(heap),
            Call::FixedClone => of_fixed(fixed_clone(heap)),
            Call::TextFromStr => of_text(text(heap)),
            Call::TextFromString => of_text(text_of_string(heap)),
            Call::TextTryFromSlice => of_text(BufferString::try_from_slice(handle(heap), b"hello")),
            Call::TextClone => of_text(text_clone(heap)),
            Call::CopyOfSlice => copied(rt, heap, b"hello, world".as_slice()),
            Call::CopyOfBuffer => copied_of_buffer(rt, heap),
            Call::FixedCopyOfSlice => fixed_copied(rt, heap),
        }
    }
}

fn handle(heap: &Refusing<Global>) -> Heap<'_> {
    Handle { inner: heap }
}

fn fixed(heap: &Refusing<Global>) -> Result<ConstByteBuffer<512, Heap<'_>>> {
    ConstBuffer::copy_from(handle(heap), b"hello")
}

fn fixed_clone(heap: &Refusing<Global>) -> Result<ConstByteBuffer<512, Heap<'_>>> {
    let bytes = fixed(heap)?;
    let copy = bytes.clone();
    drop(bytes);
    copy
}

fn of_fixed<'a, const N: usize>(
    made: Result<ConstByteBuffer<N, Heap<'a>>>,
) -> Result<ByteBuffer<Heap<'a>>> {
    Ok(made?.into_inner())
}

fn aligned<'a>(made: Result<ByteBuffer<Heap<'a>>>) -> Result<ByteBuffer<Heap<'a>>> {
    of_fixed::<16>(ConstBuffer::align_from(made?))
}

fn aligned_of_shared(heap: &Refusing<Global>) -> Result<ByteBuffer<Heap<'_>>> {
    let whole = Buffer::copy_from(handle(heap), b"ohello")?;
    let part = aligned(whole.slice(1..6));
    drop(whole);
    part
}

fn text(heap: &Refusing<Global>) -> Result<BufferString<Heap<'_>>> {
    BufferString::from_str(handle(heap), "hello")
}

fn text_of_string(heap: &Refusing<Global>) -> Result<BufferString<Heap<'_>>> {
    BufferString::from_string(handle(heap), String::from_str(handle(heap), "hello")?)
}

fn text_clone(heap: &Refusing<Global>) -> Result<BufferString<Heap<'_>>> {
    let text = text(heap)?;
    let copy = text.clone();
    drop(text);
    copy
}

fn of_text<A: Allocator>(made: Result<BufferString<A>>) -> Result<ByteBuffer<A>> {
    Ok(made?.into_inner())
}

// The rest of "hello, world" after a copy of its first five bytes; all of it if the copy failed.
fn left<T>(copy: &Result<T>) -> &'static [u8] {
    if copy.is_ok() {
        b", world"
    } else {
        b"hello, world"
    }
}

fn copied<'a, B: AlignedBuf + Drop>(
    rt: &impl Abort,
    heap: &'a Refusing<Global>,
    mut bytes: B,
) -> Result<ByteBuffer<Heap<'a>>> {
    holds(rt, bytes.can_advance(5));
    let copy = bytes.copy_to_aligned(handle(heap), 5, Alignment::new(16));
    equal_bytes(rt, bytes.chunk(), left(&copy));
    drop(bytes);
    copy
}

fn copied_of_buffer<'a>(
    rt: &impl Abort,
    heap: &'a Refusing<Global>,
) -> Result<ByteBuffer<Heap<'a>>> {
    copied(rt, heap, Buffer::copy_from(handle(heap), b"hello, world")?)
}

fn fixed_copied<'a>(rt: &impl Abort, heap: &'a Refusing<Global>) -> Result<ByteBuffer<Heap<'a>>> {
    let mut bytes: &[u8] = b"hello, world";
    let copy = copy_to_const_aligned::<1024, _, _>(&mut bytes, handle(heap), 5);
    equal_bytes(rt, bytes.chunk(), left(&copy));
    of_fixed(copy)
}

/// The calls, each with the reported and the declared alignment of its result, and the number of
/// requests, including copies of the allocator and those for its input.
const ROWS: &[(Call, (usize, usize), u64)] = &[
    (Call::FixedCopyFrom, (512, 512), 4),
    (Call::FixedAlignFrom, (16, 256), 4),
    // A body that keeps an unaligned address fails here, and so does one that tests only the
    // declared alignment.
    (Call::FixedAlignFromShared, (16, 256), 10),
    (Call::FixedClone, (512, 512), 5),
    (Call::TextFromStr, (1, 256), 4),
    (Call::TextFromString, (1, 1), 3),
    (Call::TextTryFromSlice, (1, 256), 4),
    (Call::TextClone, (1, 256), 5),
    (Call::CopyOfSlice, (16, 256), 4),
    (Call::CopyOfBuffer, (16, 256), 8),
    (Call::FixedCopyOfSlice, (1024, 1024), 4),
];

#[test]
fn made_buffers_show_their_items_or_each_request_is_refused(rt: HostRuntime) {
    let heap = Refusing::new(rt.alloc(), 0);
    let refused = Err(BufferError::OutOfMemory);
    for (call, alignments, requests) in ROWS {
        for _ in heap.in_turn() {
            let answer = shows(&rt, call.make(&rt, &heap), b"hello", *alignments);
            equal(&rt, answer, heap.wanted(Ok(()), refused));
        }
        equal(&rt, heap.has_ended(*requests), true);
    }
}
