//! Calls that have two allocators: from which of them they allocate. No contract can say it.
use crate::compared::equal;
use bytes::Bytes;
use std::alloc::{AllocError, Allocator};
use std::process::Abort;
use vb_core::{Alignment, BufferError, Result};
use vb_mem::{Buffer, BufferMut, ByteBuffer};
use vb_testing::Refusing;

/// A way to make a growing buffer from an allocator and a vector with another allocator.
enum Way {
    CopyFrom,
    CopyFromFrozen,
    FromBytes,
    /// Makes a shared buffer of both first.
    Shared(OfShared),
    /// Opens this shared buffer first.
    Open(OfOpen),
}

/// How the shared buffer becomes a growing one.
enum OfShared {
    /// By a second buffer, made while the shared one exists.
    Beside(Beside),
    IntoMut,
    TryIntoMut,
    ItemsMut,
    Aligned,
    IntoByteBuffer,
    IntoBytes,
    FromByteBuffer,
}

/// How a second buffer is made from the shared one, which is then dropped.
enum Beside {
    IntoMut,
    ItemsMut,
    AsBytes,
    Allocator,
}

/// How the growing buffer becomes another one.
enum OfOpen {
    FromMut,
    Frozen,
    Aligned,
    IntoByteBuffer,
    Clone,
    Taken,
    LeftByTake,
}

type Made<A> = Result<BufferMut<u8, A>>;

impl Way {
    fn make<A: Allocator + Clone>(&self, rt: &impl Abort, alloc: A, vector: Vec<u8, A>) -> Made<A> {
        match self {
            Way::CopyFrom => copy_of(alloc, vector),
            Way::CopyFromFrozen => frozen_copy_of(alloc, vector),
            Way::FromBytes => of_bytes(rt, alloc, vector),
            Way::Shared(way) => way.make(rt, Buffer::from_vec(alloc, vector)),
            Way::Open(way) => way.make(rt, opened(Buffer::from_vec(alloc, vector))),
        }
    }
}

impl OfShared {
    fn make<A: Allocator + Clone>(&self, rt: &impl Abort, made: Result<ByteBuffer<A>>) -> Made<A> {
        let buffer = made?;
        match self {
            OfShared::Beside(way) => way.alone(buffer),
            OfShared::IntoMut => buffer.into_mut(),
            OfShared::TryIntoMut => tried(buffer),
            OfShared::ItemsMut => written(Ok(buffer)),
            OfShared::Aligned => opened(buffer.aligned(Alignment::from_exponent(9))),
            OfShared::IntoByteBuffer => opened(buffer.into_byte_buffer()),
            OfShared::IntoBytes => by_bytes(rt, buffer),
            OfShared::FromByteBuffer => opened(ByteBuffer::from_byte_buffer(buffer)),
        }
    }
}

impl Beside {
    fn make<A: Allocator + Clone>(&self, buffer: &ByteBuffer<A>) -> Made<A> {
        match self {
            Beside::IntoMut => opened(buffer.clone()),
            Beside::ItemsMut => written(buffer.clone()),
            Beside::AsBytes => opened(buffer.as_bytes()),
            Beside::Allocator => room_of(buffer.allocator().clone()),
        }
    }

    fn alone<A: Allocator + Clone>(&self, buffer: ByteBuffer<A>) -> Made<A> {
        let other = self.make(&buffer);
        drop(buffer);
        other
    }
}

impl OfOpen {
    fn make<A: Allocator + Clone>(&self, rt: &impl Abort, made: Made<A>) -> Made<A> {
        let open = made?;
        match self {
            OfOpen::FromMut => opened(Buffer::from_mut(open)),
            OfOpen::Frozen => opened(open.freeze()),
            OfOpen::Aligned => open.aligned(Alignment::from_exponent(9)),
            OfOpen::IntoByteBuffer => open.into_byte_buffer(),
            OfOpen::Clone => cloned(open),
            OfOpen::Taken => taken(open),
            OfOpen::LeftByTake => left_by_take(rt, open),
        }
    }
}

fn copy_of<A: Allocator>(alloc: A, vector: Vec<u8, A>) -> Made<A> {
    let copy = BufferMut::copy_from(alloc, vector.as_slice());
    drop(vector);
    copy
}

fn frozen_copy_of<A: Allocator + Clone>(alloc: A, vector: Vec<u8, A>) -> Made<A> {
    let copy = Buffer::copy_from(alloc, vector.as_slice());
    drop(vector);
    opened(copy)
}

fn opened<A: Allocator + Clone>(made: Result<ByteBuffer<A>>) -> Made<A> {
    made?.into_mut()
}

fn tried<A: Allocator>(buffer: ByteBuffer<A>) -> Made<A> {
    match buffer.try_into_mut() {
        Ok(open) => Ok(open),
        Err(shared) => {
            drop(shared);
            Err(BufferError::NotAligned)
        }
    }
}

fn fill<A: Allocator + Clone>(buffer: &mut ByteBuffer<A>) -> Result<()> {
    buffer.items_mut()?.as_mut_slice().fill(7);
    Ok(())
}

fn written<A: Allocator + Clone>(made: Result<ByteBuffer<A>>) -> Made<A> {
    let mut buffer = made?;
    if let Err(refused) = fill(&mut buffer) {
        drop(buffer);
        return Err(refused);
    }
    buffer.into_mut()
}

fn of_bytes<A: Allocator + Clone>(rt: &impl Abort, alloc: A, vector: Vec<u8, A>) -> Made<A> {
    let bytes = Bytes::from_vec(vector).expect(rt, "bytes");
    opened(Buffer::from_bytes(alloc, bytes))
}

fn by_bytes<A: Allocator + Clone>(rt: &impl Abort, buffer: ByteBuffer<A>) -> Made<A> {
    let alloc = buffer.allocator().clone().expect(rt, "an allocator");
    let bytes = buffer.into_bytes().expect(rt, "bytes");
    opened(Buffer::from_bytes(alloc, bytes))
}

/// A new growing buffer with capacity, allocated by the allocator of another buffer.
fn room_of<A: Allocator>(alloc: Result<A, AllocError>) -> Made<A> {
    BufferMut::with_capacity(alloc?, 3)
}

fn taken<A: Allocator + Clone>(mut open: BufferMut<u8, A>) -> Made<A> {
    let taken = open.take();
    drop(open);
    taken
}

fn left_by_take<A: Allocator + Clone>(rt: &impl Abort, mut open: BufferMut<u8, A>) -> Made<A> {
    drop(open.take().expect(rt, "a buffer"));
    Ok(open)
}

fn cloned<A: Allocator + Clone>(open: BufferMut<u8, A>) -> Made<A> {
    let clone = open.clone();
    drop(open);
    clone
}

/// Which heaps get requests: the one that was given, and that of the vector.
type Heaps = (bool, bool);

const GIVEN: Heaps = (true, false);

const VECTORS: Heaps = (false, true);

const BOTH: Heaps = (true, true);

/// The ways, with the heaps that each allocates from, and those that growth and clones of its
/// result allocate from. `from_vec` allocates the block that counts owners from the given one.
const WAYS: &[(Way, Heaps, Heaps)] = &[
    (Way::CopyFrom, GIVEN, GIVEN),
    (Way::CopyFromFrozen, GIVEN, GIVEN),
    // `Bytes` keep a block of their own.
    (Way::FromBytes, BOTH, GIVEN),
    // The storage is the vector's.
    (Way::Shared(OfShared::IntoMut), GIVEN, VECTORS),
    (Way::Shared(OfShared::TryIntoMut), GIVEN, VECTORS),
    (Way::Shared(OfShared::ItemsMut), GIVEN, VECTORS),
    // A copy is allocated by the buffer's allocator, the given one.
    (Way::Shared(OfShared::Beside(Beside::IntoMut)), GIVEN, GIVEN),
    (
        Way::Shared(OfShared::Beside(Beside::ItemsMut)),
        GIVEN,
        GIVEN,
    ),
    (Way::Shared(OfShared::Aligned), GIVEN, GIVEN),
    (Way::Shared(OfShared::Beside(Beside::AsBytes)), GIVEN, GIVEN),
    (Way::Shared(OfShared::IntoByteBuffer), GIVEN, GIVEN),
    (Way::Shared(OfShared::IntoBytes), GIVEN, GIVEN),
    (Way::Shared(OfShared::FromByteBuffer), GIVEN, GIVEN),
    (
        Way::Shared(OfShared::Beside(Beside::Allocator)),
        GIVEN,
        GIVEN,
    ),
    // The open buffer has the vector's storage.
    (Way::Open(OfOpen::FromMut), BOTH, VECTORS),
    (Way::Open(OfOpen::Frozen), BOTH, VECTORS),
    (Way::Open(OfOpen::Clone), BOTH, VECTORS),
    (Way::Open(OfOpen::Aligned), BOTH, VECTORS),
    (Way::Open(OfOpen::IntoByteBuffer), BOTH, VECTORS),
    (Way::Open(OfOpen::Taken), GIVEN, VECTORS),
    (Way::Open(OfOpen::LeftByTake), GIVEN, VECTORS),
];

/// Exactly these heaps got requests since the last call of this function.
fn are_asked<B: Allocator>(
    rt: &impl Abort,
    given: &Refusing<B>,
    vectors: &Refusing<B>,
    wanted: Heaps,
) {
    equal(rt, (given.asked() > 0, vectors.asked() > 0), wanted);
    given.refuse(0);
    vectors.refuse(0);
}

/// What was made, grown past its capacity.
fn grown<A: Allocator>(rt: &impl Abort, made: Made<A>) -> BufferMut<u8, A> {
    let mut open = made.expect(rt, "a buffer");
    open.push_n(7, 1000).expect(rt, "room");
    open
}

const ITEMS: &[u8] = &[1, 2, 3];

#[test]
fn the_allocator_that_is_kept_is_asked(rt: HostRuntime) {
    let (given, vectors) = (Refusing::new(rt.alloc(), 0), Refusing::new(rt.alloc(), 0));
    for (way, making, later) in WAYS {
        let vector = ITEMS.to_vec(&vectors).expect(&rt, "a vector");
        are_asked(&rt, &given, &vectors, VECTORS);
        let made = way.make(&rt, &given, vector);
        are_asked(&rt, &given, &vectors, *making);
        let open = grown(&rt, made);
        are_asked(&rt, &given, &vectors, *later);
        drop(cloned(open));
        are_asked(&rt, &given, &vectors, *later);
    }
}
