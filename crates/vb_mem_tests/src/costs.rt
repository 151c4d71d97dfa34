//! What calls allocate: an owner for `freeze`, nothing for other calls that share or work in place,
//! and at most twice the bytes that they need if they copy or grow.
use crate::compared::equal;
use crate::makers::{Twin, cloned, frozen, opened};
use crate::sharing::fill_items;
use std::alloc::{Allocator, Global};
use std::process::Abort;
use vb_core::{Alignment, Result};
use vb_mem::{Buffer, BufferMut};
use vb_testing::Refusing;

/// The items of the buffers, or of a part.
const SEVENS: [u32; 1001] = [7; 1001];

/// The items are sevens.
fn are_sevens(rt: &impl Abort, items: &[u32]) {
    equal(rt, SEVENS.starts_with(items), true);
}

/// A call on a growing buffer of a thousand sevens, which fill storage with a declared alignment of
/// 256 bytes.
enum Growing {
    Freeze,
    Take,
    AlignedWithin,
    AlignedBeyond,
    Clone,
    Reserve,
    ReserveExact,
    Push,
    Within,
}

impl Growing {
    fn make<A: Allocator + Clone>(
        &self,
        rt: &impl Abort,
        mut buffer: BufferMut<u32, A>,
    ) -> Result<BufferMut<u32, A>> {
        match self {
            Growing::Freeze => return opened(buffer.freeze()),
            Growing::Take => return buffer.take(),
            Growing::AlignedWithin => return buffer.aligned(Alignment::from_exponent(8)),
            Growing::AlignedBeyond => return buffer.aligned(Alignment::from_exponent(9)),
            Growing::Clone => return cloned(Ok(buffer)),
            Growing::Reserve => buffer.reserve(1000).expect(rt, "room"),
            Growing::ReserveExact => buffer.reserve_exact(500).expect(rt, "room"),
            Growing::Push => buffer.push(7).expect(rt, "room"),
            Growing::Within => {
                buffer.clear();
                buffer.push_n(7, 1000).expect(rt, "room");
            }
        }
        Ok(buffer)
    }
}

/// The calls, how many requests each makes, and for how many bytes: at least, and at most. An owner
/// takes less than 256 bytes.
const GROWING: &[(Growing, u64, usize, usize)] = &[
    // A body that copies the items fails here.
    (Growing::Freeze, 1, 1, 256),
    (Growing::Take, 0, 0, 0),
    (Growing::AlignedWithin, 0, 0, 0),
    // A body that raises the declared alignment and moves no item fails here.
    (Growing::AlignedBeyond, 1, 4000, 8000),
    (Growing::Clone, 1, 4000, 8000),
    // A body that allocates four times the capacity fails here.
    (Growing::Reserve, 1, 8000, 16000),
    // A body that doubles the capacity fails here.
    (Growing::ReserveExact, 1, 6000, 6000),
    (Growing::Push, 1, 4004, 8008),
    (Growing::Within, 0, 0, 0),
];

/// Makes a call on a buffer of a thousand sevens. What it makes is sevens.
fn grow_sevens<A: Allocator + Clone>(
    rt: &impl Abort,
    made: Result<BufferMut<u32, A>>,
    call: &Growing,
) {
    let made = call.make(rt, made.expect(rt, "room")).expect(rt, "room");
    are_sevens(rt, made.as_slice());
    drop(made);
}

#[test]
fn growing_buffers_ask_for_what_they_need(rt: HostRuntime) {
    let heap = Refusing::new(rt.alloc(), 0);
    for (call, requests, least, most) in GROWING {
        heap.refuse(0);
        let made = BufferMut::full(&heap, 7, 1000);
        equal(&rt, heap.asks_within(4000, 4000), true);
        grow_sevens(&rt, made, call);
        equal(&rt, heap.asked(), *requests);
        equal(&rt, heap.asks_within(*least, *most), true);
    }
}

/// Turns a buffer into a vector. That doesn't allocate.
fn is_vector<A: Allocator>(
    rt: &impl Abort,
    heap: &Refusing<Global>,
    made: Result<BufferMut<u32, A>>,
) {
    let buffer = made.expect(rt, "room");
    let room = buffer.capacity();
    heap.refuse(1);
    let items = buffer.into_vec();
    are_sevens(rt, items.as_slice());
    equal(rt, (items.len(), items.capacity()), (1000, room));
    equal(rt, heap.asked(), 0);
    drop(items);
}

#[test]
fn a_vector_has_the_storage_itself(rt: HostRuntime) {
    let heap = Refusing::new(rt.alloc(), 0);
    is_vector(&rt, &heap, BufferMut::full(&heap, 7, 1000));
}

/// A call on a shared buffer of a thousand sevens that has no other owner.
enum Shared {
    Twin(Twin),
    TwinOfSlice,
    AlignedWithin,
    AlignedBeyond,
    EnsureAligned,
    IntoMut,
    IntoMutOfSlice,
    IntoMutOfTwo,
    ItemsMut,
    ItemsMutOfSlice,
    ItemsMutOfTwo,
}

/// A part that begins at a multiple of the alignment of the whole.
const SLICE: Twin = Twin::Slice(64, 1000);

impl Shared {
    fn make<A: Allocator + Clone>(
        &self,
        rt: &impl Abort,
        buffer: Buffer<u32, A>,
    ) -> Result<Buffer<u32, A>> {
        match self {
            Shared::Twin(call) => call.of(Ok(buffer)),
            Shared::TwinOfSlice => Twin::Clone.of(SLICE.of(Ok(buffer))),
            Shared::AlignedWithin => buffer.aligned(Alignment::from_exponent(8)),
            Shared::AlignedBeyond => buffer.aligned(Alignment::from_exponent(9)),
            Shared::EnsureAligned => buffer.ensure_aligned(Alignment::from_exponent(8)),
            Shared::IntoMut => frozen(buffer.into_mut()),
            Shared::IntoMutOfSlice => frozen(opened(SLICE.of(Ok(buffer)))),
            Shared::IntoMutOfTwo => {
                let opened = opened(buffer.clone());
                drop(buffer);
                frozen(opened)
            }
            Shared::ItemsMut => written(rt, Ok(buffer)),
            Shared::ItemsMutOfSlice => written(rt, SLICE.of(Ok(buffer))),
            Shared::ItemsMutOfTwo => {
                let written = written(rt, buffer.clone());
                drop(buffer);
                written
            }
        }
    }
}

/// Writes the items of a buffer that was made.
fn written<A: Allocator + Clone>(
    rt: &impl Abort,
    made: Result<Buffer<u32, A>>,
) -> Result<Buffer<u32, A>> {
    let mut buffer = made?;
    fill_items(rt, &mut buffer);
    Ok(buffer)
}

/// The calls, how many requests each makes, and for how many bytes: at least, and at most. `freeze`
/// allocates an owner.
const SHARED: &[(Shared, u64, usize, usize)] = &[
    // A body that copies the items fails here.
    (Shared::Twin(Twin::Clone), 0, 0, 0),
    (Shared::Twin(SLICE), 0, 0, 0),
    (Shared::TwinOfSlice, 0, 0, 0),
    (Shared::AlignedWithin, 0, 0, 0),
    (Shared::AlignedBeyond, 2, 4000, 8256),
    (Shared::EnsureAligned, 0, 0, 0),
    (Shared::IntoMut, 1, 1, 256),
    (Shared::IntoMutOfSlice, 1, 1, 256),
    (Shared::IntoMutOfTwo, 2, 4000, 8256),
    // A body that copies the items fails here.
    (Shared::ItemsMut, 0, 0, 0),
    (Shared::ItemsMutOfSlice, 0, 0, 0),
    (Shared::ItemsMutOfTwo, 2, 4000, 8256),
];

/// Makes a call on a buffer of a thousand sevens. What it makes is sevens.
fn share_sevens<A: Allocator + Clone>(
    rt: &impl Abort,
    made: Result<Buffer<u32, A>>,
    call: &Shared,
) {
    let made = call.make(rt, made.expect(rt, "room")).expect(rt, "room");
    are_sevens(rt, made.as_slice());
    drop(made);
}

#[test]
fn shared_buffers_ask_for_what_they_need(rt: HostRuntime) {
    let heap = Refusing::new(rt.alloc(), 0);
    for (call, requests, least, most) in SHARED {
        heap.refuse(0);
        let made = Buffer::full(&heap, 7, 1000);
        equal(&rt, heap.asks_within(4000, 4256), true);
        share_sevens(&rt, made, call);
        equal(&rt, heap.asked(), *requests);
        equal(&rt, heap.asks_within(*least, *most), true);
    }
}

/// A call that allocates for many items.
enum Room {
    WithCapacity,
    WithCapacityAligned,
    Zeroed,
}

impl Room {
    fn make<A: Allocator>(&self, alloc: A, capacity: usize) -> Result<BufferMut<u32, A>> {
        let wide = Alignment::from_exponent(9);
        match self {
            Room::WithCapacity => BufferMut::with_capacity(alloc, capacity),
            Room::WithCapacityAligned => BufferMut::with_capacity_aligned(alloc, capacity, wide),
            Room::Zeroed => BufferMut::zeroed(alloc, capacity),
        }
    }
}

const ROOMS: &[Room] = &[Room::WithCapacity, Room::WithCapacityAligned, Room::Zeroed];

/// A body that allocates a megabyte more fails here.
#[test]
fn room_is_what_was_asked_for(rt: HostRuntime) {
    let heap = Refusing::new(rt.alloc(), 0);
    for capacity in [100, 1000, 100_000] {
        for room in ROOMS {
            drop(room.make(&heap, capacity).expect(&rt, "room"));
            let is_within = heap.asks_within(4 * capacity, 8 * capacity);
            equal(&rt, is_within, true);
        }
    }
}
