//! Changes of a buffer: what a refused request leaves, and that no change fails while there is
//! memory.
use crate::compared::{answers, counts, equal, holds};
use crate::items::{TRIED, each, refusal};
use crate::makers::opened;
use std::alloc::Allocator;
use std::process::Abort;
use vb_core::{Result, trusted_len};
use vb_mem::{Buffer, BufferMut};
use vb_testing::{Handle, Refusing};

/// A change of a growing buffer that is made as a whole or not at all.
enum Change {
    Reserve,
    ReserveExact,
    Push,
    PushN,
    Resize,
    ExtendFromSlice,
    Extend,
    ExtendTrusted,
    TryExtendTrusted,
    Take,
}

/// Some items.
const EIGHTS: &[u32] = &[8, 8, 8];

impl Change {
    fn make<A: Allocator + Clone>(&self, buffer: &mut BufferMut<u32, A>) -> Result<()> {
        match self {
            Change::Reserve => reserve(buffer),
            Change::ReserveExact => reserve_exact(buffer),
            Change::Push => buffer.push(8),
            Change::PushN => buffer.push_n(8, 3),
            Change::Resize => buffer.resize(buffer.len().saturating_add(3), 8),
            Change::ExtendFromSlice => buffer.extend_from_slice(EIGHTS),
            Change::Extend => buffer.extend((0..3u32).filter(each)),
            Change::ExtendTrusted => buffer.extend_trusted(0..3u32),
            Change::TryExtendTrusted => try_extend(buffer),
            Change::Take => buffer.take().map(drop),
        }
    }
}

fn reserve<A: Allocator>(buffer: &mut BufferMut<u32, A>) -> Result<()> {
    buffer.reserve(3)?;
    buffer.push_n_unchecked(8, 3);
    Ok(())
}

fn reserve_exact<A: Allocator>(buffer: &mut BufferMut<u32, A>) -> Result<()> {
    buffer.reserve_exact(3)?;
    buffer.push_n_unchecked(8, 3);
    Ok(())
}

fn try_extend<A: Allocator>(buffer: &mut BufferMut<u32, A>) -> Result<()> {
    let values = trusted_len(TRIED.iter().copied(), 1);
    buffer.try_extend_trusted(values).map_err(refusal)
}

/// A change in a state in which it allocates.
enum Trial {
    /// A change of a buffer that is full of sevens.
    Full(Change),
    /// Items are added one by one, and the capacity grows more than once.
    Extend,
    /// A clone is made mutable.
    OpenClone,
    /// The items of a clone are written.
    WriteClone,
}

impl Trial {
    /// Makes the change. What its refusal leaves is compared here.
    fn make<A: Allocator + Clone>(&self, rt: &impl Abort, alloc: A) -> Result<()> {
        match self {
            Trial::Full(change) => change_sevens(rt, BufferMut::with_capacity(alloc, 4), change),
            Trial::Extend => extend(rt, BufferMut::from_trusted_len_iter(alloc, 0..3usize)),
            Trial::OpenClone => open_clone(rt, Buffer::copy_from(alloc, ITEMS)),
            Trial::WriteClone => write_clone(rt, Buffer::copy_from(alloc, ITEMS)),
        }
    }
}

/// The items that a clone shares.
const ITEMS: &[u32] = &[1, 2, 3];

fn change_sevens<A: Allocator + Clone>(
    rt: &impl Abort,
    made: Result<BufferMut<u32, A>>,
    change: &Change,
) -> Result<()> {
    let mut buffer = made?;
    let room = buffer.capacity();
    buffer.push_n(7, room).expect(rt, "room");
    let answer = change.make(&mut buffer);
    if answer.is_err() {
        equal(rt, (buffer.len(), buffer.capacity()), (room, room));
        equal(rt, buffer.as_slice().iter().all(is_seven), true);
    }
    drop(buffer);
    answer
}

fn is_seven(item: &u32) -> bool {
    *item == 7
}

/// Adds items that equal their indices. Those added before a refusal stay.
fn extend<A: Allocator>(rt: &impl Abort, made: Result<BufferMut<usize, A>>) -> Result<()> {
    let mut buffer = made?;
    let answer = buffer.extend((3..100usize).filter(each));
    let kept = if answer.is_ok() {
        100
    } else {
        buffer.capacity()
    };
    counts(rt, buffer.as_slice(), kept);
    drop(buffer);
    answer
}

fn open_clone<A: Allocator + Clone>(rt: &impl Abort, made: Result<Buffer<u32, A>>) -> Result<()> {
    let original = made?;
    let opened = opened(original.clone());
    equal(rt, original.as_slice(), ITEMS);
    drop(original);
    holds(rt, opened, ITEMS)
}

fn write_clone<A: Allocator + Clone>(rt: &impl Abort, made: Result<Buffer<u32, A>>) -> Result<()> {
    let original = made?;
    let answer = clear_items(rt, original.clone());
    equal(rt, original.as_slice(), ITEMS);
    drop(original);
    answer
}

/// Clears the items of a buffer. A refusal leaves them.
fn clear_items<A: Allocator + Clone>(rt: &impl Abort, made: Result<Buffer<u32, A>>) -> Result<()> {
    let mut buffer = made?;
    let answer = buffer.items_mut().map(BufferMut::clear);
    let kept = if answer.is_ok() { 0 } else { 3 };
    equal(rt, (buffer.len(), buffer.alignment().as_usize()), (kept, 4));
    drop(buffer);
    answer
}

/// The changes, and how many requests each makes, including those for its buffer. A copy of the
/// allocator is a request too.
const TRIALS: &[(Trial, u64)] = &[
    (Trial::Full(Change::Reserve), 2),
    (Trial::Full(Change::ReserveExact), 2),
    (Trial::Full(Change::Push), 2),
    (Trial::Full(Change::PushN), 2),
    (Trial::Full(Change::Resize), 2),
    (Trial::Full(Change::ExtendFromSlice), 2),
    (Trial::Full(Change::Extend), 2),
    (Trial::Full(Change::ExtendTrusted), 2),
    (Trial::Full(Change::TryExtendTrusted), 2),
    (Trial::Full(Change::Take), 2),
    (Trial::Extend, 6),
    (Trial::OpenClone, 7),
    (Trial::WriteClone, 9),
];

#[test]
fn a_refused_change_leaves_the_buffer(rt: HostRuntime) {
    let heap = Refusing::new(rt.alloc(), 0);
    for (trial, requests) in TRIALS {
        for _ in heap.in_turn() {
            answers(&rt, &heap, trial.make(&rt, Handle { inner: &heap }));
        }
        equal(&rt, (heap.has_refused(), heap.asked()), (false, *requests));
    }
}

/// The changes that lengthen in amortized constant time, each with the items that it adds.
const GROWING: &[(Change, &[u32])] = &[
    (Change::Reserve, EIGHTS),
    (Change::Push, &[8]),
    (Change::PushN, EIGHTS),
    (Change::Resize, EIGHTS),
    (Change::ExtendFromSlice, EIGHTS),
    (Change::Extend, &[0, 1, 2]),
    (Change::ExtendTrusted, &[0, 1, 2]),
    (Change::TryExtendTrusted, &[8]),
];

/// Makes a change again and again, beginning without capacity.
fn grow<A: Allocator + Clone>(rt: &impl Abort, alloc: A, change: &Change, items: &[u32]) {
    let mut buffer = BufferMut::empty(alloc);
    for _ in 0..5000 {
        change.make(&mut buffer).expect(rt, "room");
    }
    equal(rt, buffer.len(), 5000usize.saturating_mul(items.len()));
    for added in buffer.as_slice().chunks(items.len().max(1)) {
        equal(rt, added, items);
    }
    drop(buffer);
}

/// A body that gives up once the buffer has grown to some length fails here, and so does one that
/// allocates at each call, or allocates more and more.
#[test]
fn growth_goes_on_while_there_is_memory(rt: HostRuntime) {
    let heap = Refusing::new(rt.alloc(), 0);
    for (change, items) in GROWING {
        heap.refuse(0);
        grow(&rt, &heap, change, items);
        equal(&rt, heap.asked() <= 20, true);
        equal(&rt, heap.asked_bytes() <= 4 * 4 * 15_000, true);
    }
}
