//! Bits appended from other sources, compared with bits appended to a plain list: bits of a view,
//! of bytes, of truth values and of iterators. Also what a refused request for memory leaves of the
//! set and of an iterator.
use crate::compared::{equal, holds, same};
use crate::edits::{LENGTHS, OFFSETS};
use crate::made::window;
use std::alloc::{Allocator, Global};
use std::process::Abort;
use vb_set::{BitBuffer, BitBufferMut, BitBufferView, BufferError, Result, window_fits};
use vb_testing::{Handle, Refusing};

/// Where the bits that are added come from.
enum Source {
    View,
    Bytes,
    Bools,
    Iterator,
    Trusted,
}

const SOURCES: &[Source] = &[
    Source::View,
    Source::Bytes,
    Source::Bools,
    Source::Iterator,
    Source::Trusted,
];

/// The bytes of which windows are added, whose bits have no pattern.
const BYTES: [u8; 30] = [
    0x5A, 0xC3, 0x0F, 0xE1, 0x77, 0x18, 0x9D, 0x24, 0xB2, 0x4E, 0x81, 0x3C, 0xF6, 0x09, 0xD5, 0x6B,
    0x12, 0xE8, 0x47, 0xAD, 0x30, 0x9F, 0x64, 0xCB, 0x1E, 0x83, 0x58, 0xF1, 0x2D, 0xA6,
];

/// A window of them.
fn added(rt: &impl Abort, offset: usize, len: usize) -> BitBufferView<'_> {
    holds(rt, window_fits(&BYTES, offset, len));
    BitBufferView::new_with_offset(&BYTES, len, offset)
}

impl Source {
    /// Appends the bits of the view from this source; `list` has the same bits.
    fn add<A: Allocator + Clone>(
        &self,
        set: &mut BitBufferMut<A>,
        bits: BitBufferView<'_>,
        list: &[bool],
    ) -> Result<()> {
        match self {
            Source::View => set.append_view(bits),
            Source::Bytes => set.append_bits(bits.inner(), bits.offset(), bits.len()),
            Source::Bools => set.append_bools(list),
            Source::Iterator => set.extend(bits.iter()),
            Source::Trusted => set.extend_trusted(bits.iter()),
        }
    }
}

/// The bits of a view as a list of truth values.
fn list_of<A: Allocator>(rt: &impl Abort, alloc: A, bits: BitBufferView<'_>) -> Vec<bool, A> {
    let mut list = Vec::new(alloc);
    for bit in bits.iter() {
        list.push(bit).expect(rt, "memory");
    }
    list
}

/// Appends the bits twice, to a window of bytes that are all ones and to the list of its bits. No
/// bit after the window shows up in the result.
fn is_joined<A: Allocator + Clone + Copy>(
    rt: &impl Abort,
    alloc: A,
    source: &Source,
    (offset, len): (usize, usize),
    bits: BitBufferView<'_>,
) {
    let list = list_of(rt, alloc, bits);
    let mut set = window(alloc, (0xFF, 27), offset, len).expect(rt, "a set");
    let mut wanted = list_of(rt, alloc, set.as_view());
    for _ in 0..2 {
        source
            .add(&mut set, bits, list.as_slice())
            .expect(rt, "room");
        wanted
            .extend_from_slice(list.as_slice())
            .expect(rt, "memory");
        same(rt, &set, wanted.as_slice());
    }
    equal(rt, set.offset(), offset);
    drop((set, list, wanted));
}

#[test]
fn bits_are_added_behind_bits(rt: HostRuntime) {
    for source in SOURCES {
        for offset in OFFSETS {
            for len in LENGTHS {
                let bits = added(&rt, len % 11, 200 - len);
                is_joined(&rt, rt.alloc(), source, (offset, len), bits);
            }
        }
    }
}

/// More truth values than a block has.
#[test]
fn long_lists_are_added(rt: HostRuntime) {
    let mut list = Vec::new(rt.alloc());
    for i in 0..1300usize {
        list.push(i % 7 == 2 || i % 64 == 5).expect(&rt, "memory");
    }
    let mut set = window(rt.alloc(), (0xFF, 2), 3, 2).expect(&rt, "a set");
    let mut wanted = list_of(&rt, rt.alloc(), set.as_view());
    wanted
        .extend_from_slice(list.as_slice())
        .expect(&rt, "memory");
    set.append_bools(list.as_slice()).expect(&rt, "room");
    same(&rt, &set, wanted.as_slice());
    set.truncate(2);
    set.extend(list.iter().copied()).expect(&rt, "room");
    same(&rt, &set, wanted.as_slice());
    drop((set, list, wanted));
}

/// The bits that are added to a few.
const THOUSAND: [bool; 1000] = [true; 1000];

/// Appends a thousand true bits to a few, by an iterator. If a request for memory is refused, the
/// set is filled up to its capacity. Bits are polled in groups of 64: the last group polled is the
/// first that doesn't fit as a whole, and the bits after it are left.
fn fill<A: Allocator + Clone>(rt: &impl Abort, made: Result<BitBufferMut<A>>) -> Result<()> {
    let mut set = made?;
    let before = set.len();
    let mut bits = THOUSAND.iter().copied();
    let answer = set.extend(bits.by_ref());
    let polled = THOUSAND.len().saturating_sub(bits.len());
    let words = set.len().saturating_sub(before) / 64;
    let (len, wanted) = if answer.is_ok() {
        (before.saturating_add(1000), 1000)
    } else {
        (set.capacity(), words.saturating_add(1).saturating_mul(64))
    };
    equal(rt, (set.len(), set.as_view().true_count()), (len, len));
    equal(rt, polled, wanted.min(1000));
    drop(set);
    answer
}

#[test]
fn a_refused_extend_fills_the_room(rt: HostRuntime) {
    let heap = Refusing::new(rt.alloc(), 0);
    for _ in heap.in_turn() {
        let answer = fill(&rt, window(Handle { inner: &heap }, (0xFF, 3), 11, 9));
        let wanted = heap.wanted(Ok(()), Err(BufferError::OutOfMemory));
        equal(&rt, answer, wanted);
    }
    // One request for the first bits, and four to grow.
    equal(&rt, (heap.has_refused(), heap.asked()), (false, 5));
}

/// Within its capacity a set doesn't allocate, and keeps the capacity.
fn stays<A: Allocator + Clone>(
    rt: &impl Abort,
    heap: &Refusing<Global>,
    set: &mut BitBufferMut<A>,
    source: &Source,
) {
    let room = set.capacity();
    heap.refuse(1);
    let answer = source.add(set, added(rt, 5, 200), &[true; 200]);
    equal(rt, answer, Ok(()));
    equal(rt, (set.capacity(), heap.asked()), (room, 0));
    heap.refuse(0);
}

/// Appending a shared set within the capacity doesn't allocate either, and keeps the capacity.
fn stays_with_set<A: Allocator + Clone>(
    rt: &impl Abort,
    heap: &Refusing<Global>,
    set: &mut BitBufferMut<A>,
    made: Result<BitBuffer<A>>,
) {
    let added = made.expect(rt, "a set");
    let room = set.capacity();
    heap.refuse(1);
    equal(rt, set.append_buffer(&added), Ok(()));
    equal(rt, (set.capacity(), heap.asked()), (room, 0));
    heap.refuse(0);
    drop(added);
}

/// Fills the rest of the capacity bit by bit, without allocating.
fn fills<A: Allocator + Clone>(
    rt: &impl Abort,
    heap: &Refusing<Global>,
    set: &mut BitBufferMut<A>,
) {
    let room = set.capacity();
    heap.refuse(1);
    for _ in set.len()..room {
        holds(rt, set.has_room());
        set.append_unchecked(true);
    }
    equal(rt, set.has_room(), false);
    equal(rt, (set.capacity(), heap.asked()), (room, 0));
    heap.refuse(0);
}

#[test]
fn appends_within_the_room_ask_for_nothing(rt: HostRuntime) {
    let heap = Refusing::new(rt.alloc(), 0);
    let mut set = BitBufferMut::with_capacity(Handle { inner: &heap }, 1100).expect(&rt, "room");
    for source in SOURCES {
        stays(&rt, &heap, &mut set, source);
    }
    let shared = BitBuffer::new_set(Handle { inner: &heap }, 90);
    stays_with_set(&rt, &heap, &mut set, shared);
    equal(&rt, set.len(), 1090);
    fills(&rt, &heap, &mut set);
    drop(set);
}
