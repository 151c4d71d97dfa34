//! Many bits added at once, compared with a plain set and with a directory made anew; capacity, and
//! what a refusal leaves.
use crate::compared::{answers_at, equal, holds};
use crate::edits::{is_as_new, next};
use crate::made::{mixed, ones};
use std::alloc::{Allocator, Global};
use std::process::Abort;
use vb_ranked::Ranked;
use vb_set::{BitBufferMut, BitBufferView, BufferError, Result};
use vb_testing::Refusing;

/// Adds a run to a directory and to a plain set.
fn lengthen<A: Allocator + Clone>(
    rt: &impl Abort,
    ranked: &mut Ranked<A>,
    plain: &mut BitBufferMut<A>,
    most: usize,
    state: &mut u64,
) {
    let v = next(state) % 2 == 1;
    let n = if most > 0 { next(state) % most } else { 0 };
    ranked.append_n(v, n).expect(rt, "room");
    plain.append_n(v, n).expect(rt, "room");
    equal(rt, ranked.len(), plain.len());
}

/// A few bits at once, some blocks, and more than a group of blocks.
const MOST: [(usize, usize); 4] = [(9, 20), (600, 20), (3_000, 20), (70_000, 3)];

#[test]
fn lengthened_directories_are_as_new(rt: HostRuntime) {
    let mut state = 0x2545_F491_4F6C_DD1D;
    for (most, times) in MOST {
        for (offset, len) in [(0, 0), (3, 500), (13, 65_500)] {
            let mut plain = mixed(&rt, rt.alloc(), offset, len);
            let copy = plain.clone().expect(&rt, "a set");
            let mut ranked = Ranked::new(rt.alloc(), copy).expect(&rt, "a directory");
            for _ in 0..times {
                lengthen(&rt, &mut ranked, &mut plain, most, &mut state);
                is_as_new(&rt, rt.alloc(), &ranked, &plain);
            }
            drop((plain, ranked));
        }
    }
}

/// Adds the bits of a view to a directory, and to a plain set one by one.
fn lengthen_by<A: Allocator + Clone>(
    rt: &impl Abort,
    ranked: &mut Ranked<A>,
    plain: &mut BitBufferMut<A>,
    bits: BitBufferView<'_>,
) {
    ranked.append_view(bits).expect(rt, "room");
    for bit in bits.iter() {
        plain.append(bit).expect(rt, "room");
    }
    equal(rt, ranked.as_view() == plain.as_view(), true);
}

/// Offsets and lengths of views: of no bits, of one, of about a block, of some blocks, and of more
/// than a group of blocks.
const VIEWS: [(usize, usize); 7] = [
    (0, 0),
    (7, 1),
    (5, 511),
    (13, 512),
    (0, 513),
    (3, 5_000),
    (11, 66_000),
];

#[test]
fn directories_with_views_added_are_as_new(rt: HostRuntime) {
    for (offset, len) in [(0, 0), (3, 500), (13, 65_500)] {
        let mut plain = mixed(&rt, rt.alloc(), offset, len);
        let copy = plain.clone().expect(&rt, "a set");
        let mut ranked = Ranked::new(rt.alloc(), copy).expect(&rt, "a directory");
        for (at, n) in VIEWS {
            let added = mixed(&rt, rt.alloc(), at, n);
            lengthen_by(&rt, &mut ranked, &mut plain, added.as_view());
            is_as_new(&rt, rt.alloc(), &ranked, &plain);
            drop(added);
        }
        drop((plain, ranked));
    }
}

/// True bits: enough for 1,000 of them from bit 5 on.
const TRUE: [u8; 126] = [0xFF; 126];

/// A call that needs capacity for bits.
#[derive(Clone, Copy)]
enum Call {
    Reserve,
    AppendN,
    AppendView,
}

const CALLS: [Call; 3] = [Call::Reserve, Call::AppendN, Call::AppendView];

impl Call {
    /// Adds 1,000 true bits, or reserves capacity for them.
    fn make<A: Allocator + Clone>(&self, ranked: &mut Ranked<A>) -> Result<()> {
        match self {
            Call::Reserve => ranked.reserve(1000),
            Call::AppendN => ranked.append_n(true, 1000),
            Call::AppendView => {
                ranked.append_view(BitBufferView::new_with_offset(&TRUE, 1000, 5))
            }
        }
    }

    /// How many bits it adds.
    fn added(&self) -> usize {
        match self {
            Call::Reserve => 0,
            Call::AppendN | Call::AppendView => 1000,
        }
    }
}

/// Makes a call on a directory of `len` true bits. If it fails, the directory is unchanged, and the
/// call is made again.
fn is_made_or_left<A: Allocator + Clone + Copy>(
    rt: &impl Abort,
    alloc: A,
    len: usize,
    call: Call,
) -> Result<()> {
    let mut ranked = Ranked::new(alloc, ones(alloc, len)?)?;
    let room = ranked.capacity();
    let answer = call.make(&mut ranked);
    if answer.is_err() {
        equal(rt, (ranked.len(), ranked.capacity()), (len, room));
        equal(rt, answers_at(rt, &ranked, len), (len, None, None));
        call.make(&mut ranked).expect(rt, "room");
    }
    equal(rt, ranked.capacity() >= len.saturating_add(1000), true);
    equal(rt, ranked.len(), len.saturating_add(call.added()));
    let end = ranked.len();
    equal(rt, answers_at(rt, &ranked, end), (end, None, None));
    drop(ranked);
    answer
}

#[test]
fn a_refused_call_leaves_the_directory(rt: HostRuntime) {
    let heap = Refusing::new(rt.alloc(), 0);
    for each in CALLS {
        for len in [0, 9, 512, 65_000] {
            for _ in heap.in_turn() {
                let answer = is_made_or_left(&rt, &heap, len, each);
                let wanted = heap.wanted(Ok(()), Err(BufferError::OutOfMemory));
                equal(&rt, answer, wanted);
            }
            // An empty set has neither bytes nor counts.
            let requests = if len > 0 { 4 } else { 2 };
            equal(&rt, (heap.has_refused(), heap.asked()), (false, requests));
        }
    }
}

/// Adds `n` bits `times` times to an empty directory.
fn append<A: Allocator + Clone>(
    rt: &impl Abort,
    (bits, counts): (A, A),
    n: usize,
    times: usize,
) -> usize {
    let mut ranked = Ranked::new(counts, BitBufferMut::empty(bits)).expect(rt, "no counts");
    for _ in 0..times {
        ranked.append_n(true, n).expect(rt, "room");
    }
    let len = ranked.len();
    equal(rt, answers_at(rt, &ranked, len), (len, None, None));
    drop(ranked);
    len
}

/// Memory for many bits is requested at once. If a few bits are added at a time, memory is
/// requested seldom; if none are added, it isn't requested.
#[test]
fn added_bits_ask_seldom(rt: HostRuntime) {
    let bits = Refusing::new(rt.alloc(), 0);
    let counts = Refusing::new(rt.alloc(), 0);
    equal(&rt, append(&rt, (&bits, &counts), 0, 3), 0);
    equal(&rt, (bits.asked(), counts.asked()), (0, 0));
    equal(&rt, append(&rt, (&bits, &counts), 200_000, 1), 200_000);
    equal(&rt, (bits.asked(), bits.asked_bytes()), (1, 25_000));
    equal(&rt, (counts.asked(), counts.asked_bytes()), (1, 806));
    bits.refuse(0);
    counts.refuse(0);
    equal(&rt, append(&rt, (&bits, &counts), 100, 2000), 200_000);
    equal(&rt, (bits.asked() <= 13, counts.asked() <= 8), (true, true));
    equal(&rt, bits.asked_bytes() <= 100_000, true);
}

/// Appends bits within the capacity that was reserved before, without a request.
fn fill<A: Allocator + Clone>(rt: &impl Abort, heap: &Refusing<Global>, ranked: &mut Ranked<A>) {
    let room = ranked.capacity();
    heap.refuse(1);
    for _ in 0..3 {
        ranked.append_n(false, 700).expect(rt, "room");
        let bits = BitBufferView::new_with_offset(&TRUE, 700, 5);
        ranked.append_view(bits).expect(rt, "room");
    }
    equal(rt, (ranked.len(), ranked.capacity()), (5_200, room));
    holds(rt, 5_200 <= ranked.len());
    equal(rt, ranked.rank(5_200), 3_100);
    equal(rt, heap.asked(), 0);
    heap.refuse(0);
}

#[test]
fn appends_within_the_room_ask_for_nothing(rt: HostRuntime) {
    let heap = Refusing::new(rt.alloc(), 0);
    let set = ones(&heap, 1000).expect(&rt, "a set");
    let mut ranked = Ranked::new(&heap, set).expect(&rt, "a directory");
    ranked.reserve(4_200).expect(&rt, "room");
    fill(&rt, &heap, &mut ranked);
    drop(ranked);
}
