//! What a directory allocates from two allocators, that of its bits and that of its counts: the
//! number of requests, and their bytes. No contract can say it.
use crate::compared::{answers_at, equal, holds};
use crate::costs::TAKEN;
use crate::made::ones;
use std::alloc::{Allocator, Global};
use std::process::Abort;
use vb_ranked::{Ranked, RankedBuffer};
use vb_set::{BitBufferMut, BitBufferView, Result};
use vb_testing::Refusing;

/// The requests for bits and their bytes, and those for counts and theirs.
type Asked = (u64, usize, u64, usize);

/// The requests to two heaps since the last call of this function.
fn asked(bits: &Refusing<Global>, counts: &Refusing<Global>) -> Asked {
    let (ones, bytes) = (bits.asked(), bits.asked_bytes());
    let asked = (ones, bytes, counts.asked(), counts.asked_bytes());
    bits.refuse(0);
    counts.refuse(0);
    asked
}

const NOTHING: Asked = (0, 0, 0, 0);

/// A call that adds bits.
enum Call {
    Copies,
    View,
    ReservedView,
}

const CALLS: &[Call] = &[Call::Copies, Call::View, Call::ReservedView];

impl Call {
    fn add<A: Allocator + Clone>(
        &self,
        ranked: &mut Ranked<A>,
        bits: BitBufferView<'_>,
    ) -> Result<()> {
        match self {
            Call::Copies => ranked.append_n(true, bits.len()),
            Call::View => ranked.append_view(bits),
            Call::ReservedView => {
                ranked.reserve(bits.len())?;
                ranked.append_view(bits)
            }
        }
    }
}

/// Adds the bits of `added` to an empty directory `times` times.
fn grow<A: Allocator + Clone>(
    rt: &impl Abort,
    (bits, counts): (A, A),
    call: &Call,
    (added, times): (BitBufferView<'_>, usize),
) {
    let mut ranked = Ranked::new(counts, BitBufferMut::empty(bits)).expect(rt, "no counts");
    for _ in 0..times {
        call.add(&mut ranked, added).expect(rt, "room");
    }
    equal(rt, ranked.len(), added.len().saturating_mul(times));
    drop(ranked);
}

/// How many bits are added at a time, how many times, and the requests in all.
const GROWN: &[(usize, usize, Asked)] = &[
    (1, 100_000, (12, 32_760, 6, 1512)),
    (100, 1000, (11, 25_588, 6, 1512)),
    (600, 1000, (11, 153_525, 8, 6120)),
    (5000, 100, (8, 159_375, 8, 6630)),
];

/// The capacity of bits and of counts doubles. Bodies that grow only to what they need fail here.
#[test]
fn bits_added_at_once_ask_seldom(rt: HostRuntime) {
    let (bits, counts) = (Refusing::new(rt.alloc(), 0), Refusing::new(rt.alloc(), 0));
    for call in CALLS {
        for (count, times, wanted) in GROWN {
            let added = ones(rt.alloc(), *count).expect(&rt, "a set");
            grow(&rt, (&bits, &counts), call, (added.as_view(), *times));
            equal(&rt, asked(&bits, &counts), *wanted);
            drop(added);
        }
    }
}

/// A directory of `len` true bits, with a capacity of `room` bits.
fn roomy<A: Allocator + Clone>(
    rt: &impl Abort,
    (bits, counts): (A, A),
    len: usize,
    room: usize,
) -> Ranked<A> {
    let mut set = BitBufferMut::with_capacity(bits, room).expect(rt, "room");
    set.append_n(true, len).expect(rt, "room");
    Ranked::new(counts, set).expect(rt, "counts")
}

/// Edits the bits at these indices, and queries them.
fn edit<A: Allocator + Clone>(rt: &impl Abort, ranked: &mut Ranked<A>, places: &[usize]) {
    for i in places {
        set_to(rt, ranked, *i, false);
        equal(rt, ranked.select_unset(0), Some(*i));
        set_to(rt, ranked, *i, true);
        let next = i.saturating_add(1);
        equal(rt, answers_at(rt, ranked, next).0, next);
    }
}

/// Sets a bit to this value, and reads it back.
fn set_to<A: Allocator + Clone>(rt: &impl Abort, ranked: &mut Ranked<A>, i: usize, v: bool) {
    holds(rt, i < ranked.len());
    ranked.set_to(i, v);
    holds(rt, i < ranked.len());
    equal(rt, ranked.value(i), v);
}

/// Adds bits by each call, within the capacity.
fn fill<A: Allocator + Clone>(rt: &impl Abort, ranked: &mut Ranked<A>, bits: BitBufferView<'_>) {
    for call in CALLS {
        call.add(ranked, bits).expect(rt, "room");
        ranked.append(true).expect(rt, "room");
    }
}

#[test]
fn edits_and_bits_within_the_room_ask_for_nothing(rt: HostRuntime) {
    let (bits, counts) = (Refusing::new(rt.alloc(), 0), Refusing::new(rt.alloc(), 0));
    let mut ranked = roomy(&rt, (&bits, &counts), 140_000, 200_000);
    equal(&rt, asked(&bits, &counts), (1, 25_000, 1, 806));
    edit(
        &rt,
        &mut ranked,
        &[0, 511, 512, 65_535, 65_536, 131_072, 139_999],
    );
    equal(&rt, asked(&bits, &counts), NOTHING);
    for len in [1, 600, 5000] {
        let added = ones(rt.alloc(), len).expect(&rt, "a set");
        fill(&rt, &mut ranked, added.as_view());
        drop(added);
    }
    equal(&rt, (ranked.capacity(), ranked.len()), (200_000, 156_812));
    equal(&rt, asked(&bits, &counts), NOTHING);
    drop(ranked);
}

/// A copy requests its bytes, and counts for all bits that these bytes hold. To take the set out is
/// free, and to share it requests a count of its owners.
#[test]
fn copies_and_sets_ask_once(rt: HostRuntime) {
    let (bits, counts) = (Refusing::new(rt.alloc(), 0), Refusing::new(rt.alloc(), 0));
    let ranked = roomy(&rt, (&bits, &counts), 65_537, 200_000);
    asked(&bits, &counts);
    let copy = ranked.clone().expect(&rt, "a copy");
    equal(&rt, asked(&bits, &counts), (1, 8193, 1, 270));
    let set = copy.into_inner();
    equal(&rt, asked(&bits, &counts), NOTHING);
    let shared = ranked.freeze().expect(&rt, "an owner");
    equal(&rt, (bits.asked(), counts.asked()), (1, 0));
    equal(&rt, bits.asks_within(1, 256), true);
    drop((set, shared));
}

/// A directory of the first bits of a shared set.
fn share<A: Allocator + Clone>(
    rt: &impl Abort,
    (bits, counts): (A, A),
    len: usize,
) -> RankedBuffer<A> {
    let whole = ones(bits, 300_000).expect(rt, "a set");
    let whole = whole.freeze().expect(rt, "an owner");
    let part = whole.slice(0..len.min(whole.len())).expect(rt, "an owner");
    drop(whole);
    RankedBuffer::new(counts, part).expect(rt, "counts")
}

/// The counts are those of the part, however long the whole is, and its bits stay where they are.
#[test]
fn shared_sets_ask_for_their_counts_once(rt: HostRuntime) {
    let (bits, counts) = (Refusing::new(rt.alloc(), 0), Refusing::new(rt.alloc(), 0));
    for (len, bytes) in TAKEN {
        let ranked = share(&rt, (&bits, &counts), len);
        equal(&rt, (counts.asked(), counts.asked_bytes()), (1, bytes));
        // The bytes of the whole set, and its owner.
        equal(&rt, bits.asked(), 2);
        asked(&bits, &counts);
        holds(&rt, len <= ranked.len());
        equal(&rt, (ranked.len(), ranked.rank(len)), (len, len));
        equal(
            &rt,
            (ranked.select(0), ranked.select_unset(0)),
            (Some(0), None),
        );
        let set = ranked.into_inner();
        equal(&rt, asked(&bits, &counts), NOTHING);
        drop(set);
    }
    drop(share(&rt, (&bits, &counts), 0));
    equal(&rt, counts.asked(), 0);
}
