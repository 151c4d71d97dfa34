//! How often questions look at the bits and probe the table, and how much memory counts take.
use crate::compared::{Row, equal, holds};
use crate::made::{by_fives, mixed, ones};
use crate::rows::BY_FIVES;
use std::alloc::{Allocator, Global};
use std::process::Abort;
use vb_count::Tally;
use vb_rank::{TallyTable, rank_by, select_by, select_unset_by, table_of};
use vb_ranked::{Ranked, RankedBuffer};
use vb_set::{BitBufferMut, BitBufferView, Result};
use vb_testing::Refusing;

/// Checks one row with readers that count: at most 16 looks and `probes` probes.
fn tallied(rt: &impl Abort, alloc: Global, bits: BitBufferView<'_>, row: Row, probes: u64) {
    let table = table_of(alloc, bits).expect(rt, "a table");
    let mut src = Tally::new(bits.inner());
    let mut entries = TallyTable::new(table.as_slice());
    let (offset, len) = (bits.offset(), bits.len());
    match row {
        Row::Rank(i, ones) => {
            holds(rt, i <= len);
            equal(rt, rank_by(&mut src, offset, len, &mut entries, i), ones);
        }
        Row::Select(n, place) => {
            equal(rt, select_by(&mut src, offset, len, &mut entries, n), place);
        }
        Row::SelectUnset(n, place) => {
            let answer = select_unset_by(&mut src, offset, len, &mut entries, n);
            equal(rt, answer, place);
        }
    }
    equal(rt, src.looks() <= 16, true);
    equal(rt, entries.probes() <= probes, true);
    drop(table);
}

#[test]
fn rows_take_at_most_three_probes(rt: HostRuntime) {
    let set = by_fives(&rt, rt.alloc(), 1100);
    for row in BY_FIVES {
        tallied(&rt, rt.alloc(), set.as_view(), *row, 3);
    }
    drop(set);
}

/// The most probes of a select, by the number of blocks in the table: the number of binary digits
/// of `blocks + 1`.
const PROBES: [u64; 6] = [1, 2, 2, 3, 3, 3];

const RANKS: [usize; 6] = [0, 1, 255, 511, 700, 1400];

#[test]
fn tables_are_halved(rt: HostRuntime) {
    for (blocks, probes) in PROBES.iter().enumerate() {
        for offset in [0, 3] {
            let set = mixed(&rt, rt.alloc(), offset, blocks * 512);
            for n in RANKS {
                let bits = set.as_view();
                let (place, hole) = (bits.select(n), bits.select_unset(n));
                tallied(&rt, rt.alloc(), bits, Row::Select(n, place), *probes);
                tallied(&rt, rt.alloc(), bits, Row::SelectUnset(n, hole), *probes);
            }
            drop(set);
        }
    }
}

/// Makes a directory of true bits. The bits and the counts have allocators of their own.
fn make<A: Allocator + Clone>(rt: &impl Abort, (bits, counts): (A, A), len: usize) {
    let set = ones(bits, len).expect(rt, "a set");
    drop(Ranked::new(counts, set).expect(rt, "counts"));
}

/// Numbers of bits, and how many bytes their counts take: 8 for a block, 2 for each block more, and
/// 6 more for each group more.
pub(crate) const TAKEN: [(usize, usize); 8] = [
    (1, 8),
    (512, 8),
    (513, 10),
    (16_384, 70),
    (65_536, 262),
    (65_537, 270),
    (66_049, 272),
    (200_000, 806),
];

#[test]
fn counts_are_asked_for_once(rt: HostRuntime) {
    let bits = Refusing::new(rt.alloc(), 0);
    let counts = Refusing::new(rt.alloc(), 0);
    make(&rt, (&bits, &counts), 0);
    equal(&rt, (counts.asked(), counts.asked_bytes()), (0, 0));
    for (len, bytes) in TAKEN {
        counts.refuse(0);
        make(&rt, (&bits, &counts), len);
        equal(&rt, (counts.asked(), counts.asked_bytes()), (1, bytes));
    }
}

/// A directory of true bits, to be shared.
fn shared<A: Allocator + Clone>((bits, counts): (A, A), len: usize) -> Result<RankedBuffer<A>> {
    RankedBuffer::new(counts, ones(bits, len)?.freeze()?)
}

/// Clones the directory that was made: no request for bits, and these requests for counts. A body
/// that copies the bits fails here, and so does one that allocates more for the counts.
fn is_shared<A: Allocator + Clone>(
    rt: &impl Abort,
    (bits, counts): (&Refusing<Global>, &Refusing<Global>),
    made: Result<RankedBuffer<A>>,
    wanted: (u64, usize),
) {
    let ranked = made.expect(rt, "counts");
    bits.refuse(0);
    counts.refuse(0);
    let copy = ranked.clone().expect(rt, "counts");
    equal(rt, bits.asked(), 0);
    equal(rt, (counts.asked(), counts.asked_bytes()), wanted);
    drop((ranked, copy));
}

#[test]
fn clones_ask_for_counts_alone(rt: HostRuntime) {
    let bits = Refusing::new(rt.alloc(), 0);
    let counts = Refusing::new(rt.alloc(), 0);
    is_shared(&rt, (&bits, &counts), shared((&bits, &counts), 0), (0, 0));
    for (len, bytes) in TAKEN {
        let made = shared((&bits, &counts), len);
        is_shared(&rt, (&bits, &counts), made, (1, bytes));
    }
}

/// Fills a directory of one bit up to the capacity of its set, `room` bits.
fn fill<A: Allocator + Clone>(rt: &impl Abort, (bits, counts): (A, A), room: usize) {
    let mut set = BitBufferMut::with_capacity(bits, room).expect(rt, "room");
    set.append(true).expect(rt, "room");
    let mut ranked = Ranked::new(counts, set).expect(rt, "counts");
    for _ in 1..room {
        ranked.append(true).expect(rt, "room");
    }
    equal(rt, ranked.len(), room);
    drop(ranked);
}

/// One request allocates the counts of all bits of the capacity.
#[test]
fn room_is_asked_for_once(rt: HostRuntime) {
    let bits = Refusing::new(rt.alloc(), 0);
    let counts = Refusing::new(rt.alloc(), 0);
    fill(&rt, (&bits, &counts), 200_000);
    equal(&rt, (bits.asked(), bits.asked_bytes()), (1, 25_000));
    equal(&rt, (counts.asked(), counts.asked_bytes()), (1, 806));
}

/// Adds bits to an empty directory.
fn append<A: Allocator + Clone>(rt: &impl Abort, (bits, counts): (A, A), count: usize) {
    let mut ranked = Ranked::new(counts, BitBufferMut::empty(bits)).expect(rt, "no counts");
    for _ in 0..count {
        ranked.append(true).expect(rt, "room");
    }
    drop(ranked);
}

/// Adds bits to an empty set without a directory.
fn append_alone<A: Allocator + Clone>(rt: &impl Abort, bits: A, count: usize) {
    let mut set = BitBufferMut::empty(bits);
    for _ in 0..count {
        set.append(true).expect(rt, "room");
    }
    drop(set);
}

/// How many bits are added, the number of requests for counts, and their bytes in all.
const ADDED: [(usize, u64, usize); 5] = [
    (1, 1, 24),
    (4_096, 1, 24),
    (4_097, 2, 72),
    (65_537, 6, 1_512),
    (200_000, 7, 3_048),
];

/// A directory makes the same requests for bits as a set, and few requests for counts.
#[test]
fn added_bits_ask_seldom(rt: HostRuntime) {
    let bits = Refusing::new(rt.alloc(), 0);
    let counts = Refusing::new(rt.alloc(), 0);
    let alone = Refusing::new(rt.alloc(), 0);
    for (count, requests, bytes) in ADDED {
        bits.refuse(0);
        counts.refuse(0);
        alone.refuse(0);
        append(&rt, (&bits, &counts), count);
        append_alone(&rt, &alone, count);
        equal(&rt, bits.asked(), alone.asked());
        equal(&rt, bits.asked_bytes(), alone.asked_bytes());
        equal(
            &rt,
            (counts.asked(), counts.asked_bytes()),
            (requests, bytes),
        );
    }
}
