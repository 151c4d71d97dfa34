// Written in part by tools/write-lists from tools/families/ranked.txt.
//! Calls with many ranks, compared with a call for each rank.
use crate::compared::{equal, holds};
use crate::made::mixed;
use std::alloc::{Allocator, Global};
use std::process::Abort;
use vb_ranked::{Ranked, RankedBuffer};
use vb_set::BufferError;

/// Ranks up to past the last bit, in no order, some of them twice.
fn ranks(rt: &impl Abort, alloc: Global, len: usize, many: usize) -> Vec<usize, Global> {
    let mut ranks = Vec::new(alloc);
    for k in 0..many {
        let n = k.wrapping_mul(40_503) % len.saturating_add(2);
        ranks.push(n).expect(rt, "room");
    }
    ranks
}

/// A call with many ranks returns the same as single calls.
fn answers_each<A: Allocator + Clone>(
    rt: &impl Abort,
    alloc: Global,
    ranked: &Ranked<A>,
    ranks: &[usize],
) {
    let mut places = Vec::from_elem(alloc, Some(7), ranks.len()).expect(rt, "room");
    ranked.select_many(ranks, places.as_mut_slice());
    for (n, place) in ranks.iter().zip(places.as_slice()) {
        equal(rt, *place, ranked.select(*n));
    }
    holds(rt, places.len() == ranks.len());
    ranked.select_unset_many(ranks, places.as_mut_slice());
    for (n, place) in ranks.iter().zip(places.as_slice()) {
        equal(rt, *place, ranked.select_unset(*n));
    }
    let done = ranked.try_select_many(ranks, places.as_mut_slice());
    equal(rt, done, Ok(()));
    for (n, place) in ranks.iter().zip(places.as_slice()) {
        equal(rt, *place, ranked.select(*n));
    }
    let done = ranked.try_select_unset_many(ranks, places.as_mut_slice());
    equal(rt, done, Ok(()));
    for (n, place) in ranks.iter().zip(places.as_slice()) {
        equal(rt, *place, ranked.select_unset(*n));
    }
    drop(places);
}

/// The same for a directory of a shared set.
fn shared_answers_each(
    rt: &impl Abort,
    alloc: Global,
    ranked: &RankedBuffer<Global>,
    ranks: &[usize],
) {
    let mut places = Vec::from_elem(alloc, Some(7), ranks.len()).expect(rt, "room");
    ranked.select_many(ranks, places.as_mut_slice());
    for (n, place) in ranks.iter().zip(places.as_slice()) {
        equal(rt, *place, ranked.select(*n));
    }
    holds(rt, places.len() == ranks.len());
    ranked.select_unset_many(ranks, places.as_mut_slice());
    for (n, place) in ranks.iter().zip(places.as_slice()) {
        equal(rt, *place, ranked.select_unset(*n));
    }
    let done = ranked.try_select_many(ranks, places.as_mut_slice());
    equal(rt, done, Ok(()));
    for (n, place) in ranks.iter().zip(places.as_slice()) {
        equal(rt, *place, ranked.select(*n));
    }
    let done = ranked.try_select_unset_many(ranks, places.as_mut_slice());
    equal(rt, done, Ok(()));
    for (n, place) in ranks.iter().zip(places.as_slice()) {
        equal(rt, *place, ranked.select_unset(*n));
    }
    drop(places);
}

/// No bits, one, a block, and from one group to three groups and more. The last block is at the end
/// of the bytes; at offset 3 no block begins with a byte.
const SETS: [(usize, usize); 8] = [
    (0, 0),
    (0, 1),
    (3, 512),
    (0, 65_536),
    (0, 65_537),
    (0, 131_073),
    (3, 131_072),
    (8, 200_003),
];

/// No ranks, fewer than eight, and more.
const MANY: [usize; 8] = [0, 1, 7, 8, 9, 16, 23, 64];

#[test]
fn many_ranks_are_answered_as_each(rt: HostRuntime) {
    for (offset, len) in SETS {
        let set = mixed(&rt, rt.alloc(), offset, len);
        let ranked = Ranked::new(rt.alloc(), set).expect(&rt, "counts");
        for many in MANY {
            let ranks = ranks(&rt, rt.alloc(), len, many);
            answers_each(&rt, rt.alloc(), &ranked, ranks.as_slice());
            drop(ranks);
        }
        drop(ranked);
    }
}

#[test]
fn many_ranks_of_shared_sets_are_answered_as_each(rt: HostRuntime) {
    for (offset, len) in SETS {
        let set = mixed(&rt, rt.alloc(), offset, len)
            .freeze()
            .expect(&rt, "an owner");
        let ranked = RankedBuffer::new(rt.alloc(), set).expect(&rt, "counts");
        for many in MANY {
            let ranks = ranks(&rt, rt.alloc(), len, many);
            shared_answers_each(&rt, rt.alloc(), &ranked, ranks.as_slice());
            drop(ranks);
        }
        drop(ranked);
    }
}

/// The number of ranks and that of results, which differ.
const UNEQUAL: [(usize, usize); 5] = [(0, 1), (1, 0), (8, 7), (8, 9), (64, 16)];

/// The results are unchanged.
fn are_untouched(rt: &impl Abort, places: &[Option<usize>]) {
    for place in places {
        equal(rt, *place, Some(7));
    }
}

#[test]
fn unequal_numbers_are_refused(rt: HostRuntime) {
    let set = mixed(&rt, rt.alloc(), 3, 70_000);
    let ranked = Ranked::new(rt.alloc(), set).expect(&rt, "counts");
    for (left, right) in UNEQUAL {
        let ranks = ranks(&rt, rt.alloc(), 70_000, left);
        let mut places = Vec::from_elem(rt.alloc(), Some(7), right).expect(&rt, "room");
        let refused = Err(BufferError::LengthMismatch { left, right });
        let (asked, to) = (ranks.as_slice(), places.as_mut_slice());
        equal(&rt, ranked.try_select_many(asked, to), refused);
        equal(&rt, ranked.try_select_unset_many(asked, to), refused);
        are_untouched(&rt, places.as_slice());
        drop((ranks, places));
    }
    drop(ranked);
}

#[test]
fn unequal_numbers_are_refused_of_shared_sets(rt: HostRuntime) {
    let set = mixed(&rt, rt.alloc(), 3, 70_000);
    let set = set.freeze().expect(&rt, "an owner");
    let ranked = RankedBuffer::new(rt.alloc(), set).expect(&rt, "counts");
    for (left, right) in UNEQUAL {
        let ranks = ranks(&rt, rt.alloc(), 70_000, left);
        let mut places = Vec::from_elem(rt.alloc(), Some(7), right).expect(&rt, "room");
        let refused = Err(BufferError::LengthMismatch { left, right });
        let (asked, to) = (ranks.as_slice(), places.as_mut_slice());
        equal(&rt, ranked.try_select_many(asked, to), refused);
        equal(&rt, ranked.try_select_unset_many(asked, to), refused);
        are_untouched(&rt, places.as_slice());
        drop((ranks, places));
    }
    drop(ranked);
}
