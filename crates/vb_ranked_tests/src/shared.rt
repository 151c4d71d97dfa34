//! Directories over shared sets, compared with views of the bits, and the calls that a directory
//! forwards to its set.
use crate::compared::{Row, equal, holds, viewed_at};
use crate::made::{by_fives, mixed, ones};
use crate::rows::BY_FIVES;
use std::alloc::{Allocator, Global};
use std::process::Abort;
use vb_ranked::{Ranked, RankedBuffer};
use vb_set::{BitBuffer, BufferError, Result};
use vb_testing::{Handle, Refusing};

/// A directory of a part of the bits, which shares them.
fn of_part(
    rt: &impl Abort,
    alloc: Global,
    set: &BitBuffer<Global>,
    (start, end): (usize, usize),
) -> RankedBuffer<Global> {
    holds(rt, start <= end);
    holds(rt, end <= set.len());
    let part = set.slice(start..end).expect(rt, "an owner");
    RankedBuffer::new(alloc, part).expect(rt, "counts")
}

/// It returns the same as its view for index `i` and rank `i`.
fn answers_as_view<A: Allocator + Clone>(rt: &impl Abort, ranked: &RankedBuffer<A>, i: usize) {
    if i <= ranked.len() {
        let given = (ranked.rank(i), ranked.select(i), ranked.select_unset(i));
        equal(rt, given, viewed_at(rt, ranked.as_view(), i));
    }
    if i < ranked.len() {
        let bit = ranked.as_view().value(i);
        equal(rt, ranked.value(i), bit);
    }
}

/// Parts that begin and end within bytes, blocks and groups.
const PARTS: [(usize, usize); 7] = [
    (0, 0),
    (3, 3),
    (5, 517),
    (5, 518),
    (64, 65_600),
    (13, 65_550),
    (0, 131_073),
];

const PLACES: [usize; 9] = [0, 1, 511, 512, 513, 32_000, 65_535, 65_536, 131_072];

#[test]
fn shared_parts_answer_as_their_views(rt: HostRuntime) {
    let set = mixed(&rt, rt.alloc(), 3, 131_073)
        .freeze()
        .expect(&rt, "an owner");
    for part in PARTS {
        let ranked = of_part(&rt, rt.alloc(), &set, part);
        equal(&rt, ranked.len(), part.1 - part.0);
        equal(&rt, ranked.is_empty(), part.0 == part.1);
        for i in PLACES {
            answers_as_view(&rt, &ranked, i);
        }
        let len = ranked.len();
        let inner = ranked.into_inner();
        equal(&rt, inner.len(), len);
        drop(inner);
    }
    drop(set);
}

/// A clone has the bits of its directory, and returns the same as its view, even after the
/// directory is dropped.
#[test]
fn clones_answer_as_their_directories(rt: HostRuntime) {
    let set = mixed(&rt, rt.alloc(), 5, 131_073)
        .freeze()
        .expect(&rt, "an owner");
    for part in PARTS {
        let ranked = of_part(&rt, rt.alloc(), &set, part);
        let copy = ranked.clone().expect(&rt, "counts");
        equal(&rt, copy.as_view() == ranked.as_view(), true);
        drop(ranked);
        for i in PLACES {
            answers_as_view(&rt, &copy, i);
        }
        drop(copy);
    }
    drop(set);
}

/// Clones a directory of true bits, by std's trait or without it. Refused or not, the directory is
/// as it was.
fn cloned<A: Allocator + Clone>(
    rt: &impl Abort,
    (bits, counts): (A, A),
    len: usize,
    by_trait: bool,
) -> Result<()> {
    let ranked = RankedBuffer::new(counts, ones(bits, len)?.freeze()?)?;
    let copy = if by_trait {
        Clone::clone(&ranked).map_err(BufferError::from)
    } else {
        ranked.clone()
    };
    answers_as_view(rt, &ranked, len);
    drop(ranked);
    let copy = copy?;
    answers_as_view(rt, &copy, len);
    drop(copy);
    Ok(())
}

/// How many bits are cloned, whether by the trait, and how many requests are made: four copies of
/// allocators and a count of owners; if there are bits, also their bytes, their counts and the copy
/// of the counts.
const CLONES: [(usize, bool, u64); 4] = [
    (0, false, 5),
    (9, false, 8),
    (512, true, 8),
    (65_600, false, 8),
];

#[test]
fn a_refused_clone_leaves_the_directory(rt: HostRuntime) {
    let heap = &Refusing::new(rt.alloc(), 0);
    for (len, by_trait, requests) in CLONES {
        for _ in heap.in_turn() {
            let allocs = (Handle { inner: heap }, Handle { inner: heap });
            let answer = cloned(&rt, allocs, len, by_trait);
            let wanted = heap.wanted(Ok(()), Err(BufferError::OutOfMemory));
            equal(&rt, answer, wanted);
        }
        equal(&rt, (heap.has_refused(), heap.asked()), (false, requests));
    }
}

/// The directory returns what a row says.
fn answers<A: Allocator + Clone>(rt: &impl Abort, ranked: &RankedBuffer<A>, row: Row) {
    match row {
        Row::Rank(i, wanted) => {
            holds(rt, i <= ranked.len());
            equal(rt, ranked.rank(i), wanted);
        }
        Row::Select(n, place) => equal(rt, ranked.select(n), place),
        Row::SelectUnset(n, place) => equal(rt, ranked.select_unset(n), place),
    }
}

/// A directory that was edited is shared, and counted anew.
#[test]
fn a_frozen_directory_is_counted_anew(rt: HostRuntime) {
    let mut ranked = Ranked::new(rt.alloc(), by_fives(&rt, rt.alloc(), 1099)).expect(&rt, "counts");
    equal(
        &rt,
        (ranked.is_empty(), ranked.capacity() >= 1099),
        (false, true),
    );
    holds(&rt, 595 < ranked.len());
    equal(&rt, (ranked.value(595), ranked.value(594)), (true, false));
    ranked.append(false).expect(&rt, "room");
    let shared = RankedBuffer::new(rt.alloc(), ranked.freeze().expect(&rt, "an owner"));
    let shared = shared.expect(&rt, "counts");
    for row in BY_FIVES {
        answers(&rt, &shared, *row);
    }
    drop(shared);
}

/// Makes a directory, shares its set, and makes a directory of the shared set.
fn make<A: Allocator + Clone + Copy>(rt: &impl Abort, alloc: A) -> Result<()> {
    let set = Ranked::new(alloc, ones(alloc, 2560)?)?.freeze()?;
    let ranked = RankedBuffer::new(alloc, set)?;
    answers_as_view(rt, &ranked, 2559);
    drop(ranked);
    Ok(())
}

#[test]
fn a_refused_request_refuses_the_shared_directory(rt: HostRuntime) {
    let heap = Refusing::new(rt.alloc(), 0);
    for _ in heap.in_turn() {
        let answer = make(&rt, &heap);
        let wanted = heap.wanted(Ok(()), Err(BufferError::OutOfMemory));
        equal(&rt, answer, wanted);
    }
    // The set, its counts, the count of owners, and the counts again.
    equal(&rt, (heap.asked(), heap.has_refused()), (4, false));
}
