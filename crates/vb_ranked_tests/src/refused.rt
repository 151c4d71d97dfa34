//! Calls that allocate, with each of their requests refused in turn: what a refusal leaves, and
//! that no call fails while there is memory.
use crate::compared::{answers_at, equal};
use crate::made::ones;
use std::alloc::Allocator;
use std::process::Abort;
use vb_rank::table_of;
use vb_ranked::Ranked;
use vb_set::{BitBufferMut, BitBufferView, BufferError, Result};
use vb_testing::Refusing;

/// How many blocks the table of the bits has.
fn table_len<A: Allocator + Clone>(alloc: A, bits: BitBufferView<'_>) -> Result<usize> {
    let table = table_of(alloc, bits)?;
    let len = table.len();
    drop(table);
    Ok(len)
}

/// Makes the table of five blocks, and a directory of them.
fn make<A: Allocator + Clone + Copy>(rt: &impl Abort, alloc: A) -> Result<()> {
    let set = ones(alloc, 2560)?;
    let len = table_len(alloc, set.as_view());
    if let Err(error) = len {
        drop(set);
        return Err(error);
    }
    equal(rt, len, Ok(5));
    let ranked = Ranked::new(alloc, set)?;
    equal(rt, answers_at(rt, &ranked, 2559), (2559, Some(2559), None));
    drop(ranked);
    Ok(())
}

#[test]
fn a_refused_request_refuses_the_directory(rt: HostRuntime) {
    let heap = Refusing::new(rt.alloc(), 0);
    for _ in heap.in_turn() {
        let answer = make(&rt, &heap);
        let wanted = heap.wanted(Ok(()), Err(BufferError::OutOfMemory));
        equal(&rt, answer, wanted);
    }
    // One request for the set, and one for each table.
    equal(&rt, (heap.asked(), heap.has_refused()), (3, false));
}

/// Indices to query, in the first three blocks.
const IN_BLOCKS: [usize; 5] = [0, 511, 512, 1023, 1024];

/// Indices in four groups.
const IN_GROUPS: [usize; 5] = [65_535, 65_536, 131_071, 131_072, 196_608];

/// Adds true bits to an empty directory. A refused append leaves it as it was, and the next one
/// adds the bit.
fn append<A: Allocator + Clone + Copy>(
    rt: &impl Abort,
    alloc: A,
    count: usize,
    places: &[usize],
) -> Result<()> {
    let mut ranked = Ranked::new(alloc, BitBufferMut::empty(alloc))?;
    let mut answer = Ok(());
    for len in 0..count {
        if let Err(error) = ranked.append(true) {
            answer = Err(error);
            equal(rt, ranked.len(), len);
            equal(rt, answers_at(rt, &ranked, len), (len, None, None));
            ranked.append(true).expect(rt, "room");
        }
    }
    equal(rt, ranked.len(), count);
    for i in places {
        equal(rt, answers_at(rt, &ranked, *i), (*i, Some(*i), None));
    }
    drop(ranked);
    answer
}

/// A body that allocates at each append, or at each block, fails here.
#[test]
fn a_refused_append_leaves_the_directory(rt: HostRuntime) {
    let heap = Refusing::new(rt.alloc(), 0);
    for _ in heap.in_turn() {
        let answer = append(&rt, &heap, 1025, &IN_BLOCKS);
        let wanted = heap.wanted(Ok(()), Err(BufferError::OutOfMemory));
        equal(&rt, answer, wanted);
    }
    // Six for the bytes, whose capacity doubles, and one for the counts.
    equal(&rt, (heap.asked(), heap.has_refused()), (7, false));
}

/// The same over several groups.
#[test]
fn a_refused_append_leaves_the_groups(rt: HostRuntime) {
    let heap = Refusing::new(rt.alloc(), 0);
    for _ in heap.in_turn() {
        let answer = append(&rt, &heap, 196_609, &IN_GROUPS);
        let wanted = heap.wanted(Ok(()), Err(BufferError::OutOfMemory));
        equal(&rt, answer, wanted);
    }
    // Thirteen for the bytes, and seven for the counts.
    equal(&rt, (heap.asked(), heap.has_refused()), (20, false));
}

/// Adds a true bit to an empty directory whose set has capacity for it.
fn append_first<A: Allocator + Clone + Copy>(rt: &impl Abort, alloc: A) -> Result<()> {
    let set = BitBufferMut::with_capacity(alloc, 1000)?;
    let mut ranked = Ranked::new(alloc, set)?;
    let answer = ranked.append(true);
    if answer.is_err() {
        equal(rt, answers_at(rt, &ranked, 0), (0, None, None));
        ranked.append(true).expect(rt, "room");
    }
    equal(rt, answers_at(rt, &ranked, 0), (0, Some(0), None));
    drop(ranked);
    answer
}

#[test]
fn a_refused_first_append_leaves_the_directory(rt: HostRuntime) {
    let heap = Refusing::new(rt.alloc(), 0);
    for _ in heap.in_turn() {
        let answer = append_first(&rt, &heap);
        let wanted = heap.wanted(Ok(()), Err(BufferError::OutOfMemory));
        equal(&rt, answer, wanted);
    }
    // The capacity of the set, and the counts of that many bits.
    equal(&rt, (heap.asked(), heap.has_refused()), (2, false));
}

/// Adds a true bit behind a whole group of blocks. A refused append leaves the directory as it was,
/// and the next one adds the bit.
fn append_behind<A: Allocator + Clone + Copy>(rt: &impl Abort, alloc: A) -> Result<()> {
    let set = ones(alloc, 65_536)?;
    let mut ranked = Ranked::new(alloc, set)?;
    let answer = ranked.append(true);
    if answer.is_err() {
        equal(rt, ranked.len(), 65_536);
        equal(rt, answers_at(rt, &ranked, 65_536), (65_536, None, None));
        ranked.append(true).expect(rt, "room");
    }
    let place = 65_536;
    equal(
        rt,
        answers_at(rt, &ranked, place),
        (place, Some(place), None),
    );
    drop(ranked);
    answer
}

#[test]
fn a_refused_group_leaves_the_directory(rt: HostRuntime) {
    let heap = Refusing::new(rt.alloc(), 0);
    for _ in heap.in_turn() {
        let answer = append_behind(&rt, &heap);
        let wanted = heap.wanted(Ok(()), Err(BufferError::OutOfMemory));
        equal(&rt, answer, wanted);
    }
    // The set and its counts, and then more of both.
    equal(&rt, (heap.asked(), heap.has_refused()), (4, false));
}
