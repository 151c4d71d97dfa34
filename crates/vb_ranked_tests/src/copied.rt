//! Copies of a directory are queried and edited independently of it; each request is refused in
//! turn.
use crate::compared::{answers_at, equal};
use crate::edits::is_as_new;
use crate::made::{mixed, ones};
use std::alloc::Allocator;
use std::process::Abort;
use vb_ranked::Ranked;
use vb_set::{BitBufferMut, BufferError, Result};
use vb_testing::Refusing;

/// Appends bits to a directory and to a plain set, and compares the two.
fn lengthen<A: Allocator + Clone>(
    rt: &impl Abort,
    alloc: A,
    (ranked, plain): (&mut Ranked<A>, &mut BitBufferMut<A>),
    v: bool,
) {
    ranked.append_n(v, 600).expect(rt, "room");
    plain.append_n(v, 600).expect(rt, "room");
    is_as_new(rt, alloc, ranked, plain);
}

/// Directories of no bits, of about a block, and of a group of blocks and more.
#[test]
fn a_copy_is_edited_by_itself(rt: HostRuntime) {
    for len in [0, 500, 513, 65_536, 70_000] {
        let mut plain = mixed(&rt, rt.alloc(), 13, len);
        let mut beside = plain.clone().expect(&rt, "a set");
        let set = plain.clone().expect(&rt, "a set");
        let mut ranked = Ranked::new(rt.alloc(), set).expect(&rt, "counts");
        let mut copy = ranked.clone().expect(&rt, "a copy");
        lengthen(&rt, rt.alloc(), (&mut ranked, &mut plain), true);
        is_as_new(&rt, rt.alloc(), &copy, &beside);
        lengthen(&rt, rt.alloc(), (&mut copy, &mut beside), false);
        is_as_new(&rt, rt.alloc(), &ranked, &plain);
        drop((plain, beside, ranked, copy));
    }
}

/// Fills a copy up to its capacity.
fn fill<A: Allocator + Clone>(rt: &impl Abort, mut copy: Ranked<A>) {
    let room = copy.capacity();
    let left = room.saturating_sub(copy.len());
    copy.append_n(true, left).expect(rt, "room");
    equal(rt, copy.capacity(), room);
    equal(rt, answers_at(rt, &copy, room), (room, None, None));
    drop(copy);
}

/// Copies a directory of true bits, by std's trait or without it.
fn copy<A: Allocator + Clone + Copy>(
    rt: &impl Abort,
    alloc: A,
    len: usize,
    by_trait: bool,
) -> Result<()> {
    let ranked = Ranked::new(alloc, ones(alloc, len)?)?;
    let copy = if by_trait {
        Clone::clone(&ranked).map_err(BufferError::from)
    } else {
        ranked.clone()
    };
    equal(rt, answers_at(rt, &ranked, len), (len, None, None));
    drop(ranked);
    fill(rt, copy?);
    Ok(())
}

/// The set and its counts make one request each, and so does the copy of either. Filling the copy
/// up to its capacity makes none.
#[test]
fn a_refused_copy_leaves_the_directory(rt: HostRuntime) {
    let heap = Refusing::new(rt.alloc(), 0);
    for (len, by_trait) in [(9, false), (512, true), (65_000, false)] {
        for _ in heap.in_turn() {
            let answer = copy(&rt, &heap, len, by_trait);
            let wanted = heap.wanted(Ok(()), Err(BufferError::OutOfMemory));
            equal(&rt, answer, wanted);
        }
        equal(&rt, (heap.asked(), heap.has_refused()), (4, false));
    }
}

#[test]
fn a_copy_of_no_bits_asks_for_nothing(rt: HostRuntime) {
    let heap = Refusing::new(rt.alloc(), 0);
    heap.refuse(1);
    equal(&rt, copy(&rt, &heap, 0, false), Ok(()));
    equal(&rt, heap.asked(), 0);
}
