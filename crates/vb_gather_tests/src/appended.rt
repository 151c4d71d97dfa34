//! Sets added to sets: worked rows, growth, and what a refusal leaves.
use crate::compared::{REFUSED, answers, equal, holds};
use crate::made::bits;
use std::alloc::Allocator;
use std::process::Abort;
use vb_set::{BitBuffer, BitBufferMut, ByteBufferMut, Result};
use vb_testing::{Handle, Refusing};

/// The set with the other one behind it.
fn joined<A: Allocator + Clone>(
    rt: &impl Abort,
    mut set: BitBufferMut<A>,
    added: BitBuffer<A>,
) -> Result<BitBuffer<A>> {
    set.append_buffer(&added).expect(rt, "room");
    drop(added);
    set.freeze()
}

#[test]
fn appended_false_bits_stay_false(rt: HostRuntime) {
    let set = !BitBufferMut::new_unset(rt.alloc(), 4).expect(&rt, "a set");
    let added = BitBuffer::new_unset(rt.alloc(), 3).expect(&rt, "a set");
    answers(&rt, joined(&rt, set, added), Ok("1111000"));
}

/// Bits past the end that were left true don't show.
#[test]
fn stale_bits_are_written_over(rt: HostRuntime) {
    for (kept, wanted) in [(8, "1111111101001"), (2, "1101001")] {
        let mut set = BitBufferMut::new_set(rt.alloc(), 16).expect(&rt, "a set");
        set.truncate(kept);
        let added = bits(&rt, rt.alloc(), "01001");
        answers(&rt, joined(&rt, set, added), Ok(wanted));
    }
}

/// A set at offset 11, filled with false bits up to its capacity. All bits of its bytes are false.
fn full_of_false<A: Allocator + Clone>(rt: &impl Abort, alloc: A) -> Result<BitBufferMut<A>> {
    let bytes = ByteBufferMut::full(alloc, 0, 3)?;
    holds(rt, bytes.len() == 3);
    let mut set = BitBufferMut::from_buffer(bytes, 11, 9);
    set.append_n(false, set.capacity() - set.len())
        .expect(rt, "room");
    Ok(set)
}

/// Adds a set of a hundred true bits to one that is full of false ones. A refusal leaves the set,
/// its bytes and its capacity.
fn add<A: Allocator + Clone>(
    rt: &impl Abort,
    set: &mut BitBufferMut<A>,
    added: &BitBuffer<A>,
) -> Result<()> {
    let (len, room, bytes) = (set.len(), set.capacity(), set.as_slice().len());
    let answer = set.append_buffer(added);
    let longer = if answer.is_ok() { 100 } else { 0 };
    equal(rt, set.len(), len.saturating_add(longer));
    equal(rt, set.as_view().true_count(), longer);
    if answer.is_err() {
        equal(rt, set.offset(), 11);
        equal(rt, set.capacity(), room);
        equal(rt, set.as_slice().len(), bytes);
        is_clear(rt, set.as_slice());
    }
    answer
}

/// No bit of the bytes is true.
fn is_clear(rt: &impl Abort, bytes: &[u8]) {
    for byte in bytes {
        equal(rt, *byte, 0);
    }
}

fn add_to_full<A: Allocator + Clone>(rt: &impl Abort, alloc: A) -> Result<()> {
    let mut set = full_of_false(rt, alloc.clone()?)?;
    match BitBuffer::new_set(alloc, 100) {
        Ok(added) => {
            let answer = add(rt, &mut set, &added);
            drop((set, added));
            answer
        }
        Err(error) => {
            drop(set);
            Err(error)
        }
    }
}

#[test]
fn a_refused_append_leaves_the_set(rt: HostRuntime) {
    let heap = &Refusing::new(rt.alloc(), 0);
    for _ in heap.in_turn() {
        let answer = add_to_full(&rt, Handle { inner: heap });
        equal(&rt, answer, heap.wanted(Ok(()), REFUSED));
    }
    equal(&rt, (heap.has_refused(), heap.asked()), (false, 7));
}

/// Adds a set of true bits to an empty set, 5000 times.
fn append_again<A: Allocator + Clone>(rt: &impl Abort, alloc: A, added: &BitBuffer<A>) {
    let mut set = BitBufferMut::empty(alloc);
    for _ in 0..5000 {
        set.append_buffer(added).expect(rt, "room");
    }
    let count = added.len().saturating_mul(5000);
    equal(rt, set.len(), count);
    equal(rt, set.as_view().true_count(), count);
    drop(set);
}

/// A body that gives up once the set has grown to some length fails here, and so does one that
/// allocates at each call, or allocates more and more.
#[test]
fn appends_go_on_while_there_is_memory(rt: HostRuntime) {
    let heap = &Refusing::new(rt.alloc(), 0);
    for len in [7, 8] {
        let added = BitBuffer::new_set(heap, len).expect(&rt, "a set");
        equal(&rt, added.len(), len);
        heap.refuse(0);
        append_again(&rt, heap, &added);
        equal(&rt, heap.asked() <= 20, true);
        equal(&rt, heap.asked_bytes() <= 4 * 5000, true);
        drop(added);
    }
}
