//! Sets: the number of items that are polled when memory runs out, and how often a closure is
//! called up to an error. Iterators are passed by `by_ref`, so items that weren't polled are left.
use crate::compared::{equal, is_made};
use crate::watched::Watched;
use std::alloc::{Allocator, Global};
use std::cell::Cell;
use std::process::Abort;
use vb_bit_buffer::BitBuffer;
use vb_core::{BufferError, Result};
use vb_set::BitBufferMut;
use vb_testing::Refusing;

/// Bits, of which the last ones don't fill a word.
const BITS: [bool; 1000] = [true; 1000];

/// Makes a set of the bits, to be shared or to be edited. Returns whether it was made, and how many
/// bits were polled.
fn polled<A: Allocator + Clone>(alloc: A, is_shared: bool) -> (bool, usize) {
    let mut bits = BITS.iter().copied();
    let is_made = if is_shared {
        is_made(BitBuffer::from_iter(alloc, bits.by_ref()))
    } else {
        is_made(BitBufferMut::from_iter(alloc, bits.by_ref()))
    };
    (is_made, BITS.len().saturating_sub(bits.len()))
}

/// Bits are packed 64 at a time, and memory is requested if the next 64 don't fit. So the last
/// polled bits are the first 64 that don't fit in the bytes of the previous request.
fn stops_at_a_refusal(rt: &impl Abort, heap: &Refusing<Global>, is_shared: bool) {
    let (mut asked, mut room) = (0usize, 0usize);
    for _ in heap.in_turn() {
        let answer = polled(heap, is_shared);
        let words = (room / 8).saturating_add(1);
        let wanted = if heap.has_refused() {
            words.saturating_mul(64).min(BITS.len())
        } else {
            BITS.len()
        };
        equal(rt, answer, (!heap.has_refused(), wanted));
        room = heap.asked_bytes().saturating_sub(asked);
        asked = heap.asked_bytes();
    }
}

#[test]
fn no_bit_is_polled_behind_a_refusal(rt: HostRuntime) {
    let heap = Refusing::new(rt.alloc(), 0);
    stops_at_a_refusal(&rt, &heap, false);
    stops_at_a_refusal(&rt, &heap, true);
}

/// Adds a thousand bits of known number to a few. If memory runs out, none is polled, and the set
/// stays.
fn add_whole<A: Allocator + Clone>(rt: &impl Abort, made: Result<BitBufferMut<A>>) -> Result<()> {
    let mut set = made?;
    let given = Cell::new(0usize);
    let answer = set.extend_trusted(Watched {
        left: BITS.len(),
        item: true,
        second_last: false,
        given: &given,
    });
    let wanted = if answer.is_ok() { (1009, 1000) } else { (9, 0) };
    equal(rt, (set.len(), given.get()), wanted);
    drop((set, given));
    answer
}

#[test]
fn a_refused_list_of_known_length_is_not_polled(rt: HostRuntime) {
    let heap = Refusing::new(rt.alloc(), 0);
    for _ in heap.in_turn() {
        let answer = add_whole(&rt, BitBufferMut::new_set(&heap, 9));
        let refused = Err(BufferError::OutOfMemory);
        equal(&rt, answer, heap.wanted(Ok(()), refused));
    }
    // The bytes of the nine bits, and those of all.
    equal(&rt, (heap.has_refused(), heap.asked()), (false, 2));
}

/// The number of calls of a closure that ends a walk over true bits at index `last`.
#[tactic(auto, using(vb_pack::proofs::AnswersLemmas::CanAsk_always))]
fn calls_up_to<A: Allocator + Clone>(set: &BitBuffer<A>, last: usize) -> usize {
    let mut calls = 0usize;
    let _ = set.try_for_each_set_index(&mut |i| {
        calls = calls.wrapping_add(1);
        if i == last { Err(i) } else { Ok(()) }
    });
    calls
}

/// Indices at the ends of words, and the last index.
const ENDS: [usize; 7] = [0, 62, 63, 64, 127, 128, 199];

#[test]
fn no_place_is_called_behind_an_error(rt: HostRuntime) {
    let set = BitBuffer::new_set(rt.alloc(), 200).expect(&rt, "memory");
    for last in ENDS {
        equal(&rt, calls_up_to(&set, last), last.saturating_add(1));
    }
    drop(set);
}
