//! Walks over two sets: one of a byte, and one of more than two words.
use crate::buffer::compared::equal;
use crate::buffer::made::window;
use std::alloc::Allocator;
use std::process::Abort;
use vb_bit_buffer::BitBuffer;
use vb_core::Result;
use vb_mem::ByteBuffer;

/// The walks over 130 true bits.
fn walks_end<A: Allocator + Clone>(rt: &impl Abort, set: &BitBuffer<A>) {
    let mut runs = set.set_slices();
    equal(rt, runs.next(), Some((0, 130)));
    equal(rt, runs.next(), None);
    equal(rt, set.set_indices().last(), Some(129));
    equal(rt, set.into_iter().count(), 130);
}

/// Their words.
fn words_end<A: Allocator + Clone>(rt: &impl Abort, set: &BitBuffer<A>) {
    equal(rt, set.chunks().iter_padded().last(), Some(3));
    let unaligned = set.unaligned_chunks();
    equal(rt, unaligned.prefix(), Some(u64::MAX));
    equal(rt, unaligned.suffix(), Some(3));
}

/// The runs of 0110111.
fn runs_are_told<A: Allocator + Clone>(rt: &impl Abort, set: &BitBuffer<A>) {
    let mut runs = set.set_slices();
    equal(rt, runs.next(), Some((1, 3)));
    equal(rt, runs.next(), Some((4, 7)));
    equal(rt, runs.next(), None);
}

/// The indices of its true bits.
fn places_are_told<A: Allocator + Clone>(rt: &impl Abort, set: &BitBuffer<A>) {
    let mut places = set.set_indices();
    for place in [1, 2, 4, 5, 6] {
        equal(rt, places.next(), Some(place));
    }
    equal(rt, places.next(), None);
    equal(rt, set.last_set_index(), Some(6));
    equal(rt, set.true_count(), 5);
}

fn byte_is_walked<A: Allocator + Clone>(rt: &impl Abort, made: Result<BitBuffer<A>>) {
    let set = made.expect(rt, "a set");
    runs_are_told(rt, &set);
    places_are_told(rt, &set);
    drop(set);
}

fn ones_are_walked<A: Allocator + Clone>(rt: &impl Abort, made: Result<BitBuffer<A>>) {
    let set = made.expect(rt, "a set");
    walks_end(rt, &set);
    words_end(rt, &set);
    drop(set);
}

#[test]
fn walks_and_words_end_with_the_bits_of_a_byte(rt: HostRuntime) {
    byte_is_walked(&rt, window(ByteBuffer::full(rt.alloc(), 0x76, 1), 0, 7));
}

#[test]
fn a_run_goes_on_past_words(rt: HostRuntime) {
    ones_are_walked(&rt, BitBuffer::new_set(rt.alloc(), 130));
}
