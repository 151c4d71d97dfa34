//! Closures called for the bits of sets, compared with plain loops over the bits.
//!
//! A closure mixes all indices that it gets into one number, which depends on each index and on
//! their order.
use crate::compared::{equal, shows_set};
use crate::patterns::{part, scattered, thirds};
use std::alloc::Allocator;
use std::process::Abort;
use vb_set::{BitBuffer, Result};

/// The number `noted` after one index more.
fn note(noted: u64, place: usize) -> u64 {
    noted
        .wrapping_mul(1_000_003)
        .wrapping_add(place as u64)
        .wrapping_add(1)
}

/// The numbers for the indices of true bits, for those of false bits, and for all with their bits.
type Notes = (u64, u64, u64);

fn notes_of_loop<A: Allocator + Clone>(source: &BitBuffer<A>) -> Notes {
    let (mut set, mut unset, mut bits) = (0, 0, 0);
    for i in 0..source.len() {
        let bit = source.value(i);
        if bit {
            set = note(set, i);
        } else {
            unset = note(unset, i);
        }
        bits = note(note(bits, i), usize::from(bit));
    }
    (set, unset, bits)
}

#[tactic(auto, using(vb_pack::proofs::AnswersLemmas::CanAsk_always))]
fn notes_of_calls<A: Allocator + Clone>(source: &BitBuffer<A>) -> Notes {
    let mut set = 0;
    source.for_each_set_index(&mut |i| set = note(set, i));
    let mut unset = 0;
    source.for_each_unset_index(&mut |i| unset = note(unset, i));
    let mut bits = 0;
    source.iter_bits(&mut |i, bit| bits = note(note(bits, i), usize::from(bit)));
    (set, unset, bits)
}

/// Returns for each index `i` whether its bit equals `i % 2 == 0`, and how often the closure was
/// called.
#[tactic(auto, using(vb_pack::proofs::AnswersLemmas::CanAsk_always))]
fn mapped<A: Allocator + Clone>(rt: &impl Abort, set: &BitBuffer<A>) -> (BitBuffer<A>, usize) {
    let mut asked = 0usize;
    let even = set.map_cmp(&mut |i, bit| {
        asked = asked.wrapping_add(1);
        bit == (i % 2 == 0)
    });
    (even.expect(rt, "memory"), asked)
}

fn mapped_is_plain<A: Allocator + Clone>(rt: &impl Abort, set: &BitBuffer<A>) {
    let (even, asked) = mapped(rt, set);
    equal(rt, even.len(), set.len());
    equal(rt, asked, set.len());
    for i in 0..set.len().min(even.len()) {
        equal(rt, even.value(i), set.value(i) == (i % 2 == 0));
    }
    drop(even);
}

/// Parts of the set, which begin and end within bytes and words or at their borders.
const PARTS: [(usize, usize); 6] = [(0, 200), (0, 0), (0, 64), (3, 64), (5, 69), (7, 137)];

#[test]
fn closures_get_places_and_bits_in_order(rt: HostRuntime) {
    let set = scattered(rt.alloc()).expect(&rt, "memory");
    for (start, end) in PARTS {
        let part = part(&rt, &set, start, end);
        equal(&rt, notes_of_calls(&part), notes_of_loop(&part));
        mapped_is_plain(&rt, &part);
        drop(part);
    }
    drop(set);
}

fn mapped_part<A: Allocator + Clone>(rt: &impl Abort, made: Result<BitBuffer<A>>) {
    let set = made.expect(rt, "memory");
    let part = part(rt, &set, 5, 17);
    let (even, asked) = mapped(rt, &part);
    equal(rt, asked, 12);
    shows_set(rt, &even, "000111000111");
    drop((set, part, even));
}

#[test]
fn a_mapped_part_counts_its_places_from_0(rt: HostRuntime) {
    mapped_part(&rt, thirds(rt.alloc(), 20));
}

/// The result of a walk over the true bits that ends at index `last`, and the indices it visited as
/// decimal digits.
#[tactic(auto, using(vb_pack::proofs::AnswersLemmas::CanAsk_always))]
fn walk_to<A: Allocator + Clone>(set: &BitBuffer<A>, last: usize) -> (Result<(), usize>, usize) {
    let mut asked = 0usize;
    let answer = set.try_for_each_set_index(&mut |i| {
        asked = asked.wrapping_mul(10).wrapping_add(i);
        if i == last { Err(i) } else { Ok(()) }
    });
    (answer, asked)
}

#[test]
fn the_first_error_is_answered(rt: HostRuntime) {
    let bools = [false, true, true, false, true, true, true];
    let set = BitBuffer::from_bools(rt.alloc(), &bools).expect(&rt, "memory");
    equal(&rt, walk_to(&set, 4), (Err(4), 124));
    equal(&rt, walk_to(&set, 7), (Ok(()), 12456));
    drop(set);
}
