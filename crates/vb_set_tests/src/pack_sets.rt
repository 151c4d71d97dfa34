//! Worked rows of sets.
use crate::compared::{equal, packs, packs_open, shows_set};
use crate::patterns::{part, thirds};
use std::alloc::Allocator;
use std::process::Abort;
use vb_set::{BitBuffer, BitBufferMut, Result};

#[test]
fn numbers_but_zero_are_packed_as_true(rt: HostRuntime) {
    let made = BitBufferMut::from_truthy(rt.alloc(), &[0, 1, 2, 255]);
    packs_open(&rt, made, 4, &[0b1110]);
}

#[test]
fn bools_are_packed_from_the_lowest_digit_on(rt: HostRuntime) {
    let bools = &[true, false, true];
    packs_open(
        &rt,
        BitBufferMut::from_bools(rt.alloc(), bools),
        3,
        &[0b101],
    );
    packs(&rt, BitBuffer::from_bools(rt.alloc(), bools), 3, &[0b101]);
}

#[test]
fn vectors_of_bools_are_packed(rt: HostRuntime) {
    let bools = Vec::from_elem(rt.alloc(), true, 2).expect(&rt, "memory");
    packs_open(
        &rt,
        BitBufferMut::from_bool_vec(rt.alloc(), bools),
        2,
        &[0b11],
    );
    let bools = Vec::from_elem(rt.alloc(), true, 2).expect(&rt, "memory");
    packs(&rt, BitBuffer::from_bool_vec(rt.alloc(), bools), 2, &[0b11]);
}

fn shows_thirds<A: Allocator + Clone>(rt: &impl Abort, made: Result<BitBuffer<A>>) {
    let set = made.expect(rt, "memory");
    equal(rt, set.inner().as_slice(), &[0x49, 0x92, 0x04]);
    let part = part(rt, &set, 5, 17);
    shows_set(rt, &part, "010010010010");
    drop((set, part));
}

#[test]
fn a_slice_of_a_packed_set_keeps_its_bits(rt: HostRuntime) {
    shows_thirds(&rt, thirds(rt.alloc(), 20));
}

/// Bits that are true at even indices. Asserts that their closure was called once for each.
#[tactic(auto, using(vb_pack::proofs::AnswersLemmas::CanAsk_always))]
fn alternating<A: Allocator + Clone>(rt: &impl Abort, alloc: A) -> BitBufferMut<A> {
    let mut asked = 0usize;
    let made = BitBufferMut::collect_bool_multiversioned(
        alloc,
        130,
        &mut |_| {
            asked = asked.wrapping_add(1);
            asked % 2 == 1
        },
    );
    equal(rt, asked, 130);
    made.expect(rt, "memory")
}

#[test]
fn a_closure_is_asked_once_for_each_place(rt: HostRuntime) {
    let set = alternating(&rt, rt.alloc());
    equal(&rt, set.len(), 130);
    for i in 0..set.len() {
        equal(&rt, set.value(i), i % 2 == 0);
    }
    drop(set);
}

/// How many bits the set has, and how many of them are true.
fn counted<A: Allocator + Clone>(rt: &impl Abort, made: Result<BitBuffer<A>>) -> (usize, usize) {
    let set = made.expect(rt, "memory");
    let counts = (set.len(), set.true_count());
    drop(set);
    counts
}

#[test]
fn no_size_hint_is_relied_on(rt: HostRuntime) {
    let three = (0..usize::MAX).take_while(|number| *number < 3);
    equal(&rt, three.size_hint(), (0, Some(usize::MAX)));
    let made = BitBufferMut::from_iter(rt.alloc(), three.map(|number| number == 1));
    packs_open(&rt, made, 3, &[0b010]);
    let thousand = (0u32..).take_while(|number| *number < 1000);
    equal(&rt, thousand.size_hint(), (0, None));
    let made = BitBuffer::from_iter(rt.alloc(), thousand.map(|number| number % 2 == 0));
    equal(&rt, counted(&rt, made), (1000, 500));
}

/// Lengths around multiples of 64.
const LENS: [usize; 9] = [0, 1, 63, 64, 65, 127, 128, 129, 200];

fn thirds_are_true<A: Allocator + Clone>(rt: &impl Abort, made: Result<BitBuffer<A>>, len: usize) {
    let set = made.expect(rt, "memory");
    equal(rt, set.len(), len);
    equal(rt, set.inner().len(), len.div_ceil(8));
    for i in 0..set.len() {
        equal(rt, set.value(i), i % 3 == 0);
    }
    drop(set);
}

#[test]
fn items_past_64_are_packed(rt: HostRuntime) {
    for len in LENS {
        let items = (0..len).map(|i| i % 3 == 0);
        thirds_are_true(&rt, BitBuffer::from_iter(rt.alloc(), items), len);
        thirds_are_true(&rt, thirds(rt.alloc(), len), len);
    }
}
