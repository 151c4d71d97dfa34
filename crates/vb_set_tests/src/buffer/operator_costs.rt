//! What calls allocate: nothing if they only share bytes, an owner if they work in place, otherwise
//! the bytes of the window and an owner.
use crate::buffer::calls::{LENT, OWNED, One, Two};
use crate::buffer::compared::{equal, len_of};
use crate::buffer::made::{ones, part};
use std::alloc::{Allocator, Global};
use std::process::Abort;
use vb_bit_buffer::BitBuffer;
use vb_testing::Refusing;

/// A body that copies the bytes makes a second request, which is refused.
#[test]
fn a_lone_left_value_is_combined_in_place(rt: HostRuntime) {
    let heap = Refusing::new(rt.alloc(), 0);
    for call in OWNED {
        let (left, right) = (ones(&heap, 3, 200), ones(&heap, 3, 200));
        heap.refuse(2);
        equal(&rt, len_of(call.of_made(left, right)), Ok(200));
        equal(&rt, heap.asked(), 1);
        heap.refuse(0);
    }
}

/// How many requests a call on a set that has no other owner makes.
const REQUESTS: &[(One, u64)] = &[
    (One::Not, 1),
    (One::NotLent, 2),
    (One::Sliced, 2),
    (One::ShrinkOffset, 0),
];

#[test]
fn calls_on_one_set_ask_for_what_they_need(rt: HostRuntime) {
    let heap = Refusing::new(rt.alloc(), 0);
    for (call, requests) in REQUESTS {
        let made = ones(&heap, 3, 200);
        heap.refuse(0);
        equal(&rt, len_of(call.make(made)), Ok(200));
        equal(&rt, heap.asked(), *requests);
    }
}

/// A copy has only the bytes of the window, wherever the storage ends.
fn parts_are_copied<A: Allocator + Clone>(
    rt: &impl Abort,
    heap: &Refusing<Global>,
    call: Two,
    all: &BitBuffer<A>,
) {
    heap.refuse(0);
    let made = call.of_made(part(all, 803, 1003), part(all, 2005, 2205));
    equal(rt, len_of(made), Ok(200));
    equal(rt, heap.asked(), 2);
    equal(rt, heap.asked_bytes() <= 512, true);
}

#[test]
fn a_lent_left_value_is_copied_alone(rt: HostRuntime) {
    let heap = Refusing::new(rt.alloc(), 0);
    let all = BitBuffer::new_set(&heap, 80_000).expect(&rt, "a set");
    for call in LENT {
        parts_are_copied(&rt, &heap, *call, &all);
    }
    drop(all);
}

/// `sliced` shares the bytes of a set that begins with its first byte.
#[test]
fn the_front_of_a_front_is_shared(rt: HostRuntime) {
    let heap = Refusing::new(rt.alloc(), 0);
    let made = BitBuffer::new_set(&heap, 200);
    heap.refuse(1);
    equal(&rt, len_of(One::Sliced.make(made)), Ok(200));
    equal(&rt, heap.asked(), 0);
}
