//! Calls that fail: for different lengths, before they request memory, and at each request of a
//! copy. heaps.rt has the requests of the operators.
use crate::buffer::calls::{LENT, OWNED, One, Two};
use crate::buffer::compared::{equal, len_of};
use crate::buffer::made::ones;
use std::alloc::Global;
use std::process::Abort;
use vb_core::BufferError;
use vb_testing::{Handle, Refusing};

/// The calls on one set, and the number of requests, including the four that make the set.
const REQUESTS: &[(One, u64)] = &[
    (One::Not, 7),
    (One::NotLent, 9),
    (One::Sliced, 10),
    (One::ShrinkOffset, 4),
];

#[test]
fn each_request_of_a_copy_is_refused(rt: HostRuntime) {
    let heap = Refusing::new(rt.alloc(), 0);
    for (call, requests) in REQUESTS {
        for _ in heap.in_turn() {
            let answer = len_of(call.make(ones(Handle { inner: &heap }, 3, 70)));
            let wanted = heap.wanted(Ok(70), Err(BufferError::OutOfMemory));
            equal(&rt, answer, wanted);
        }
        equal(&rt, (heap.has_refused(), heap.asked()), (false, *requests));
    }
}

/// The lengths are compared before anything is allocated.
fn lengths_come_first(rt: &impl Abort, alloc: Global, calls: &[Two]) {
    let heap = Refusing::new(alloc, 0);
    let refusal = BufferError::LengthMismatch {
        left: 69,
        right: 70,
    };
    for call in calls {
        let (left, right) = (ones(&heap, 3, 69), ones(&heap, 3, 70));
        heap.refuse(1);
        equal(rt, len_of(call.of_made(left, right)), Err(refusal));
        equal(rt, heap.asked(), 0);
        heap.refuse(0);
    }
}

#[test]
fn lengths_are_compared_before_memory(rt: HostRuntime) {
    lengths_come_first(&rt, rt.alloc(), OWNED);
    lengths_come_first(&rt, rt.alloc(), LENT);
}
