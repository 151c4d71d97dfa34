use crate::Refusing;
use crate::trials::{equal, has_counted, two_items};
use std::alloc::AllocError;

#[test]
fn each_request_is_refused_and_then_none(rt: HostRuntime) {
    let heap = Refusing::new(rt.alloc(), 0);
    let mut last = 0u64;
    for request in heap.in_turn() {
        equal(&rt, request, last.saturating_add(1));
        last = request;
        let answer = two_items(&heap);
        equal(&rt, answer, heap.wanted(Ok(2), Err(AllocError)));
        has_counted(&rt, &heap, request.min(2), request < 3);
    }
    let ended = (heap.has_ended(1), heap.has_ended(2), heap.has_ended(3));
    equal(&rt, (last, ended), (3, (false, true, false)));
}

#[test]
fn runs_that_ask_without_end_are_a_thousand(rt: HostRuntime) {
    let heap = Refusing::new(rt.alloc(), 0);
    let mut last = 0u64;
    for request in heap.in_turn() {
        last = request;
        for _ in 0..request {
            drop(two_items(&heap));
        }
    }
    equal(&rt, (last, heap.has_ended(heap.asked())), (1000, false));
}
