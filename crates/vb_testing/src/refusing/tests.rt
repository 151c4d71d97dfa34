use crate::Refusing;
use crate::trials::{equal, equal_bytes, has_counted, shared_number, text, two_items};
use std::alloc::{AllocError, Allocator, Global};
use std::process::Abort;
use std::rc::Rc;

// Makes four requests: a list's block and its growth, a shared number, a text. Returns the number
// of items of the list, the shared number, and the length of the text.
fn build<B: Allocator>(heap: &Refusing<B>) -> Result<(usize, usize, usize), AllocError> {
    Ok((two_items(heap)?, shared_number(heap)?, text(heap)?))
}

#[test]
fn refuses_each_request_in_turn(rt: HostRuntime) {
    for refused in 0..6u64 {
        let heap = Refusing::new(rt.alloc(), refused);
        let is_refused = 0 < refused && refused < 5;
        let wanted = if is_refused {
            Err(AllocError)
        } else {
            Ok((2, 3, 0))
        };
        equal(&rt, build(&heap), wanted);
        has_counted(&rt, &heap, if is_refused { refused } else { 4 }, is_refused);
    }
}

// Pushes three items to a list with capacity for two. Its growth is refused once.
fn grow_past_a_refusal<B: Allocator>(rt: &impl Abort, heap: &Refusing<B>) {
    let mut list = Vec::with_capacity(heap, 2).expect(rt, "memory");
    list.push(1u8).expect(rt, "room");
    list.push(2).expect(rt, "room");
    has_counted(rt, heap, 1, false);
    equal(rt, list.push(3).is_err(), true);
    has_counted(rt, heap, 2, true);
    equal_bytes(rt, list.as_slice(), &[1, 2]);
    list.push(3).expect(rt, "memory");
    has_counted(rt, heap, 3, true);
    equal_bytes(rt, list.as_slice(), &[1, 2, 3]);
    drop(list);
}

#[test]
fn refuses_one_request_alone(rt: HostRuntime) {
    grow_past_a_refusal(&rt, &Refusing::new(rt.alloc(), 2));
}

// Shrinks a list to its length. The first attempt is refused.
fn shrink_past_a_refusal<B: Allocator>(rt: &impl Abort, heap: &Refusing<B>) {
    let mut list = Vec::with_capacity(heap, 40).expect(rt, "memory");
    list.push(1u8).expect(rt, "room");
    heap.refuse(1);
    has_counted(rt, heap, 0, false);
    list.shrink_to_fit();
    has_counted(rt, heap, 1, true);
    // A refused shrink leaves the capacity unchanged.
    equal(rt, list.capacity() >= 40, true);
    heap.refuse(0);
    list.shrink_to_fit();
    has_counted(rt, heap, 1, false);
    equal(rt, (list.len(), list.capacity()), (1, 1));
    drop(list);
}

#[test]
fn counts_anew_from_the_last_refuse(rt: HostRuntime) {
    shrink_past_a_refusal(&rt, &Refusing::new(rt.alloc(), 0));
}

// Changes a shared number while the first request is refused. Returns the number of requests, and
// the shared number afterwards.
fn change<B: Allocator>(
    heap: &Refusing<B>,
    shared: &mut Rc<usize, &Refusing<B>>,
    number: usize,
) -> (u64, usize) {
    heap.refuse(1);
    if let Ok(place) = Rc::make_mut(shared) {
        *place = number;
    }
    (heap.asked(), **shared)
}

fn change_alone_and_shared(rt: &impl Abort, heap: &Refusing<Global>) {
    let mut shared = Rc::new(heap, 5usize).expect(rt, "memory");
    equal(rt, change(heap, &mut shared, 6), (0, 6));
    let twin = shared.clone().expect(rt, "a second owner");
    has_counted(rt, heap, 0, false);
    equal(rt, change(heap, &mut shared, 7), (1, 6));
    heap.refuse(0);
    *Rc::make_mut(&mut shared).expect(rt, "memory") = 7;
    equal(rt, (heap.asked(), *shared, *twin), (1, 7, 6));
    drop(twin);
    drop(shared);
}

#[test]
fn a_lone_owner_makes_no_request_and_a_shared_one_makes_one(rt: HostRuntime) {
    change_alone_and_shared(&rt, &Refusing::new(rt.alloc(), 0));
}

#[test]
fn counts_bytes_and_forgets_them(rt: HostRuntime) {
    let heap = Refusing::new(rt.alloc(), 0);
    let mut list = Vec::from_elem(&heap, 1u32, 5).expect(&rt, "memory");
    equal(&rt, (heap.asked(), heap.asked_bytes()), (1, 20));
    list.reserve_exact(3).expect(&rt, "memory");
    equal(&rt, (heap.asked(), heap.asked_bytes()), (2, 20 + 32));
    heap.refuse(0);
    drop(list);
    equal(&rt, (heap.asked(), heap.asked_bytes()), (0, 0));
}
