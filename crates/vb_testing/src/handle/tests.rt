use crate::trials::{equal, has_counted, shared_number, two_items};
use crate::{Handle, Refusing};
use std::alloc::{AllocError, Allocator};

// Clones the allocator, and makes three requests for memory. Returns the number of items of the
// list, and the shared number.
fn build<A: Allocator + Clone>(alloc: A) -> Result<(usize, usize), AllocError> {
    let twin = alloc.clone()?;
    let Ok(len) = two_items(alloc) else {
        drop(twin);
        return Err(AllocError);
    };
    shared_number(twin).map(|number| (len, number))
}

#[test]
fn refuses_each_request_and_clone_in_turn(rt: HostRuntime) {
    for refused in 1..6u64 {
        let heap = Refusing::new(rt.alloc(), refused);
        let answer = build(Handle { inner: &heap });
        let is_refused = refused < 5;
        let wanted = if is_refused {
            Err(AllocError)
        } else {
            Ok((2, 3))
        };
        equal(&rt, answer, wanted);
        has_counted(&rt, &heap, refused.min(4), is_refused);
    }
}

#[test]
fn a_clone_of_a_reference_is_no_request(rt: HostRuntime) {
    let heap = Refusing::new(rt.alloc(), 0);
    equal(&rt, build(&heap), Ok((2, 3)));
    has_counted(&rt, &heap, 3, false);
}

fn is_refused<T: Drop>(answer: Result<T, AllocError>) -> bool {
    answer.is_err()
}

#[test]
fn a_refused_clone_leaves_the_handle_as_it_was(rt: HostRuntime) {
    let heap = Refusing::new(rt.alloc(), 2);
    let handle = Handle { inner: &heap };
    let first = handle.clone().expect(&rt, "a clone");
    equal(&rt, is_refused(handle.clone()), true);
    let second = handle.clone().expect(&rt, "a clone");
    has_counted(&rt, &heap, 3, true);
    // Each clone allocates from the same heap.
    equal(&rt, (two_items(first), two_items(second)), (Ok(2), Ok(2)));
    has_counted(&rt, &heap, 7, true);
    drop(handle);
}
