//! Calls that share the bytes of a set, and so don't allocate.
use crate::buffer::compared::equal;
use crate::buffer::made::window;
use crate::buffer::makers::{sliced, twin};
use std::alloc::Allocator;
use std::process::Abort;
use vb_bit_buffer::BitBuffer;
use vb_core::Result;
use vb_testing::Refusing;

/// A call on a set of eight thousand true bits that has no other owner.
enum Call {
    Clone,
    Slice,
    SliceOfClone,
    IntoInner,
}

/// A body that copies the bytes fails here.
const CALLS: &[Call] = &[
    Call::Clone,
    Call::Slice,
    Call::SliceOfClone,
    Call::IntoInner,
];

impl Call {
    fn make<A: Allocator + Clone>(&self, made: Result<BitBuffer<A>>) -> Result<BitBuffer<A>> {
        match self {
            Call::Clone => twin(made),
            Call::Slice => sliced(made, 13, 7000),
            Call::SliceOfClone => sliced(twin(made), 13, 7000),
            Call::IntoInner => rejoined(made),
        }
    }
}

/// The set, built again from the parts that `into_inner` returns.
fn rejoined<A: Allocator + Clone>(made: Result<BitBuffer<A>>) -> Result<BitBuffer<A>> {
    let (offset, len, bytes) = made?.into_inner();
    window(Ok(bytes), offset, len)
}

/// The call made at least 6,987 bits, all of them true.
fn are_ones<A: Allocator + Clone>(rt: &impl Abort, made: Result<BitBuffer<A>>) {
    let set = made.expect(rt, "a set");
    equal(rt, set.false_count(), 0);
    equal(rt, set.len() >= 6987, true);
    drop(set);
}

#[test]
fn shared_sets_ask_for_nothing(rt: HostRuntime) {
    let heap = Refusing::new(rt.alloc(), 0);
    for call in CALLS {
        heap.refuse(0);
        let made = BitBuffer::new_set(&heap, 8000);
        equal(&rt, heap.asks_within(1000, 2256), true);
        are_ones(&rt, call.make(made));
        equal(&rt, heap.asked(), 0);
    }
}
