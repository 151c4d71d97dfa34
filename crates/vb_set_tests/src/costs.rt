//! What calls allocate: an owner for `freeze`, nothing for other calls that share or work in place,
//! and at most twice the bytes that they need if they copy or grow.
use crate::compared::equal;
use crate::made::ones;
use crate::makers::{cloned, copied, edited, frozen, opened, taken};
use std::alloc::Allocator;
use std::process::Abort;
use vb_set::{BitBuffer, BitBufferMut, Result, TryIntoMut};
use vb_testing::Refusing;

/// A call on a set to edit of eight thousand true bits.
enum Open {
    Freeze,
    Take,
    Clone,
    CopyFrom,
    Reserve,
    ReserveExact,
    Within,
    Not,
}

impl Open {
    fn make<A: Allocator + Clone + Copy>(
        &self,
        made: Result<BitBufferMut<A>>,
        alloc: A,
    ) -> Result<BitBufferMut<A>> {
        match self {
            Open::Freeze => opened(frozen(made)),
            Open::Take => taken(made),
            Open::Clone => cloned(made),
            Open::CopyFrom => copied(alloc, frozen(made)),
            Open::Reserve => reserved(made),
            Open::ReserveExact => reserved_exactly(made),
            Open::Within => lengthened(made),
            Open::Not => negated_twice(made),
        }
    }
}

/// The set after `reserve` for 8,000 more bits.
fn reserved<A: Allocator + Clone>(made: Result<BitBufferMut<A>>) -> Result<BitBufferMut<A>> {
    let mut set = made?;
    let answer = set.reserve(8000);
    edited(set, answer)
}

/// The set after `reserve_exact` for 4,000 more bits.
fn reserved_exactly<A: Allocator + Clone>(
    made: Result<BitBufferMut<A>>,
) -> Result<BitBufferMut<A>> {
    let mut set = made?;
    let answer = set.reserve_exact(4000);
    edited(set, answer)
}

/// The set shortened, and lengthened within its capacity.
fn lengthened<A: Allocator + Clone>(made: Result<BitBufferMut<A>>) -> Result<BitBufferMut<A>> {
    let mut set = made?;
    set.truncate(100);
    let answer = set.append_n(true, 7900);
    edited(set, answer)
}

fn negated_twice<A: Allocator + Clone>(made: Result<BitBufferMut<A>>) -> Result<BitBufferMut<A>> {
    Ok(!!made?)
}

/// The calls, how many requests each makes, and for how many bytes: at least, and at most. An owner
/// takes less than 256 bytes.
const OPEN: &[(Open, u64, usize, usize)] = &[
    // A body that copies the bytes fails here.
    (Open::Freeze, 1, 1, 256),
    (Open::Take, 0, 0, 0),
    (Open::Clone, 1, 1000, 2000),
    (Open::CopyFrom, 2, 1001, 2256),
    // A body that allocates four times the capacity fails here.
    (Open::Reserve, 1, 2000, 4000),
    // A body that doubles the capacity fails here.
    (Open::ReserveExact, 1, 1500, 1500),
    (Open::Within, 0, 0, 0),
    (Open::Not, 0, 0, 0),
];

/// The call made eight thousand true bits.
fn are_ones<A: Allocator + Clone>(rt: &impl Abort, made: Result<BitBufferMut<A>>) {
    let set = made.expect(rt, "a set");
    equal(rt, set.len(), 8000);
    equal(rt, set.as_view().true_count(), 8000);
    drop(set);
}

#[test]
fn sets_to_edit_ask_for_what_they_need(rt: HostRuntime) {
    let heap = Refusing::new(rt.alloc(), 0);
    for (call, requests, least, most) in OPEN {
        heap.refuse(0);
        let set = ones(&heap, 8000);
        equal(&rt, heap.asks_within(1000, 2000), true);
        are_ones(&rt, call.make(set, &heap));
        equal(&rt, heap.asked(), *requests);
        equal(&rt, heap.asks_within(*least, *most), true);
    }
}

/// The set that was made has no bits, and capacity for eight thousand.
fn has_room<A: Allocator + Clone>(rt: &impl Abort, made: Result<BitBufferMut<A>>) {
    let set = made.expect(rt, "a set");
    equal(rt, set.len(), 0);
    equal(rt, set.capacity() >= 8000, true);
    drop(set);
}

/// A body that allocates a megabyte more fails here.
#[test]
fn room_is_what_was_asked_for(rt: HostRuntime) {
    let heap = Refusing::new(rt.alloc(), 0);
    has_room(&rt, BitBufferMut::with_capacity(&heap, 8000));
    equal(&rt, heap.asked(), 1);
    equal(&rt, heap.asks_within(1000, 2000), true);
}

/// Opens a set for edits and returns its number of true bits; None if it has another owner.
fn count_opened<A: Allocator + Clone>(set: BitBuffer<A>) -> Option<usize> {
    match set.try_into_mut() {
        Ok(open) => {
            let count = open.as_view().true_count();
            drop(open);
            Some(count)
        }
        Err(same) => {
            drop(same);
            None
        }
    }
}

/// One of two owners of a set can't open it for edits.
fn is_not_opened<A: Allocator + Clone>(rt: &impl Abort, made: Result<BitBuffer<A>>, ones: usize) {
    let set = made.expect(rt, "a set");
    let twin = set.clone().expect(rt, "a set");
    equal(rt, count_opened(set), None);
    equal(rt, twin.true_count(), ones);
    drop(twin);
}

#[test]
fn one_of_two_owners_may_not_edit(rt: HostRuntime) {
    is_not_opened(&rt, BitBuffer::new_set(rt.alloc(), 9), 9);
}

/// A set that was made, whose other owner has gone.
fn left_alone<A: Allocator + Clone>(rt: &impl Abort, made: Result<BitBuffer<A>>) -> BitBuffer<A> {
    let set = made.expect(rt, "a set");
    drop(set.clone().expect(rt, "a set"));
    set
}

#[test]
fn a_lone_owner_edits_without_memory(rt: HostRuntime) {
    let heap = Refusing::new(rt.alloc(), 0);
    let set = left_alone(&rt, BitBuffer::new_set(&heap, 9));
    heap.refuse(1);
    equal(&rt, count_opened(set), Some(9));
    equal(&rt, heap.asked(), 0);
}
