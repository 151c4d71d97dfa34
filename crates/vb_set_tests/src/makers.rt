//! Calls that make a set: the bits that they make, and each of their requests for memory refused in
//! turn.
use crate::compared::{equal, shows};
use crate::made::ones;
use std::alloc::{Allocator, Global};
use std::process::Abort;
use vb_set::{BitBuffer, BitBufferMut, BufferError, Result, TryIntoMut};
use vb_testing::{Handle, Refusing};

/// A call that makes a set to edit.
enum Open {
    NewSet,
    NewUnset,
    Full,
    WithCapacity,
    Clone,
    Derived,
    CopyFrom,
    Take,
}

impl Open {
    fn make<A: Allocator + Clone>(&self, alloc: A) -> Result<BitBufferMut<A>> {
        match self {
            Open::NewSet => BitBufferMut::new_set(alloc, 9),
            Open::NewUnset => BitBufferMut::new_unset(alloc, 9),
            Open::Full => BitBufferMut::full(alloc, true, 3),
            Open::WithCapacity => BitBufferMut::with_capacity(alloc, 100),
            Open::Clone => cloned(ones(alloc, 9)),
            Open::Derived => derived(ones(alloc, 9)),
            Open::CopyFrom => copied_ones(alloc),
            Open::Take => taken(ones(alloc, 9)),
        }
    }
}

/// The clone of a set that was made.
pub(crate) fn cloned<A: Allocator + Clone>(
    made: Result<BitBufferMut<A>>,
) -> Result<BitBufferMut<A>> {
    let set = made?;
    let clone = set.clone();
    drop(set);
    clone
}

/// A value with a set. Std derives its `clone` from that of the set.
#[derive(Clone, Drop)]
struct Editing<A: Allocator + Clone> {
    set: BitBufferMut<A>,
}

/// The set of a copy of a value that has the set.
fn derived<A: Allocator + Clone>(made: Result<BitBufferMut<A>>) -> Result<BitBufferMut<A>> {
    let editing = Editing { set: made? };
    let copy: Result<_, _> = editing.clone();
    drop(editing);
    Ok(copy?.set)
}

/// A copy of a shared set that was made.
pub(crate) fn copied<A: Allocator + Clone>(
    alloc: A,
    made: Result<BitBuffer<A>>,
) -> Result<BitBufferMut<A>> {
    let set = match made {
        Ok(set) => set,
        Err(error) => {
            drop(alloc);
            return Err(error);
        }
    };
    let copy = BitBufferMut::copy_from(alloc, &set);
    drop(set);
    copy
}

fn copied_ones<A: Allocator + Clone>(alloc: A) -> Result<BitBufferMut<A>> {
    let Ok(twin) = alloc.clone() else {
        drop(alloc);
        return Err(BufferError::OutOfMemory);
    };
    copied(twin, BitBuffer::new_set(alloc, 9))
}

/// What is taken of a set that was made.
pub(crate) fn taken<A: Allocator + Clone>(
    made: Result<BitBufferMut<A>>,
) -> Result<BitBufferMut<A>> {
    let mut set = made?;
    let taken = set.take();
    drop(set);
    taken
}

/// The set that was made, to be shared.
pub(crate) fn frozen<A: Allocator + Clone>(made: Result<BitBufferMut<A>>) -> Result<BitBuffer<A>> {
    made?.freeze()
}

/// The set that was made, to be edited by its one owner.
pub(crate) fn opened<A: Allocator + Clone>(made: Result<BitBuffer<A>>) -> Result<BitBufferMut<A>> {
    match made?.try_into_mut() {
        Ok(open) => Ok(open),
        Err(shared) => {
            drop(shared);
            Err(BufferError::NotAligned)
        }
    }
}

/// The set that was edited, where the edit was not refused.
pub(crate) fn edited<A: Allocator + Clone>(
    set: BitBufferMut<A>,
    answer: Result<()>,
) -> Result<BitBufferMut<A>> {
    match answer {
        Ok(()) => Ok(set),
        Err(error) => {
            drop(set);
            Err(error)
        }
    }
}

/// The calls, each with the bits that it makes, and how many requests it makes with `freeze`. A
/// copy of the allocator is a request too.
const ROWS: &[(Open, &str, u64)] = &[
    (Open::NewSet, "111111111", 4),
    (Open::NewUnset, "000000000", 4),
    (Open::Full, "111", 4),
    (Open::WithCapacity, "", 4),
    (Open::Clone, "111111111", 6),
    (Open::Derived, "111111111", 6),
    (Open::CopyFrom, "111111111", 9),
    (Open::Take, "111111111", 5),
];

/// A call with each of its requests refused in turn.
fn is_made_or_refused(
    rt: &impl Abort,
    heap: &Refusing<Global>,
    (call, bits, requests): (&Open, &str, u64),
) {
    for _ in heap.in_turn() {
        let answer = shows(rt, frozen(call.make(Handle { inner: heap })), bits);
        let wanted = heap.wanted(Ok(()), Err(BufferError::OutOfMemory));
        equal(rt, answer, wanted);
    }
    equal(rt, (heap.has_refused(), heap.asked()), (false, requests));
}

#[test]
fn open_sets_are_made_or_refused(rt: HostRuntime) {
    let heap = Refusing::new(rt.alloc(), 0);
    for (call, bits, requests) in ROWS {
        is_made_or_refused(&rt, &heap, (call, bits, *requests));
    }
}
