//! From which of two allocators a call and later calls on its result allocate. No contract can say
//! it.
//!
//! One of two heaps refuses each of its requests in turn. The other one would refuse its first
//! request, but gets none.
use crate::compared::equal;
use crate::made::window;
use crate::makers::{cloned, edited, frozen, opened};
use std::alloc::{Allocator, Global};
use std::process::Abort;
use vb_gather::take_bits;
use vb_set::{BitBuffer, BitBufferMut, BufferError, Result, ToBitBuffer, TryIntoMut};
use vb_testing::{Handle, Refusing};

/// Nine true bits of three bytes.
fn nine<A: Allocator + Clone>(alloc: A) -> Result<BitBuffer<A>> {
    frozen(window(alloc, (0xFF, 3), 3, 9))
}

/// Opens a second owner of a set that was made, adds false bits, and copies the result. Returns the
/// number of its bits, and that of its set bits.
fn grown<A: Allocator + Clone>(made: Result<BitBuffer<A>>) -> Result<(usize, usize)> {
    let mut set = opened(twin(made))?;
    let answer = set.append_n(false, 1000);
    counts(cloned(edited(set, answer)))
}

fn twin<A: Allocator + Clone>(made: Result<BitBuffer<A>>) -> Result<BitBuffer<A>> {
    let set = made?;
    let twin = set.clone();
    drop(set);
    twin
}

fn counts<A: Allocator + Clone>(made: Result<BitBufferMut<A>>) -> Result<(usize, usize)> {
    let set = made?;
    let counts = (set.len(), set.as_view().true_count());
    drop(set);
    Ok(counts)
}

/// A call that copies the bits of a set with a given allocator.
enum Copy {
    OfView,
    OfMutView,
    From,
    Take,
    TakeValid,
}

const COPIES: &[Copy] = &[
    Copy::OfView,
    Copy::OfMutView,
    Copy::From,
    Copy::Take,
    Copy::TakeValid,
];

impl Copy {
    fn make<A: Allocator + Clone>(&self, set: BitBuffer<A>, alloc: A) -> Result<BitBuffer<A>> {
        let copy = match self {
            Copy::OfView => set.as_view().to_bit_buffer(alloc),
            Copy::OfMutView => return copy_of_mut_view(set, alloc),
            Copy::From => frozen(BitBufferMut::copy_from(alloc, &set)),
            Copy::Take => take_bits(alloc, set.as_view(), &PLACES, None),
            Copy::TakeValid => taken_valid(&set, alloc),
        };
        drop(set);
        copy
    }
}

const PLACES: [u8; 9] = [8, 7, 6, 5, 4, 3, 2, 1, 0];

/// The bits at [`PLACES`] of nine true bits, with a validity that is all true.
fn taken_valid<A: Allocator + Clone>(set: &BitBuffer<A>, alloc: A) -> Result<BitBuffer<A>> {
    let view = set.as_view();
    if view.len() == 9 {
        return take_bits(alloc, view, &PLACES, Some(view));
    }
    drop(alloc);
    Err(BufferError::NotAligned)
}

fn copy_of_mut_view<A: Allocator + Clone>(set: BitBuffer<A>, alloc: A) -> Result<BitBuffer<A>> {
    match set.try_into_mut() {
        Ok(mut open) => {
            let copy = open.as_mut_view().to_bit_buffer(alloc);
            drop(open);
            copy
        }
        Err(shared) => {
            drop((shared, alloc));
            Err(BufferError::NotAligned)
        }
    }
}

/// The given heap refuses each of its requests in turn, and that of the set gets none.
fn asks_the_handed_one(
    rt: &impl Abort,
    (own, handed): (&Refusing<Global>, &Refusing<Global>),
    call: &Copy,
) {
    for _ in handed.in_turn() {
        own.refuse(0);
        let set = nine(Handle { inner: own }).expect(rt, "a set");
        own.refuse(1);
        let answer = grown(call.make(set, Handle { inner: handed }));
        let wanted = handed.wanted(Ok((1009, 9)), Err(BufferError::OutOfMemory));
        equal(rt, answer, wanted);
        equal(rt, own.asked(), 0);
    }
    equal(rt, (handed.has_refused(), handed.asked()), (false, 8));
}

#[test]
fn what_is_handed_in_is_asked(rt: HostRuntime) {
    let (own, handed) = (Refusing::new(rt.alloc(), 0), Refusing::new(rt.alloc(), 0));
    for call in COPIES {
        asks_the_handed_one(&rt, (&own, &handed), call);
    }
}

/// A set built from a vector of nine true values, which has another allocator.
fn of_vector<A: Allocator + Clone>(
    alloc: A,
    values: Vec<bool, A>,
    is_shared: bool,
) -> Result<BitBuffer<A>> {
    if is_shared {
        return BitBuffer::from_bool_vec(alloc, values);
    }
    frozen(BitBufferMut::from_bool_vec(alloc, values))
}

/// The given heap refuses each of its requests in turn, and that of the vector gets none.
fn asks_nothing_of_a_vector(
    rt: &impl Abort,
    (own, handed): (&Refusing<Global>, &Refusing<Global>),
    is_shared: bool,
) {
    for _ in handed.in_turn() {
        own.refuse(0);
        let values = [true; 9]
            .to_vec(Handle { inner: own })
            .expect(rt, "a vector");
        own.refuse(1);
        let answer = grown(of_vector(Handle { inner: handed }, values, is_shared));
        let wanted = handed.wanted(Ok((1009, 9)), Err(BufferError::OutOfMemory));
        equal(rt, answer, wanted);
        equal(rt, own.asked(), 0);
    }
    equal(rt, (handed.has_refused(), handed.asked()), (false, 8));
}

#[test]
fn a_vector_is_asked_for_nothing(rt: HostRuntime) {
    let (own, handed) = (Refusing::new(rt.alloc(), 0), Refusing::new(rt.alloc(), 0));
    for is_shared in [false, true] {
        asks_nothing_of_a_vector(&rt, (&own, &handed), is_shared);
    }
}

/// A call on a set of nine true bits; `Append` also gets another such set.
enum Own {
    Append,
    Sliced,
    Opened,
}

/// The calls, how many true bits each makes, and how many requests it makes together with the later
/// calls on its result.
const OWN: &[(Own, usize, u64)] = &[
    (Own::Append, 18, 11),
    (Own::Sliced, 9, 14),
    (Own::Opened, 9, 11),
];

impl Own {
    fn make<A: Allocator + Clone>(
        &self,
        made: Result<BitBuffer<A>>,
        other: &BitBuffer<A>,
    ) -> Result<BitBuffer<A>> {
        match self {
            Own::Append => appended(opened(made), other),
            Own::Sliced => sliced(made),
            Own::Opened => frozen(opened(made)),
        }
    }
}

fn appended<A: Allocator + Clone>(
    made: Result<BitBufferMut<A>>,
    other: &BitBuffer<A>,
) -> Result<BitBuffer<A>> {
    let mut set = made?;
    let answer = set.append_buffer(other);
    frozen(edited(set, answer))
}

fn sliced<A: Allocator + Clone>(made: Result<BitBuffer<A>>) -> Result<BitBuffer<A>> {
    let set = made?;
    let front = set.sliced();
    drop(set);
    front
}

#[test]
fn a_set_asks_its_own(rt: HostRuntime) {
    let (own, other) = (Refusing::new(rt.alloc(), 0), Refusing::new(rt.alloc(), 0));
    let added = nine(Handle { inner: &other }).expect(&rt, "a set");
    other.refuse(1);
    for (call, ones, requests) in OWN {
        for _ in own.in_turn() {
            let answer = grown(call.make(nine(Handle { inner: &own }), &added));
            let ample = Ok((ones.saturating_add(1000), *ones));
            let wanted = own.wanted(ample, Err(BufferError::OutOfMemory));
            equal(&rt, answer, wanted);
        }
        equal(&rt, (own.has_refused(), own.asked()), (false, *requests));
    }
    // The other heap counts the requests of all runs.
    equal(&rt, other.asked(), 0);
    drop(added);
}
