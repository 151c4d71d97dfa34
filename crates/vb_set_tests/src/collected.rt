//! Sets built from the results of a closure: worked rows, and each request for memory refused in
//! turn, before the first call of the closure.
ghost use Rattle.vb_set.specs.Asked.{CanAsk, span};

use crate::compared::{equal, holds, shows};
use std::alloc::Allocator;
use std::process::Abort;
use vb_set::{BitBuffer, BitBufferMut, BitBufferView, BufferError, Result};
use vb_testing::{Handle, Refusing};

/// A call that makes a set of the results of a closure.
enum Call {
    Open,
    OpenMultiversioned,
    Shared,
    SharedMultiversioned,
}

/// The calls, and how many requests each makes: a set that is shared copies its allocator, and has
/// an owner.
const CALLS: &[(Call, u64)] = &[
    (Call::Open, 1),
    (Call::OpenMultiversioned, 1),
    (Call::Shared, 4),
    (Call::SharedMultiversioned, 4),
];

impl Call {
    /// Whether exactly the bits at even indices are true in the result.
    fn makes_even<A: Allocator + Clone, F: FnMut(usize) -> bool>(
        &self,
        alloc: A,
        len: usize,
        f: &mut F,
    ) -> Result<bool>
        requires { CanAsk (F.pre) (F.step) f.old (span 0 len) }
    {
        match self {
            Call::Open => open_is_even(BitBufferMut::collect_bool(alloc, len, f)),
            Call::OpenMultiversioned => {
                open_is_even(BitBufferMut::collect_bool_multiversioned(alloc, len, f))
            }
            Call::Shared => shared_is_even(BitBuffer::collect_bool(alloc, len, f)),
            Call::SharedMultiversioned => {
                shared_is_even(BitBuffer::collect_bool_multiversioned(alloc, len, f))
            }
        }
    }
}

fn open_is_even<A: Allocator + Clone>(made: Result<BitBufferMut<A>>) -> Result<bool> {
    let set = made?;
    let even = is_even(set.as_view());
    drop(set);
    Ok(even)
}

fn shared_is_even<A: Allocator + Clone>(made: Result<BitBuffer<A>>) -> Result<bool> {
    let set = made?;
    let even = is_even(set.as_view());
    drop(set);
    Ok(even)
}

/// Whether there are 130 bits, true exactly at even indices.
fn is_even(view: BitBufferView<'_>) -> bool {
    let mut even = view.len() == 130;
    for (i, bit) in view.iter().enumerate() {
        even = even && bit == (i % 2 == 0);
    }
    even
}

/// A call for 130 bits with a closure that first returns true and then alternates. It is called
/// once for each bit, and never if memory runs out.
#[tactic(auto, using(vb_pack::proofs::AnswersLemmas::CanAsk_always))]
fn alternating<A: Allocator + Clone>(rt: &impl Abort, call: &Call, alloc: A) -> Result<bool> {
    let (mut next, mut asked) = (true, 0usize);
    let answer = call.makes_even(
        alloc,
        130,
        &mut |_| {
            asked = asked.wrapping_add(1);
            let now = next;
            next = !now;
            now
        },
    );
    equal(rt, asked, if answer.is_ok() { 130 } else { 0 });
    answer
}

#[test]
fn each_place_is_asked_for_once_or_none(rt: HostRuntime) {
    let heap = Refusing::new(rt.alloc(), 0);
    for (call, requests) in CALLS {
        for _ in heap.in_turn() {
            let answer = alternating(&rt, call, Handle { inner: &heap });
            let wanted = heap.wanted(Ok(true), Err(BufferError::OutOfMemory));
            equal(&rt, answer, wanted);
        }
        equal(&rt, (heap.has_refused(), heap.asked()), (false, *requests));
    }
}

/// Compares a part of a view of twenty bits with `bits`, and returns the same part of the set.
fn part_of_twenty<A: Allocator + Clone>(
    rt: &impl Abort,
    made: Result<BitBuffer<A>>,
    bits: &str,
) -> Result<BitBuffer<A>> {
    let set = made?;
    holds(rt, set.len() == 20);
    view_shows(rt, set.as_view().slice(5..17), bits);
    let part = set.slice(5..17);
    drop(set);
    part
}

fn view_shows(rt: &impl Abort, part: BitBufferView<'_>, bits: &str) {
    equal(rt, part.offset(), 5);
    equal(rt, part.len(), 12);
    equal(rt, part.true_count(), 4);
    for (bit, digit) in part.iter().zip(bits.bytes()) {
        equal(rt, bit, digit == b'1');
    }
}

#[test]
#[tactic(auto, using(vb_pack::proofs::AnswersLemmas::CanAsk_always))]
fn a_part_of_every_third_place(rt: HostRuntime) {
    let made = BitBuffer::collect_bool(rt.alloc(), 20, &mut |i| i % 3 == 0);
    let part = part_of_twenty(&rt, made, "010010010010");
    equal(&rt, shows(&rt, part, "010010010010"), Ok(()));
}
