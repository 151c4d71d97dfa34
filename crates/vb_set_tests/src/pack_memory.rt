//! Calls that make a set of truth values, with each of their requests for memory refused in turn.
//! No closure is called before a refusal.
use crate::compared::{equal, shows_set};
use std::alloc::Allocator;
use std::process::Abort;
use vb_set::{BitBuffer, BitBufferMut, BufferError, Result};
use vb_testing::{Handle, Refusing};

/// A call that makes a set.
enum Call {
    Collect,
    CollectShared,
    FromBools,
    FromBoolsShared,
    FromBoolVec,
    FromBoolVecShared,
    FromTruthy,
    FromIter,
    FromIterShared,
    MapCmp,
}

impl Call {
    fn make<A: Allocator + Clone>(&self, alloc: A) -> Result<BitBuffer<A>> {
        match self {
            Call::Collect => collected(alloc),
            Call::CollectShared => collected_shared(alloc),
            Call::FromBools => shared(BitBufferMut::from_bools(alloc, BOOLS)),
            Call::FromBoolsShared => BitBuffer::from_bools(alloc, BOOLS),
            Call::FromBoolVec => of_vec(alloc, false),
            Call::FromBoolVecShared => of_vec(alloc, true),
            Call::FromTruthy => shared(BitBufferMut::from_truthy(alloc, &[0, 1, 2, 255])),
            Call::FromIter => shared(BitBufferMut::from_iter(alloc, (0..3u32).map(|i| i == 1))),
            Call::FromIterShared => BitBuffer::from_iter(alloc, (0..3u32).map(|i| i == 1)),
            Call::MapCmp => mapped(alloc),
        }
    }
}

const BOOLS: &[bool] = &[false, true];

fn shared<A: Allocator + Clone>(made: Result<BitBufferMut<A>>) -> Result<BitBuffer<A>> {
    made?.freeze()
}

/// A set built from a vector of bools, to be shared or to be edited.
fn of_vec<A: Allocator + Clone>(alloc: A, is_shared: bool) -> Result<BitBuffer<A>> {
    let bools = BOOLS.to_vec(alloc.clone()?)?;
    if is_shared {
        BitBuffer::from_bool_vec(alloc, bools)
    } else {
        shared(BitBufferMut::from_bool_vec(alloc, bools))
    }
}

/// Four results of a closure; `NotAligned` if it was called although memory ran out.
#[tactic(auto, using(vb_pack::proofs::AnswersLemmas::CanAsk_always))]
fn collected<A: Allocator + Clone>(alloc: A) -> Result<BitBuffer<A>> {
    let mut asked = 0u32;
    let made = BitBufferMut::collect_bool(
        alloc,
        4,
        &mut |i| {
            asked = asked.wrapping_add(1);
            i % 2 == 1
        },
    );
    shared(unasked(made, asked))
}

/// The same for a set to be shared.
#[tactic(auto, using(vb_pack::proofs::AnswersLemmas::CanAsk_always))]
fn collected_shared<A: Allocator + Clone>(alloc: A) -> Result<BitBuffer<A>> {
    let mut asked = 0u32;
    let made = BitBuffer::collect_bool(
        alloc,
        4,
        &mut |i| {
            asked = asked.wrapping_add(1);
            i % 2 == 1
        },
    );
    unasked(made, asked)
}

/// Four bits: whether each bit `i` of a set equals `i % 2 == 0`.
#[tactic(auto, using(vb_pack::proofs::AnswersLemmas::CanAsk_always))]
fn mapped<A: Allocator + Clone>(alloc: A) -> Result<BitBuffer<A>> {
    let set = BitBuffer::from_bools(alloc, &[true, false, false, true])?;
    let mut asked = 0u32;
    let made = set.map_cmp(&mut |i, bit| {
        asked = asked.wrapping_add(1);
        bit == (i % 2 == 0)
    });
    unasked(made, asked)
}

/// Returns what was made, or the refusal if the closure wasn't called before it. If it was called,
/// returns an error that no call here returns.
fn unasked<S>(made: Result<S>, asked: u32) -> Result<S> {
    made.map_err(|error| if asked == 0 {
        error
    } else {
        BufferError::NotAligned
    })
}

/// The calls, each with the bits that it makes, and how many requests it makes.
const ROWS: &[(Call, &str, u64)] = &[
    (Call::Collect, "0101", 4),
    (Call::CollectShared, "0101", 4),
    (Call::FromBools, "01", 4),
    (Call::FromBoolsShared, "01", 4),
    (Call::FromBoolVec, "01", 6),
    (Call::FromBoolVecShared, "01", 6),
    (Call::FromTruthy, "0111", 4),
    (Call::FromIter, "010", 4),
    (Call::FromIterShared, "010", 4),
    (Call::MapCmp, "1100", 10),
];

/// The set that was made has these bits; or the refusal is passed on.
fn makes<A: Allocator + Clone>(
    rt: &impl Abort,
    made: Result<BitBuffer<A>>,
    bits: &str,
) -> Result<()> {
    let set = made?;
    shows_set(rt, &set, bits);
    drop(set);
    Ok(())
}

const REFUSED: Result<()> = Err(BufferError::OutOfMemory);

#[test]
fn packed_sets_show_their_bits_or_each_request_is_refused(rt: HostRuntime) {
    let heap = &Refusing::new(rt.alloc(), 0);
    for (call, bits, requests) in ROWS {
        for _ in heap.in_turn() {
            let answer = makes(&rt, call.make(Handle { inner: heap }), bits);
            equal(&rt, answer, heap.wanted(Ok(()), REFUSED));
        }
        equal(&rt, (heap.has_refused(), heap.asked()), (false, *requests));
    }
}
