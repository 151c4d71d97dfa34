//! Sets to start from.
use crate::compared::holds;
use std::alloc::Allocator;
use std::process::Abort;
use vb_set::{BitBuffer, Result};

/// Bits that are true at multiples of 3.
#[tactic(auto, using(vb_pack::proofs::AnswersLemmas::CanAsk_always))]
pub(crate) fn thirds<A: Allocator + Clone>(alloc: A, len: usize) -> Result<BitBuffer<A>> {
    BitBuffer::collect_bool(alloc, len, &mut |i| i % 3 == 0)
}

/// Two hundred bits: those of [`thirds`], with more of them true.
#[tactic(auto, using(vb_pack::proofs::AnswersLemmas::CanAsk_always))]
pub(crate) fn scattered<A: Allocator + Clone>(alloc: A) -> Result<BitBuffer<A>> {
    BitBuffer::collect_bool(alloc, 200, &mut |i| i % 3 == 0 || i % 7 == 2)
}

/// The bits from `start` up to `end`.
pub(crate) fn part<A: Allocator + Clone>(
    rt: &impl Abort,
    set: &BitBuffer<A>,
    start: usize,
    end: usize,
) -> BitBuffer<A> {
    holds(rt, start <= end);
    holds(rt, end <= set.len());
    set.slice(start..end).expect(rt, "memory")
}
