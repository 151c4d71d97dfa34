//! Whether sets are disjoint, or one is a subset of the other, and the number of ones that an
//! operator gives: compared with plain loops. The calls fail only for lengths that differ, and
//! don't allocate.
use crate::buffer::compared::equal;
use crate::buffer::made::{LONGEST, front, list, ones, set};
use std::alloc::{Allocator, Global};
use std::process::Abort;
use vb_bit_buffer::BitBuffer;
use vb_core::{BufferError, Result};
use vb_testing::Refusing;

/// What calls on two sets return: whether they are disjoint, whether the first is a subset, and the
/// numbers of ones of `and`, `or`, `xor` and `and not`.
type Answers = (Result<bool>, Result<bool>, Counts);

type Counts = (Result<usize>, Result<usize>, Result<usize>, Result<usize>);

fn answers<A: Allocator + Clone>(
    rt: &impl Abort,
    left: Result<BitBuffer<A>>,
    right: Result<BitBuffer<A>>,
) -> Answers {
    let (left, right) = (left.expect(rt, "a set"), right.expect(rt, "a set"));
    let counts = (
        left.try_and_count(&right),
        left.try_or_count(&right),
        left.try_xor_count(&right),
        left.try_andnot_count(&right),
    );
    let given = (left.is_disjoint(&right), left.is_subset(&right), counts);
    drop((left, right));
    given
}

/// What a loop over the bits finds.
fn plain(left: &[bool], right: &[bool]) -> Answers {
    let (mut both, mut first, mut second) = (0usize, 0usize, 0usize);
    for (l, r) in left.iter().zip(right) {
        both = both.saturating_add((*l & *r) as usize);
        first = first.saturating_add((*l & !*r) as usize);
        second = second.saturating_add((!*l & *r) as usize);
    }
    let apart = first.saturating_add(second);
    let counts = (
        Ok(both),
        Ok(both.saturating_add(apart)),
        Ok(apart),
        Ok(first),
    );
    (Ok(both == 0), Ok(first == 0), counts)
}

/// Three kinds of right bits, built from the left ones and noise: the noise alone, the noise
/// without the left ones, and the noise with all of them.
fn rights(left: &[bool], seed: usize) -> [[bool; LONGEST]; 3] {
    let mut lists = [list(seed); 3];
    for (i, bit) in left.iter().enumerate().take(LONGEST) {
        lists[1][i] &= !*bit;
        lists[2][i] |= *bit;
    }
    lists
}

/// Each length at eight pairs of offsets within a byte; all lengths together cover each pair.
#[test]
fn relations_are_plain(rt: HostRuntime) {
    let lefts = list(21);
    for len in 0..=LONGEST {
        for l in 0..8 {
            let (left, r) = (front(&lefts, len), len.wrapping_add(l) % 8);
            for right in rights(left, 22 + l) {
                let right = front(&right, len);
                let given = answers(&rt, set(rt.alloc(), left, l), set(rt.alloc(), right, r));
                equal(&rt, given, plain(left, right));
            }
        }
    }
}

/// Sets of `len` bits: all true, all false, and one true bit: the first, one in the middle, or the
/// last.
fn long_sets(rt: &impl Abort, alloc: Global, len: usize) {
    let all = BitBuffer::new_set(alloc, len).expect(rt, "a set");
    let none = BitBuffer::new_unset(alloc, len).expect(rt, "a set");
    for place in [0, len / 2, len.saturating_sub(1)] {
        let one = BitBuffer::from_indices(alloc, len, [place]).expect(rt, "a set");
        equal(
            rt,
            (one.is_subset(&all), all.is_subset(&one)),
            (Ok(true), Ok(false)),
        );
        equal(
            rt,
            (one.is_disjoint(&none), one.is_disjoint(&all)),
            (Ok(true), Ok(false)),
        );
        drop(one);
    }
    drop((all, none));
}

#[test]
fn one_bit_of_many_tells(rt: HostRuntime) {
    for len in [201, 512, 4097, 100_000] {
        long_sets(&rt, rt.alloc(), len);
    }
}

/// What each call returns for two lengths that differ.
fn refused(left: usize, right: usize) -> Answers {
    let told = Err(BufferError::LengthMismatch { left, right });
    let count = Err(BufferError::LengthMismatch { left, right });
    (told, told, (count, count, count, count))
}

/// Sets of different lengths: each call fails, and makes no request.
#[test]
fn lengths_that_differ_are_refused_without_memory(rt: HostRuntime) {
    let heap = Refusing::new(rt.alloc(), 0);
    for (left, right) in [(69, 70), (70, 69), (0, 1), (64, 0)] {
        heap.refuse(0);
        let (one, other) = (ones(&heap, 3, left), ones(&heap, 5, right));
        heap.refuse(1);
        equal(&rt, answers(&rt, one, other), refused(left, right));
        equal(&rt, heap.asked(), 0);
    }
}

#[test]
fn answers_take_no_memory(rt: HostRuntime) {
    let heap = Refusing::new(rt.alloc(), 0);
    let (one, other) = (ones(&heap, 3, 200), ones(&heap, 4, 200));
    heap.refuse(1);
    let counts = (Ok(200), Ok(200), Ok(0), Ok(0));
    equal(&rt, answers(&rt, one, other), (Ok(false), Ok(true), counts));
    equal(&rt, heap.asked(), 0);
}
