//! Calls that compare the lengths of their arguments. With equal lengths they return the same as
//! the calls that don't compare them. Otherwise they fail with the first length that differs, and
//! don't allocate.
use crate::compared::equal;
use crate::kleene::{AND, OR, Truth, combined};
use std::alloc::{Allocator, Global};
use std::process::Abort;
use vb_bit_buffer::BitBuffer;
use vb_compare::Comparison;
use vb_core::{BufferError, Result};
use vb_gather::{try_and_kleene, try_compared, try_compared_with, try_or_kleene};
use vb_testing::Refusing;

/// A call: a comparison with a number, with others, or a connective.
#[derive(Clone, Copy)]
enum Call {
    Number,
    Others,
    And,
    Or,
}

const CALLS: [Call; 4] = [Call::Number, Call::Others, Call::And, Call::Or];

/// The lengths of the left values, of the right ones and of both validities; None without one.
#[derive(Clone, Copy)]
struct Lens(usize, usize, Option<usize>, Option<usize>);

const LENS: &[Lens] = &[
    Lens(0, 0, None, None),
    Lens(69, 69, Some(69), Some(69)),
    Lens(64, 64, None, Some(64)),
    Lens(64, 63, Some(64), Some(64)),
    Lens(64, 65, None, None),
    Lens(0, 0, Some(1), Some(0)),
    Lens(9, 9, Some(8), Some(10)),
    Lens(9, 9, Some(9), Some(10)),
    Lens(9, 9, None, Some(8)),
    Lens(9, 10, Some(8), Some(7)),
    Lens(1, 0, Some(2), None),
];

impl Lens {
    /// The error of a call, if it fails. A comparison has one validity, the first; one with a
    /// number has no right values.
    fn refusal(&self, call: Call) -> Option<BufferError> {
        let Lens(left, right, first, second) = *self;
        let others = match call {
            Call::Number => [first, None, None],
            Call::Others => [Some(right), first, None],
            Call::And | Call::Or => [Some(right), first, second],
        };
        for other in others {
            if let Some(right) = other
                && right != left
            {
                return Some(BufferError::LengthMismatch { left, right });
            }
        }
        None
    }
}

/// `len` bits, of which every `one_in`-th is false, beginning with the first.
fn set(rt: &impl Abort, alloc: Global, len: usize, one_in: usize) -> BitBuffer {
    BitBuffer::from_iter(alloc, (0..len).map(|place| is_true(place, one_in))).expect(rt, "memory")
}

fn is_true(place: usize, one_in: usize) -> bool {
    one_in == 0 || place % one_in != 0
}

/// The truth value at index `place` of such bits; null where a validity of such bits, if there is
/// one, is false.
fn truth(place: usize, one_in: usize, validity: Option<usize>, valid_in: usize) -> Truth {
    match validity {
        Some(_) if !is_true(place, valid_in) => None,
        _ => Some(is_true(place, one_in)),
    }
}

/// The greatest length, and the values and the others that are compared.
const LONGEST: usize = 70;

const VALUES: [i32; LONGEST] = [3; LONGEST];

const OTHERS: [i32; LONGEST] = [4; LONGEST];

/// The result of a call at an index: whether it is true, and whether it is valid.
fn wanted(call: Call, lens: &Lens, place: usize) -> (bool, bool) {
    let left = truth(place, 3, lens.2, 5);
    let right = truth(place, 2, lens.3, 7);
    let answer = match call {
        Call::Number | Call::Others => return (left.is_some(), true),
        Call::And => combined(AND, left, right),
        Call::Or => combined(OR, left, right),
    };
    (answer == Some(true), answer.is_some())
}

/// The sets that a call of these lengths is given.
#[derive(Drop)]
struct Sets {
    left: BitBuffer,
    right: BitBuffer,
    first: Option<BitBuffer>,
    second: Option<BitBuffer>,
}

impl Sets {
    fn new(rt: &impl Abort, alloc: Global, lens: &Lens) -> Sets {
        Sets {
            left: set(rt, alloc, lens.0, 3),
            right: set(rt, alloc, lens.1, 2),
            first: match lens.2 {
                Some(len) => Some(set(rt, alloc, len, 5)),
                None => None,
            },
            second: match lens.3 {
                Some(len) => Some(set(rt, alloc, len, 7)),
                None => None,
            },
        }
    }
}

/// The set of a comparison, or both sets of a connective.
fn made<A: Allocator + Clone>(alloc: A, call: Call, lens: &Lens, sets: &Sets) -> Made<A> {
    let first = sets.first.as_ref().map(BitBuffer::as_view);
    let second = sets.second.as_ref().map(BitBuffer::as_view);
    let (left, right) = (sets.left.as_view(), sets.right.as_view());
    let values = &VALUES[..lens.0.min(LONGEST)];
    let others = &OTHERS[..lens.1.min(LONGEST)];
    match call {
        Call::Number => one(try_compared(alloc, values, Comparison::Less, 4, first)),
        Call::Others => one(try_compared_with(alloc, values, Comparison::Less, others, first)),
        Call::And => two(try_and_kleene(alloc, left, first, right, second)),
        Call::Or => two(try_or_kleene(alloc, left, first, right, second)),
    }
}

type Made<A> = Result<(BitBuffer<A>, Option<BitBuffer<A>>)>;

fn one<A: Allocator + Clone>(made: Result<BitBuffer<A>>) -> Made<A> {
    Ok((made?, None))
}

fn two<A: Allocator + Clone>(made: Result<(BitBuffer<A>, BitBuffer<A>)>) -> Made<A> {
    let (trues, valid) = made?;
    Ok((trues, Some(valid)))
}

/// What was made has the bits that are wanted.
fn shows<A: Allocator + Clone>(
    rt: &impl Abort,
    made: Made<A>,
    call: Call,
    lens: &Lens,
) -> Result<()> {
    let (trues, valid) = made?;
    equal(rt, trues.len(), lens.0);
    for place in 0..trues.len() {
        let known = match &valid {
            Some(valid) => place < valid.len() && valid.value(place),
            None => true,
        };
        equal(rt, (trues.value(place), known), wanted(call, lens, place));
    }
    drop((trues, valid));
    Ok(())
}

#[test]
fn lengths_are_equal_or_refused_without_memory(rt: HostRuntime) {
    let heap = Refusing::new(rt.alloc(), 0);
    for lens in LENS {
        let sets = Sets::new(&rt, rt.alloc(), lens);
        for call in CALLS {
            let refusal = lens.refusal(call);
            for _ in heap.in_turn() {
                let answer = shows(&rt, made(&heap, call, lens, &sets), call, lens);
                let wanted = match refusal {
                    Some(refusal) => Err(refusal),
                    None => heap.wanted(Ok(()), Err(BufferError::OutOfMemory)),
                };
                equal(&rt, answer, wanted);
            }
            equal(&rt, heap.asked() == 0, refusal.is_some());
        }
        drop(sets);
    }
}
