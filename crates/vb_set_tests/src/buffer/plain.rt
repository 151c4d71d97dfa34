//! Each call compared with a plain loop over its bits.
use crate::buffer::calls::{LENT, ONE, OWNED, One, Operator, Two};
use crate::buffer::compared::{compares, shows_list};
use crate::buffer::made::{LONGEST, front, list, set};
use std::alloc::{Allocator, Global};
use std::process::Abort;
use vb_bit_buffer::BitBuffer;
use vb_core::Result;

/// The bit offsets of either side.
const OFFSETS: [usize; 4] = [0, 3, 5, 7];

const LENGTHS: [usize; 7] = [0, 1, 63, 64, 65, 129, LONGEST];

/// What a call makes of two lists.
fn combined(call: Two, left: &[bool], right: &[bool]) -> [bool; LONGEST] {
    let mut bits = [false; LONGEST];
    for (i, bit) in bits.iter_mut().enumerate() {
        if i < left.len() && i < right.len() {
            *bit = call.bit(left[i], right[i]);
        }
    }
    bits
}

/// A call at all offsets on either side.
fn call_is_plain(rt: &impl Abort, alloc: Global, call: Two, lefts: &[bool], rights: &[bool]) {
    let wanted = combined(call, lefts, rights);
    for left in OFFSETS {
        for right in OFFSETS {
            let made = call.of_made(set(alloc, lefts, left), set(alloc, rights, right));
            shows_list(rt, made, front(&wanted, lefts.len()));
        }
    }
}

fn calls_are_plain(rt: &impl Abort, alloc: Global, calls: &[Two]) {
    let (lefts, rights) = (list(11), list(12));
    for len in LENGTHS {
        for call in calls {
            call_is_plain(rt, alloc, *call, front(&lefts, len), front(&rights, len));
        }
    }
}

#[test]
fn operators_are_those_of_bits(rt: HostRuntime) {
    calls_are_plain(&rt, rt.alloc(), OWNED);
    calls_are_plain(&rt, rt.alloc(), LENT);
}

/// What a call makes of a list.
fn turned(call: One, list: &[bool]) -> [bool; LONGEST] {
    let mut bits = [false; LONGEST];
    for (bit, other) in bits.iter_mut().zip(list) {
        *bit = call.bit(*other);
    }
    bits
}

#[test]
fn copies_and_negations_are_those_of_bits(rt: HostRuntime) {
    let bits = list(13);
    for call in ONE {
        let wanted = turned(*call, &bits);
        for len in LENGTHS {
            for offset in OFFSETS {
                let made = call.make(set(rt.alloc(), front(&bits, len), offset));
                shows_list(&rt, made, front(&wanted, len));
            }
        }
    }
}

/// A set is equal to one of the same list, and not to one whose last bit differs, or that is
/// shorter. Flips the last bit of the list.
fn equality_is_plain(
    rt: &impl Abort,
    alloc: Global,
    bits: &mut [bool],
    (left, right): (usize, usize),
) {
    let here = set(alloc, bits, left).expect(rt, "a set");
    compares(rt, &here, set(alloc, bits, right), true);
    let is_empty = bits.is_empty();
    if let Some(last) = bits.last_mut() {
        *last = !*last;
    }
    compares(rt, &here, set(alloc, bits, right), is_empty);
    let shorter = front(bits, bits.len().saturating_sub(1));
    compares(rt, &here, set(alloc, shorter, right), is_empty);
    drop(here);
}

#[test]
fn equality_is_that_of_bits(rt: HostRuntime) {
    for left in OFFSETS {
        for right in OFFSETS {
            for len in LENGTHS {
                let mut bits = list(14);
                let bits = &mut bits[..len.min(LONGEST)];
                equality_is_plain(&rt, rt.alloc(), bits, (left, right));
            }
        }
    }
}

/// A law of De Morgan: the negated result of an operator on two sets is the result of another one
/// on the negated sets.
fn law_holds<A: Allocator + Clone>(
    rt: &impl Abort,
    (operator, other): (Operator, Two),
    one: &BitBuffer<A>,
    two: &BitBuffer<A>,
) {
    let negated = One::Not
        .make(operator.of_lent(one, two))
        .expect(rt, "a set");
    compares(rt, &negated, other.of_made(!one, !two), true);
    drop(negated);
}

/// Both laws of De Morgan, and that two negations of a set give the same set.
fn laws_hold<A: Allocator + Clone>(
    rt: &impl Abort,
    one: Result<BitBuffer<A>>,
    two: Result<BitBuffer<A>>,
) {
    let (one, two) = (one.expect(rt, "a set"), two.expect(rt, "a set"));
    law_holds(rt, (Operator::And, Two::OrBothOwned), &one, &two);
    law_holds(rt, (Operator::Or, Two::AndBothOwned), &one, &two);
    compares(rt, &one, One::Not.make(!&one), true);
    drop((one, two));
}

#[test]
fn negation_goes_through_operators(rt: HostRuntime) {
    for left in OFFSETS {
        let lefts = list(left + 20);
        for right in OFFSETS {
            let rights = list(right + 30);
            for len in LENGTHS {
                let one = set(rt.alloc(), front(&lefts, len), left);
                laws_hold(&rt, one, set(rt.alloc(), front(&rights, len), right));
            }
        }
    }
}
