//! Whether sets to edit are disjoint, or one is a subset of the other, compared with plain loops
//! over their bits. The calls fail only for lengths that differ.
use crate::compared::equal;
use crate::made::window;
use std::alloc::{Allocator, Global};
use std::process::Abort;
use vb_set::{BitBufferMut, BufferError, Result};

/// Values for all bytes of a set.
const BYTES: [u8; 6] = [0, 0x0F, 0xF0, 0x3C, 0x11, 0xFF];

const LENGTHS: [usize; 9] = [0, 1, 7, 8, 63, 64, 65, 200, 1000];

/// What the calls on two sets return: whether they are disjoint, and whether the first is a subset.
type Answers = (Result<bool>, Result<bool>);

/// What a loop over the bits finds, for two sets of one length.
fn plain<A: Allocator + Clone>(left: &BitBufferMut<A>, right: &BitBufferMut<A>) -> Answers {
    let (mut disjoint, mut within) = (true, true);
    for i in 0..left.len().min(right.len()) {
        let (l, r) = (left.value(i), right.value(i));
        disjoint &= !(l & r);
        within &= !l | r;
    }
    (Ok(disjoint), Ok(within))
}

/// Asserts what the calls on two sets that were made return.
fn answer<A: Allocator + Clone>(
    rt: &impl Abort,
    left: Result<BitBufferMut<A>>,
    right: Result<BitBufferMut<A>>,
) {
    let (left, right) = (left.expect(rt, "a set"), right.expect(rt, "a set"));
    let wanted = if left.len() == right.len() {
        plain(&left, &right)
    } else {
        let (left, right) = (left.len(), right.len());
        let refused = Err(BufferError::LengthMismatch { left, right });
        (refused, refused)
    };
    let given = (left.is_disjoint(&right), left.is_subset(&right));
    drop((left, right));
    equal(rt, given, wanted);
}

/// Sets of these bytes, at each pair of offsets within a byte.
fn answer_of(rt: &impl Abort, alloc: Global, (left, right): (u8, u8), lens: (usize, usize)) {
    for l in 0..8 {
        for r in 0..8 {
            let one = window(alloc, (left, 126), l, lens.0);
            answer(rt, one, window(alloc, (right, 126), r, lens.1));
        }
    }
}

#[test]
fn relations_are_plain(rt: HostRuntime) {
    for left in BYTES {
        for right in BYTES {
            for len in LENGTHS {
                answer_of(&rt, rt.alloc(), (left, right), (len, len));
            }
        }
    }
}

#[test]
fn sets_of_two_lengths_are_refused(rt: HostRuntime) {
    for lens in [(0, 1), (1, 0), (64, 65), (65, 64), (999, 1000), (8, 1000)] {
        answer_of(&rt, rt.alloc(), (0x3C, 0xFF), lens);
    }
}
