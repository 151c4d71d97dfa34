//! Results of sets compared with those of the kernels for a window of the same bytes.
use crate::compared::{equal, holds};
use crate::made::window;
use std::alloc::Allocator;
use std::process::Abort;
use vb_bits::window_fits;
use vb_count::{Tally, count_ones_by};
use vb_select::{bit_select_by, bit_select_unset_by};
use vb_set::{BitBuffer, BitBufferMut, Result};

/// The offsets and the lengths of the sets.
const OFFSETS: [usize; 5] = [0, 3, 5, 7, 13];

const LENGTHS: [usize; 9] = [0, 1, 7, 8, 63, 64, 65, 129, 200];

/// How many bits are true, how many of them from `start` up to `end`, and the indices of the true
/// and of the false bit of rank `start`.
type Answers = (usize, usize, Option<usize>, Option<usize>);

/// The results by tallies over the bytes.
fn tallied(
    rt: &impl Abort,
    bytes: &[u8],
    (offset, len): (usize, usize),
    (start, end): (usize, usize),
) -> Answers {
    holds(rt, window_fits(bytes, offset, len));
    holds(rt, start <= end);
    holds(rt, end <= len);
    let mut src = Tally::new(bytes);
    (
        count_ones_by(&mut src, offset, len),
        count_ones_by(&mut src, offset + start, end - start),
        bit_select_by(&mut src, offset, len, start),
        bit_select_unset_by(&mut src, offset, len, start),
    )
}

/// The results of a set to edit.
fn open_answers<A: Allocator + Clone>(
    rt: &impl Abort,
    set: &BitBufferMut<A>,
    (start, end): (usize, usize),
) -> Answers {
    let view = set.as_view();
    holds(rt, start <= end);
    holds(rt, end <= view.len());
    (
        view.true_count(),
        view.slice(start..end).true_count(),
        view.select(start),
        view.select_unset(start),
    )
}

/// The results of a shared set.
fn shared_answers<A: Allocator + Clone>(
    rt: &impl Abort,
    set: &BitBuffer<A>,
    (start, end): (usize, usize),
) -> Answers {
    holds(rt, start <= end);
    holds(rt, end <= set.len());
    (
        set.true_count(),
        set.count_range(start, end),
        set.select(start),
        set.select_unset(start),
    )
}

/// A set returns the same as tallies over its bytes, before and after it is shared.
fn answers_are_tallied<A: Allocator + Clone>(
    rt: &impl Abort,
    made: Result<BitBufferMut<A>>,
    part: (usize, usize),
) {
    let set = made.expect(rt, "a set");
    let window = (set.offset(), set.len());
    let wanted = tallied(rt, set.as_slice(), window, part);
    equal(rt, open_answers(rt, &set, part), wanted);
    let set = set.freeze().expect(rt, "a set");
    let window = (set.offset(), set.len());
    let wanted = tallied(rt, set.inner().as_slice(), window, part);
    equal(rt, shared_answers(rt, &set, part), wanted);
    drop(set);
}

#[test]
fn sets_answer_as_tallies(rt: HostRuntime) {
    for offset in OFFSETS {
        for len in LENGTHS {
            let set = window(rt.alloc(), (0b1011_0010, 30), offset, len);
            answers_are_tallied(&rt, set, (len / 3, len - len / 4));
        }
    }
}
