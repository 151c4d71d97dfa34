//! Comparisons of the results of a directory with what is wanted. Each is proved once here, and so
//! tests are proved in less time.
ghost use Rattle.std.specs.Prelude.{◌≡◌, true};

use std::alloc::Allocator;
use std::fmt::Debug;
use std::process::Abort;
use vb_ranked::Ranked;
use vb_set::BitBufferView;

/// The two values are equal.
pub(crate) fn equal<T: Copy + PartialEq + Debug>(rt: &impl Abort, given: T, wanted: T) {
    assert_eq!(rt; given, wanted);
}

/// The condition holds, as later calls require.
pub(crate) fn holds(rt: &impl Abort, condition: bool)
    ensures { condition ≡ true }
{
    assert!(rt; condition);
}

/// A question to a directory, and its answer.
#[derive(Clone, Copy)]
pub(crate) enum Row {
    Rank(usize, usize),
    Select(usize, Option<usize>),
    SelectUnset(usize, Option<usize>),
}

/// The directory returns what the rows say.
pub(crate) fn answers<A: Allocator + Clone>(rt: &impl Abort, ranked: &Ranked<A>, rows: &[Row]) {
    for row in rows {
        match *row {
            Row::Rank(i, ones) => {
                holds(rt, i <= ranked.len());
                equal(rt, ranked.rank(i), ones);
            }
            Row::Select(n, place) => equal(rt, ranked.select(n), place),
            Row::SelectUnset(n, place) => equal(rt, ranked.select_unset(n), place),
        }
    }
}

/// What a directory of at least `i` bits returns for index `i` and rank `i`.
pub(crate) type Answers = (usize, Option<usize>, Option<usize>);

pub(crate) fn answers_at<A: Allocator + Clone>(
    rt: &impl Abort,
    ranked: &Ranked<A>,
    i: usize,
) -> Answers {
    holds(rt, i <= ranked.len());
    (ranked.rank(i), ranked.select(i), ranked.select_unset(i))
}

/// What a view of the bits returns for index `i` and rank `i`.
pub(crate) fn viewed_at(rt: &impl Abort, bits: BitBufferView<'_>, i: usize) -> Answers {
    holds(rt, i <= bits.len());
    (
        bits.slice(0..i).true_count(),
        bits.select(i),
        bits.select_unset(i),
    )
}
