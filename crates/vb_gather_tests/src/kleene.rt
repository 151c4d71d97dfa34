//! Truth values that may be null: combinations compared with the table of the nine pairs.
ghost use Rattle.std.specs.Prelude.{◌≡◌, ◌<◌, length, IsTrue};
ghost use Rattle.std.specs.Option.{ForSome};
ghost use Rattle.vb_view.specs.View.{bits_of};

use crate::compared::equal;
use crate::masks::{Kept, Row, mask};
use std::alloc::{Allocator, Global};
use std::process::Abort;
use vb_bit_buffer::BitBuffer;
use vb_core::{BufferError, Result};
use vb_gather::{and_kleene, or_kleene};
use vb_testing::Refusing;
use vb_view::BitBufferView;

/// A truth value; None is null.
pub(crate) type Truth = Option<bool>;

const T: Truth = Some(true);

const F: Truth = Some(false);

const N: Truth = None;

/// A connective, indexed by the left and the right value, each in the order T, F, N.
pub(crate) type Table = [[Truth; 3]; 3];

pub(crate) const AND: &Table = &[[T, F, N], [F, F, F], [N, F, N]];

pub(crate) const OR: &Table = &[[T, T, T], [T, F, N], [T, N, N]];

pub(crate) fn combined(table: &Table, left: Truth, right: Truth) -> Truth {
    table[place(left)][place(right)]
}

fn place(truth: Truth) -> usize
    ensures { result < 3 }
{
    match truth {
        Some(true) => 0,
        Some(false) => 1,
        None => 2,
    }
}

/// Truth values, which are null where a validity, if there is one, is false.
#[derive(Clone, Copy)]
struct Column {
    values: Row,
    validity: Option<Row>,
}

impl Column {
    fn truth(&self, place: usize) -> Truth {
        let value = self.values.has(place);
        match self.validity {
            Some(validity) if !validity.has(place) => None,
            _ => Some(value),
        }
    }

    fn sets(&self, rt: &impl Abort, alloc: Global) -> Sets {
        Sets {
            values: mask(alloc, &self.values).expect(rt, "memory"),
            validity: match self.validity {
                Some(validity) => Some(mask(alloc, &validity).expect(rt, "memory")),
                None => None,
            },
        }
    }
}

/// The sets of a column.
#[derive(Drop)]
struct Sets {
    values: BitBuffer,
    validity: Option<BitBuffer>,
}

impl Sets {
    fn views(&self) -> (BitBufferView<'_>, Option<BitBufferView<'_>>) {
        (
            self.values.as_view(),
            self.validity.as_ref().map(BitBuffer::as_view),
        )
    }
}

/// Whether a validity, if there is one, has so many bits.
fn fits(validity: Option<BitBufferView<'_>>, len: usize) -> bool
    ensures { IsTrue result → ForSome validity.entry (λ v. length (bits_of v) ≡ len) }
{
    match validity {
        Some(valid) => valid.len() == len,
        None => true,
    }
}

/// The result of `and_kleene` on two columns, or of `or_kleene` if `and` is false.
fn made<A: Allocator + Clone>(
    alloc: A,
    and: bool,
    left: &Sets,
    right: &Sets,
) -> Result<(BitBuffer<A>, BitBuffer<A>)> {
    let ((a, a_valid), (b, b_valid)) = (left.views(), right.views());
    if b.len() != a.len() || !fits(a_valid, a.len()) || !fits(b_valid, a.len()) {
        return Err(BufferError::NotAligned);
    }
    if and {
        and_kleene(alloc, a, a_valid, b, b_valid)
    } else {
        or_kleene(alloc, a, a_valid, b, b_valid)
    }
}

/// The sets have what the table says, and false at a null.
fn shows<A: Allocator + Clone>(
    rt: &impl Abort,
    made: Result<(BitBuffer<A>, BitBuffer<A>)>,
    table: &Table,
    left: &Column,
    right: &Column,
) -> Result<()> {
    let (trues, valid) = made?;
    equal(
        rt,
        (trues.len(), valid.len()),
        (left.values.0, left.values.0),
    );
    equal(rt, (trues.offset(), valid.offset()), (0, 0));
    for place in 0..trues.len().min(valid.len()) {
        let wanted = combined(table, left.truth(place), right.truth(place));
        let given = (trues.value(place), valid.value(place));
        equal(rt, given, (wanted == T, wanted != N));
    }
    drop((trues, valid));
    Ok(())
}

/// Both connectives of two columns are those of the tables, with memory for all and with each
/// request refused.
fn beside_the_tables(rt: &impl Abort, alloc: Global, left: &Column, right: &Column) {
    let (a, b) = (left.sets(rt, alloc), right.sets(rt, alloc));
    let heap = Refusing::new(alloc, 0);
    let refused = Err(BufferError::OutOfMemory);
    for (and, table) in [(true, AND), (false, OR)] {
        for _ in heap.in_turn() {
            let answer = shows(rt, made(&heap, and, &a, &b), table, left, right);
            equal(rt, answer, heap.wanted(Ok(()), refused));
        }
        let requests = if left.values.0 > 0 { 4 } else { 2 };
        equal(rt, (heap.has_refused(), heap.asked()), (false, requests));
    }
    drop((a, b));
}

/// Two columns of `len` values. `first` has the bits at which their four windows begin, and `nulls`
/// says which columns may have nulls.
fn columns(len: usize, first: [usize; 4], nulls: (bool, bool)) -> (Column, Column) {
    let left = Column {
        values: Row(len, first[0], Kept::OneIn(2)),
        validity: nulls.0.then_some(Row(len, first[1], Kept::AllButOneIn(3))),
    };
    let right = Column {
        values: Row(len, first[2], Kept::Runs(2, 5)),
        validity: nulls.1.then_some(Row(len, first[3], Kept::Runs(4, 7))),
    };
    (left, right)
}

const NULLS: [(bool, bool); 4] = [(true, true), (true, false), (false, true), (false, false)];

#[test]
fn each_pair_is_combined_as_in_the_tables_at_each_offset_or_refused(rt: HostRuntime) {
    for n in 0..512 {
        let first = [n % 8, n / 8 % 8, n / 64, (n / 3) % 8];
        for nulls in NULLS {
            let (left, right) = columns(215, first, nulls);
            beside_the_tables(&rt, rt.alloc(), &left, &right);
        }
    }
}

#[test]
fn each_length_is_combined_to_its_end(rt: HostRuntime) {
    for len in 0..140 {
        for nulls in NULLS {
            let (left, right) = columns(len, [3, 6, 1, 7], nulls);
            beside_the_tables(&rt, rt.alloc(), &left, &right);
        }
    }
}
