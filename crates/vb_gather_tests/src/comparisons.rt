//! Sets of how values compare, with each request for memory refused.
use crate::compared::equal;
use std::alloc::Global;
use std::process::Abort;
use vb_bit_buffer::BitBuffer;
use vb_compare::Comparison;
use vb_core::{BufferError, Result};
use vb_gather::{compared, compared_with};
use vb_testing::Refusing;

type Heap<'a> = &'a Refusing<Global>;

/// The least value, one below 0, 0, one that comes twice, and the greatest one.
const VALUES: &[i32] = &[i32::MIN, -3, 0, 7, 7, i32::MAX];

/// What they are compared with, one by one.
const OTHERS: &[i32] = &[0, -3, 7, -7, 7, i32::MIN];

/// A comparison, its result for the values and -3, and that for the values and the others.
const ROWS: &[(Comparison, &str, &str)] = &[
    (Comparison::Equal, "010000", "010010"),
    (Comparison::NotEqual, "101111", "101101"),
    (Comparison::Less, "100000", "101000"),
    (Comparison::LessOrEqual, "110000", "111010"),
    (Comparison::Greater, "001111", "000101"),
    (Comparison::GreaterOrEqual, "011111", "010111"),
];

/// The set has these bits where the validity is true, and false elsewhere.
fn shows(
    rt: &impl Abort,
    made: Result<BitBuffer<Heap<'_>>>,
    bits: &str,
    valid: &[bool],
) -> Result<()> {
    let set = made?;
    let digits = bits.as_bytes();
    equal(rt, set.len(), digits.len());
    equal(rt, set.offset(), 0);
    for i in 0..set.len().min(digits.len()).min(valid.len()) {
        equal(rt, set.value(i), digits[i] == b'1' && valid[i]);
    }
    drop(set);
    Ok(())
}

/// The comparisons with -3 and with the others, under a validity.
fn where_valid(
    rt: &impl Abort,
    heap: Heap<'_>,
    row: &(Comparison, &str, &str),
    valid: &[bool],
) -> Result<()> {
    let set = BitBuffer::from_bools(heap, valid)?;
    let view = set.as_view();
    if view.len() != VALUES.len() || OTHERS.len() != VALUES.len() {
        drop(set);
        return Err(BufferError::NotAligned);
    }
    let to_number = compared(heap, VALUES, row.0, -3, Some(view));
    let to_others = compared_with(heap, VALUES, row.0, OTHERS, Some(view));
    drop(set);
    let first = shows(rt, to_number, row.1, valid);
    let second = shows(rt, to_others, row.2, valid);
    first?;
    second
}

/// The same without a validity.
fn of_all(rt: &impl Abort, heap: Heap<'_>, row: &(Comparison, &str, &str)) -> Result<()> {
    if OTHERS.len() != VALUES.len() {
        return Err(BufferError::NotAligned);
    }
    let to_number = compared(heap, VALUES, row.0, -3, None);
    let to_others = compared_with(heap, VALUES, row.0, OTHERS, None);
    let first = shows(rt, to_number, row.1, &[true; 6]);
    let second = shows(rt, to_others, row.2, &[true; 6]);
    first?;
    second
}

#[test]
fn comparisons_are_answered_or_refused(rt: HostRuntime) {
    let heap = Refusing::new(rt.alloc(), 0);
    let refused = Err(BufferError::OutOfMemory);
    for row in ROWS {
        for _ in heap.in_turn() {
            let answer = of_all(&rt, &heap, row);
            equal(&rt, answer, heap.wanted(Ok(()), refused));
        }
        equal(&rt, (heap.has_refused(), heap.asked()), (false, 4));
        for _ in heap.in_turn() {
            let answer = where_valid(&rt, &heap, row, &[true, false, true, true, false, true]);
            equal(&rt, answer, heap.wanted(Ok(()), refused));
        }
        equal(&rt, (heap.has_refused(), heap.asked()), (false, 6));
    }
}
