//! Known results, with ample memory and with each allocation failing in turn.
use crate::tests::equal;
use crate::{Column, Condition, filtered, matching_rows, rows_failing, rows_where};
use std::alloc::Global;
use std::process::Abort;
use vb_testing::Refusing;
use vortex_buffer::{BitBuffer, Buffer, BufferError, Filter, Result};

type Heap<'a> = &'a Refusing<Global>;

/// Five ages, the third of which is null.
const AGES: &[u32] = &[31, 17, 0, 54, 18];

/// Which of the ages aren't null.
const VALID: &[bool] = &[true, true, false, true, true];

/// A condition; the valid ages that meet it; whether each age that meets it, null or not, is a
/// member's; and the number of allocations.
type Row = (Condition, &'static [u32], &'static [bool], u64);

const ROWS: &[Row] = &[
    (Condition::Below(18), &[17], &[false, true], 17),
    (
        Condition::AtLeast(18),
        &[31, 54, 18],
        &[true, false, true],
        17,
    ),
    (Condition::Equals(54), &[54], &[false], 17),
    // No age is selected, so nothing is allocated for the values.
    (Condition::Equals(0), &[], &[true], 16),
];

fn ages<'a>(heap: Heap<'a>, condition: Condition) -> Result<Buffer<u32, Heap<'a>>> {
    let values = Buffer::copy_from(heap, AGES)?;
    let valid = BitBuffer::from_bools(heap, VALID)?;
    let found = filtered(heap, &values, &valid, condition);
    drop((values, valid));
    found
}

fn members<'a>(heap: Heap<'a>, condition: Condition) -> Result<BitBuffer<Heap<'a>>> {
    let values = Buffer::copy_from(heap, AGES)?;
    let made = rows_where(heap, &values, condition);
    drop(values);
    let rows = made?;
    let member = BitBuffer::from_bools(heap, &[true, false, true, false, true])?;
    let found = member.filtered(rows.as_view());
    drop((member, rows));
    found
}

fn answers(rt: &impl Abort, heap: Heap<'_>, row: &Row) -> Result<()> {
    let found = ages(heap, row.0)?;
    assert_eq!(rt; found.as_slice(), row.1);
    drop(found);
    let found = members(heap, row.0)?;
    equal(rt, found.iter().eq(row.2.iter().copied()), true);
    drop(found);
    Ok(())
}

#[test]
fn filters_are_answered_or_refused(rt: HostRuntime) {
    let heap = Refusing::new(rt.alloc(), 0);
    for row in ROWS {
        for _ in heap.in_turn() {
            let answer = answers(&rt, &heap, row);
            let refused = Err(BufferError::OutOfMemory);
            equal(&rt, answer, heap.wanted(Ok(()), refused));
        }
        equal(&rt, (heap.has_refused(), heap.asked()), (false, row.3));
    }
}

/// The least age, the number above the greatest one, and the rows with a valid age between them.
type Span = (u32, u32, &'static [bool]);

const SPANS: &[Span] = &[
    (18, 50, &[true, false, false, false, true]),
    // The value of the null meets both conditions.
    (0, 18, &[false, true, false, false, false]),
    // Some ages meet one of the conditions, and none meets both.
    (32, 54, &[false, false, false, false, false]),
];

/// Finds the rows that meet both conditions.
fn between<'a>(
    heap: Heap<'a>,
    column: &Column<Heap<'a>>,
    least: u32,
    bound: u32,
) -> Result<BitBuffer<Heap<'a>>> {
    let (values, valid) = (column.values(), column.valid());
    let old = matching_rows(heap, values, valid, Condition::AtLeast(least))?;
    let young = matching_rows(heap, values, valid, Condition::Below(bound))?;
    old & young
}

fn rows_between<'a>(heap: Heap<'a>, span: &Span) -> Result<BitBuffer<Heap<'a>>> {
    let values = Buffer::copy_from(heap, AGES)?;
    let valid = BitBuffer::from_bools(heap, VALID)?;
    let column = Column::new(values, valid);
    let rows = between(heap, &column, span.0, span.1);
    drop(column);
    rows
}

/// Asserts that the made rows are these.
fn has_rows(rt: &impl Abort, made: Result<BitBuffer<Heap<'_>>>, wanted: &[bool]) -> Result<()> {
    let rows = made?;
    equal(rt, rows.iter().eq(wanted.iter().copied()), true);
    drop(rows);
    Ok(())
}

#[test]
fn rows_of_two_conditions_are_found_or_refused(rt: HostRuntime) {
    let heap = Refusing::new(rt.alloc(), 0);
    let refused = Err(BufferError::OutOfMemory);
    for span in SPANS {
        for _ in heap.in_turn() {
            let answer = has_rows(&rt, rows_between(&heap, span), span.2);
            equal(&rt, answer, heap.wanted(Ok(()), refused));
        }
        // Eight for the values, their mask and the rows of each condition: bytes and a count of
        // owners. Three for the counts of owners of the `&`s, which reuse the left side's bytes.
        equal(&rt, (heap.has_refused(), heap.asked()), (false, 11));
    }
}

/// The masks of two conditions and which rows of each are valid, for each of the nine pairs of
/// true, false and null. The bit of a null is true on the left and false on the right.
const MASKS: [&[bool]; 4] = [
    &[true, true, true, false, false, false, true, true, true],
    &[true, true, true, true, true, true, false, false, false],
    &[true, false, false, true, false, false, true, false, false],
    &[true, true, false, true, true, false, true, true, false],
];

/// The rows where one side is known to be false.
const FAILING: &[bool] = &[false, true, false, true, true, true, false, true, false];

fn failing<'a>(heap: Heap<'a>) -> Result<BitBuffer<Heap<'a>>> {
    let left = BitBuffer::from_bools(heap, MASKS[0])?;
    let left_valid = BitBuffer::from_bools(heap, MASKS[1])?;
    let right = BitBuffer::from_bools(heap, MASKS[2])?;
    let right_valid = BitBuffer::from_bools(heap, MASKS[3])?;
    let len = left.len();
    let made = if right.len() == len && left_valid.len() == len && right_valid.len() == len {
        rows_failing(heap, &left, &left_valid, &right, &right_valid)
    } else {
        Err(BufferError::NotAligned)
    };
    drop((left, left_valid, right, right_valid));
    made
}

#[test]
fn a_null_fails_where_the_other_side_does_or_memory_is_refused(rt: HostRuntime) {
    let heap = Refusing::new(rt.alloc(), 0);
    for _ in heap.in_turn() {
        let refused = Err(BufferError::OutOfMemory);
        equal(
            &rt,
            has_rows(&rt, failing(&heap), FAILING),
            heap.wanted(Ok(()), refused),
        );
    }
    equal(&rt, (heap.has_refused(), heap.asked()), (false, 13));
}
