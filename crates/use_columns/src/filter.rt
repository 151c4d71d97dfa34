//! A filter over a column of numbers, some of which may be null.
ghost use Rattle.std.specs.Prelude.{◌≡◌, false, Some, length, map, filter};
ghost use Rattle.std.specs.Simd.Lanes.{zip2};
ghost use Rattle.use_columns.specs.Filters.{is_met, matches_of};
ghost use Rattle.vortex_buffer.specs.Kept.{kept_by};
ghost use Rattle.vortex_buffer.specs.Kleene.{and_truths, truths, is_truth};
ghost use Rattle.vortex_buffer.specs.Makes.{Makes};

use crate::condition::Condition;
use std::alloc::Allocator;
use vortex_buffer::{BitBuffer, Buffer, Filter, Result, and_kleene, compared};

/// Returns the mask of the rows whose value meets the condition. The only error is `OutOfMemory`.
pub fn rows_where<A: Allocator + Clone>(
    alloc: A,
    values: &Buffer<u32, A>,
    condition: Condition,
) -> Result<BitBuffer<A>>
    ensures { Makes (λ rows. rows.bits ≡ map (is_met condition) values.now.list) result }
{
    if values.len() < FEW {
        return few_rows_where(alloc, values, condition);
    }
    let (op, number) = condition.comparison();
    compared(alloc, values.as_slice(), op, number, None)
}

/// The number of rows from which on vectors are faster than a test of each row.
const FEW: usize = 512;

/// Does [`rows_where`] row by row.
fn few_rows_where<A: Allocator + Clone>(
    alloc: A,
    values: &Buffer<u32, A>,
    condition: Condition,
) -> Result<BitBuffer<A>>
    ensures { Makes (λ rows. rows.bits ≡ map (is_met condition) values.now.list) result }
{
    let items = values.as_slice();
    BitBuffer::collect_bool(
        alloc,
        items.len(),
        &mut |row| condition.is_met_by(items[row]),
    )
}

/// Returns the mask of the rows that are valid and whose value meets the condition. The only error
/// is `OutOfMemory`.
pub fn matching_rows<A: Allocator + Clone>(
    alloc: A,
    values: &Buffer<u32, A>,
    valid: &BitBuffer<A>,
    condition: Condition,
) -> Result<BitBuffer<A>>
    requires { length valid.now.bits ≡ length values.now.list }
    ensures { Makes (λ rows. rows.bits
        ≡ matches_of (is_met condition) valid.now.bits values.now.list) result }
{
    rows_where(alloc, values, condition)? & valid
}

/// Returns the rows that SQL's `where not (a and b)` selects, for the masks of two conditions and
/// their validities: the rows where one mask is valid and false, whatever the other one is. All
/// four must have the same length. The only error is `OutOfMemory`.
pub fn rows_failing<A: Allocator + Clone>(
    alloc: A,
    left: &BitBuffer<A>,
    left_valid: &BitBuffer<A>,
    right: &BitBuffer<A>,
    right_valid: &BitBuffer<A>,
) -> Result<BitBuffer<A>>
    requires right { length right.now.bits ≡ length left.now.bits }
    requires left_valid { length left_valid.now.bits ≡ length left.now.bits }
    requires right_valid { length right_valid.now.bits ≡ length left.now.bits }
    ensures { Makes (λ rows. rows.bits ≡ map (is_truth false) (zip2 and_truths
        (truths left.now.bits (Some left_valid.now.bits))
        (truths right.now.bits (Some right_valid.now.bits)))) result }
{
    let (a, a_valid) = (left.as_view(), Some(left_valid.as_view()));
    let (b, b_valid) = (right.as_view(), Some(right_valid.as_view()));
    let (both, valid) = and_kleene(alloc, a, a_valid, b, b_valid)?;
    let rows = valid.into_bitand_not(&both);
    drop(both);
    rows
}

/// Returns the values that are valid and meet the condition, in order. The only error is
/// `OutOfMemory`.
pub fn filtered<A: Allocator + Clone>(
    alloc: A,
    values: &Buffer<u32, A>,
    valid: &BitBuffer<A>,
    condition: Condition,
) -> Result<Buffer<u32, A>>
    requires { length valid.now.bits ≡ length values.now.list }
    ensures { Makes (λ found. found.list
        ≡ filter (is_met condition) (kept_by valid.now.bits values.now.list)) result }
{
    let rows = matching_rows(alloc, values, valid, condition)?;
    let found = values.filtered(rows.as_view());
    drop(rows);
    found
}
