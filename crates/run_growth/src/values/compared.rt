//! Comparisons, and three-valued logic.
ghost use Rattle.std.specs.Prelude.{◌≡◌, length};
ghost use Rattle.vb_view.specs.View.{bits_of};

use crate::input::{Case, mixed, window};
use anyhow::{Result, bail};
use std::alloc::Global;
use vb_bit_buffer::BitBuffer;
use vb_compare::{CompareLanes, Comparison};
use vb_gather::{and_kleene, compared, compared_with, or_kleene};
use vb_mem::Buffer;
use vb_view::BitBufferView;

/// Makes the calls of a row.
pub fn measure(alloc: Global, row: &str, case: Case) -> Result<usize> {
    match row {
        "and_kleene" | "or_kleene" | "valid_u32" => of_bits(alloc, row, case),
        "u8" => values(alloc, 8u8, row, case),
        "u16" => values(alloc, 16u16, row, case),
        "u32" | "with_u32" => values(alloc, 32u32, row, case),
        "u64" | "with_u64" => values(alloc, 64u64, row, case),
        _ => bail!("no row of this name"),
    }
}

fn values<T: CompareLanes>(alloc: Global, item: T, row: &str, case: Case) -> Result<usize> {
    let values = Buffer::full(alloc, item, case.size)?;
    let sum = match row {
        "with_u32" | "with_u64" => compare_with(alloc, values.as_slice(), case),
        _ => compare(alloc, values.as_slice(), item, case),
    };
    drop(values);
    sum
}

fn compare<T: CompareLanes>(alloc: Global, values: &[T], item: T, case: Case) -> Result<usize> {
    let mut sum = 0usize;
    for _ in 0..case.calls {
        let set = compared(alloc, values, Comparison::Less, item, None)?;
        sum = sum.wrapping_add(set.len());
        drop(set);
    }
    Ok(sum)
}

fn compare_with<T: CompareLanes>(alloc: Global, values: &[T], case: Case) -> Result<usize> {
    let mut sum = 0usize;
    for _ in 0..case.calls {
        let set = compared_with(alloc, values, Comparison::Less, values, None)?;
        sum = sum.wrapping_add(set.len());
        drop(set);
    }
    Ok(sum)
}

fn of_bits(alloc: Global, row: &str, case: Case) -> Result<usize> {
    let bytes = mixed(alloc, case)?;
    let sum = match row {
        "valid_u32" => valid_values(alloc, bytes.as_slice(), case),
        _ => logic(alloc, bytes.as_slice(), row, case),
    };
    drop(bytes);
    sum
}

fn valid_values(alloc: Global, bytes: &[u8], case: Case) -> Result<usize> {
    let valid = window(bytes, case.size, 3)?;
    let values = Buffer::full(alloc, 32u32, case.size)?;
    let sum = compare_valid(alloc, values.as_slice(), valid, case);
    drop(values);
    sum
}

fn compare_valid(
    alloc: Global,
    values: &[u32],
    valid: BitBufferView<'_>,
    case: Case,
) -> Result<usize> {
    if values.len() != valid.len() {
        bail!("there is a truth value for each value");
    }
    let mut sum = 0usize;
    for _ in 0..case.calls {
        let set = compared(alloc, values, Comparison::Equal, 32, Some(valid))?;
        sum = sum.wrapping_add(set.len());
        drop(set);
    }
    Ok(sum)
}

fn logic(alloc: Global, bytes: &[u8], row: &str, case: Case) -> Result<usize> {
    let mut sum = 0usize;
    for turn in 0..case.calls {
        let left = window(bytes, case.size, turn)?;
        let right = window(bytes, case.size, turn.wrapping_mul(3))?;
        let (trues, valid) = combined(alloc, left, right, row)?;
        sum = sum.wrapping_add(trues.len() ^ valid.offset());
        drop((trues, valid));
    }
    Ok(sum)
}

/// Combines two windows by three-valued logic, each with itself as its validity.
fn combined(
    alloc: Global,
    left: BitBufferView<'_>,
    right: BitBufferView<'_>,
    row: &str,
) -> Result<(BitBuffer, BitBuffer)>
    requires { length (bits_of right) ≡ length (bits_of left) }
{
    Ok(match row {
        "and_kleene" => and_kleene(alloc, left, Some(left), right, Some(right))?,
        _ => or_kleene(alloc, left, Some(left), right, Some(right))?,
    })
}
