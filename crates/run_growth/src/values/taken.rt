//! Values and bits at indices.
ghost use Rattle.std.specs.Prelude.{◌≡◌, length};
ghost use Rattle.vb_view.specs.View.{bits_of};

use crate::input::{Case, mixed, window};
use anyhow::{Result, bail};
use std::alloc::Global;
use vb_core::Element;
use vb_gather::{Take, take_bits};
use vb_mem::Buffer;
use vb_view::BitBufferView;

/// Makes the calls of a row at `size` indices.
pub fn measure(alloc: Global, row: &str, case: Case) -> Result<usize> {
    let indices = indices(alloc, case)?;
    let sum = at(alloc, indices.as_slice(), row, case);
    drop(indices);
    sum
}

/// Returns indices below the size, in no order.
fn indices(alloc: Global, case: Case) -> Result<Vec<u32>> {
    let mut indices = Vec::with_capacity(alloc, case.size)?;
    let mut state = 1usize;
    for _ in 0..case.size {
        state = state.wrapping_mul(1_664_525).wrapping_add(1_013_904_223);
        let index = if case.size == 0 {
            0
        } else {
            (state >> 16) % case.size
        };
        indices.push(index as u32)?;
    }
    Ok(indices)
}

fn at(alloc: Global, indices: &[u32], row: &str, case: Case) -> Result<usize> {
    match row {
        "bits" | "valid_bits" => bits(alloc, indices, row, case),
        "u8" => values(alloc, 8u8, indices, case),
        "u16" => values(alloc, 16u16, indices, case),
        "u32" => values(alloc, 32u32, indices, case),
        "u64" => values(alloc, 64u64, indices, case),
        "valid_u32" => valid_values(alloc, indices, case),
        _ => bail!("no row of this name"),
    }
}

fn values<T: Element>(alloc: Global, item: T, indices: &[u32], case: Case) -> Result<usize> {
    let values = Buffer::full(alloc, item, case.size)?;
    let sum = take_values(&values, indices, case);
    drop(values);
    sum
}

fn take_values<T: Element>(values: &Buffer<T>, indices: &[u32], case: Case) -> Result<usize> {
    let mut sum = 0usize;
    for _ in 0..case.calls {
        let taken = values.taken(indices, None)?;
        sum = sum.wrapping_add(taken.len());
        drop(taken);
    }
    Ok(sum)
}

fn valid_values(alloc: Global, indices: &[u32], case: Case) -> Result<usize> {
    let bytes = mixed(alloc, case)?;
    let sum = with_validity(alloc, bytes.as_slice(), indices, case);
    drop(bytes);
    sum
}

fn with_validity(alloc: Global, bytes: &[u8], indices: &[u32], case: Case) -> Result<usize> {
    let valid = window(bytes, case.size, 3)?;
    if valid.len() != indices.len() {
        bail!("there is a truth value for each index");
    }
    let values = Buffer::full(alloc, 32u32, case.size)?;
    let sum = take_valid(&values, indices, valid, case);
    drop(values);
    sum
}

fn take_valid(
    values: &Buffer<u32>,
    indices: &[u32],
    valid: BitBufferView<'_>,
    case: Case,
) -> Result<usize>
    requires { length (bits_of valid) ≡ length indices.now }
{
    let mut sum = 0usize;
    for _ in 0..case.calls {
        let taken = values.taken(indices, Some(valid))?;
        sum = sum.wrapping_add(taken.len());
        drop(taken);
    }
    Ok(sum)
}

fn bits(alloc: Global, indices: &[u32], row: &str, case: Case) -> Result<usize> {
    let bytes = mixed(alloc, case)?;
    let sum = take_all_bits(alloc, bytes.as_slice(), indices, row, case);
    drop(bytes);
    sum
}

fn take_all_bits(
    alloc: Global,
    bytes: &[u8],
    indices: &[u32],
    row: &str,
    case: Case,
) -> Result<usize> {
    let mut sum = 0usize;
    for turn in 0..case.calls {
        let bits = window(bytes, case.size, turn)?;
        if bits.len() != indices.len() {
            bail!("there is a bit for each index");
        }
        let validity = if row == "bits" { None } else { Some(bits) };
        let taken = take_bits(alloc, bits, indices, validity)?;
        sum = sum.wrapping_add(taken.len());
        drop(taken);
    }
    Ok(sum)
}
