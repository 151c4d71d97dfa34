//! Values and bits that a mask selects, and bits that are deposited.
use crate::input::{Case, filled, mixed, sparse, window};
use anyhow::{Result, bail};
use std::alloc::Global;
use vb_bit_buffer::BitBuffer;
use vb_core::Element;
use vb_gather::{Deposit, Filter};
use vb_mem::Buffer;
use vb_view::BitBufferView;

/// Makes the calls of a row with a mask that selects about half.
pub fn by_half(alloc: Global, row: &str, case: Case) -> Result<usize> {
    let bytes = mixed(alloc, case)?;
    let sum = by(alloc, bytes.as_slice(), row, case);
    drop(bytes);
    sum
}

/// Makes the calls of a row with a mask that selects one in 1,024.
pub fn by_few(alloc: Global, row: &str, case: Case) -> Result<usize> {
    let bytes = sparse(alloc, case)?;
    let sum = by(alloc, bytes.as_slice(), row, case);
    drop(bytes);
    sum
}

/// Makes the calls of a row with a mask that selects all.
pub fn by_all(alloc: Global, row: &str, case: Case) -> Result<usize> {
    let bytes = filled(alloc, case, 255)?;
    let sum = by(alloc, bytes.as_slice(), row, case);
    drop(bytes);
    sum
}

fn by(alloc: Global, bytes: &[u8], row: &str, case: Case) -> Result<usize> {
    match row {
        "bits" | "deposited" | "intersect_by_rank" => bits(alloc, bytes, row, case),
        "u8" => values(alloc, 8u8, bytes, case),
        "u16" => values(alloc, 16u16, bytes, case),
        "u32" => values(alloc, 32u32, bytes, case),
        "u64" => values(alloc, 64u64, bytes, case),
        _ => bail!("no row of this name"),
    }
}

fn values<T: Element>(alloc: Global, item: T, bytes: &[u8], case: Case) -> Result<usize> {
    let values = Buffer::full(alloc, item, case.size)?;
    let sum = filter_values(&values, bytes, case);
    drop(values);
    sum
}

fn filter_values<T: Element>(values: &Buffer<T>, bytes: &[u8], case: Case) -> Result<usize> {
    let mut sum = 0usize;
    for turn in 0..case.calls {
        let kept = values.filtered(window(bytes, case.size, turn)?)?;
        sum = sum.wrapping_add(kept.len());
        drop(kept);
    }
    Ok(sum)
}

fn bits(alloc: Global, bytes: &[u8], row: &str, case: Case) -> Result<usize> {
    let set = BitBuffer::full(alloc, true, case.size)?;
    let sum = match row {
        "bits" => filter_bits(&set, bytes, case),
        _ => put_back(&set, bytes, row, case),
    };
    drop(set);
    sum
}

fn filter_bits(set: &BitBuffer, bytes: &[u8], case: Case) -> Result<usize> {
    let mut sum = 0usize;
    for turn in 0..case.calls {
        let kept = set.filtered(window(bytes, case.size, turn)?)?;
        sum = sum.wrapping_add(kept.len());
        drop(kept);
    }
    Ok(sum)
}

/// Makes the calls of a row that deposit the bits that the mask selects, or that intersect the set
/// by rank.
fn put_back(set: &BitBuffer, bytes: &[u8], row: &str, case: Case) -> Result<usize> {
    let mask = window(bytes, case.size, 3)?;
    let kept = set.filtered(mask)?;
    let sum = match row {
        "deposited" => deposit(&kept, mask, case),
        _ => intersect(set, case),
    };
    drop(kept);
    sum
}

fn deposit(kept: &BitBuffer, mask: BitBufferView<'_>, case: Case) -> Result<usize> {
    let mut sum = 0usize;
    for _ in 0..case.calls {
        let spread = kept.deposited(mask)?;
        sum = sum.wrapping_add(spread.len());
        drop(spread);
    }
    Ok(sum)
}

/// Intersects a set, all of whose bits are set, with itself by rank.
fn intersect(set: &BitBuffer, case: Case) -> Result<usize> {
    let mut sum = 0usize;
    for _ in 0..case.calls {
        let spread = set.intersect_by_rank(set.as_view())?;
        sum = sum.wrapping_add(spread.len());
        drop(spread);
    }
    Ok(sum)
}
