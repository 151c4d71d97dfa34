//! Values of a slice that a mask selects, in place, values that a mask spreads, and bits as bytes.
use crate::input::{Case, mixed, window};
use anyhow::{Result, bail};
use std::alloc::Global;
use vb_expand::{scatter_values_into, unpack_bytes};
use vb_filter::retain_values;

/// Makes the calls of a row with a mask that selects about half.
pub fn measure(alloc: Global, row: &str, case: Case) -> Result<usize> {
    let bytes = mixed(alloc, case)?;
    let sum = by(alloc, bytes.as_slice(), row, case);
    drop(bytes);
    sum
}

fn by(alloc: Global, bytes: &[u8], row: &str, case: Case) -> Result<usize> {
    match row {
        "retain_values" => retained(alloc, bytes, case),
        "scatter_values_into" => scattered(alloc, bytes, case),
        "unpack_bytes" => unpacked(alloc, bytes, case),
        _ => bail!("no row of this name"),
    }
}

fn retained(alloc: Global, bytes: &[u8], case: Case) -> Result<usize> {
    let mut values = Vec::from_elem(alloc, 5u32, case.size)?;
    let sum = retain_all(values.as_mut_slice(), bytes, case);
    drop(values);
    sum
}

fn retain_all(values: &mut [u32], bytes: &[u8], case: Case) -> Result<usize> {
    let mut sum = 0usize;
    for turn in 0..case.calls {
        let mask = window(bytes, case.size, turn)?;
        if values.len() == mask.len() {
            sum = sum.wrapping_add(retain_values(values, mask));
        }
    }
    Ok(sum)
}

fn scattered(alloc: Global, bytes: &[u8], case: Case) -> Result<usize> {
    let values = Vec::from_elem(alloc, 5u32, case.size)?;
    let sum = scatter(alloc, values.as_slice(), bytes, case);
    drop(values);
    sum
}

fn scatter(alloc: Global, values: &[u32], bytes: &[u8], case: Case) -> Result<usize> {
    let mut out = Vec::from_elem(alloc, 0u32, case.size)?;
    let sum = scatter_all(out.as_mut_slice(), values, bytes, case);
    drop(out);
    sum
}

fn scatter_all(out: &mut [u32], values: &[u32], bytes: &[u8], case: Case) -> Result<usize> {
    let mut sum = 0usize;
    for turn in 0..case.calls {
        let mask = window(bytes, case.size, turn)?;
        if out.len() == mask.len() && mask.true_count() <= values.len() {
            sum = sum.wrapping_add(scatter_values_into(out, values, mask));
        }
    }
    Ok(sum)
}

fn unpacked(alloc: Global, bytes: &[u8], case: Case) -> Result<usize> {
    let mut out = Vec::from_elem(alloc, 0u8, case.size)?;
    let sum = unpack_all(out.as_mut_slice(), bytes, case);
    drop(out);
    sum
}

fn unpack_all(out: &mut [u8], bytes: &[u8], case: Case) -> Result<usize> {
    let mut sum = 0usize;
    for turn in 0..case.calls {
        let bits = window(bytes, case.size, turn)?;
        if bits.len() <= out.len() {
            unpack_bytes(out, bits.inner(), bits.offset(), bits.len());
        }
        sum = sum.wrapping_add(usize::from(out.first().copied().unwrap_or(0)));
    }
    Ok(sum)
}
