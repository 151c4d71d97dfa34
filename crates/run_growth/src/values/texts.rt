//! Texts and buffers of a fixed alignment that are shared.
use crate::input::{Case, filled};
use anyhow::{Result, bail};
use std::alloc::Global;
use vb_mem::Buffer;
use vortex_buffer::{BufferString, ConstBuffer};

/// Makes the calls of a row.
pub fn measure(alloc: Global, row: &str, case: Case) -> Result<usize> {
    match row {
        "text" => of_text(alloc, case),
        "fixed" => of_fixed(alloc, case),
        _ => bail!("no row of this name"),
    }
}

fn of_text(alloc: Global, case: Case) -> Result<usize> {
    let bytes = filled(alloc, case, b'x')?;
    let text = BufferString::try_from_slice(alloc, bytes.as_slice());
    drop(bytes);
    let text = text?;
    let sum = clone_texts(&text, case);
    drop(text);
    sum
}

fn clone_texts(text: &BufferString, case: Case) -> Result<usize> {
    let mut sum = 0usize;
    for _ in 0..case.calls {
        let other = text.clone()?;
        sum = sum.wrapping_add(other.len());
        drop(other);
    }
    Ok(sum)
}

fn of_fixed(alloc: Global, case: Case) -> Result<usize> {
    let buffer = Buffer::full(alloc, 7u64, case.size)?;
    let fixed = ConstBuffer::<u64, 8>::try_from_buffer(buffer)?;
    let sum = clone_fixed(&fixed, case);
    drop(fixed);
    sum
}

fn clone_fixed(fixed: &ConstBuffer<u64, 8>, case: Case) -> Result<usize> {
    let mut sum = 0usize;
    for _ in 0..case.calls {
        let other = fixed.clone()?;
        sum = sum.wrapping_add(other.len());
        drop(other);
    }
    Ok(sum)
}
