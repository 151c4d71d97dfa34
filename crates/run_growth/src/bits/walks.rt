//! Walks over all bits, over set bits, runs and words.
use crate::input::{Case, mixed, sparse, window};
use anyhow::{Result, bail};
use std::alloc::Global;
use vb_view::BitBufferView;

/// Makes the calls of a row where about half of the bits are set.
pub fn mixed_ones(alloc: Global, row: &str, case: Case) -> Result<usize> {
    let bytes = mixed(alloc, case)?;
    let sum = repeated(bytes.as_slice(), row, case);
    drop(bytes);
    sum
}

/// Makes the calls of a row where one bit in 1,024 is set.
pub fn few_ones(alloc: Global, row: &str, case: Case) -> Result<usize> {
    let bytes = sparse(alloc, case)?;
    let sum = repeated(bytes.as_slice(), row, case);
    drop(bytes);
    sum
}

fn repeated(bytes: &[u8], row: &str, case: Case) -> Result<usize> {
    let mut sum = 0usize;
    for turn in 0..case.calls {
        sum = sum.wrapping_add(walk(window(bytes, case.size, turn)?, row)?);
    }
    Ok(sum)
}

fn walk(bits: BitBufferView<'_>, row: &str) -> Result<usize> {
    Ok(match row {
        "iter" => bools(bits),
        "set_indices" => places(bits),
        "set_slices" => runs(bits),
        "chunks" => words(bits),
        "iter_padded" => padded_words(bits),
        "unaligned_chunks" => whole_words(bits),
        "first_index" => bits.set_indices().next().unwrap_or(0),
        "first_slice" => bits.set_slices().next().map_or(0, |run| run.0),
        _ => bail!("no row of this name"),
    })
}

fn bools(bits: BitBufferView<'_>) -> usize {
    let mut sum = 0usize;
    for bit in bits.iter() {
        sum = sum.rotate_left(1) ^ if bit { 1 } else { 0 };
    }
    sum
}

fn places(bits: BitBufferView<'_>) -> usize {
    let mut sum = 0usize;
    for place in bits.set_indices() {
        sum = sum.wrapping_add(place);
    }
    sum
}

fn runs(bits: BitBufferView<'_>) -> usize {
    let mut sum = 0usize;
    for (start, end) in bits.set_slices() {
        sum = sum.wrapping_add(start ^ end);
    }
    sum
}

fn words(bits: BitBufferView<'_>) -> usize {
    let mut sum = 0u64;
    for word in bits.chunks().iter() {
        sum = sum.rotate_left(1) ^ word;
    }
    sum as usize
}

fn padded_words(bits: BitBufferView<'_>) -> usize {
    let mut sum = 0u64;
    for word in bits.chunks().iter_padded() {
        sum = sum.rotate_left(1) ^ word;
    }
    sum as usize
}

fn whole_words(bits: BitBufferView<'_>) -> usize {
    let mut sum = 0u64;
    for word in bits.unaligned_chunks().iter() {
        sum = sum.rotate_left(1) ^ word;
    }
    sum as usize
}
