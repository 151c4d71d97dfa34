//! Counts of bits, a single bit, and a slice.
ghost use Rattle.std.specs.Prelude.{◌≡◌, length};
ghost use Rattle.vb_view.specs.View.{bits_of};

use crate::input::{Case, mixed, window};
use anyhow::{Result, bail};
use std::alloc::Global;
use vb_view::BitBufferView;

/// Makes the calls of a row.
pub fn measure(alloc: Global, row: &str, case: Case) -> Result<usize> {
    let bytes = mixed(alloc, case)?;
    let sum = repeated(bytes.as_slice(), row, case);
    drop(bytes);
    sum
}

fn repeated(bytes: &[u8], row: &str, case: Case) -> Result<usize> {
    let mut sum = 0usize;
    for turn in 0..case.calls {
        let bits = window(bytes, case.size, turn)?;
        let other = window(bytes, case.size, turn.wrapping_mul(3))?;
        sum = sum.wrapping_add(call(bits, other, row)?);
    }
    Ok(sum)
}

fn call(bits: BitBufferView<'_>, other: BitBufferView<'_>, row: &str) -> Result<usize>
    requires { length (bits_of other) ≡ length (bits_of bits) }
{
    Ok(match row {
        "true_count" => bits.true_count(),
        "false_count" => bits.false_count(),
        "count_range" => bits.count_range(0, bits.len()),
        "count_few" => bits.count_range(bits.len().saturating_sub(64), bits.len()),
        "and_count" => bits.and_count(&other),
        "or_count" => bits.or_count(&other),
        "xor_count" => bits.xor_count(&other),
        "andnot_count" => bits.andnot_count(&other),
        "value" => one(bits.is_empty() || bits.value(bits.len() - 1)),
        "slice" => bits.slice(bits.len() / 2..bits.len()).len(),
        _ => bail!("no row of this name"),
    })
}

/// Returns 1 for `true` and 0 for `false`.
fn one(value: bool) -> usize {
    if value { 1 } else { 0 }
}
