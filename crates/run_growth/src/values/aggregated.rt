//! Sums, minima and maxima of the values that a mask selects.
ghost use Rattle.std.specs.Prelude.{◌≡◌, length};
ghost use Rattle.vb_view.specs.View.{bits_of};

use crate::input::{Case, filled, mixed, sparse, window};
use anyhow::{Result, bail};
use std::alloc::Global;
use vb_aggregate::{
    WideSummand, masked_checked_sum, masked_max, masked_min, masked_sum, masked_wrapping_sum,
};
use vb_mem::Buffer;
use vb_view::BitBufferView;

/// Makes the calls of a row with a mask that selects about half.
pub fn by_half(alloc: Global, row: &str, case: Case) -> Result<usize> {
    let bytes = mixed(alloc, case)?;
    let sum = by(alloc, bytes.as_slice(), row, case);
    drop(bytes);
    sum
}

/// Makes the calls of a row with a mask that selects one in 1,024.
pub fn by_few(alloc: Global, row: &str, case: Case) -> Result<usize> {
    let bytes = sparse(alloc, case)?;
    let sum = by(alloc, bytes.as_slice(), row, case);
    drop(bytes);
    sum
}

/// Makes the calls of a row with a mask that selects all.
pub fn by_all(alloc: Global, row: &str, case: Case) -> Result<usize> {
    let bytes = filled(alloc, case, 255)?;
    let sum = by(alloc, bytes.as_slice(), row, case);
    drop(bytes);
    sum
}

/// Makes the calls of a row, whose name is a call and the type of its values.
fn by(alloc: Global, bytes: &[u8], row: &str, case: Case) -> Result<usize> {
    let Some((call, of)) = row.split_once('_') else {
        bail!("no row of this name");
    };
    match of {
        "u8" => values(alloc, 8u8, bytes, call, case),
        "u32" => values(alloc, 32u32, bytes, call, case),
        "u64" => values(alloc, 64u64, bytes, call, case),
        _ => bail!("no row of this name"),
    }
}

fn values<T: WideSummand + PartialEq>(
    alloc: Global,
    item: T,
    bytes: &[u8],
    call: &str,
    case: Case,
) -> Result<usize>
where
    T::Total: PartialEq,
{
    let values = Buffer::full(alloc, item, case.size)?;
    let sum = calls(values.as_slice(), bytes, call, case);
    drop(values);
    sum
}

fn calls<T: WideSummand + PartialEq>(
    values: &[T],
    bytes: &[u8],
    call: &str,
    case: Case,
) -> Result<usize>
where
    T::Total: PartialEq,
{
    let mut sum = 0usize;
    for turn in 0..case.calls {
        let mask = window(bytes, case.size, turn)?;
        if values.len() != mask.len() {
            bail!("there is a bit for each value");
        }
        sum = sum.wrapping_add(usize::from(is_zero(values, mask, call)));
    }
    Ok(sum)
}

/// Returns whether the result of a call is 0.
fn is_zero<T: WideSummand + PartialEq>(values: &[T], mask: BitBufferView<'_>, call: &str) -> bool
where
    T::Total: PartialEq,
    requires { length values.now ≡ length (bits_of mask) }
{
    match call {
        "sum" => masked_sum(values, mask) == T::no_total(),
        "wrapping" => masked_wrapping_sum(values, mask) == T::zero(),
        "checked" => masked_checked_sum(values, mask) == Some(T::zero()),
        "min" => masked_min(values, mask) == Some(T::zero()),
        _ => masked_max(values, mask) == Some(T::zero()),
    }
}
