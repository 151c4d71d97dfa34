//! Searches that end near their start, and searches that have to read all bits.
ghost use Rattle.std.specs.Prelude.{◌≡◌, length};
ghost use Rattle.vb_view.specs.View.{bits_of};

use crate::input::{Case, filled, mixed, window};
use anyhow::{Result, bail};
use std::alloc::Global;
use vb_view::BitBufferView;

/// Makes the calls of a row on windows with set and unset bits at both ends.
pub fn near(alloc: Global, row: &str, case: Case) -> Result<usize> {
    let bytes = mixed(alloc, case)?;
    let sum = repeated(bytes.as_slice(), bytes.as_slice(), row, case);
    drop(bytes);
    sum
}

/// Makes the calls of a row on a window without set bits and on one without unset bits.
pub fn far(alloc: Global, row: &str, case: Case) -> Result<usize> {
    let none = filled(alloc, case, 0)?;
    let sum = far_from(alloc, none.as_slice(), row, case);
    drop(none);
    sum
}

/// Makes the calls of a row on these bytes, none of whose bits is set, and on set bits.
fn far_from(alloc: Global, none: &[u8], row: &str, case: Case) -> Result<usize> {
    let all = filled(alloc, case, 255)?;
    let sum = repeated(none, all.as_slice(), row, case);
    drop(all);
    sum
}

fn repeated(bytes: &[u8], others: &[u8], row: &str, case: Case) -> Result<usize> {
    let mut sum = 0usize;
    for turn in 0..case.calls {
        let bits = window(bytes, case.size, turn)?;
        let other = window(others, case.size, turn.wrapping_mul(3))?;
        let found = match row {
            "any_set" | "all_set" | "is_disjoint" | "is_subset" => test(bits, other, row)?,
            _ => place(bits, other, row)?.unwrap_or(case.size),
        };
        sum = sum.wrapping_add(found);
    }
    Ok(sum)
}

/// Returns the result of a search for a set bit in `bits`, or for an unset one in `other`.
fn place(bits: BitBufferView<'_>, other: BitBufferView<'_>, row: &str) -> Result<Option<usize>> {
    Ok(match row {
        "next_set" => bits.next_set(0),
        "next_unset" => other.next_unset(0),
        "previous_set" => bits.previous_set(bits.len()),
        "previous_unset" => other.previous_unset(other.len()),
        "next_set_from" => bits.next_set(bits.len() / 2),
        "next_unset_from" => other.next_unset(other.len() / 2),
        "previous_set_before" => bits.previous_set(bits.len() / 2),
        "previous_unset_before" => other.previous_unset(other.len() / 2),
        "last_set_index" => bits.last_set_index(),
        "select" => bits.select(0),
        "select_unset" => other.select_unset(0),
        _ => bail!("no row of this name"),
    })
}

/// Returns 1 if the test returns true, and 0 otherwise.
fn test(bits: BitBufferView<'_>, other: BitBufferView<'_>, row: &str) -> Result<usize> {
    let answer = match row {
        "any_set" => bits.any_set(),
        "all_set" => other.all_set(),
        "is_disjoint" => bits.is_disjoint(&other)?,
        _ => bits.is_subset(&other)?,
    };
    Ok(if answer { 1 } else { 0 })
}
