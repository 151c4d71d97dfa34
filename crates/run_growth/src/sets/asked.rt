//! Queries of sets.
ghost use Rattle.std.specs.Prelude.{◌≡◌, length};

use crate::input::{Case, filled, mixed};
use crate::sets::page::set_of;
use anyhow::{Result, bail};
use std::alloc::Global;
use vb_mem::{Buffer, ByteBuffer};
use vb_set::BitBuffer;

/// Makes the calls of a row where about half of the bits are set.
pub fn mixed_ones(alloc: Global, row: &str, case: Case) -> Result<usize> {
    let page = Buffer::from_vec(alloc, mixed(alloc, case)?)?;
    let sum = repeated(&page, &page, row, case);
    drop(page);
    sum
}

/// Makes the calls of a row on a set without set bits and on one without unset bits.
pub fn far(alloc: Global, row: &str, case: Case) -> Result<usize> {
    let none = Buffer::from_vec(alloc, filled(alloc, case, 0)?)?;
    let sum = far_from(alloc, &none, row, case);
    drop(none);
    sum
}

/// Makes the calls of a row on this page, none of whose bits is set, and on set bits.
fn far_from(alloc: Global, none: &ByteBuffer, row: &str, case: Case) -> Result<usize> {
    let all = Buffer::from_vec(alloc, filled(alloc, case, 255)?)?;
    let sum = repeated(none, &all, row, case);
    drop(all);
    sum
}

fn repeated(page: &ByteBuffer, others: &ByteBuffer, row: &str, case: Case) -> Result<usize> {
    let mut sum = 0usize;
    for turn in 0..case.calls {
        let bits = set_of(page, case, turn)?;
        let found = beside(&bits, others, turn, row, case);
        drop(bits);
        sum = sum.wrapping_add(found?);
    }
    Ok(sum)
}

/// Makes one call: on `bits`, on a set of `others`, or on both.
fn beside(
    bits: &BitBuffer,
    others: &ByteBuffer,
    turn: usize,
    row: &str,
    case: Case,
) -> Result<usize>
    requires { length bits.now.bits ≡ case.size }
{
    let other = set_of(others, case, turn.wrapping_mul(3))?;
    let found = match row {
        "true_count"
        | "false_count"
        | "count_range"
        | "count_few"
        | "and_count"
        | "or_count"
        | "xor_count"
        | "andnot_count" => count(bits, &other, row),
        "any_set" | "all_set" | "is_disjoint" | "is_subset" | "eq" => test(bits, &other, row),
        _ => place(bits, &other, row),
    };
    drop(other);
    found
}

fn count(bits: &BitBuffer, other: &BitBuffer, row: &str) -> Result<usize>
    requires { length other.now.bits ≡ length bits.now.bits }
{
    Ok(match row {
        "true_count" => bits.true_count(),
        "false_count" => bits.false_count(),
        "count_range" => bits.count_range(0, bits.len()),
        "count_few" => bits.count_range(bits.len().saturating_sub(64), bits.len()),
        "and_count" => bits.and_count(other),
        "or_count" => bits.or_count(other),
        "xor_count" => bits.xor_count(other),
        _ => bits.andnot_count(other),
    })
}

/// Returns 1 if the test returns true, and 0 otherwise.
fn test(bits: &BitBuffer, other: &BitBuffer, row: &str) -> Result<usize> {
    let answer = match row {
        "any_set" => bits.any_set(),
        "all_set" => other.all_set(),
        "is_disjoint" => bits.is_disjoint(other)?,
        "is_subset" => bits.is_subset(other)?,
        _ => bits == other,
    };
    Ok(if answer { 1 } else { 0 })
}

/// Returns the result of a search for a set bit in `bits`, or for an unset one in `other`.
fn place(bits: &BitBuffer, other: &BitBuffer, row: &str) -> Result<usize> {
    let found = match row {
        "next_set" => bits.next_set(0),
        "next_unset" => other.next_unset(0),
        "previous_set" => bits.previous_set(bits.len()),
        "previous_unset" => other.previous_unset(other.len()),
        "next_set_from" => bits.next_set(bits.len() / 2),
        "next_unset_from" => other.next_unset(other.len() / 2),
        "previous_set_before" => bits.previous_set(bits.len() / 2),
        "previous_unset_before" => other.previous_unset(other.len() / 2),
        "last_set_index" => bits.last_set_index(),
        "select" => bits.select(0),
        "select_unset" => other.select_unset(0),
        _ => bail!("no row of this name"),
    };
    Ok(found.unwrap_or(bits.len()))
}
