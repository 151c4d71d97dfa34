//! Queries of sets that can be edited.
ghost use Rattle.std.specs.Prelude.{◌≡◌, length};

use crate::input::{Case, mixed, window};
use anyhow::{Result, bail};
use std::alloc::Global;
use vb_set::BitBufferMut;

/// Makes the calls of a row.
pub fn measure(alloc: Global, row: &str, case: Case) -> Result<usize> {
    let bytes = mixed(alloc, case)?;
    let sum = match row {
        "into_inner" => reopened(alloc, bytes.as_slice(), case),
        _ => of_bytes(alloc, bytes.as_slice(), row, case),
    };
    drop(bytes);
    sum
}

/// Returns a set of the bits of these bytes from bit `turn % 8` on.
fn set(alloc: Global, bytes: &[u8], turn: usize, case: Case) -> Result<BitBufferMut> {
    let bits = window(bytes, case.size, turn)?;
    let mut set = BitBufferMut::empty(alloc);
    if let Err(error) = set.append_view(bits) {
        drop(set);
        return Err(error.into());
    }
    Ok(set)
}

/// Takes the bytes of a set, builds a set from them again, and writes a bit, at each call.
fn reopened(alloc: Global, bytes: &[u8], case: Case) -> Result<usize> {
    let mut open = set(alloc, bytes, 3, case)?;
    for turn in 0..case.calls {
        let (offset, len) = (open.offset(), open.len());
        open = BitBufferMut::from_buffer(open.into_inner(), offset, len);
        if turn < len {
            open.set_to(turn, turn % 2 == 0);
        }
    }
    let len = open.len();
    drop(open);
    Ok(len)
}

fn of_bytes(alloc: Global, bytes: &[u8], row: &str, case: Case) -> Result<usize> {
    let mut left = set(alloc, bytes, 3, case)?;
    let sum = beside(alloc, &mut left, bytes, row, case);
    drop(left);
    sum
}

fn beside(
    alloc: Global,
    left: &mut BitBufferMut,
    bytes: &[u8],
    row: &str,
    case: Case,
) -> Result<usize> {
    let right = set(alloc, bytes, 5, case)?;
    let sum = repeated(left, &right, row, case);
    drop(right);
    sum
}

/// Writes a bit before each call, so that the compiler can't merge the calls.
fn repeated(left: &mut BitBufferMut, right: &BitBufferMut, row: &str, case: Case) -> Result<usize> {
    let mut sum = 0usize;
    for turn in 0..case.calls {
        if turn < left.len() {
            left.set_to(turn, turn % 2 == 0);
        }
        sum = sum.wrapping_add(call(left, right, row)?);
    }
    Ok(sum)
}

fn call(left: &mut BitBufferMut, right: &BitBufferMut, row: &str) -> Result<usize> {
    let answer = match row {
        "true_count" => return Ok(left.as_mut_view().true_count()),
        "false_count" => return Ok(left.as_mut_view().false_count()),
        "as_view" => left.as_view().next_set(0).is_some(),
        "is_disjoint" => left.is_disjoint(right)?,
        "is_subset" => left.is_subset(right)?,
        _ => bail!("no row of this name"),
    };
    Ok(if answer { 2 } else { 1 })
}
