//! Sets that are combined: into a new one, and in place if one has no other owner.
ghost use Rattle.std.specs.Prelude.{◌≡◌, length};

use crate::input::{Case, mixed};
use crate::sets::page::set_of;
use anyhow::{Result, bail};
use std::alloc::Global;
use vb_mem::{Buffer, ByteBuffer};
use vb_set::{BitBuffer, BitBufferMut};

/// Makes the calls of a row.
pub fn measure(alloc: Global, row: &str, case: Case) -> Result<usize> {
    let page = Buffer::from_vec(alloc, mixed(alloc, case)?)?;
    let sum = of_page(alloc, &page, row, case);
    drop(page);
    sum
}

fn of_page(alloc: Global, page: &ByteBuffer, row: &str, case: Case) -> Result<usize> {
    let right = set_of(page, case, 5)?;
    let sum = match row {
        "and" | "or" | "xor" | "bitand_not" | "not" | "sliced" => repeated(page, &right, row, case),
        _ => replaced(alloc, &right, row, case),
    };
    drop(right);
    sum
}

/// Makes the calls that only read both sets.
fn repeated(page: &ByteBuffer, right: &BitBuffer, row: &str, case: Case) -> Result<usize> {
    let mut sum = 0usize;
    for turn in 0..case.calls {
        let left = set_of(page, case, turn)?;
        let made = combined(&left, right, row);
        drop(left);
        let made = made?;
        sum = sum.wrapping_add(made.offset() ^ made.len());
        drop(made);
    }
    Ok(sum)
}

fn combined(left: &BitBuffer, right: &BitBuffer, row: &str) -> Result<BitBuffer> {
    Ok(match row {
        "and" => (left & right)?,
        "or" => (left | right)?,
        "xor" => (left ^ right)?,
        "bitand_not" => left.bitand_not(right)?,
        "not" => (!left)?,
        _ => left.sliced()?,
    })
}

/// Makes the calls that consume the left set, which has one owner, and return the result in it.
fn replaced(alloc: Global, right: &BitBuffer, row: &str, case: Case) -> Result<usize> {
    let mut one = BitBufferMut::copy_from(alloc, right)?.freeze()?;
    for _ in 0..case.calls {
        one = in_place(one, right, row)?;
    }
    let count = one.true_count();
    drop(one);
    Ok(count)
}

fn in_place(one: BitBuffer, right: &BitBuffer, row: &str) -> Result<BitBuffer> {
    Ok(match row {
        "and_own" => (one & right)?,
        "or_own" => (one | right)?,
        "xor_own" => (one ^ right)?,
        "into_bitand_not" => one.into_bitand_not(right)?,
        "not_own" => (!one)?,
        _ => {
            drop(one);
            bail!("no row of this name")
        }
    })
}
