//! Bytes for inputs. Each has at least eight bytes more than its bits need, so that a window may
//! begin at any bit of the first byte.
ghost use Rattle.std.specs.Prelude.{◌≤◌, ◌+◌, ◌*◌};

use crate::input::case::Case;
use anyhow::Result;
use std::alloc::Global;

/// Returns the number of bytes of an input.
fn byte_len(case: Case) -> usize
    ensures { case.size + 8 ≤ 8 * result }
{
    case.size / 8 + 9
}

/// Returns bytes of which about half of the bits are set, in no order.
pub fn mixed(alloc: Global, case: Case) -> Result<Vec<u8>> {
    let mut bytes = Vec::with_capacity(alloc, byte_len(case))?;
    let mut state = 0x9E37_79B9u32;
    for _ in 0..byte_len(case) {
        state = state.wrapping_mul(1_664_525).wrapping_add(1_013_904_223);
        bytes.push((state >> 24) as u8)?;
    }
    Ok(bytes)
}

/// Returns bytes that are all `byte`.
pub fn filled(alloc: Global, case: Case, byte: u8) -> Result<Vec<u8>> {
    let mut bytes = Vec::with_capacity(alloc, byte_len(case))?;
    for _ in 0..byte_len(case) {
        bytes.push(byte)?;
    }
    Ok(bytes)
}

/// Returns bytes of which one bit in 1,024 is set.
pub fn sparse(alloc: Global, case: Case) -> Result<Vec<u8>> {
    let mut bytes = Vec::with_capacity(alloc, byte_len(case))?;
    for at in 0..byte_len(case) {
        bytes.push(if at % 128 == 64 { 0x10 } else { 0 })?;
    }
    Ok(bytes)
}

/// Returns `size` truth values, about half of which are true, in no order.
pub fn bools(alloc: Global, case: Case) -> Result<Vec<bool>> {
    let mut values = Vec::with_capacity(alloc, case.size)?;
    let mut state = 0x9E37_79B9u32;
    for _ in 0..case.size {
        state = state.wrapping_mul(1_664_525).wrapping_add(1_013_904_223);
        values.push(state >> 31 == 1)?;
    }
    Ok(values)
}
