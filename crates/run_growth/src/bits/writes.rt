//! Writes to windows of bytes.
ghost use Rattle.std.specs.Prelude.{◌≡◌, length};
ghost use Rattle.vb_view.specs.View.{bits_of};

use crate::input::{Case, filled, mixed, window};
use anyhow::{Result, bail};
use std::alloc::Global;
use vb_bits::{BitOp, copy_bits, fill_bits, map_words, set_bit_to, window_fits, zip_words};
use vb_view::BitBufferView;

/// Makes the calls of a row.
pub fn measure(alloc: Global, row: &str, case: Case) -> Result<usize> {
    let source = mixed(alloc, case)?;
    let sum = written(alloc, source.as_slice(), row, case);
    drop(source);
    sum
}

/// Makes the calls of a row on bytes that are 0, and returns a sum of the first and the last byte.
fn written(alloc: Global, source: &[u8], row: &str, case: Case) -> Result<usize> {
    let mut bytes = filled(alloc, case, 0)?;
    let written = repeated(bytes.as_mut_slice(), source, row, case);
    let first = bytes.first().copied().unwrap_or(0);
    let last = bytes.get(case.size / 8).copied().unwrap_or(0);
    drop(bytes);
    written?;
    Ok(256 * usize::from(first) + usize::from(last))
}

fn repeated(bytes: &mut [u8], source: &[u8], row: &str, case: Case) -> Result<()> {
    for turn in 0..case.calls {
        let bits = window(source, case.size, turn.wrapping_mul(3))?;
        write(bytes, turn % 8, bits, row)?;
    }
    Ok(())
}

/// Makes the call of a row that writes the window of the bytes from bit `offset` on; some calls
/// read `bits`.
fn write(bytes: &mut [u8], offset: usize, bits: BitBufferView<'_>, row: &str) -> Result<()> {
    let len = bits.len();
    if !window_fits(bytes, offset, len) {
        bail!("too few bytes");
    }
    match row {
        "fill_bits" => fill_bits(bytes, offset, offset + len, offset % 2 == 0),
        "map_words" => map_words(bytes, offset, len),
        "copy_bits" => copy_bits(bytes, offset, bits.inner(), bits.offset(), len),
        "zip_words" => zip_words(bytes, offset, bits.inner(), bits.offset(), len, BitOp::Xor),
        "set_bit_to" if len > 0 => set_bit_to(bytes, offset + len - 1, offset % 2 == 0),
        _ => bail!("no row of this name"),
    }
    Ok(())
}
