// Written in part by tools/write-lists from tools/families/indices.txt.
//! Indices and runs of set bits, written to the caller's memory.
ghost use Rattle.std.specs.Prelude.{◌≡◌, ◌^◌, ◌<◌, ◌≤◌, length, map};
ghost use Rattle.vb_bits.specs.Bits.{bits, places};
ghost use Rattle.vb_bits.specs.Digits.{digits};
ghost use Rattle.vb_bits.specs.InBytes.{InBytes};
ghost use Rattle.vb_bits.specs.Runs.{runs};
ghost use Rattle.vb_c.specs.Filled.{run_of};
ghost use Rattle.vb_c_core.specs.Fits.{DoneIf};
ghost use Rattle.vb_bits.specs.Fills.{Fills};

use vb_bits::read_short;
use vb_walk::{BitIndexIterator, BitSliceIterator};

/// A run of set bits.
#[repr(C)]
#[derive(Clone, Copy)]
pub struct Run {
    /// The index of its first bit.
    pub start: usize,
    /// The index after its last bit.
    pub end: usize,
}

/// Writes the indices of the set bits among the `len` bits from bit `offset` on, in ascending
/// order, to the front of `out`, up to its length. Returns the number of indices written. Stops
/// reading once `out` is full; faster if `out` has an item for each bit.
#[unsafe(no_mangle)]
pub extern "C" fn vb_set_indices(
    out: &mut [usize],
    bytes: &[u8],
    offset: usize,
    len: usize,
) -> usize
    requires window { InBytes bytes.now offset len }
    ensures { Fills (places (bits bytes.now offset len)) out.old out.new result }
{
    if out.is_empty() {
        return 0;
    }
    if out.len() < len {
        return first_indices(out, bytes, offset, len);
    }
    if len > 64 {
        return all_indices(out, bytes, offset, len);
    }
    word_indices(out, read_short(bytes, offset, len), len)
}

/// Does [`vb_set_indices`] if `out` has an item, and may have fewer than there are indices.
#[inline(never)]
fn first_indices(out: &mut [usize], bytes: &[u8], offset: usize, len: usize) -> usize
    requires room { 0 < length out.old }
    requires window { InBytes bytes.now offset len }
    ensures { Fills (places (bits bytes.now offset len)) out.old out.new result }
{
    let mut written = 0;
    for place in BitIndexIterator::new(bytes, offset, len) {
        out[written] = place;
        written += 1;
        if written == out.len() {
            break;
        }
    }
    written
}

/// Does [`vb_set_indices`] if `out` has an item for each bit, without testing whether it is full.
#[inline(never)]
fn all_indices(out: &mut [usize], bytes: &[u8], offset: usize, len: usize) -> usize
    requires window { InBytes bytes.now offset len }
    requires room { len ≤ length out.old }
    ensures { Fills (places (bits bytes.now offset len)) out.old out.new result }
{
    let mut written = 0;
    for place in BitIndexIterator::new(bytes, offset, len) {
        out[written] = place;
        written += 1;
    }
    written
}

/// Writes the indices of the set digits among the `len` digits of `word` as [`vb_set_indices`]
/// does. There must be at most 64, and `out` must have an item for each.
#[inline(always)]
fn word_indices(out: &mut [usize], word: u64, len: usize) -> usize
    requires few { len ≤ 64 }
    requires clear { word < 2 ^ len }
    requires room { len ≤ length out.old }
    ensures { Fills (places (digits word 0 len)) out.old out.new result }
{
    let mut written = 0;
    let mut left = word;
    while left != 0 {
        out[written] = left.trailing_zeros() as usize;
        written += 1;
        left &= left - 1;
    }
    written
}

/// Does [`vb_set_indices`] with indices of 32 bits, for a window of at most 2^32 bits.
#[unsafe(no_mangle)]
pub extern "C" fn vb_set_indices_u32(
    out: &mut [u32],
    bytes: &[u8],
    offset: usize,
    len: usize,
) -> usize
    requires window { InBytes bytes.now offset len }
    requires named { len ≤ 2 ^ 32 }
    ensures { Fills (places (bits bytes.now offset len)) out.old out.new result }
{
    if out.is_empty() {
        return 0;
    }
    if out.len() < len {
        return first_indices_u32(out, bytes, offset, len);
    }
    if len > 64 {
        return all_indices_u32(out, bytes, offset, len);
    }
    word_indices_u32(out, read_short(bytes, offset, len), len)
}

/// Does [`vb_set_indices_u32`] if `out` has an item, and may have fewer than there are indices.
#[inline(never)]
fn first_indices_u32(out: &mut [u32], bytes: &[u8], offset: usize, len: usize) -> usize
    requires room { 0 < length out.old }
    requires window { InBytes bytes.now offset len }
    requires named { len ≤ 2 ^ 32 }
    ensures { Fills (places (bits bytes.now offset len)) out.old out.new result }
{
    let mut written = 0;
    for place in BitIndexIterator::new(bytes, offset, len) {
        out[written] = place as u32;
        written += 1;
        if written == out.len() {
            break;
        }
    }
    written
}

/// Does [`vb_set_indices_u32`] if `out` has an item for each bit, without testing whether it is
/// full.
#[inline(never)]
fn all_indices_u32(out: &mut [u32], bytes: &[u8], offset: usize, len: usize) -> usize
    requires window { InBytes bytes.now offset len }
    requires named { len ≤ 2 ^ 32 }
    requires room { len ≤ length out.old }
    ensures { Fills (places (bits bytes.now offset len)) out.old out.new result }
{
    let mut written = 0;
    for place in BitIndexIterator::new(bytes, offset, len) {
        out[written] = place as u32;
        written += 1;
    }
    written
}

/// Writes the indices of the set digits among the `len` digits of `word` as [`vb_set_indices_u32`]
/// does. There must be at most 64, and `out` must have an item for each.
#[inline(always)]
fn word_indices_u32(out: &mut [u32], word: u64, len: usize) -> usize
    requires few { len ≤ 64 }
    requires clear { word < 2 ^ len }
    requires room { len ≤ length out.old }
    ensures { Fills (places (digits word 0 len)) out.old out.new result }
{
    let mut written = 0;
    let mut left = word;
    while left != 0 {
        out[written] = left.trailing_zeros();
        written += 1;
        left &= left - 1;
    }
    written
}

/// Writes the runs of set bits among the `len` bits from bit `offset` on, from front to end, each
/// as long as possible, to the front of `out`, up to its length. Returns the number of runs
/// written. Stops reading once `out` is full.
#[unsafe(no_mangle)]
pub extern "C" fn vb_set_slices(out: &mut [Run], bytes: &[u8], offset: usize, len: usize) -> usize
    requires window { InBytes bytes.now offset len }
    ensures { Fills (map run_of (runs (bits bytes.now offset len))) out.old out.new result }
{
    if out.is_empty() {
        return 0;
    }
    let mut written = 0;
    for run in BitSliceIterator::new(bytes, offset, len) {
        out[written] = Run {
            start: run.0,
            end: run.1,
        };
        written += 1;
        if written == out.len() {
            break;
        }
    }
    written
}

/// Returns whether the window is in the bytes. If so, does [`vb_set_indices`] and writes its result
/// to `written`; else leaves `out` and `written` unchanged.
#[unsafe(no_mangle)]
pub extern "C" fn vb_try_set_indices(
    out: &mut [usize],
    bytes: &[u8],
    offset: usize,
    len: usize,
    written: &mut usize,
) -> bool
    ensures { DoneIf (InBytes bytes.now offset len)
        (Fills (places (bits bytes.now offset len)) out.old out.new written.new)
        ((out.new ≡ out.old) × (written.new ≡ written.old)) result }
{
    if !vb_bits::window_fits(bytes, offset, len) {
        return false;
    }
    *written = vb_set_indices(out, bytes, offset, len);
    true
}

/// Returns whether the window is in the bytes and has at most 2^32 bits. If so, does
/// [`vb_set_indices_u32`] and writes its result to `written`; else leaves `out` and `written`
/// unchanged.
#[unsafe(no_mangle)]
pub extern "C" fn vb_try_set_indices_u32(
    out: &mut [u32],
    bytes: &[u8],
    offset: usize,
    len: usize,
    written: &mut usize,
) -> bool
    ensures { DoneIf (InBytes bytes.now offset len × (len ≤ 2 ^ 32))
        (Fills (places (bits bytes.now offset len)) out.old out.new written.new)
        ((out.new ≡ out.old) × (written.new ≡ written.old)) result }
{
    if len > 1 << 32 || !vb_bits::window_fits(bytes, offset, len) {
        return false;
    }
    *written = vb_set_indices_u32(out, bytes, offset, len);
    true
}

/// Returns whether the window is in the bytes. If so, does [`vb_set_slices`] and writes its result
/// to `written`; else leaves `out` and `written` unchanged.
#[unsafe(no_mangle)]
pub extern "C" fn vb_try_set_slices(
    out: &mut [Run],
    bytes: &[u8],
    offset: usize,
    len: usize,
    written: &mut usize,
) -> bool
    ensures { DoneIf (InBytes bytes.now offset len)
        (Fills (map run_of (runs (bits bytes.now offset len))) out.old out.new written.new)
        ((out.new ≡ out.old) × (written.new ≡ written.old)) result }
{
    if !vb_bits::window_fits(bytes, offset, len) {
        return false;
    }
    *written = vb_set_slices(out, bytes, offset, len);
    true
}
