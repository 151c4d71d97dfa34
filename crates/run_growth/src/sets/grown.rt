//! Sets that grow from nothing.
ghost use Rattle.std.specs.Prelude.{◌≡◌, length};

use crate::input::{Case, bools, mixed, window};
use anyhow::{Result, bail};
use std::alloc::Global;
use vb_set::BitBufferMut;
use vb_view::BitBufferView;

/// Makes the calls of a row: each grows a set to the size.
pub fn measure(alloc: Global, row: &str, case: Case) -> Result<usize> {
    match row {
        "append_bools" | "extend" => of_bools(alloc, row, case),
        _ => of_bytes(alloc, row, case),
    }
}

fn of_bools(alloc: Global, row: &str, case: Case) -> Result<usize> {
    let items = bools(alloc, case)?;
    let sum = repeated_items(alloc, items.as_slice(), row, case);
    drop(items);
    sum
}

fn repeated_items(alloc: Global, items: &[bool], row: &str, case: Case) -> Result<usize> {
    let mut sum = 0usize;
    for _ in 0..case.calls {
        let mut set = BitBufferMut::empty(alloc);
        let added = match row {
            "append_bools" => set.append_bools(items),
            _ => set.extend(items.iter().copied()),
        };
        sum = sum.wrapping_add(set.len());
        drop(set);
        added?;
    }
    Ok(sum)
}

fn of_bytes(alloc: Global, row: &str, case: Case) -> Result<usize> {
    let bytes = mixed(alloc, case)?;
    let sum = repeated(alloc, bytes.as_slice(), row, case);
    drop(bytes);
    sum
}

fn repeated(alloc: Global, bytes: &[u8], row: &str, case: Case) -> Result<usize> {
    let mut sum = 0usize;
    for turn in 0..case.calls {
        let bits = window(bytes, case.size, turn)?;
        let mut set = BitBufferMut::empty(alloc);
        let added = grow(&mut set, bits, row);
        sum = sum.wrapping_add(set.len());
        drop(set);
        added?;
    }
    Ok(sum)
}

/// Grows the set to the length of the view.
fn grow(set: &mut BitBufferMut, bits: BitBufferView<'_>, row: &str) -> Result<()> {
    match row {
        "append" => by_bits(set, bits.len()),
        "appender" => by_appender(set, bits.len()),
        "append_n" => by_runs(set, bits.len()),
        "append_view" => by_views(set, bits),
        "append_whole_view" => Ok(set.append_view(bits)?),
        "append_bits" => Ok(set.append_bits(bits.inner(), bits.offset(), bits.len())?),
        "resize" => Ok(set.resize(bits.len(), true)?),
        "reserve" => by_room(set, bits.len()),
        _ => bail!("no row of this name"),
    }
}

fn by_bits(set: &mut BitBufferMut, len: usize) -> Result<()> {
    for i in 0..len {
        set.append(i % 3 == 0)?;
    }
    Ok(())
}

fn by_appender(set: &mut BitBufferMut, len: usize) -> Result<()> {
    let mut appender = set.appender();
    for i in 0..len {
        appender.append(i % 3 == 0)?;
    }
    Ok(())
}

/// Grows the set by 16 bits at a time.
fn by_runs(set: &mut BitBufferMut, len: usize) -> Result<()> {
    for i in 0..len / 16 {
        set.append_n(i % 2 == 0, 16)?;
    }
    Ok(())
}

/// Grows the set by 64 bits at a time, from the view.
fn by_views(set: &mut BitBufferMut, bits: BitBufferView<'_>) -> Result<()> {
    for word in 0..bits.len() / 64 {
        set.append_view(bits.slice(64 * word..64 * word + 64))?;
    }
    Ok(())
}

/// Grows the set by 64 bits at a time, and reserves capacity for them first.
fn by_room(set: &mut BitBufferMut, len: usize) -> Result<()> {
    for word in 0..len / 64 {
        set.reserve(64)?;
        set.append_n(word % 2 == 0, 64)?;
    }
    Ok(())
}
