//! Buffers that grow from nothing.
use crate::input::Case;
use anyhow::{Result, bail};
use std::alloc::Global;
use vb_mem::BufferMut;

/// Makes the calls of a row: each grows a buffer to the size.
pub fn measure(alloc: Global, row: &str, case: Case) -> Result<usize> {
    let mut sum = 0usize;
    for _ in 0..case.calls {
        let mut buffer = BufferMut::empty(alloc);
        let grown = grow(&mut buffer, row, case.size);
        sum = sum.wrapping_add(buffer.len());
        drop(buffer);
        grown?;
    }
    Ok(sum)
}

fn grow(buffer: &mut BufferMut<u64>, row: &str, size: usize) -> Result<()> {
    match row {
        "push" => by_items(buffer, size),
        "push_n" => by_runs(buffer, size),
        "extend_from_slice" => by_slices(buffer, size),
        "reserve" => by_room(buffer, size),
        "extend" => Ok(buffer.extend(0..size as u64)?),
        "extend_trusted" => Ok(buffer.extend_trusted(0..size as u64)?),
        "resize" => Ok(buffer.resize(size, 9)?),
        _ => bail!("no row of this name"),
    }
}

fn by_items(buffer: &mut BufferMut<u64>, size: usize) -> Result<()> {
    for item in 0..size {
        buffer.push(item as u64)?;
    }
    Ok(())
}

/// Grows the buffer by four items at a time.
fn by_runs(buffer: &mut BufferMut<u64>, size: usize) -> Result<()> {
    for item in 0..size / 4 {
        buffer.push_n(item as u64, 4)?;
    }
    Ok(())
}

/// Grows the buffer by four items at a time, from a slice.
fn by_slices(buffer: &mut BufferMut<u64>, size: usize) -> Result<()> {
    for item in 0..size / 4 {
        buffer.extend_from_slice(&[item as u64, 1, 2, 3])?;
    }
    Ok(())
}

/// Grows the buffer by four items at a time, and reserves capacity for them first.
fn by_room(buffer: &mut BufferMut<u64>, size: usize) -> Result<()> {
    for item in 0..size / 4 {
        buffer.reserve(4)?;
        buffer.push_n(item as u64, 4)?;
    }
    Ok(())
}
