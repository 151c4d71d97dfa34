//! Buffers that are shared, opened and edited.
use crate::input::Case;
use anyhow::{Result, bail};
use std::alloc::Global;
use vb_mem::{Buffer, BufferMut};

/// The capacity of a buffer in items, beyond the size.
const ROOM: usize = 1_024;

/// Makes the calls of a row.
pub fn measure(alloc: Global, row: &str, case: Case) -> Result<usize> {
    match row {
        "clone" | "slice_unaligned" => of_shared(alloc, row, case),
        "freeze" => refrozen(alloc, case),
        "items_mut" => rewritten(alloc, case),
        "into_vec" => remade(alloc, case),
        _ => of_room(alloc, row, case),
    }
}

fn of_shared(alloc: Global, row: &str, case: Case) -> Result<usize> {
    let buffer = Buffer::full(alloc, 7u64, case.size)?;
    let sum = repeated(&buffer, row, case);
    drop(buffer);
    sum
}

fn repeated(buffer: &Buffer<u64>, row: &str, case: Case) -> Result<usize> {
    let mut sum = 0usize;
    for turn in 0..case.calls {
        let part = match row {
            "clone" => buffer.clone()?,
            _ => buffer.slice_unaligned(turn.min(buffer.len())..buffer.len())?,
        };
        sum = sum.wrapping_add(part.len());
        drop(part);
    }
    Ok(sum)
}

/// Opens a buffer of one owner and freezes it again.
fn refrozen(alloc: Global, case: Case) -> Result<usize> {
    let mut buffer = Buffer::full(alloc, 7u64, case.size)?;
    for _ in 0..case.calls {
        buffer = thaw_and_freeze(buffer)?;
    }
    let len = buffer.len();
    drop(buffer);
    Ok(len)
}

fn thaw_and_freeze(buffer: Buffer<u64>) -> Result<Buffer<u64>> {
    match buffer.try_into_mut() {
        Ok(open) => Ok(open.freeze()?),
        Err(buffer) => {
            drop(buffer);
            bail!("the buffer has another owner")
        }
    }
}

/// Writes an item of a buffer that has one owner.
fn rewritten(alloc: Global, case: Case) -> Result<usize> {
    let mut buffer = Buffer::full(alloc, 7u64, case.size)?;
    for turn in 0..case.calls {
        let items = buffer.items_mut()?.as_mut_slice();
        if turn < items.len() {
            items[turn] = 8;
        }
    }
    let len = buffer.len();
    drop(buffer);
    Ok(len)
}

/// Converts a buffer to a vector and back to a buffer.
fn remade(alloc: Global, case: Case) -> Result<usize> {
    let mut buffer = BufferMut::full(alloc, 7u64, case.size)?.freeze()?;
    for _ in 0..case.calls {
        buffer = Buffer::from_vec(alloc, buffer.into_mut()?.into_vec())?;
    }
    let len = buffer.len();
    drop(buffer);
    Ok(len)
}

fn of_room(alloc: Global, row: &str, case: Case) -> Result<usize> {
    let mut buffer = BufferMut::with_capacity(alloc, case.size + ROOM)?;
    let edited = edit_all(&mut buffer, row, case);
    let len = buffer.len();
    drop(buffer);
    edited?;
    Ok(len)
}

fn edit_all(buffer: &mut BufferMut<u64>, row: &str, case: Case) -> Result<()> {
    buffer.push_n(7, case.size)?;
    for turn in 0..case.calls {
        match row {
            "push" => buffer.push(turn as u64)?,
            "push_n" => buffer.push_n(turn as u64, 4)?,
            "extend_from_slice" => buffer.extend_from_slice(&[1, 2, 3, turn as u64])?,
            "reserve" => buffer.reserve(ROOM / 2)?,
            "pop" => drop(buffer.pop()),
            "truncate" => buffer.truncate(buffer.len().saturating_sub(3)),
            _ => bail!("no row of this name"),
        }
    }
    Ok(())
}
