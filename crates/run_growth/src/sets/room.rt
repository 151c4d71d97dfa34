//! Edits of a set with spare capacity: of a few bits, whatever its length, and of all bits.
ghost use Rattle.std.specs.Prelude.{◌≡◌, length};

use crate::input::{Case, mixed, window};
use anyhow::{Result, bail};
use std::alloc::Global;
use vb_set::BitBufferMut;
use vb_view::BitBufferView;

/// The capacity in bits, beyond the size.
const ROOM: usize = 65_536;

/// Makes the calls of a row.
pub fn measure(alloc: Global, row: &str, case: Case) -> Result<usize> {
    let bytes = mixed(alloc, case)?;
    let sum = of_bytes(alloc, bytes.as_slice(), row, case);
    drop(bytes);
    sum
}

fn of_bytes(alloc: Global, bytes: &[u8], row: &str, case: Case) -> Result<usize> {
    let bits = window(bytes, case.size, 3)?;
    let mut set = BitBufferMut::with_capacity(alloc, case.size + ROOM)?;
    let edited = edit_all(&mut set, bits, row, case);
    let sum = set.as_view().true_count();
    drop(set);
    edited?;
    Ok(sum)
}

/// Adds the bits, and makes the calls.
fn edit_all(set: &mut BitBufferMut, bits: BitBufferView<'_>, row: &str, case: Case) -> Result<()> {
    set.append_view(bits)?;
    match row {
        "set_to" | "set" | "unset" | "fill_few" | "fill_range" | "as_mut_view" | "fill_view" =>
            write_each(set, row, case.calls),
        "pop" | "truncate" => shorten_each(set, row, case.calls),
        _ => add_each(set, bits.slice(0..bits.len().min(64)), row, case.calls)?,
    }
    Ok(())
}

fn write_each(set: &mut BitBufferMut, row: &str, calls: usize) {
    for turn in 0..calls {
        write(set, turn, row);
    }
}

fn shorten_each(set: &mut BitBufferMut, row: &str, calls: usize) {
    for _ in 0..calls {
        shorten(set, row);
    }
}

fn add_each(set: &mut BitBufferMut, few: BitBufferView<'_>, row: &str, calls: usize) -> Result<()> {
    for _ in 0..calls {
        add(set, few, row)?;
    }
    Ok(())
}

/// Writes bits.
fn write(set: &mut BitBufferMut, turn: usize, row: &str) {
    let len = set.len();
    if turn >= len {
        return;
    }
    let last = len - 1 - turn;
    match row {
        "set_to" => set.set_to(last, turn % 2 == 0),
        "set" => set.set(last),
        "unset" => set.unset(last),
        "fill_few" => set.fill_range(last - last.min(64), last, turn % 2 == 0),
        "as_mut_view" => set.as_mut_view().set_to(last, turn % 2 == 0),
        "fill_view" => set.as_mut_view().fill_range(0, last, turn % 2 == 0),
        _ => set.fill_range(0, last, turn % 2 == 0),
    }
}

/// Removes one bit or a few.
fn shorten(set: &mut BitBufferMut, row: &str) {
    let len = set.len();
    if row == "truncate" {
        set.truncate(len - len.min(9));
        return;
    }
    if set.pop() == Some(true) && len > 1 {
        set.set_to(0, true);
    }
}

/// Adds a few bits within the capacity, or reserves capacity.
fn add(set: &mut BitBufferMut, few: BitBufferView<'_>, row: &str) -> Result<()> {
    match row {
        "append" => set.append(few.len() % 2 == 0)?,
        "append_n" => set.append_n(true, 100)?,
        "append_view" => set.append_view(few)?,
        "append_bits" => set.append_bits(few.inner(), few.offset(), few.len())?,
        "append_bools" => set.append_bools(&[true, false, true])?,
        "extend" => set.extend([true, false, true].into_iter())?,
        "reserve" => set.reserve(ROOM / 2)?,
        "reserve_exact" => set.reserve_exact(ROOM / 2)?,
        "resize" => set.resize(set.len().saturating_add(100), true)?,
        "appender" => append_one(set, few.len() % 2 == 0)?,
        _ => bail!("no row of this name"),
    }
    Ok(())
}

/// Adds a bit with a new appender.
fn append_one(set: &mut BitBufferMut, v: bool) -> Result<()> {
    let mut appender = set.appender();
    appender.append(v)?;
    Ok(())
}
