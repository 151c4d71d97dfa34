//! Edits of sets with counts.
ghost use Rattle.std.specs.Prelude.{◌≡◌, length};

use crate::directory::asked::{ROOM, ranked};
use crate::input::{Case, mixed, window};
use anyhow::{Result, bail};
use std::alloc::Global;
use vb_ranked::Ranked;
use vb_set::BitBufferMut;
use vb_view::BitBufferView;

/// Makes the calls of a row on a set of the size with spare capacity.
pub fn measure(alloc: Global, row: &str, case: Case) -> Result<usize> {
    let mut ranked = ranked(alloc, case)?;
    let edited = edit_all(&mut ranked, row, case);
    let sum = ranked.rank(ranked.len());
    drop(ranked);
    edited?;
    Ok(sum)
}

fn edit_all(ranked: &mut Ranked, row: &str, case: Case) -> Result<()> {
    for turn in 0..case.calls {
        match row {
            "set_to" => toggle(ranked, turn),
            "set_to_last" => toggle(ranked, ranked.len().saturating_sub(1 + turn % 8)),
            "append" => ranked.append(turn % 2 == 0)?,
            "append_n" => ranked.append_n(true, 100)?,
            "append_view" => ranked.append_view(BitBufferView::new(&[1, 2, 3, 4], 32))?,
            "reserve" => ranked.reserve(ROOM / 2)?,
            _ => bail!("no row of this name"),
        }
    }
    Ok(())
}

/// Changes a bit.
fn toggle(ranked: &mut Ranked, place: usize) {
    if place < ranked.len() {
        let bit = ranked.value(place);
        ranked.set_to(place, !bit);
    }
}

/// Makes the calls of a row: each grows a set with counts from nothing to the size.
pub fn grown(alloc: Global, row: &str, case: Case) -> Result<usize> {
    let bytes = mixed(alloc, case)?;
    let sum = repeated(alloc, bytes.as_slice(), row, case);
    drop(bytes);
    sum
}

fn repeated(alloc: Global, bytes: &[u8], row: &str, case: Case) -> Result<usize> {
    let mut sum = 0usize;
    for turn in 0..case.calls {
        let bits = window(bytes, case.size, turn)?;
        let mut ranked = Ranked::new(alloc, BitBufferMut::empty(alloc))?;
        let added = grow(&mut ranked, bits, row);
        sum = sum.wrapping_add(ranked.rank(ranked.len()));
        drop(ranked);
        added?;
    }
    Ok(sum)
}

/// Grows the set to the length of the view.
fn grow(ranked: &mut Ranked, bits: BitBufferView<'_>, row: &str) -> Result<()> {
    match row {
        "append" => by_bits(ranked, bits.len()),
        "append_n" => by_runs(ranked, bits.len()),
        "append_view" => by_views(ranked, bits),
        "append_whole_view" => Ok(ranked.append_view(bits)?),
        _ => bail!("no row of this name"),
    }
}

fn by_bits(ranked: &mut Ranked, len: usize) -> Result<()> {
    for i in 0..len {
        ranked.append(i % 3 == 0)?;
    }
    Ok(())
}

/// Grows the set by 64 bits at a time.
fn by_runs(ranked: &mut Ranked, len: usize) -> Result<()> {
    for i in 0..len / 64 {
        ranked.append_n(i % 2 == 0, 64)?;
    }
    Ok(())
}

/// Grows the set by 64 bits at a time, from the view.
fn by_views(ranked: &mut Ranked, bits: BitBufferView<'_>) -> Result<()> {
    for word in 0..bits.len() / 64 {
        ranked.append_view(bits.slice(64 * word..64 * word + 64))?;
    }
    Ok(())
}
