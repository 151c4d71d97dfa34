//! Ranks and selects by a table of counts.
ghost use Rattle.std.specs.Prelude.{◌≡◌, length};

use crate::directory::asked::{filled_set, ranked};
use crate::input::{Case, mixed, window};
use anyhow::{Result, bail};
use std::alloc::Global;
use vb_bit_buffer::BitBuffer;
use vb_count::Plain;
use vb_rank::{PlainTable, rank_by, select_by, select_unset_by, table_of};
use vb_ranked::{Ranked, RankedBuffer};
use vb_view::BitBufferView;

/// Makes the calls of a row.
pub fn measure(alloc: Global, row: &str, case: Case) -> Result<usize> {
    match row {
        "new" => return counted(alloc, case),
        "new_buffer" => return counted_buffer(alloc, case),
        "freeze" => return frozen(alloc, case),
        _ => {}
    }
    let bytes = mixed(alloc, case)?;
    let sum = of_bytes(alloc, bytes.as_slice(), row, case);
    drop(bytes);
    sum
}

/// Counts a set, takes the set back without its counts, and counts it again at each call.
fn counted(alloc: Global, case: Case) -> Result<usize> {
    let mut set = filled_set(alloc, case)?;
    for _ in 0..case.calls {
        set = Ranked::new(alloc, set)?.into_inner();
    }
    let len = set.len();
    drop(set);
    Ok(len)
}

/// Does the same with a frozen set.
fn counted_buffer(alloc: Global, case: Case) -> Result<usize> {
    let mut set = BitBuffer::full(alloc, true, case.size)?;
    for _ in 0..case.calls {
        set = RankedBuffer::new(alloc, set)?.into_inner();
    }
    let len = set.len();
    drop(set);
    Ok(len)
}

/// The number of sets that are built, whatever the number of calls.
const SETS: usize = 3;

/// Freezes sets that were built before.
fn frozen(alloc: Global, case: Case) -> Result<usize> {
    let mut sets = Vec::new(alloc);
    for _ in 0..SETS {
        let set = ranked(alloc, case)?;
        sets.push(set)?;
    }
    let sum = freeze_some(&mut sets, case);
    drop(sets);
    sum
}

fn freeze_some(sets: &mut Vec<Ranked>, case: Case) -> Result<usize> {
    let mut sum = 0usize;
    for _ in 0..case.calls {
        if let Some(ranked) = sets.pop() {
            let set = ranked.freeze()?;
            sum = sum.wrapping_add(set.len());
            drop(set);
        }
    }
    Ok(sum)
}

fn of_bytes(alloc: Global, bytes: &[u8], row: &str, case: Case) -> Result<usize> {
    let bits = window(bytes, case.size, 3)?;
    if row == "table_of" {
        return tables(alloc, bits, case);
    }
    let table = table_of(alloc, bits)?;
    let sum = repeated(bits, table.as_slice(), row, case);
    drop(table);
    sum
}

fn tables(alloc: Global, bits: BitBufferView<'_>, case: Case) -> Result<usize> {
    let mut sum = 0usize;
    for _ in 0..case.calls {
        let table = table_of(alloc, bits)?;
        sum = sum.wrapping_add(table.last().copied().unwrap_or(1));
        drop(table);
    }
    Ok(sum)
}

fn repeated(bits: BitBufferView<'_>, table: &[usize], row: &str, case: Case) -> Result<usize> {
    let mut sum = 0usize;
    for turn in 0..case.calls {
        let place = (case.size / 2)
            .saturating_add(turn.wrapping_mul(777))
            .min(bits.len());
        sum = sum.wrapping_add(ask(bits, table, place, row)?);
    }
    Ok(sum)
}

/// Returns the rank of `place`, or the index of the set or unset bit number `place / 2`.
fn ask(bits: BitBufferView<'_>, table: &[usize], place: usize, row: &str) -> Result<usize> {
    let (offset, len) = (bits.offset(), bits.len());
    if table.len() != len.div_ceil(512) || place > len {
        bail!("the table is of other bits");
    }
    let src = &mut Plain::new(bits.inner());
    let entries = &mut PlainTable::new(table);
    match row {
        "rank_by" => Ok(rank_by(src, offset, len, entries, place)),
        "select_by" => Ok(select_by(src, offset, len, entries, place / 2).unwrap_or(1)),
        "select_unset_by" => {
            Ok(select_unset_by(src, offset, len, entries, place / 2).unwrap_or(1))
        }
        _ => bail!("no row of this name"),
    }
}
