//! Queries of sets with counts.
ghost use Rattle.std.specs.Prelude.{◌≡◌, ◌≤◌, length};

use crate::input::{Case, mixed, window};
use anyhow::{Result, bail};
use std::alloc::Global;
use vb_ranked::{Ranked, RankedBuffer};
use vb_set::BitBufferMut;

/// Makes the calls of a row on a set that can be edited.
pub fn measure(alloc: Global, row: &str, case: Case) -> Result<usize> {
    let ranked = ranked(alloc, case)?;
    let sum = repeated(&ranked, row, case);
    drop(ranked);
    sum
}

/// Returns a set of the size with its counts.
pub fn ranked(alloc: Global, case: Case) -> Result<Ranked> {
    let set = filled_set(alloc, case)?;
    Ok(Ranked::new(alloc, set)?)
}

/// Returns a set of the size.
pub fn filled_set(alloc: Global, case: Case) -> Result<BitBufferMut> {
    let bytes = mixed(alloc, case)?;
    let set = set_of_bytes(alloc, bytes.as_slice(), case);
    drop(bytes);
    set
}

fn set_of_bytes(alloc: Global, bytes: &[u8], case: Case) -> Result<BitBufferMut> {
    let bits = window(bytes, case.size, 3)?;
    let mut set = BitBufferMut::with_capacity(alloc, case.size + ROOM)?;
    let added = set.append_view(bits);
    if let Err(error) = added {
        drop(set);
        return Err(error.into());
    }
    Ok(set)
}

/// The capacity of a set in bits, beyond the size.
pub const ROOM: usize = 65_536;

/// Makes the call of a row on either kind of set. Ranks count up to index `$place`, and selects
/// look for bit number `$place / 2`.
macro_rules! ask {
    ($ranked:ident, $place:ident, $row:ident) => {
        match $row {
            "rank" => $ranked.rank($place),
            "select" => $ranked.select($place / 2).unwrap_or(1),
            "select_unset" => $ranked.select_unset($place / 2).unwrap_or(1),
            "select_many" | "select_unset_many" => {
                let ranks = [$place / 2; 16];
                let mut places = [None; 16];
                if $row == "select_many" {
                    $ranked.select_many(&ranks, &mut places);
                } else {
                    $ranked.select_unset_many(&ranks, &mut places);
                }
                places[15].unwrap_or(1)
            }
            "as_view" => $ranked.as_view().len(),
            "clone" => {
                let copy = $ranked.clone()?;
                let len = copy.len();
                drop(copy);
                len
            }
            _ => bail!("no row of this name"),
        }
    };
}

/// Returns an index in the second half, greater by 777 at each turn, but at most the length.
fn place(turn: usize, len: usize) -> usize
    ensures { result ≤ len }
{
    (len / 2).saturating_add(turn.wrapping_mul(777)).min(len)
}

fn repeated(ranked: &Ranked, row: &str, case: Case) -> Result<usize> {
    let mut sum = 0usize;
    for turn in 0..case.calls {
        sum = sum.wrapping_add(call(ranked, place(turn, ranked.len()), row)?);
    }
    Ok(sum)
}

fn call(ranked: &Ranked, place: usize, row: &str) -> Result<usize>
    requires { place ≤ length ranked.now.bits }
{
    Ok(ask!(ranked, place, row))
}

/// Makes the calls of a row on a shared set.
pub fn measure_buffer(alloc: Global, row: &str, case: Case) -> Result<usize> {
    let set = filled_set(alloc, case)?.freeze()?;
    let ranked = RankedBuffer::new(alloc, set)?;
    let sum = repeated_buffer(&ranked, row, case);
    drop(ranked);
    sum
}

fn repeated_buffer(ranked: &RankedBuffer, row: &str, case: Case) -> Result<usize> {
    let mut sum = 0usize;
    for turn in 0..case.calls {
        sum = sum.wrapping_add(call_shared(ranked, place(turn, ranked.len()), row)?);
    }
    Ok(sum)
}

fn call_shared(ranked: &RankedBuffer, place: usize, row: &str) -> Result<usize>
    requires { place ≤ length ranked.now.bits }
{
    Ok(ask!(ranked, place, row))
}
