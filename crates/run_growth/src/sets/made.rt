//! Sets that are built from truth values, indices, other sets and closures.
use crate::input::{Case, bools, mixed};
use crate::sets::page::set_of;
use anyhow::{Result, bail};
use std::alloc::Global;
use vb_mem::{Buffer, ByteBuffer};
use vb_set::{BitBuffer, BitBufferMut};

/// Makes the calls of a row.
pub fn measure(alloc: Global, row: &str, case: Case) -> Result<usize> {
    match row {
        "from_bools" | "from_iter" => of_bools(alloc, row, case),
        "from_truthy" => of_truthy(alloc, case),
        "from_indices" => of_indices(alloc, case),
        "copy_from" | "map_cmp" => of_set(alloc, row, case),
        _ => repeated(alloc, row, case),
    }
}

fn of_bools(alloc: Global, row: &str, case: Case) -> Result<usize> {
    let items = bools(alloc, case)?;
    let sum = repeated_items(alloc, items.as_slice(), row, case);
    drop(items);
    sum
}

fn repeated_items(alloc: Global, items: &[bool], row: &str, case: Case) -> Result<usize> {
    let mut sum = 0usize;
    for _ in 0..case.calls {
        let set = match row {
            "from_bools" => BitBuffer::from_bools(alloc, items),
            _ => BitBuffer::from_iter(alloc, items.iter().copied()),
        };
        sum = sum.wrapping_add(last(set?));
    }
    Ok(sum)
}

/// Returns 2 if the last bit is set, 1 if it isn't, and 0 if there are no bits.
fn last(set: BitBuffer) -> usize {
    let found = match set.len() {
        0 => 0,
        len if set.value(len - 1) => 2,
        _ => 1,
    };
    drop(set);
    found
}

fn of_truthy(alloc: Global, case: Case) -> Result<usize> {
    let bytes = mixed(alloc, case.eightfold())?;
    let sum = repeated_truthy(alloc, bytes.as_slice(), case);
    drop(bytes);
    sum
}

fn repeated_truthy(alloc: Global, bytes: &[u8], case: Case) -> Result<usize> {
    let mut sum = 0usize;
    for _ in 0..case.calls {
        let set = BitBufferMut::from_truthy(alloc, bytes)?;
        sum = sum.wrapping_add(set.len());
        drop(set);
    }
    Ok(sum)
}

fn of_indices(alloc: Global, case: Case) -> Result<usize> {
    let mut places = Vec::with_capacity(alloc, case.size / 2)?;
    for i in 0..case.size / 2 {
        places.push(2 * i)?;
    }
    let sum = repeated_indices(alloc, places.as_slice(), case);
    drop(places);
    sum
}

fn repeated_indices(alloc: Global, places: &[usize], case: Case) -> Result<usize> {
    let mut sum = 0usize;
    for _ in 0..case.calls {
        let set = BitBuffer::from_indices(alloc, case.size, places.iter().copied())?;
        sum = sum.wrapping_add(last(set));
    }
    Ok(sum)
}

fn of_set(alloc: Global, row: &str, case: Case) -> Result<usize> {
    let page = Buffer::from_vec(alloc, mixed(alloc, case)?)?;
    let sum = repeated_sets(alloc, &page, row, case);
    drop(page);
    sum
}

fn repeated_sets(alloc: Global, page: &ByteBuffer, row: &str, case: Case) -> Result<usize> {
    let mut sum = 0usize;
    for turn in 0..case.calls {
        let set = set_of(page, case, turn)?;
        let found = match row {
            "copy_from" => copied(alloc, &set),
            _ => mapped(&set),
        };
        drop(set);
        sum = sum.wrapping_add(found?);
    }
    Ok(sum)
}

fn copied(alloc: Global, set: &BitBuffer) -> Result<usize> {
    let copy = BitBufferMut::copy_from(alloc, set)?;
    let len = copy.len();
    drop(copy);
    Ok(len)
}

#[tactic(auto, using(vb_pack::proofs::AnswersLemmas::CanAsk_always))]
fn mapped(set: &BitBuffer) -> Result<usize> {
    let mut flip = |i: usize, bit: bool| bit == (i % 3 == 0);
    Ok(last(set.map_cmp(&mut flip)?))
}

fn repeated(alloc: Global, row: &str, case: Case) -> Result<usize> {
    let mut sum = 0usize;
    for turn in 0..case.calls {
        sum = sum.wrapping_add(last(make(alloc, turn, row, case)?));
    }
    Ok(sum)
}

#[tactic(auto, using(vb_pack::proofs::AnswersLemmas::CanAsk_always))]
fn make(alloc: Global, turn: usize, row: &str, case: Case) -> Result<BitBuffer> {
    match row {
        "full" => Ok(BitBuffer::full(alloc, turn % 2 == 0, case.size)?),
        "collect_bool" => {
            let mut third = |i: usize| i % 3 == 0;
            Ok(BitBuffer::collect_bool(alloc, case.size, &mut third)?)
        }
        _ => bail!("no row of this name"),
    }
}
