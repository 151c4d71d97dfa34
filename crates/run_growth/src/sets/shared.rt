//! Sets that are shared, and walks by closures.
ghost use Rattle.std.specs.Prelude.{◌≡◌, length};

use crate::input::{Case, mixed};
use crate::sets::page::set_of;
use anyhow::{Result, bail};
use std::alloc::Global;
use vb_mem::{Buffer, ByteBuffer};
use vb_set::{BitBuffer, TryIntoMut};

/// Makes the calls of a row.
pub fn measure(alloc: Global, row: &str, case: Case) -> Result<usize> {
    if row == "freeze" {
        return refrozen(alloc, case);
    }
    let page = Buffer::from_vec(alloc, mixed(alloc, case)?)?;
    let sum = repeated(&page, row, case);
    drop(page);
    sum
}

/// Opens a set of one owner and freezes it again.
fn refrozen(alloc: Global, case: Case) -> Result<usize> {
    let mut set = BitBuffer::full(alloc, true, case.size)?;
    for _ in 0..case.calls {
        set = thaw_and_freeze(set)?;
    }
    let len = set.len();
    drop(set);
    Ok(len)
}

fn thaw_and_freeze(set: BitBuffer) -> Result<BitBuffer> {
    match set.try_into_mut() {
        Ok(open) => Ok(open.freeze()?),
        Err(set) => {
            drop(set);
            bail!("the set has another owner")
        }
    }
}

fn repeated(page: &ByteBuffer, row: &str, case: Case) -> Result<usize> {
    let mut sum = 0usize;
    for turn in 0..case.calls {
        let set = set_of(page, case, turn)?;
        let found = call(&set, row);
        drop(set);
        sum = sum.wrapping_add(found?);
    }
    Ok(sum)
}

fn call(set: &BitBuffer, row: &str) -> Result<usize> {
    Ok(match row {
        "clone" => cloned(set)?,
        "slice" => sliced(set)?,
        "shrink_offset" => shrunk(set)?,
        "into_inner" => taken_apart(set)?,
        "as_view" => set.as_view().offset(),
        "for_each_set_index" => each_place(set),
        "for_each_unset_index" => each_hole(set),
        "iter_bits" => each_bit(set),
        "try_for_each_set_index" => first_place(set),
        _ => bail!("no row of this name"),
    })
}

fn cloned(set: &BitBuffer) -> Result<usize> {
    let other = set.clone()?;
    let offset = other.offset();
    drop(other);
    Ok(offset)
}

fn sliced(set: &BitBuffer) -> Result<usize> {
    let half = set.slice(set.len() / 2..set.len())?;
    let len = half.len();
    drop(half);
    Ok(len)
}

fn shrunk(set: &BitBuffer) -> Result<usize> {
    let less = set.slice(0..set.len() / 2)?.shrink_offset();
    let len = less.inner().len();
    drop(less);
    Ok(len)
}

fn taken_apart(set: &BitBuffer) -> Result<usize> {
    let (offset, len, bytes) = set.clone()?.into_inner();
    drop(bytes);
    Ok(offset ^ len)
}

#[tactic(auto, using(vb_pack::proofs::AnswersLemmas::CanAsk_always))]
fn each_place(set: &BitBuffer) -> usize {
    let mut sum = 0usize;
    set.for_each_set_index(&mut |i| sum = sum.wrapping_add(i));
    sum
}

#[tactic(auto, using(vb_pack::proofs::AnswersLemmas::CanAsk_always))]
fn each_hole(set: &BitBuffer) -> usize {
    let mut sum = 0usize;
    set.for_each_unset_index(&mut |i| sum = sum.wrapping_add(i));
    sum
}

#[tactic(auto, using(vb_pack::proofs::AnswersLemmas::CanAsk_always))]
fn each_bit(set: &BitBuffer) -> usize {
    let mut sum = 0usize;
    set.iter_bits(&mut |i, bit| sum = sum.wrapping_add(if bit { i } else { 1 }));
    sum
}

/// Returns the index of the first set bit, at which the walk stops.
#[tactic(auto, using(vb_pack::proofs::AnswersLemmas::CanAsk_always))]
fn first_place(set: &BitBuffer) -> usize {
    match set.try_for_each_set_index(&mut |i: usize| Err::<(), usize>(i)) {
        Ok(()) => set.len(),
        Err(place) => place,
    }
}
