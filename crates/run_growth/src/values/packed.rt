//! Truth values that are packed into bytes and words, and values of a slice that a mask selects.
use crate::input::{Case, bools, mixed, window};
use anyhow::{Result, bail};
use std::alloc::Global;
use vb_filter::filter_values_into;
use vb_pack::{
    collect_bool_bytes, collect_bool_words, map_bool_bytes, pack_bools, pack_bools_into_words,
    pack_truthy,
};
use vb_view::BitBufferView;

/// Makes the calls of a row.
pub fn measure(alloc: Global, row: &str, case: Case) -> Result<usize> {
    match row {
        "pack_bools" => of_bools(alloc, case),
        "pack_truthy" => of_truthy(alloc, case),
        "filter_values_into" => of_values(alloc, case),
        "collect_bool_words" => of_closure(alloc, case),
        "collect_bool_bytes" => into_bytes(alloc, case),
        "map_bool_bytes" => mapped(alloc, case),
        "pack_bools_into_words" => into_words(alloc, case),
        _ => bail!("no row of this name"),
    }
}

/// Returns zeros: a byte for each eight items of the size, and one more.
fn zeros(alloc: Global, case: Case) -> Result<Vec<u8>> {
    Ok(Vec::from_elem(alloc, 0u8, case.size / 8 + 1)?)
}

fn of_bools(alloc: Global, case: Case) -> Result<usize> {
    let items = bools(alloc, case)?;
    let sum = pack_all_bools(alloc, items.as_slice(), case);
    drop(items);
    sum
}

fn pack_all_bools(alloc: Global, items: &[bool], case: Case) -> Result<usize> {
    let mut bytes = zeros(alloc, case)?;
    for turn in 0..case.calls {
        let part = &items[turn.min(items.len())..];
        if part.len() <= 8 * bytes.len().min(Case::MOST) {
            pack_bools(bytes.as_mut_slice(), part);
        }
    }
    let first = bytes.first().copied().unwrap_or(0);
    drop(bytes);
    Ok(usize::from(first))
}

fn of_truthy(alloc: Global, case: Case) -> Result<usize> {
    let items = mixed(alloc, case.eightfold())?;
    let sum = pack_all_truthy(alloc, items.as_slice(), case);
    drop(items);
    sum
}

fn pack_all_truthy(alloc: Global, items: &[u8], case: Case) -> Result<usize> {
    let mut bytes = zeros(alloc, case)?;
    for turn in 0..case.calls {
        let start = turn.min(items.len());
        let part = &items[start..(start + case.size).min(items.len())];
        if part.len() <= 8 * bytes.len().min(Case::MOST) {
            pack_truthy(bytes.as_mut_slice(), part);
        }
    }
    let first = bytes.first().copied().unwrap_or(0);
    drop(bytes);
    Ok(usize::from(first))
}

fn of_closure(alloc: Global, case: Case) -> Result<usize> {
    let mut words = Vec::from_elem(alloc, 0u64, case.size / 64)?;
    for turn in 0..case.calls {
        pack_thirds(words.as_mut_slice(), case, turn);
    }
    let first = words.first().copied().unwrap_or(0);
    drop(words);
    Ok((first % 256) as usize)
}

#[tactic(auto, using(vb_pack::proofs::AnswersLemmas::CanAsk_always))]
fn pack_thirds(words: &mut [u64], case: Case, turn: usize) {
    let len = case.size / 64 * 64;
    if len <= 64 * words.len().min(Case::MOST) {
        let mut third = |i: usize| i % 3 == turn % 2;
        collect_bool_words(words, len, &mut third);
    }
}

fn into_bytes(alloc: Global, case: Case) -> Result<usize> {
    let mut bytes = zeros(alloc, case)?;
    for turn in 0..case.calls {
        collect_thirds(bytes.as_mut_slice(), case, turn);
    }
    let first = bytes.first().copied().unwrap_or(0);
    drop(bytes);
    Ok(usize::from(first))
}

#[tactic(auto, using(vb_pack::proofs::AnswersLemmas::CanAsk_always))]
fn collect_thirds(bytes: &mut [u8], case: Case, turn: usize) {
    if case.size <= 8 * bytes.len().min(Case::MOST) {
        let mut third = |i: usize| i % 3 == turn % 2;
        collect_bool_bytes(bytes, case.size, &mut third);
    }
}

fn mapped(alloc: Global, case: Case) -> Result<usize> {
    let bytes = mixed(alloc, case)?;
    let sum = map_all(alloc, bytes.as_slice(), case);
    drop(bytes);
    sum
}

fn map_all(alloc: Global, bytes: &[u8], case: Case) -> Result<usize> {
    let mut out = zeros(alloc, case)?;
    let sum = map_windows(out.as_mut_slice(), bytes, case);
    drop(out);
    sum
}

fn map_windows(out: &mut [u8], bytes: &[u8], case: Case) -> Result<usize> {
    for turn in 0..case.calls {
        map_thirds(out, window(bytes, case.size, turn)?, turn);
    }
    Ok(usize::from(out.first().copied().unwrap_or(0)))
}

#[tactic(auto, using(vb_pack::proofs::AnswersLemmas::CanAsk_always))]
fn map_thirds(out: &mut [u8], bits: BitBufferView<'_>, turn: usize) {
    if bits.len() <= 8 * out.len().min(Case::MOST) {
        let mut third = |i: usize, bit: bool| bit && i % 3 == turn % 2;
        map_bool_bytes(out, bits.inner(), bits.offset(), bits.len(), &mut third);
    }
}

fn into_words(alloc: Global, case: Case) -> Result<usize> {
    let mut sum = 0usize;
    for turn in 0..case.calls {
        sum = sum.wrapping_add(splice_thirds(alloc, case, turn)?);
    }
    Ok(sum)
}

/// Packs truth values behind three bits of new words.
#[tactic(auto, using(vb_pack::proofs::AnswersLemmas::CanAsk_always))]
fn splice_thirds(alloc: Global, case: Case, turn: usize) -> Result<usize> {
    let mut words = Vec::from_elem(alloc, 0u64, case.size / 64 + 1)?;
    let mut third = |i: usize| i % 3 == turn % 2;
    pack_bools_into_words(words.as_mut_slice(), 3, case.size / 64 * 64, &mut third);
    let first = words.first().copied().unwrap_or(0);
    drop(words);
    Ok((first % 256) as usize)
}

fn of_values(alloc: Global, case: Case) -> Result<usize> {
    let bytes = mixed(alloc, case)?;
    let sum = filter_slice(alloc, bytes.as_slice(), case);
    drop(bytes);
    sum
}

fn filter_slice(alloc: Global, bytes: &[u8], case: Case) -> Result<usize> {
    let values = Vec::from_elem(alloc, 5u32, case.size)?;
    let sum = filter_into(alloc, values.as_slice(), bytes, case);
    drop(values);
    sum
}

fn filter_into(alloc: Global, values: &[u32], bytes: &[u8], case: Case) -> Result<usize> {
    let mut out = Vec::from_elem(alloc, 0u32, case.size)?;
    let kept = filter_all(out.as_mut_slice(), values, bytes, case);
    drop(out);
    kept
}

fn filter_all(out: &mut [u32], values: &[u32], bytes: &[u8], case: Case) -> Result<usize> {
    let mut sum = 0usize;
    for turn in 0..case.calls {
        let mask = window(bytes, case.size, turn)?;
        if values.len() == mask.len() && mask.true_count() <= out.len() {
            sum = sum.wrapping_add(filter_values_into(out, values, mask));
        }
    }
    Ok(sum)
}
