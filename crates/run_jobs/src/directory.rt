//! A directory of counts: ranks and selects at random, with bits set between them.
use crate::digest::Digest;
use crate::pages::{random_page, runs_page};
use crate::random::Random;
use anyhow::Result;
use std::alloc::Global;
use vortex_buffer::{BitBufferMut, ByteBuffer, Ranked};

/// Builds and queries directories of 10, 40 and 200 million bits and of 512 bits, one of each per
/// round.
pub fn directory(
    alloc: Global,
    rounds: u32,
    random: &mut Random,
    digest: &mut Digest,
) -> Result<()> {
    for _ in 0..rounds {
        let page = random_page(alloc, random, 156_250)?;
        asked(alloc, page, 10, 40_000, random, digest)?;
        let page = runs_page(alloc, random, 40_000_000, 2_000)?;
        asked(alloc, page, 100, 200_000, random, digest)?;
        let page = random_page(alloc, random, 3_125_000)?;
        asked(alloc, page, 1_000, 400_000, random, digest)?;
        let page = random_page(alloc, random, 8)?;
        asked(alloc, page, 3, 10_000, random, digest)?;
    }
    Ok(())
}

/// Builds a directory over a page, makes `questions` queries, and edits a bit after every `each` of
/// them.
fn asked(
    alloc: Global,
    page: ByteBuffer,
    each: usize,
    questions: usize,
    random: &mut Random,
    digest: &mut Digest,
) -> Result<()> {
    let bits = page.len().saturating_mul(8);
    let bytes = page.into_mut()?;
    if bytes.len() < bits / 8 + bits % 8 {
        drop(bytes);
        return Ok(());
    }
    let set = BitBufferMut::from_buffer(bytes, 0, bits);
    let mut ranked = Ranked::new(alloc, set)?;
    for _ in 0..questions / each.max(1) {
        for _ in 0..each {
            ask(&ranked, random, digest);
        }
        edit(&mut ranked, random)?;
    }
    digest.add_place(ranked.rank(ranked.len()));
    drop(ranked);
    Ok(())
}

/// Adds the result of a query: a rank, or the index of a set or an unset bit.
fn ask(ranked: &Ranked, random: &mut Random, digest: &mut Digest) {
    let len = ranked.len();
    let place = random.below(len).min(len);
    match random.below(4) {
        0 | 1 => digest.add_place(ranked.rank(place)),
        2 => digest.add_option(ranked.select(place / 2)),
        _ => digest.add_option(ranked.select_unset(place / 2)),
    }
}

/// Sets or unsets a bit, or appends one in one of 16 calls.
fn edit(ranked: &mut Ranked, random: &mut Random) -> Result<()> {
    let number = random.number();
    if number % 16 == 0 {
        return Ok(ranked.append(number % 32 == 0)?);
    }
    let place = random.below(ranked.len());
    if place < ranked.len() {
        ranked.set_to(place, number % 2 == 0);
    }
    Ok(())
}
