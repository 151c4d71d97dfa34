//! A bitmap index: sets of rows that are combined and counted, with their first indices and their
//! runs.
use crate::digest::Digest;
use crate::pages::{random_page, runs_page, scattered, window};
use crate::random::Random;
use anyhow::Result;
use std::alloc::Global;
use vortex_buffer::{BitBuffer, Buffer, ByteBuffer};

/// The number of sets in an index.
const SETS: usize = 22;

/// Builds and queries indexes of one to ten million rows, one per round.
pub fn index(alloc: Global, rounds: u32, random: &mut Random, digest: &mut Digest) -> Result<()> {
    for round in 0..rounds {
        let rows = if round % 8 == 7 {
            10_000_000
        } else {
            1_000_000 + random.below(1_000_000)
        };
        let sets = sets(alloc, rows, random)?;
        ask_pairs(&sets, digest)?;
        ask_all(&sets, digest)?;
        drop(sets);
    }
    Ok(())
}

/// Returns the sets of an index, each at its own offset.
fn sets(alloc: Global, rows: usize, random: &mut Random) -> Result<Vec<BitBuffer>> {
    let mut sets = Vec::new(alloc);
    for kind in 0..SETS {
        let words = rows.div_ceil(64).saturating_add(8);
        let page = page(alloc, kind, words.saturating_mul(64), random)?;
        let set = window(&page, random, rows);
        drop(page);
        sets.push(set?)?;
    }
    Ok(sets)
}

/// Returns a page of `bits` bits: random ones in four densities, clusters, every second bit set,
/// all bits set or none.
fn page(alloc: Global, kind: usize, bits: usize, random: &mut Random) -> Result<ByteBuffer> {
    match kind % 10 {
        0 => scattered(alloc, bits, 10_000, true, random),
        1 | 2 => scattered(alloc, bits, 200, true, random),
        3 => scattered(alloc, bits, 10, true, random),
        4 => random_page(alloc, random, bits.div_ceil(64)),
        5 => runs_page(alloc, random, bits, 60),
        6 => runs_page(alloc, random, bits, 5_000),
        7 => Ok(Buffer::full(alloc, 0x55, bits.div_ceil(8))?),
        8 => Ok(Buffer::full(alloc, 0xFF, bits.div_ceil(8))?),
        _ => Ok(Buffer::zeroed(alloc, bits.div_ceil(8))?),
    }
}

/// Combines each set with itself and with each later one, by `and`, `or` and `and not`, and adds
/// the results.
fn ask_pairs(sets: &[BitBuffer], digest: &mut Digest) -> Result<()> {
    for (place, left) in sets.iter().enumerate() {
        for right in &sets[place..] {
            ask((left & right)?, digest);
            ask((left | right)?, digest);
            ask(left.bitand_not(right)?, digest);
        }
    }
    Ok(())
}

/// Adds the parts of a set: its bits, their count, its first indices, and its runs if few bits are
/// set.
fn ask(set: BitBuffer, digest: &mut Digest) {
    digest.add_bits(set.as_view());
    let count = set.true_count();
    digest.add_place(count);
    digest.add_option(set.select(count / 2));
    for place in set.set_indices().take(10) {
        digest.add_place(place);
    }
    if count < set.len() / 8 {
        for (start, end) in set.set_slices() {
            digest.add_place(start);
            digest.add_place(end);
        }
    }
    drop(set);
}

/// Combines all sets, by `or`, `and not` and `xor` in turn, and adds the indices of the result.
fn ask_all(sets: &[BitBuffer], digest: &mut Digest) -> Result<()> {
    let Some(first) = sets.first() else {
        return Ok(());
    };
    let mut one = first.clone()?;
    for (place, set) in sets.iter().enumerate() {
        one = match place % 3 {
            0 => (one | set)?,
            1 => one.into_bitand_not(set)?,
            _ => (one ^ set)?,
        };
    }
    for place in one.set_indices() {
        digest.add_place(place);
    }
    drop(one);
    Ok(())
}
