//! Masks and sets that are built: by closures, iterators, single appends, other sets and indices;
//! and buffers, item by item and by slices.
use crate::digest::Digest;
use crate::pages::{Pages, window};
use crate::random::Random;
use anyhow::{Result, bail};
use std::alloc::Global;
use use_columns::{Condition, rows_where};
use vortex_buffer::{Alignment, BitBuffer, BitBufferMut, Buffer, BufferMut, Filter, TryIntoMut};

/// The number of words in a page of values; `BITS` is the number in a page of masks.
const VALUES: usize = 131_072;

const BITS: usize = 65_536;

/// Builds sets of hundreds of thousands of bits, buffers, and many small sets.
pub fn build(alloc: Global, rounds: u32, random: &mut Random, digest: &mut Digest) -> Result<()> {
    let pages = Pages::new(alloc, random, VALUES, BITS)?;
    for _ in 0..rounds {
        let values = values(alloc, &pages, random)?;
        of_values(alloc, &values, digest)?;
        of_items(alloc, values.as_slice(), digest)?;
        drop(values);
        of_bits(alloc, &pages, random, digest)?;
        of_sets(alloc, &pages, random, digest)?;
        of_places(alloc, &pages, random, digest)?;
        for _ in 0..2_000 {
            small(&pages, random, digest)?;
        }
    }
    drop(pages);
    Ok(())
}

/// Returns 100,000 to 120,000 values of the page, from a random byte on.
fn values(alloc: Global, pages: &Pages, random: &mut Random) -> Result<Buffer<u32>> {
    let bytes = pages.values.as_slice();
    let size = 400_000 + 4 * random.below(20_000);
    if bytes.len() <= size {
        bail!("a page is too short");
    }
    let start = random.below(bytes.len() - size);
    let part = &bytes[start..start + size];
    Ok(Buffer::read_from(alloc, part, Alignment::of::<u32>())?)
}

/// Adds sets that are built from a comparison, from a slice of truth values, and from an iterator
/// over them.
fn of_values(alloc: Global, values: &Buffer<u32>, digest: &mut Digest) -> Result<()> {
    let below = rows_where(alloc, values, Condition::Below(1 << 30))?;
    digest.add_bits(below.as_view());
    let bools: Vec<bool> = below.iter().collect(alloc)?;
    drop(below);
    let set = BitBuffer::from_bools(alloc, &bools)?;
    digest.add_bits(set.as_view());
    drop(set);
    let set = BitBuffer::from_iter(alloc, bools.iter().copied())?;
    digest.add_bits(set.as_view());
    drop((set, bools));
    Ok(())
}

/// Adds buffers that are built item by item, and by slices and an iterator.
fn of_items(alloc: Global, values: &[u32], digest: &mut Digest) -> Result<()> {
    let mut single = BufferMut::empty(alloc);
    for value in values {
        single.push(value.rotate_left(3))?;
    }
    let single = single.freeze()?;
    digest.add_values(single.as_slice());
    drop(single);
    let mut parts = BufferMut::empty(alloc);
    for part in values.chunks(48) {
        parts.extend_from_slice(part)?;
    }
    parts.extend(values.iter().map(|value| value ^ 1))?;
    digest.add_values(parts.as_slice());
    drop(parts);
    Ok(())
}

/// Adds a set that is built bit by bit.
fn of_bits(alloc: Global, pages: &Pages, random: &mut Random, digest: &mut Digest) -> Result<()> {
    let bits = window(&pages.random, random, 100_000)?;
    let mut set = BitBufferMut::empty(alloc);
    for bit in bits.iter() {
        set.append(bit)?;
    }
    drop(bits);
    digest.add_bits(set.as_view());
    drop(set);
    Ok(())
}

/// Adds a set that joins 2,000 sets, with 0 to 10 equal bits after each.
fn of_sets(alloc: Global, pages: &Pages, random: &mut Random, digest: &mut Digest) -> Result<()> {
    let mut set = BitBufferMut::empty(alloc);
    for turn in 0..2_000 {
        let len = random.below(if turn % 20 == 0 { 10_000 } else { 300 });
        let part = window(&pages.runs, random, len)?;
        let added = set.append_buffer(&part);
        drop(part);
        added?;
        set.append_n(turn % 2 == 0, turn % 11)?;
    }
    digest.add_bits(set.as_view());
    drop(set);
    Ok(())
}

/// Adds a set that is built from the indices of a mask's set bits, and the difference between that
/// set and an edited copy.
fn of_places(alloc: Global, pages: &Pages, random: &mut Random, digest: &mut Digest) -> Result<()> {
    let len = 100_000 + random.below(100_000);
    let mask = window(&pages.random, random, len)?;
    let places: Vec<usize> = mask.set_indices().collect(alloc)?;
    let set = BitBufferMut::from_indices(alloc, mask.len(), places.iter().copied())?;
    digest.add_bits(set.as_view());
    drop(places);
    let shared = set.freeze()?;
    let mut edited = BitBufferMut::copy_from(alloc, &shared)?;
    for _ in 0..1_000 {
        let place = random.below(edited.len());
        if place < edited.len() {
            edited.set_to(place, place % 3 == 0);
        }
    }
    let edited = edited.freeze()?;
    let both = (&edited ^ &shared)?;
    digest.add_bits(both.as_view());
    drop((mask, shared, edited, both));
    Ok(())
}

/// Adds sets of 64 to 512 bits that are combined, negated, filtered by one another, thawed and
/// edited.
fn small(pages: &Pages, random: &mut Random, digest: &mut Digest) -> Result<()> {
    let len = 64 + random.below(449);
    let left = window(&pages.random, random, len)?;
    let right = window(&pages.runs, random, len)?;
    let both = (&left & &right)?;
    let rest = (!&both)?;
    digest.add_place(both.true_count());
    let kept = rest.filtered(left.as_view())?;
    digest.add_bits(kept.as_view());
    drop((left, right, both, kept));
    edited(rest, digest)
}

/// Thaws, edits and freezes a set, and adds it.
fn edited(set: BitBuffer, digest: &mut Digest) -> Result<()> {
    let mut open = match set.try_into_mut() {
        Ok(open) => open,
        Err(shared) => {
            drop(shared);
            bail!("a set has another owner");
        }
    };
    open.append_n(true, 5)?;
    let len = open.len();
    open.fill_range(len / 3, len / 2, false);
    let frozen = open.freeze()?;
    digest.add_bits(frozen.as_view());
    drop(frozen);
    Ok(())
}
