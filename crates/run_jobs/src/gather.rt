//! Values and bits at indices, and texts at indices.
ghost use Rattle.std.specs.Prelude.{◌≡◌, length};

use crate::digest::Digest;
use crate::pages::{Pages, window};
use crate::random::Random;
use crate::records::Records;
use anyhow::{Result, bail};
use std::alloc::Global;
use vortex_buffer::{Alignment, BitBuffer, Buffer, Take, take_bits};

/// The number of values in a table that fits the caches. A table of `LARGE` values doesn't.
const SMALL: usize = 50_000;

const LARGE: usize = 6_000_000;

/// The number of indices in a take; a table has `PARTS` times as many.
const INDICES: usize = 65_536;

const PARTS: usize = 16;

/// Takes tens of thousands of values and bits at a time from a small table and a large one, and
/// reads texts.
pub fn gather(alloc: Global, rounds: u32, random: &mut Random, digest: &mut Digest) -> Result<()> {
    let small = Tables::new(alloc, random, SMALL)?;
    let large = Tables::new(alloc, random, LARGE)?;
    for round in 0..rounds as usize {
        for turn in 0..12 {
            small.taken(alloc, 12 * (round % 4) + turn, random, digest)?;
        }
        for turn in 0..4 {
            large.taken(alloc, 4 * (round % 4) + turn, random, digest)?;
        }
        let records = Records::new(alloc, random)?;
        records.read(alloc, digest)?;
        drop(records);
    }
    drop((small, large));
    Ok(())
}

/// Values and bits, and indices into them: random and ascending ones.
#[derive(Drop)]
struct Tables {
    pages: Pages,
    values: Buffer<u32>,
    at_random: Vec<u32>,
    rising: Vec<u64>,
}

impl Tables {
    /// Returns tables of about `len` values.
    fn new(alloc: Global, random: &mut Random, len: usize) -> Result<Self> {
        let pages = Pages::new(alloc, random, len.div_ceil(2), len.div_ceil(64) + 2_048)?;
        let part = pages.values.as_slice();
        let values = Buffer::read_from(alloc, part, Alignment::of::<u32>())?;
        let at_random = at_random(alloc, random, values.len())?;
        let rising = rising(alloc, random, values.len())?;
        Ok(Tables {
            pages,
            values,
            at_random,
            rising,
        })
    }

    /// Adds the values and bits at one part of the indices; some of the random ones are null.
    /// `turn` selects the part.
    fn taken(
        &self,
        alloc: Global,
        turn: usize,
        random: &mut Random,
        digest: &mut Digest,
    ) -> Result<()> {
        let from = INDICES * (turn % PARTS);
        let valid = window(&self.pages.random, random, INDICES)?;
        let bits = window(&self.pages.runs, random, self.values.len())?;
        if from + INDICES > self.at_random.len() || from + INDICES > self.rising.len() {
            bail!("too few indices");
        }
        let random_ones = &self.at_random[from..from + INDICES];
        let rising_ones = &self.rising[from..from + INDICES];
        take_some(alloc, &self.values, &bits, random_ones, &valid, digest)?;
        take_rising(alloc, &self.values, &bits, rising_ones, digest)?;
        drop((valid, bits));
        Ok(())
    }
}

/// Returns random indices below `end`.
fn at_random(alloc: Global, random: &mut Random, end: usize) -> Result<Vec<u32>> {
    let mut indices = Vec::new(alloc);
    for _ in 0..PARTS * INDICES {
        indices.push(random.below(end.min(4_294_967_295)) as u32)?;
    }
    Ok(indices)
}

/// Returns indices below `end` that ascend, and start again at 0 when they reach it.
fn rising(alloc: Global, random: &mut Random, end: usize) -> Result<Vec<u64>> {
    let mut indices = Vec::new(alloc);
    let mut place = 0usize;
    for _ in 0..PARTS * INDICES {
        place = place.saturating_add(random.below(20));
        if place >= end {
            place = 0;
        }
        indices.push(place as u64)?;
    }
    Ok(indices)
}

/// Adds the values and the bits at the valid indices, and 0 and false at the others.
fn take_some(
    alloc: Global,
    values: &Buffer<u32>,
    bits: &BitBuffer,
    indices: &[u32],
    valid: &BitBuffer,
    digest: &mut Digest,
) -> Result<()>
    requires { length valid.now.bits ≡ length indices.now }
{
    let taken = values.taken(indices, Some(valid.as_view()))?;
    digest.add_values(taken.as_slice());
    drop(taken);
    let taken = take_bits(alloc, bits.as_view(), indices, Some(valid.as_view()))?;
    digest.add_bits(taken.as_view());
    drop(taken);
    Ok(())
}

/// Adds the values and the bits at indices that are all valid.
fn take_rising(
    alloc: Global,
    values: &Buffer<u32>,
    bits: &BitBuffer,
    indices: &[u64],
    digest: &mut Digest,
) -> Result<()> {
    let taken = values.taken(indices, None)?;
    digest.add_values(taken.as_slice());
    drop(taken);
    let taken = take_bits(alloc, bits.as_view(), indices, None)?;
    digest.add_bits(taken.as_view());
    drop(taken);
    Ok(())
}
