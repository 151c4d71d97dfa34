//! A scan of a column: values copied from a page, masks, and the values that these select.
ghost use Rattle.std.specs.Prelude.{◌≡◌, length, IfOk};

use crate::digest::Digest;
use crate::pages::{Pages, window};
use crate::random::Random;
use anyhow::{Result, bail};
use std::alloc::Global;
use use_columns::{Condition, rows_where};
use vortex_buffer::{Alignment, BitBuffer, Buffer, Filter};

/// The number of words in a page of values; `BITS` is the number in a page of masks.
const VALUES: usize = 262_144;

const BITS: usize = 65_536;

/// Scans sixteen batches per round, of 8,192 and 65,536 rows; the last one has few rows.
pub fn scan(alloc: Global, rounds: u32, random: &mut Random, digest: &mut Digest) -> Result<()> {
    let pages = Pages::new(alloc, random, VALUES, BITS)?;
    for _ in 0..rounds {
        for turn in 0..16usize {
            let rows = match turn {
                3 | 8 | 12 => 65_536,
                15 => few(random),
                _ => 8_192,
            };
            batch(alloc, &pages, rows, random, digest)?;
        }
    }
    drop(pages);
    Ok(())
}

/// Returns a number of rows from 1 to 300; small ones are more likely.
fn few(random: &mut Random) -> usize {
    let most = random.below(300).saturating_add(1);
    random.below(most).saturating_add(1)
}

/// Adds the values of a batch that a condition and one or two masks select, and the bits of the
/// first mask in their rows.
fn batch(
    alloc: Global,
    pages: &Pages,
    rows: usize,
    random: &mut Random,
    digest: &mut Digest,
) -> Result<()> {
    let values = values(alloc, pages, rows, random)?;
    let valid = window(&pages.random, random, rows)?;
    let fresh = window(&pages.runs, random, rows)?;
    let condition = condition(random);
    let kept = rows_kept(alloc, &values, &valid, &fresh, condition, random)?;
    digest.add_place(kept.true_count());
    filtered(&values, &valid, &kept, digest)?;
    drop((values, valid, fresh, kept));
    Ok(())
}

/// Returns the values of `rows` rows, from a random byte on.
fn values(alloc: Global, pages: &Pages, rows: usize, random: &mut Random) -> Result<Buffer<u32>> {
    let bytes = pages.values.as_slice();
    let size = rows.saturating_mul(4);
    if bytes.len() <= size {
        bail!("a page is too short");
    }
    let start = random.below(bytes.len() - size);
    let part = &bytes[start..start + size];
    Ok(Buffer::read_from(alloc, part, Alignment::of::<u32>())?)
}

/// Returns a condition that one value in 1,000, one in 10, one in 2, or nearly every value meets.
fn condition(random: &mut Random) -> Condition {
    match random.below(4) {
        0 => Condition::Below(4_294_967),
        1 => Condition::Below(429_496_729),
        2 => Condition::AtLeast(2_147_483_648),
        _ => Condition::AtLeast(42_949_673),
    }
}

/// Returns the rows whose value meets the condition, combined with one or two masks.
fn rows_kept(
    alloc: Global,
    values: &Buffer<u32>,
    valid: &BitBuffer,
    fresh: &BitBuffer,
    condition: Condition,
    random: &mut Random,
) -> Result<BitBuffer> {
    let met = rows_where(alloc, values, condition)?;
    let either = match random.below(4) {
        0 => (&met & valid)?,
        1 => (valid & &met)?,
        2 => (valid | &met)?,
        _ => met.clone()?,
    };
    drop(met);
    let kept = match random.below(3) {
        0 => fresh & &either,
        1 => either.bitand_not(fresh),
        _ => (!fresh)? & &either,
    };
    drop(either);
    Ok(kept?)
}

/// Adds the values and the bits that a mask selects.
fn filtered(
    values: &Buffer<u32>,
    flags: &BitBuffer,
    kept: &BitBuffer,
    digest: &mut Digest,
) -> Result<()> {
    let found = values.filtered(kept.as_view())?;
    digest.add_values(found.as_slice());
    drop(found);
    let bits = flags.filtered(kept.as_view())?;
    digest.add_bits(bits.as_view());
    drop(bits);
    Ok(())
}
