//! Takes of values of five widths, and of bits, at indices of three types, with shares of nulls
//! that `gather` doesn't have.
use crate::digest::Digest;
use crate::pages::{random_page, runs_page, scattered, window};
use crate::random::Random;
use anyhow::{Result, bail};
use std::alloc::Global;
use vortex_buffer::{Alignment, BitBuffer, BitIndex, Buffer, ByteBuffer, Element, Take, take_bits};

/// The number of values and of bits, which fit the caches.
const VALUES: usize = 50_000;

/// The number of indices in a take; `BITS` is the number of bits in a page of validities.
const INDICES: usize = 65_536;

const BITS: usize = 4 * INDICES;

/// Takes new values and bits per round at the same indices, without a validity and with each kind
/// of validity.
pub fn nulls(alloc: Global, rounds: u32, random: &mut Random, digest: &mut Digest) -> Result<()> {
    let indices = Indices::new(alloc, random)?;
    let pages = pages(alloc, random)?;
    for _ in 0..rounds {
        let valid = windows(alloc, &pages, random)?;
        let added = indices.take_all(alloc, &valid, random, digest);
        drop(valid);
        added?;
    }
    drop((indices, pages));
    Ok(())
}

/// Returns the pages of validities.
fn pages(alloc: Global, random: &mut Random) -> Result<Vec<ByteBuffer>> {
    let mut pages = Vec::new(alloc);
    for kind in 0..5 {
        let page = page(alloc, kind, random)?;
        pages.push(page)?;
    }
    Ok(pages)
}

/// Returns a page of validities: without nulls, with one null in 10 or in 64 at random, with nulls
/// in runs, or with every second row null.
fn page(alloc: Global, kind: usize, random: &mut Random) -> Result<ByteBuffer> {
    match kind {
        0 => Ok(Buffer::full(alloc, 0xFF, BITS / 8)?),
        1 => scattered(alloc, BITS, 10, false, random),
        2 => scattered(alloc, BITS, 64, false, random),
        3 => runs_page(alloc, random, BITS, 200),
        _ => Ok(Buffer::full(alloc, 0x55, BITS / 8)?),
    }
}

/// Returns a validity from each page, from a random bit on.
fn windows(alloc: Global, pages: &[ByteBuffer], random: &mut Random) -> Result<Vec<BitBuffer>> {
    let mut valid = Vec::new(alloc);
    for page in pages {
        let part = window(page, random, INDICES)?;
        valid.push(part)?;
    }
    Ok(valid)
}

/// Random indices of three types.
#[derive(Drop)]
struct Indices {
    narrow: Vec<u32>,
    signed: Vec<i64>,
    wide: Vec<u64>,
}

impl Indices {
    fn new(alloc: Global, random: &mut Random) -> Result<Self> {
        let narrow = at_random(alloc, random)?;
        let signed = at_random(alloc, random)?;
        let wide = at_random(alloc, random)?;
        Ok(Indices {
            narrow,
            signed,
            wide,
        })
    }

    /// Adds new values of each width, and bits, at these indices.
    fn take_all(
        &self,
        alloc: Global,
        valid: &[BitBuffer],
        random: &mut Random,
        digest: &mut Digest,
    ) -> Result<()> {
        self.take_values::<u8>(alloc, valid, random, digest)?;
        self.take_values::<u16>(alloc, valid, random, digest)?;
        self.take_values::<u32>(alloc, valid, random, digest)?;
        self.take_values::<u64>(alloc, valid, random, digest)?;
        self.take_values::<u128>(alloc, valid, random, digest)?;
        self.take_bits(alloc, valid, random, digest)
    }

    /// Adds new values of a type at these indices.
    fn take_values<T: Item>(
        &self,
        alloc: Global,
        valid: &[BitBuffer],
        random: &mut Random,
        digest: &mut Digest,
    ) -> Result<()> {
        let values = values::<T>(alloc, random)?;
        add_values(&values, self.narrow.as_slice(), valid, digest)?;
        add_values(&values, self.signed.as_slice(), valid, digest)?;
        add_values(&values, self.wide.as_slice(), valid, digest)?;
        drop(values);
        Ok(())
    }

    /// Adds new bits at these indices.
    fn take_bits(
        &self,
        alloc: Global,
        valid: &[BitBuffer],
        random: &mut Random,
        digest: &mut Digest,
    ) -> Result<()> {
        let page = random_page(alloc, random, VALUES / 64 + 64)?;
        let bits = window(&page, random, VALUES);
        drop(page);
        let bits = bits?;
        add_bits(alloc, &bits, self.narrow.as_slice(), valid, digest)?;
        add_bits(alloc, &bits, self.signed.as_slice(), valid, digest)?;
        add_bits(alloc, &bits, self.wide.as_slice(), valid, digest)?;
        drop(bits);
        Ok(())
    }
}

/// Returns random indices of a type.
fn at_random<I: BitIndex + From<u32>>(alloc: Global, random: &mut Random) -> Result<Vec<I>> {
    let mut indices = Vec::new(alloc);
    for _ in 0..INDICES {
        indices.push(I::from(random.below(VALUES) as u32))?;
    }
    Ok(indices)
}

/// Returns random values of a type.
fn values<T: Element>(alloc: Global, random: &mut Random) -> Result<Buffer<T>> {
    let bytes = random.bytes(alloc, VALUES.saturating_mul(T::SIZE) / 8)?;
    let values = Buffer::read_from(alloc, bytes.as_slice(), Alignment::of::<T>());
    drop(bytes);
    Ok(values?)
}

/// Adds the values at the indices, with no validity and then with each of these.
fn add_values<T: Item, I: BitIndex>(
    values: &Buffer<T>,
    indices: &[I],
    valid: &[BitBuffer],
    digest: &mut Digest,
) -> Result<()> {
    add_items(values.taken(indices, None)?, digest);
    for valid in valid {
        if valid.len() != indices.len() {
            bail!("a validity has another length");
        }
        add_items(values.taken(indices, Some(valid.as_view()))?, digest);
    }
    Ok(())
}

/// Adds items and their number.
fn add_items<T: Item>(items: Buffer<T>, digest: &mut Digest) {
    let mut sums = *digest;
    for item in items.as_slice() {
        sums.add(item.low());
    }
    sums.add_place(items.len());
    *digest = sums;
    drop(items);
}

/// Adds the bits at the indices, with no validity and then with each of these.
fn add_bits<I: BitIndex>(
    alloc: Global,
    bits: &BitBuffer,
    indices: &[I],
    valid: &[BitBuffer],
    digest: &mut Digest,
) -> Result<()> {
    let taken = take_bits(alloc, bits.as_view(), indices, None)?;
    digest.add_bits(taken.as_view());
    drop(taken);
    for valid in valid {
        if valid.len() != indices.len() {
            bail!("a validity has another length");
        }
        let taken = take_bits(alloc, bits.as_view(), indices, Some(valid.as_view()))?;
        digest.add_bits(taken.as_view());
        drop(taken);
    }
    Ok(())
}

/// An element, as a number for the digest.
trait Item: Element {
    /// Returns its lowest 64 bits.
    fn low(self) -> u64;
}

impl Item for u8 {
    fn low(self) -> u64 {
        u64::from(self)
    }
}

impl Item for u16 {
    fn low(self) -> u64 {
        u64::from(self)
    }
}

impl Item for u32 {
    fn low(self) -> u64 {
        u64::from(self)
    }
}

impl Item for u64 {
    fn low(self) -> u64 {
        self
    }
}

impl Item for u128 {
    fn low(self) -> u64 {
        (self & 0xFFFF_FFFF_FFFF_FFFF) as u64
    }
}
