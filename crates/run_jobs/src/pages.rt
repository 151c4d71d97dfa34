//! Pages of bytes, of which batches are parts.
ghost use Rattle.std.specs.Prelude.{◌≡◌, length, IfOk};

use crate::random::Random;
use anyhow::{Result, bail};
use std::alloc::Global;
use vortex_buffer::{BitBuffer, BitBufferMut, Buffer, ByteBuffer};

/// The bytes of values, and the bits of two masks: random ones, and ones in runs.
#[derive(Drop)]
pub struct Pages {
    pub values: Vec<u8>,
    pub random: ByteBuffer,
    pub runs: ByteBuffer,
}

impl Pages {
    /// Returns pages with `values` words of values, and `bits` words of each mask.
    pub fn new(alloc: Global, random: &mut Random, values: usize, bits: usize) -> Result<Self> {
        let numbers = random.bytes(alloc, values)?;
        let bytes = random_page(alloc, random, bits)?;
        let runs = runs_page(alloc, random, bits.saturating_mul(64), 200)?;
        Ok(Pages {
            values: numbers,
            random: bytes,
            runs,
        })
    }
}

/// Returns `words` words of random bits.
pub fn random_page(alloc: Global, random: &mut Random, words: usize) -> Result<ByteBuffer> {
    let bytes = random.bytes(alloc, words)?;
    Ok(Buffer::from_vec(alloc, bytes)?)
}

/// Returns the bytes of `bits` bits, in runs of false and of true bits of at most `most` each.
pub fn runs_page(
    alloc: Global,
    random: &mut Random,
    bits: usize,
    most: usize,
) -> Result<ByteBuffer> {
    let mut set = BitBufferMut::with_capacity(alloc, bits)?;
    let mut value = false;
    for _ in 0..bits {
        let left = bits.saturating_sub(set.len());
        let run = random.below(most).saturating_add(1).min(left);
        set.append_n(value, run)?;
        value = !value;
        if left == 0 {
            break;
        }
    }
    Ok(set.into_inner().freeze()?)
}

/// Returns the bytes of `bits` bits: at random, about one in `each` is `value`, and the others are
/// not.
pub fn scattered(
    alloc: Global,
    bits: usize,
    each: usize,
    value: bool,
    random: &mut Random,
) -> Result<ByteBuffer> {
    let mut set = BitBufferMut::full(alloc, !value, bits)?;
    let mut place = 0usize;
    for _ in 0..bits {
        let step = random.below(each.saturating_mul(2)).saturating_add(1);
        place = place.saturating_add(step);
        if place >= set.len() {
            break;
        }
        set.set_to(place, value);
    }
    Ok(set.into_inner().freeze()?)
}

/// Returns `bits` bits of a page, from a random bit on, which share its storage.
pub fn window(page: &ByteBuffer, random: &mut Random, bits: usize) -> Result<BitBuffer>
    ensures { IfOk result (λ s. length s.bits ≡ bits) }
{
    let room = page.len().saturating_mul(8);
    if room <= bits {
        bail!("a page is too short");
    }
    let offset = random.below(room - bits);
    Ok(BitBuffer::new_with_offset(page.clone()?, bits, offset))
}
