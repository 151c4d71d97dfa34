//! Select within a chunk of 64 bytes.
ghost use Rattle.std.specs.Prelude.{◌≡◌, ℕ, ◌+◌, ◌*◌, ◌^◌, ◌<◌, ◌≤◌, Some, length};
ghost use Rattle.vb_bits.specs.Bits.{bits, count, Selects};
ghost use Rattle.vb_count.specs.Hits.{hits};
ghost use Rattle.vb_select.specs.Searches.{Searched};

use crate::search::{Search, find_in_units};
use crate::unit::Searchable;
use std::ops::ControlFlow;
use std::simd::prelude::*;
use vb_count::{Plain, chunk_ones};

/// Returns the index of the `n`-th bit of the chunk that is `value`.
///
/// A search calls it once. It takes the chunk as a vector, which is passed in registers, so a chunk
/// that is only counted isn't copied to memory.
#[inline(never)]
pub(crate) fn select_in_chunk(chunk: u8x64, n: usize, value: bool) -> usize
    requires { n < count (hits value (bits chunk 0 512)) }
    ensures { Selects (hits value (bits chunk 0 512)) n (Some result) }
{
    find_in_chunk(&chunk.to_array(), n, value)
        .break_value()
        .unwrap()
}

/// Searches the chunk, word by word, for the `n`-th bit that is `value`.
#[inline(always)]
pub(crate) fn find_in_chunk(chunk: &[u8; 64], n: usize, value: bool) -> ControlFlow<usize, usize>
    ensures { Searched (hits value (bits chunk.now 0 512)) n result }
{
    let search = Search {
        offset: 0,
        from: 0,
        n,
        value,
    };
    find_in_units::<[u8; 8], Plain>(&mut Plain::new(chunk), search, 8)
}

impl Searchable for [u8; 64] {
    // It counts the words as they are, without negating each of them.
    fn count(self, value: bool) -> usize {
        let ones = chunk_ones(&self);
        if value { ones } else { 512 - ones }
    }

    fn select(self, n: usize, value: bool) -> usize {
        select_in_chunk(u8x64::from_slice(&self), n, value)
    }
}
