//! Counts the set bits of a window.
//!
//! The window is split as in Mula, Kurz and Lemire's "Faster Population Counts Using AVX2
//! Instructions". Unlike there, the first and last bits are counted before the whole vectors, by
//! words and bytes. Carry-save adders count the vectors if there are many. The compiler chooses how
//! to count a word or a vector.
ghost use Rattle.std.specs.Prelude.{◌≡◌, ◌+◌, ◌-◌, ◌*◌, ◌/◌, ◌%◌, ◌^◌, ◌<◌, ◌≤◌, length, min};
ghost use Rattle.vb_bits.specs.Bits.{bits, count};
ghost use Rattle.vb_bits.specs.InBytes.{InBytes};
ghost use Rattle.vb_count.specs.Looks.{looks, LooksExactly};

use crate::chunk::chunk_ones;
use crate::counter::Counter;
use crate::glance::{Glance, Plain, Wide};
use crate::lane_sum::LaneSum;
use crate::rest::add_rest;
use crate::word::byte_part;
use vb_bits::read_short;

/// From this number of chunks of a wide source on, adders count. With vectors of 32 bytes they are
/// faster than counts of words even from 32 chunks on; with vectors of 16 bytes they are slower in
/// the caches.
const MIN_ADDER_CHUNKS: usize = 64;

/// This number of chunks, 8 MiB, exceeds the second-level caches of most machines. Adders then win
/// at each width, since they read at four addresses.
const PAST_CACHES: usize = 131_072;

/// Returns the number of set bits among the `len` bits from bit `offset` on. The caller must prove
/// that the window is in bounds and that `offset + len` fits in a `usize`.
pub fn count_ones(bytes: &[u8], offset: usize, len: usize) -> usize
    requires window { InBytes bytes.now offset len }
    ensures { result ≡ count (bits bytes.now offset len) }
{
    if len <= 64 {
        count_few(bytes, offset, len)
    } else if len <= 512 {
        count_short(&mut Plain::new(bytes), offset, len)
    } else {
        count_of_many(bytes, offset, len)
    }
}

/// Returns the number of set bits among the `len` bits from bit `offset` on. The caller must prove
/// that the window is in bounds and that `offset + len` fits in a `usize`.
///
/// It is for vectors of 32 bytes and more. At x86-64-v3 it is faster than [`count_ones`] for
/// windows from 4 KiB to 8 MiB, since adders count them; at x86-64-v2 it is slower. Both count
/// shorter and longer windows in the same way.
pub fn count_ones_wide(bytes: &[u8], offset: usize, len: usize) -> usize
    requires window { InBytes bytes.now offset len }
    ensures { result ≡ count (bits bytes.now offset len) }
{
    if len < 512 * MIN_ADDER_CHUNKS {
        count_ones(bytes, offset, len)
    } else {
        count_long(&mut Wide::new(Plain::new(bytes)), offset, len)
    }
}

/// [`count_ones`] of at most 64 bits, as one number.
#[inline(always)]
fn count_few(bytes: &[u8], offset: usize, len: usize) -> usize
    requires few { len ≤ 64 }
    requires inside { offset + len ≤ 8 * length bytes.now }
    ensures { result ≡ count (bits bytes.now offset len) }
{
    read_short(bytes, offset, len).count_ones() as usize
}

/// [`count_ones`] of more than 512 bits. It isn't inlined, so that a shorter window needs no source
/// in memory.
#[inline(never)]
fn count_of_many(bytes: &[u8], offset: usize, len: usize) -> usize
    requires long { 512 < len }
    requires window { InBytes bytes.now offset len }
    ensures { result ≡ count (bits bytes.now offset len) }
{
    count_long(&mut Plain::new(bytes), offset, len)
}

/// Returns the number of set bits in the window of `src`. The caller must prove that the window is
/// in bounds and that `offset + len` fits in a `usize`.
///
/// It looks once at a partial first byte, once at each 64 whole bytes, once at each eight of the
/// remaining bytes, once at each byte after these, and once at a partial last byte. It looks only
/// once if the window is within one byte, and not at all if it is empty. `G.seen` of a source is
/// its bytes, which no look changes, and the number of looks so far.
pub fn count_ones_by<G: Glance>(src: &mut G, offset: usize, len: usize) -> usize
    requires window { InBytes (G.seen src.old).bytes offset len }
    ensures value { result ≡ count (bits (G.seen src.old).bytes offset len) }
    ensures looks { LooksExactly (looks offset len) (G.seen src.old) (G.seen src.new) }
{
    if len <= 512 {
        count_short(src, offset, len)
    } else {
        count_long(src, offset, len)
    }
}

/// Counts a window of at most 512 bits.
#[tactic(auto, using(vb_bits::proofs::BitsLemmas::windows))]
#[inline(always)]
fn count_short<G: Glance>(src: &mut G, offset: usize, len: usize) -> usize
    requires short { len ≤ 512 }
    requires window { InBytes (G.seen src.old).bytes offset len }
    ensures value { result ≡ count (bits (G.seen src.old).bytes offset len) }
    ensures looks { LooksExactly (looks offset len) (G.seen src.old) (G.seen src.new) }
{
    let head = (8 - offset % 8) % 8;
    if len <= head {
        return count_part(src, offset, len);
    }
    let at = (offset + head) / 8;
    let ones = count_head(src, offset);
    if len - head < 512 {
        add_rest(src, at, len - head, ones)
    } else {
        ones + chunk_ones(&src.chunk(at))
    }
}

/// Counts a window of more than 512 bits.
#[tactic(auto, using(vb_bits::proofs::BitsLemmas::windows))]
#[inline(never)]
fn count_long<G: Glance>(src: &mut G, offset: usize, len: usize) -> usize
    requires long { 512 < len }
    requires window { InBytes (G.seen src.old).bytes offset len }
    ensures value { result ≡ count (bits (G.seen src.old).bytes offset len) }
    ensures looks { LooksExactly (looks offset len) (G.seen src.old) (G.seen src.new) }
{
    let head = (8 - offset % 8) % 8;
    let at = (offset + head) / 8;
    let chunks = (len - head) / 512;
    let rest = (len - head) % 512;
    let ones = count_head(src, offset);
    // Most long windows end with a chunk; they skip the tests of the rest.
    let ones = if rest == 0 {
        ones
    } else {
        add_rest(src, at + 64 * chunks, rest, ones)
    };
    // The chunks come last, so that no value is kept across the call that counts them.
    add_chunks(src, at, chunks, ones)
}

/// Counts the bits from bit `offset` on up to the next whole byte.
fn count_head<G: Glance>(src: &mut G, offset: usize) -> usize
    requires inside { 0 < offset % 8 → offset / 8 < length (G.seen src.old).bytes }
    ensures value { result ≡ count (bits (G.seen src.old).bytes offset ((8 - offset % 8) % 8)) }
    ensures few { result ≤ (8 - offset % 8) % 8 }
    ensures looks { LooksExactly (min (offset % 8) 1) (G.seen src.old) (G.seen src.new) }
{
    let before = offset % 8;
    if before == 0 {
        return 0;
    }
    (u64::from(src.byte(offset / 8)) >> before).count_ones() as usize
}

/// Counts `len` bits within one byte, from bit `at` on.
#[tactic(auto, using(vb_bits::proofs::BitsLemmas::windows))]
fn count_part<G: Glance>(src: &mut G, at: usize, len: usize) -> usize
    requires in_byte { 0 < len → at % 8 + len ≤ 8 }
    requires inside { at + len ≤ 8 * length (G.seen src.old).bytes }
    ensures value { result ≡ count (bits (G.seen src.old).bytes at len) }
    ensures looks { LooksExactly (min len 1) (G.seen src.old) (G.seen src.new) }
{
    if len == 0 {
        return 0;
    }
    byte_part(src.byte(at / 8), at % 8, len, true).count_ones() as usize
}

/// Returns `ones` plus the number of set bits in the `n` chunks from byte `at` on. The caller must
/// prove that the chunks are in bounds, and that their end in bits and `ones + 512 * n` fit in a
/// `usize`.
///
/// It counts fewer than [`min_adder_chunks`] chunks word by word. From that number on, adders count
/// sixteen chunks at a time, and the rest is counted word by word. It isn't inlined, so that
/// callers with few chunks save no registers for the adders.
#[tactic(auto, using(vb_bits::proofs::BitsLemmas::windows))]
#[inline(never)]
pub fn add_chunks<G: Glance>(src: &mut G, at: usize, n: usize, ones: usize) -> usize
    requires inside { at + 64 * n ≤ length (G.seen src.old).bytes }
    requires fits { 8 * at + 512 * n < 2 ^ 64 }
    requires room { ones + 512 * n < 2 ^ 64 }
    ensures value { result ≡ ones + count (bits (G.seen src.old).bytes (8 * at) (512 * n)) }
    ensures looks { LooksExactly n (G.seen src.old) (G.seen src.new) }
{
    if n < min_adder_chunks::<G>() {
        return add_few(src, at, n, ones);
    }
    // Memory is read more slowly if the quarters are a power of two apart.
    let turns = n / 16 - usize::from(PAST_CACHES <= n);
    let rest = add_few(src, at + 1024 * turns, n - 16 * turns, ones);
    rest + count_quarters(src, at, turns)
}

/// Returns the least number of chunks of a source that adders count.
fn min_adder_chunks<G: Glance>() -> usize
    ensures { MIN_ADDER_CHUNKS ≤ result }
{
    if G::IS_WIDE {
        MIN_ADDER_CHUNKS
    } else {
        PAST_CACHES
    }
}

/// Returns `ones` plus the number of set bits in the `n` chunks from byte `at` on, by the counts of
/// their words.
///
/// Each turn first sums two chunks, so that a compiler that counts the bits of each byte can add
/// these counts as bytes and widen them once per turn. It isn't inlined: next to the sums of other
/// parts the compiler wouldn't see its four sums as the lanes of one vector.
#[tactic(auto, using(vb_bits::proofs::BitsLemmas::windows))]
#[inline(never)]
fn add_few<G: Glance>(src: &mut G, at: usize, n: usize, ones: usize) -> usize
    requires inside { at + 64 * n ≤ length (G.seen src.old).bytes }
    requires fits { 8 * at + 512 * n < 2 ^ 64 }
    requires room { ones + 512 * n < 2 ^ 64 }
    ensures value { result ≡ ones + count (bits (G.seen src.old).bytes (8 * at) (512 * n)) }
    ensures looks { LooksExactly n (G.seen src.old) (G.seen src.new) }
{
    let mut sum = LaneSum::of(ones);
    for k in 0..n / 2 {
        sum = sum.plus(sum_chunks(src, at + 128 * k, 2));
    }
    sum.plus(sum_chunks(src, at + n / 2 * 128, n % 2)).total()
}

/// Counts the chunks of four adjacent quarters from byte `at` on. Each quarter has `4 * turns`
/// chunks, and each turn counts four of each quarter, so that memory is read ahead at four
/// addresses.
#[tactic(auto, using(vb_bits::proofs::BitsLemmas::windows))]
#[inline(never)]
fn count_quarters<G: Glance>(src: &mut G, at: usize, turns: usize) -> usize
    requires inside { at + 1024 * turns ≤ length (G.seen src.old).bytes }
    requires fits { 8 * at + 8192 * turns < 2 ^ 64 }
    ensures value { result ≡ count (bits (G.seen src.old).bytes (8 * at) (8192 * turns)) }
    ensures looks { LooksExactly (16 * turns) (G.seen src.old) (G.seen src.new) }
{
    let mut sum = Counter::zero();
    for k in 0..turns {
        sum = sum.add(src, at + 256 * k, 256 * turns);
    }
    sum.total()
}

/// Counts `n` chunks from byte `at` on, one by one.
///
/// It is a loop even for two chunks: without it the compiler would see one long sum, and add the
/// count of each word to the total one by one.
#[tactic(auto, using(vb_bits::proofs::BitsLemmas::windows))]
#[inline(always)]
fn sum_chunks<G: Glance>(src: &mut G, at: usize, n: usize) -> LaneSum
    requires inside { at + 64 * n ≤ length (G.seen src.old).bytes }
    requires fits { 8 * at + 512 * n < 2 ^ 64 }
    ensures value { result ≡ count (bits (G.seen src.old).bytes (8 * at) (512 * n)) }
    ensures looks { LooksExactly n (G.seen src.old) (G.seen src.new) }
{
    let mut sum = LaneSum::of(0);
    for k in 0..n {
        sum = sum.add(&src.chunk(at + 64 * k));
    }
    sum
}
