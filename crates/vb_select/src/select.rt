// Written in part by tools/write-lists from tools/families/selects.txt.
//! The index of a bit by its rank.
ghost use Rattle.std.specs.Prelude.{◌≡◌, ◌+◌, ◌-◌, ◌*◌, ◌/◌, ◌%◌, ◌^◌, ◌<◌, ◌≤◌, length};
ghost use Rattle.vb_bits.specs.Bits.{bits, count, complement, Selects, InvertsCount};
ghost use Rattle.vb_bits.specs.InBytes.{InBytes};
ghost use Rattle.vb_count.specs.Looks.{looks, LooksExactly, LooksAtMost};
ghost use Rattle.vb_count.specs.Hits.{hits};
ghost use Rattle.vb_select.specs.Searches.{Searched, IsWithin, SearchAnswers};

use crate::chunk::find_in_chunk;
use crate::matches::read_matches;
use crate::parts::Parts;
use crate::search::{Search, find_in_part, find_in_rest, find_in_units};
use std::ops::ControlFlow;
use vb_bits::select_in_word;
use vb_count::{Glance, Plain, Wide, add_chunks};

/// Runs of fewer chunks are searched directly by their words, which takes no longer than counting
/// them first.
const MIN_COUNTED_CHUNKS: usize = 4;

/// For a low rank this number of chunks is searched before any is counted: they have the bit unless
/// few bits are set.
const FIRST_CHUNKS: usize = 16;

/// In a run of at most this number of chunks, no chunk that may hold the bit is counted, since the
/// run is too short to gain by it.
const SHORT_RUN_CHUNKS: usize = 64;

/// Consecutive chunks of a window, in which a bit is sought.
#[derive(Clone, Copy)]
struct Stretch {
    /// The number of chunks passed before it.
    passed: usize,
    /// The number of its chunks.
    chunks: usize,
    /// The rank that is left at its start.
    left: usize,
}

impl Stretch {
    /// Returns the number of its chunks to count next, if the `n`-th bit is sought.
    ///
    /// `left / 512` chunks have at most `left` bits, so the bit must come after them. If few bits
    /// are set, this number is small. Then the search tries more chunks: first the number of those
    /// passed or searched so far, then half of it, and so on, until that many chunks, as dense as
    /// the passed ones, would end before the bit. Counted chunks that may hold the bit are at most
    /// half of the stretch: if they hold it, they are looked at again, but at least the same number
    /// of chunks after them is never looked at.
    fn block(self, n: usize) -> usize
        requires { self.left ≤ n }
        ensures within { result ≤ self.chunks }
        ensures paid { self.left < 512 * result → 2 * result ≤ self.chunks }
    {
        let sure = (self.left / 512).min(self.chunks);
        let seen = self.passed.max(searched_first(n));
        let mut unsure = seen.min(self.chunks / 2);
        // In practice no product is large enough to saturate.
        while sure.max(FIRST_CHUNKS) <= unsure {
            if (n - self.left).saturating_mul(unsure) <= self.left.saturating_mul(seen) {
                return unsure;
            }
            unsure /= 2;
        }
        sure
    }
}

/// Returns the number of chunks to search before any is counted, if the `n`-th bit is sought.
fn searched_first(n: usize) -> usize {
    if n < 512 * MIN_COUNTED_CHUNKS {
        FIRST_CHUNKS
    } else {
        0
    }
}

/// Returns the index of the `n`-th set bit, counted from 0, of the `len` bits from bit `offset` on,
/// or `None` if at most `n` bits are set. The index is relative to bit `offset`. The caller must
/// prove that the window is in bounds and that `offset + len` fits in a `usize`.
///
/// It counts from the front, 64 bytes at a time, up to the bytes that have the bit; in a window of
/// more than 4,096 bytes it may also count bytes after these. Clause `place` states the result, and
/// clause `each` that every set bit with `n` set bits before it is the result.
pub fn bit_select(bytes: &[u8], offset: usize, len: usize, n: usize) -> Option<usize>
    requires window { InBytes bytes.now offset len }
    ensures place { Selects (bits bytes.now offset len) n result }
    ensures each { InvertsCount (bits bytes.now offset len) n result }
{
    if len <= 64 {
        select_few(bytes, offset, len, n, true)
    } else {
        bit_select_by(&mut Plain::new(bytes), offset, len, n)
    }
}

/// Returns the index of the `n`-th unset bit, counted from 0, of the `len` bits from bit `offset`
/// on, or `None` if at most `n` bits are unset. The index is relative to bit `offset`. The caller
/// must prove that the window is in bounds and that `offset + len` fits in a `usize`.
///
/// It reads as [`bit_select`] does. Clause `place` states the result, and clause `each` that every
/// unset bit with `n` unset bits before it is the result.
pub fn bit_select_unset(bytes: &[u8], offset: usize, len: usize, n: usize) -> Option<usize>
    requires window { InBytes bytes.now offset len }
    ensures place { Selects (complement (bits bytes.now offset len)) n result }
    ensures each { InvertsCount (complement (bits bytes.now offset len)) n result }
{
    if len <= 64 {
        select_few(bytes, offset, len, n, false)
    } else {
        bit_select_unset_by(&mut Plain::new(bytes), offset, len, n)
    }
}

/// [`bit_select`] for vectors of 32 bytes and more: at x86-64-v3 it passes long windows faster,
/// since adders count runs of 64 chunks of 64 bytes and more; at x86-64-v2 it is slower.
pub fn bit_select_wide(bytes: &[u8], offset: usize, len: usize, n: usize) -> Option<usize>
    requires window { InBytes bytes.now offset len }
    ensures place { Selects (bits bytes.now offset len) n result }
    ensures each { InvertsCount (bits bytes.now offset len) n result }
{
    if len <= 64 {
        select_few(bytes, offset, len, n, true)
    } else {
        bit_select_by(&mut Wide::new(Plain::new(bytes)), offset, len, n)
    }
}

/// [`bit_select_unset`] for vectors of 32 bytes and more: at x86-64-v3 it passes long windows
/// faster, since adders count runs of 64 chunks of 64 bytes and more; at x86-64-v2 it is slower.
pub fn bit_select_unset_wide(bytes: &[u8], offset: usize, len: usize, n: usize) -> Option<usize>
    requires window { InBytes bytes.now offset len }
    ensures place { Selects (complement (bits bytes.now offset len)) n result }
    ensures each { InvertsCount (complement (bits bytes.now offset len)) n result }
{
    if len <= 64 {
        select_few(bytes, offset, len, n, false)
    } else {
        bit_select_unset_by(&mut Wide::new(Plain::new(bytes)), offset, len, n)
    }
}

/// Returns the index of the `n`-th bit that is `value`, of at most 64 bits, by one word.
#[inline(always)]
fn select_few(bytes: &[u8], offset: usize, len: usize, n: usize, value: bool) -> Option<usize>
    requires few { len ≤ 64 }
    requires inside { offset + len ≤ 8 * length bytes.now }
    ensures place { Selects (hits value (bits bytes.now offset len)) n result }
    ensures each { InvertsCount (hits value (bits bytes.now offset len)) n result }
{
    let word = read_matches(bytes, offset, len, value);
    if n < word.count_ones() as usize {
        Some(select_in_word(word, n))
    } else {
        None
    }
}

/// Returns the index of the `n`-th set bit, counted from 0, of the `len` bits of `src` from bit
/// `offset` on, or `None` if at most `n` bits are set. The index is relative to bit `offset`. The
/// caller must prove that the window is in bounds and that `offset + len` fits in a `usize`.
///
/// Clause `place` states the result, and clause `each` that every set bit with `n` set bits before
/// it is the result.
///
/// Its looks are at most those of `vb_count::count_ones_by` over the same bits, and so at most
/// `vb_count::most_looks` of `len`. A look is one read of a chunk of 64 bytes, of a word of eight,
/// or of a byte. `G.seen` of a source is its bytes, which no look changes, and the number of looks
/// so far.
pub fn bit_select_by<G: Glance>(src: &mut G, offset: usize, len: usize, n: usize) -> Option<usize>
    requires window { InBytes (G.seen src.old).bytes offset len }
    ensures place { Selects (bits (G.seen src.old).bytes offset len) n result }
    ensures each { InvertsCount (bits (G.seen src.old).bytes offset len) n result }
    ensures looks { LooksAtMost (looks offset len) (G.seen src.old) (G.seen src.new) }
{
    find(src, offset, len, n, true).break_value()
}

/// Returns the index of the `n`-th unset bit, counted from 0, of the `len` bits of `src` from bit
/// `offset` on, or `None` if at most `n` bits are unset. The index is relative to bit `offset`. The
/// caller must prove that the window is in bounds and that `offset + len` fits in a `usize`.
///
/// Clause `place` states the result, and clause `each` that every unset bit with `n` unset bits
/// before it is the result.
///
/// Its looks are at most those of `vb_count::count_ones_by` over the same bits, and so at most
/// `vb_count::most_looks` of `len`. A look is one read of a chunk of 64 bytes, of a word of eight,
/// or of a byte. `G.seen` of a source is its bytes, which no look changes, and the number of looks
/// so far.
pub fn bit_select_unset_by<G: Glance>(
    src: &mut G,
    offset: usize,
    len: usize,
    n: usize,
) -> Option<usize>
    requires window { InBytes (G.seen src.old).bytes offset len }
    ensures place { Selects (complement (bits (G.seen src.old).bytes offset len)) n result }
    ensures each { InvertsCount (complement (bits (G.seen src.old).bytes offset len)) n result }
    ensures looks { LooksAtMost (looks offset len) (G.seen src.old) (G.seen src.new) }
{
    find(src, offset, len, n, false).break_value()
}

/// Searches the window, part by part, for the `n`-th bit that is `value`.
///
/// It is inlined, so that the searches for set and for unset bits each have their own loops.
#[inline(always)]
fn find<G: Glance>(
    src: &mut G,
    offset: usize,
    len: usize,
    n: usize,
    value: bool,
) -> ControlFlow<usize, usize>
    requires window { InBytes (G.seen src.old).bytes offset len }
    ensures found { Searched (hits value (bits (G.seen src.old).bytes offset len)) n result }
    ensures looks { LooksAtMost (looks offset len) (G.seen src.old) (G.seen src.new) }
{
    let parts = Parts::of(offset, len);
    let mut search = Search {
        offset,
        from: 0,
        n,
        value,
    };
    search.n = find_in_part(src, search, parts.head)?;
    search.from = parts.head;
    search.n = find_in_chunks(src, search, parts.chunks)?;
    search.from += 512 * parts.chunks;
    find_in_rest(src, search, parts.rest)
}

/// Searches this number of chunks: few by their words, many by counting them first.
#[inline(always)]
fn find_in_chunks<G: Glance>(
    src: &mut G,
    search: Search,
    chunks: usize,
) -> ControlFlow<usize, usize>
    requires aligned { 0 < chunks → (search.offset + search.from) % 8 ≡ 0 }
    requires within { IsWithin (G.seen src.old).bytes search (512 * chunks) }
    ensures found { SearchAnswers (G.seen src.old).bytes search (512 * chunks) result }
    ensures looks { LooksAtMost chunks (G.seen src.old) (G.seen src.new) }
{
    if SHORT_RUN_CHUNKS < chunks {
        return find_in_long_run(src, search, chunks);
    }
    if MIN_COUNTED_CHUNKS <= chunks {
        return find_in_many_chunks(src, search, chunks);
    }
    let mut left = search.n;
    for k in 0..chunks {
        let chunk = src.chunk((search.offset + search.from) / 8 + 64 * k);
        match find_in_chunk(&chunk, left, search.value) {
            ControlFlow::Break(place) => return ControlFlow::Break(search.from + 512 * k + place),
            ControlFlow::Continue(rest) => left = rest,
        }
    }
    ControlFlow::Continue(left)
}

/// Searches this number of chunks by counting them first.
///
/// It isn't inlined, so that the search of a short window saves no registers for it.
#[inline(never)]
fn find_in_many_chunks<G: Glance>(
    src: &mut G,
    mut search: Search,
    chunks: usize,
) -> ControlFlow<usize, usize>
    requires aligned { 0 < chunks → (search.offset + search.from) % 8 ≡ 0 }
    requires within { IsWithin (G.seen src.old).bytes search (512 * chunks) }
    ensures found { SearchAnswers (G.seen src.old).bytes search (512 * chunks) result }
    ensures looks { LooksAtMost chunks (G.seen src.old) (G.seen src.new) }
{
    let at = search.offset + search.from;
    let (passed, left) = pass_chunks(src, at, chunks, search.n, search.value);
    search.n = left;
    search.from += 512 * passed;
    find_in_units::<[u8; 64], G>(src, search, chunks - passed)
}

/// Passes chunks from bit `at` on that can't hold the `n`-th bit that is `value`. Returns how many
/// of the `chunks` it passed, and the rank that is left after them.
///
/// `n / 512` chunks have at most `n` bits, so the sought bit comes after them. It counts them as
/// fast as [`add_chunks`] does, and searches none of them. It repeats this for the rank that is
/// left.
fn pass_chunks<G: Glance>(
    src: &mut G,
    at: usize,
    chunks: usize,
    n: usize,
    value: bool,
) -> (usize, usize)
    requires aligned { 0 < chunks → at % 8 ≡ 0 }
    requires window { InBytes (G.seen src.old).bytes at (512 * chunks) }
    ensures within { result.0 ≤ chunks }
    ensures passed { n ≡ result.1
        + count (hits value (bits (G.seen src.old).bytes at (512 * result.0))) }
    ensures looks { LooksExactly result.0 (G.seen src.old) (G.seen src.new) }
{
    let mut passed = 0;
    let mut left = n;
    loop {
        let sure = (left / 512).min(chunks - passed);
        if sure < MIN_COUNTED_CHUNKS {
            return (passed, left);
        }
        left -= count_matching(src, at / 8 + 64 * passed, sure, value);
        passed += sure;
    }
}

/// Searches more chunks than [`SHORT_RUN_CHUNKS`], by counting also chunks that may hold the bit.
#[inline(never)]
fn find_in_long_run<G: Glance>(
    src: &mut G,
    mut search: Search,
    chunks: usize,
) -> ControlFlow<usize, usize>
    requires aligned { 0 < chunks → (search.offset + search.from) % 8 ≡ 0 }
    requires within { IsWithin (G.seen src.old).bytes search (512 * chunks) }
    ensures found { SearchAnswers (G.seen src.old).bytes search (512 * chunks) result }
    ensures looks { LooksAtMost chunks (G.seen src.old) (G.seen src.new) }
{
    let first = searched_first(search.n).min(chunks);
    search.n = find_in_units::<[u8; 64], G>(src, search, first)?;
    search.from += 512 * first;
    let at = search.offset + search.from;
    let stretch = narrow(src, at, chunks - first, search.n, search.value);
    search.n = stretch.left;
    search.from += 512 * stretch.passed;
    find_in_units::<[u8; 64], G>(src, search, stretch.chunks)
}

/// Narrows this number of chunks from bit `at` on down to the few in which to search for the `n`-th
/// bit that is `value`.
///
/// It counts chunks as fast as [`add_chunks`] does. It passes those that don't hold the bit. If
/// chunks hold it, it narrows these down, and never looks at the chunks after them.
fn narrow<G: Glance>(src: &mut G, at: usize, chunks: usize, n: usize, value: bool) -> Stretch
    requires aligned { 0 < chunks → at % 8 ≡ 0 }
    requires window { InBytes (G.seen src.old).bytes at (512 * chunks) }
    ensures within { result.passed + result.chunks ≤ chunks }
    ensures passed { n ≡ result.left
        + count (hits value (bits (G.seen src.old).bytes at (512 * result.passed))) }
    ensures held { result.passed + result.chunks < chunks → result.left < count (hits value
        (bits (G.seen src.old).bytes (at + 512 * result.passed) (512 * result.chunks))) }
    ensures looks { LooksAtMost (chunks - result.chunks) (G.seen src.old) (G.seen src.new) }
{
    let mut stretch = Stretch {
        passed: 0,
        chunks,
        left: n,
    };
    loop {
        let block = stretch.block(n);
        if block < MIN_COUNTED_CHUNKS {
            return stretch;
        }
        let here = count_matching(src, at / 8 + 64 * stretch.passed, block, value);
        if stretch.left < here {
            stretch.chunks = block;
        } else {
            stretch.passed += block;
            stretch.chunks -= block;
            stretch.left -= here;
        }
    }
}

/// Returns the number of bits that are `value` in `n` chunks from byte `at` on.
#[tactic(auto, using(vb_bits::proofs::BitsLemmas::windows))]
fn count_matching<G: Glance>(src: &mut G, at: usize, n: usize, value: bool) -> usize
    requires inside { at + 64 * n ≤ length (G.seen src.old).bytes }
    requires fits { 8 * at + 512 * n < 2 ^ 64 }
    ensures value { result
        ≡ count (hits value (bits (G.seen src.old).bytes (8 * at) (512 * n))) }
    ensures looks { LooksExactly n (G.seen src.old) (G.seen src.new) }
{
    let ones = add_chunks(src, at, n, 0);
    if value { ones } else { 512 * n - ones }
}
