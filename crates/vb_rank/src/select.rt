// Written in part by tools/write-lists from tools/families/selects.txt.
//! The index of a bit by its rank, over a table.
ghost use Rattle.std.specs.Prelude.{◌≡◌, ℕ, List, ◌+◌, ◌*◌, ◌^◌, ◌<◌, ◌≤◌, length};
ghost use Rattle.vb_bits.specs.Bits.{bits, complement, count, Selects, InvertsCount};
ghost use Rattle.vb_bits.specs.Digits.{digits};
ghost use Rattle.vb_bits.specs.InBytes.{InBytes};
ghost use Rattle.vb_count.specs.Looks.{LooksAtMost};
ghost use Rattle.vb_count.specs.Hits.{hits};
ghost use Rattle.vb_rank.specs.Tables.{blocks, binary_digits, block_counts, BeginsBefore};
ghost use Rattle.vb_rank.specs.Tables.{ProbesAtMost, IsTableOf};

use crate::block::find_block;
use crate::level::Entries;
use crate::probe::Probe;
use crate::size::BLOCK_BITS;
use vb_bits::{full_word, select_in_word};
use vb_count::{Glance, digit_ones, matching_word};
use vb_select::{bit_select_by, bit_select_unset_by};

/// Returns the index of the `n`-th set bit of the window, counted from 0; `None` if at most `n` of
/// its bits are set. The window is the `len` bits from bit `offset` on, and index 0 is its first
/// bit.
///
/// The window must be in the bytes of `src`, and `offset + len` must fit in a `usize`. The table
/// must have exactly `len.div_ceil(512)` entries. The result is right if entry `j` is the number of
/// set bits among the first `512 * j` bits of the window, as in the table that
/// [`table_of`](crate::table_of) builds; with other entries it is unspecified.
///
/// A look is a read of up to 64 bytes of `src`, and a probe is the read of an entry. Whatever the
/// entries are, the call makes at most 16 looks, and at most one probe for each binary digit of
/// `len.div_ceil(512) + 1`.
pub fn select_by<G: Glance, T: Probe>(
    src: &mut G,
    offset: usize,
    len: usize,
    table: &mut T,
    n: usize,
) -> Option<usize>
    requires window { InBytes (G.seen src.old).bytes offset len }
    requires size { length (T.seen table.old).entries ≡ blocks len }
    ensures place { IsTableOf (T.seen table.old) (bits (G.seen src.old).bytes offset len)
        → Selects (bits (G.seen src.old).bytes offset len) n result }
    ensures each { IsTableOf (T.seen table.old) (bits (G.seen src.old).bytes offset len)
        → InvertsCount (bits (G.seen src.old).bytes offset len) n result }
    ensures looks { LooksAtMost 16 (G.seen src.old) (G.seen src.new) }
    ensures probes { ProbesAtMost (binary_digits (blocks len + 1))
        (T.seen table.old) (T.seen table.new) }
{
    select_value_by(src, offset, len, table, n, true)
}

/// Returns the index of the `n`-th unset bit of the window, counted from 0; `None` if at most `n`
/// of its bits are unset. The window is the `len` bits from bit `offset` on, and index 0 is its
/// first bit.
///
/// The window must be in the bytes of `src`, and `offset + len` must fit in a `usize`. The table
/// must have exactly `len.div_ceil(512)` entries. The result is right if entry `j` is the number of
/// set bits among the first `512 * j` bits of the window, as in the table that
/// [`table_of`](crate::table_of) builds; with other entries it is unspecified.
///
/// A look is a read of up to 64 bytes of `src`, and a probe is the read of an entry. Whatever the
/// entries are, the call makes at most 16 looks, and at most one probe for each binary digit of
/// `len.div_ceil(512) + 1`.
pub fn select_unset_by<G: Glance, T: Probe>(
    src: &mut G,
    offset: usize,
    len: usize,
    table: &mut T,
    n: usize,
) -> Option<usize>
    requires window { InBytes (G.seen src.old).bytes offset len }
    requires size { length (T.seen table.old).entries ≡ blocks len }
    ensures place { IsTableOf (T.seen table.old) (bits (G.seen src.old).bytes offset len)
        → Selects (complement (bits (G.seen src.old).bytes offset len)) n result }
    ensures each { IsTableOf (T.seen table.old) (bits (G.seen src.old).bytes offset len)
        → InvertsCount (complement (bits (G.seen src.old).bytes offset len)) n result }
    ensures looks { LooksAtMost 16 (G.seen src.old) (G.seen src.new) }
    ensures probes { ProbesAtMost (binary_digits (blocks len + 1))
        (T.seen table.old) (T.seen table.new) }
{
    select_value_by(src, offset, len, table, n, false)
}

/// Returns the index of the `n`-th bit of the window that is `value`: searches the table for the
/// block of the bit, and then the block.
fn select_value_by<G: Glance, T: Probe>(
    src: &mut G,
    offset: usize,
    len: usize,
    table: &mut T,
    n: usize,
    value: bool,
) -> Option<usize>
    requires window { InBytes (G.seen src.old).bytes offset len }
    requires size { length (T.seen table.old).entries ≡ blocks len }
    ensures place { IsTableOf (T.seen table.old) (bits (G.seen src.old).bytes offset len)
        → Selects (hits value (bits (G.seen src.old).bytes offset len)) n result }
    ensures looks { LooksAtMost 16 (G.seen src.old) (G.seen src.new) }
    ensures probes { ProbesAtMost (binary_digits (blocks len + 1))
        (T.seen table.old) (T.seen table.new) }
{
    if len == 0 {
        return None;
    }
    let size = table.size();
    let found = find_block(table, &Entries, size, BLOCK_BITS, n, value);
    select_from(src, offset, len, found, n, value)
}

/// Returns the index of the `n`-th bit of the window that is `value`; `None` if there are at most
/// `n`. The window is the `len` bits from bit `offset` on; it must be in the bytes of `src`, and
/// `offset + len` must fit in a `usize`. `found` is the block that has the bit, and the number of
/// such bits before the block, as [`find_block`] returns them; with another pair the result is
/// unspecified. The block must begin before `len`, and that number must be at most `n`. Makes at
/// most 16 looks.
pub fn select_from<G: Glance>(
    src: &mut G,
    offset: usize,
    len: usize,
    found: (usize, usize),
    n: usize,
    value: bool,
) -> Option<usize>
    requires window { InBytes (G.seen src.old).bytes offset len }
    requires begins { BLOCK_BITS * found.0 < len }
    requires low { found.1 ≤ n }
    ensures place { (t : List ℕ) → t ≡ block_counts (bits (G.seen src.old).bytes offset len)
        → BeginsBefore BLOCK_BITS value t n found.0 found.1
        → Selects (hits value (bits (G.seen src.old).bytes offset len)) n result }
    ensures looks { LooksAtMost 16 (G.seen src.old) (G.seen src.new) }
{
    let (block, before) = found;
    let at = BLOCK_BITS * block;
    let place = select_in_block(
        src,
        offset + at,
        (len - at).min(BLOCK_BITS),
        n - before,
        value,
    )?;
    Some(at + place)
}

/// Returns the index of the `n`-th bit that is `value` among at most 512 bits.
///
/// If the first bit is the first of a byte, and 64 bytes begin there, loads these as one chunk and
/// calls [`select_by_moves`]; else calls [`bit_select_by`] or [`bit_select_unset_by`].
#[tactic(auto, using(crate::proofs::TablesLemmas::looks_of_block))]
fn select_in_block<G: Glance>(
    src: &mut G,
    offset: usize,
    len: usize,
    n: usize,
    value: bool,
) -> Option<usize>
    requires window { InBytes (G.seen src.old).bytes offset len }
    requires block { len ≤ BLOCK_BITS }
    ensures place { Selects (hits value (bits (G.seen src.old).bytes offset len)) n result }
    ensures looks { LooksAtMost 16 (G.seen src.old) (G.seen src.new) }
{
    let first = offset / 8;
    if offset % 8 == 0 && first + 64 <= src.size() {
        let chunk = src.chunk(first);
        let place = select_by_moves(&chunk, n, value)?;
        return if place < len { Some(place) } else { None };
    }
    if value {
        bit_select_by(src, offset, len, n)
    } else {
        bit_select_unset_by(src, offset, len, n)
    }
}

/// Returns the index of the `n`-th bit of the chunk that is `value`. Finds its word, and halves it,
/// by conditional moves instead of branches. So the selects that follow need not wait for the bits
/// of this one.
pub(crate) fn select_by_moves(chunk: &[u8; 64], n: usize, value: bool) -> Option<usize>
    ensures { Selects (hits value (bits chunk.now 0 512)) n result }
{
    let (k, before, word) = find_word(chunk, n, value);
    let left = n - before;
    if left < digit_ones(word) {
        Some(64 * k + select_in_word(word, left))
    } else {
        None
    }
}

/// Returns the word of the chunk that has the `n`-th bit that is `value`: its number, the number of
/// such bits before it, and the word as [`word_of`] returns it. Returns the last word if none has
/// the bit. Counts all words but the last one.
fn find_word(chunk: &[u8; 64], n: usize, value: bool) -> (usize, usize, u64)
    ensures within { result.0 < 8 }
    ensures low { result.1 ≤ n }
    ensures before { result.1 ≡ count (hits value (bits chunk.now 0 (64 * result.0))) }
    ensures high { result.0 < 7
        → n < count (hits value (bits chunk.now 0 (64 * (result.0 + 1)))) }
    ensures word { digits result.2 0 64 ≡ hits value (bits chunk.now (64 * result.0) 64) }
{
    let mut at = 0;
    let mut before = 0;
    let mut word = word_of(chunk, 0, value);
    let mut seen = 0;
    for k in 0..7 {
        seen += digit_ones(word_of(chunk, k, value));
        // Moving the word too avoids a load by its number, for which the chunk would have to stay
        // in memory.
        if seen <= n {
            at = k + 1;
            before = seen;
            word = word_of(chunk, k + 1, value);
        }
    }
    (at, before, word)
}

/// Returns word `k` of the chunk, with a 1 for each bit that is `value`.
fn word_of(chunk: &[u8; 64], k: usize, value: bool) -> u64
    requires { k < 8 }
    ensures { digits result 0 64 ≡ hits value (bits chunk.now (64 * k) 64) }
{
    matching_word(full_word(chunk, 8 * k, 0), value)
}
