// Written in part by tools/write-lists from tools/families/selects.txt.
//! Ranks and selects over a table of counts that the caller keeps.
ghost use Rattle.std.specs.Prelude.{◌≡◌, ◌≤◌, ◌↔◌, IsTrue, take};
ghost use Rattle.vb_bits.specs.Bits.{bits, count, complement, Selects};
ghost use Rattle.vb_bits.specs.InBytes.{InBytes};
ghost use Rattle.vb_c_core.specs.Fits.{DoneIf};
ghost use Rattle.vb_c_core.specs.Place.{answered_place};
ghost use Rattle.vb_c.specs.Ranked.{HasTable};
ghost use Rattle.vb_bits.specs.Fills.{Fills};
ghost use Rattle.vb_rank.specs.Tables.{block_counts};

use vb_c_core::Place;
use vb_count::Plain;
use vb_rank::PlainTable;

/// Writes the number of set bits before each block of 512 bits of the window, which is the `len`
/// bits from bit `offset` on, to the front of `table`, up to its length. Returns the number of
/// items written. There are `ceil(len / 512)` blocks.
#[unsafe(no_mangle)]
pub extern "C" fn vb_block_counts(
    table: &mut [usize],
    bytes: &[u8],
    offset: usize,
    len: usize,
) -> usize
    requires window { InBytes bytes.now offset len }
    ensures { Fills (block_counts (bits bytes.now offset len)) table.old table.new result }
{
    let blocks = len.div_ceil(512).min(table.len());
    vb_rank::write_block_counts(bytes, offset, len, &mut table[..blocks])
}

/// Returns whether the window is in the bytes. If so, does [`vb_block_counts`] and writes its
/// result to `written`; else leaves `table` and `written` unchanged.
#[unsafe(no_mangle)]
pub extern "C" fn vb_try_block_counts(
    table: &mut [usize],
    bytes: &[u8],
    offset: usize,
    len: usize,
    written: &mut usize,
) -> bool
    ensures { DoneIf (InBytes bytes.now offset len)
        (Fills (block_counts (bits bytes.now offset len)) table.old table.new written.new)
        ((table.new ≡ table.old) × (written.new ≡ written.old)) result }
{
    if !vb_bits::window_fits(bytes, offset, len) {
        return false;
    }
    *written = vb_block_counts(table, bytes, offset, len);
    true
}

/// Returns the number of set bits among the first `index` bits of the window; `index` must be at
/// most `len`. The table must have one entry for each block. If it isn't the one of
/// [`vb_block_counts`], the result is meaningless. Reads one entry, and the bits of one block.
#[unsafe(no_mangle)]
pub extern "C" fn vb_rank(
    bytes: &[u8],
    offset: usize,
    len: usize,
    table: &[usize],
    index: usize,
) -> usize
    requires table { HasTable bytes.now offset len table.now }
    requires within { index ≤ len }
    ensures { table.now ≡ block_counts (bits bytes.now offset len)
        → result ≡ count (take index (bits bytes.now offset len)) }
{
    let table = &mut PlainTable::new(table);
    vb_rank::rank_by(&mut Plain::new(bytes), offset, len, table, index)
}

/// Returns whether the window is in the bytes, the table has one entry for each block, and `index`
/// is at most `len`. If so, writes the result of [`vb_rank`] to `rank`; else leaves it unchanged.
#[unsafe(no_mangle)]
pub extern "C" fn vb_try_rank(
    bytes: &[u8],
    offset: usize,
    len: usize,
    table: &[usize],
    index: usize,
    rank: &mut usize,
) -> bool
    ensures { DoneIf (HasTable bytes.now offset len table.now × (index ≤ len))
        (table.now ≡ block_counts (bits bytes.now offset len)
        → rank.new ≡ count (take index (bits bytes.now offset len)))
        (rank.new ≡ rank.old) result }
{
    if !has_table(bytes, offset, len, table) || len < index {
        return false;
    }
    *rank = vb_rank(bytes, offset, len, table, index);
    true
}

/// Returns the index of the `n`-th set bit of the window, counted from 0, if there is one. Does a
/// binary search of the table, and then searches one block. The table must have one entry for each
/// block. If it isn't the one of [`vb_block_counts`], the result is meaningless.
#[unsafe(no_mangle)]
pub extern "C" fn vb_ranked_select(
    bytes: &[u8],
    offset: usize,
    len: usize,
    table: &[usize],
    n: usize,
) -> Place
    requires { HasTable bytes.now offset len table.now }
    ensures { table.now ≡ block_counts (bits bytes.now offset len)
        → Selects (bits bytes.now offset len) n (answered_place result) }
{
    let table = &mut PlainTable::new(table);
    vb_rank::select_by(&mut Plain::new(bytes), offset, len, table, n).into()
}

/// Returns whether the window is in the bytes, and the table has one entry for each block. If so,
/// writes the result of [`vb_ranked_select`] to `place`; else leaves it unchanged.
#[unsafe(no_mangle)]
pub extern "C" fn vb_try_ranked_select(
    bytes: &[u8],
    offset: usize,
    len: usize,
    table: &[usize],
    n: usize,
    place: &mut Place,
) -> bool
    ensures { DoneIf (HasTable bytes.now offset len table.now)
        (table.now ≡ block_counts (bits bytes.now offset len)
        → Selects (bits bytes.now offset len) n (answered_place place.new))
        (place.new ≡ place.old) result }
{
    if !has_table(bytes, offset, len, table) {
        return false;
    }
    *place = vb_ranked_select(bytes, offset, len, table, n);
    true
}

/// Returns the index of the `n`-th unset bit of the window, counted from 0, if there is one. Does a
/// binary search of the table, and then searches one block. The table must have one entry for each
/// block. If it isn't the one of [`vb_block_counts`], the result is meaningless.
#[unsafe(no_mangle)]
pub extern "C" fn vb_ranked_select_unset(
    bytes: &[u8],
    offset: usize,
    len: usize,
    table: &[usize],
    n: usize,
) -> Place
    requires { HasTable bytes.now offset len table.now }
    ensures { table.now ≡ block_counts (bits bytes.now offset len)
        → Selects (complement (bits bytes.now offset len)) n (answered_place result) }
{
    let table = &mut PlainTable::new(table);
    vb_rank::select_unset_by(&mut Plain::new(bytes), offset, len, table, n).into()
}

/// Returns whether the window is in the bytes, and the table has one entry for each block. If so,
/// writes the result of [`vb_ranked_select_unset`] to `place`; else leaves it unchanged.
#[unsafe(no_mangle)]
pub extern "C" fn vb_try_ranked_select_unset(
    bytes: &[u8],
    offset: usize,
    len: usize,
    table: &[usize],
    n: usize,
    place: &mut Place,
) -> bool
    ensures { DoneIf (HasTable bytes.now offset len table.now)
        (table.now ≡ block_counts (bits bytes.now offset len)
        → Selects (complement (bits bytes.now offset len)) n (answered_place place.new))
        (place.new ≡ place.old) result }
{
    if !has_table(bytes, offset, len, table) {
        return false;
    }
    *place = vb_ranked_select_unset(bytes, offset, len, table, n);
    true
}

/// Returns whether the window is in the bytes, and the table has one entry for each of its blocks.
fn has_table(bytes: &[u8], offset: usize, len: usize, table: &[usize]) -> bool
    ensures { IsTrue result ↔ HasTable bytes.now offset len table.now }
{
    vb_bits::window_fits(bytes, offset, len) && table.len() == len.div_ceil(512)
}
