// Written in part by tools/write-lists from tools/families/selects.txt.
//! Indices of bits by their rank, and of the last set bit.
ghost use Rattle.std.specs.Prelude.{◌≡◌};
ghost use Rattle.vb_bits.specs.Bits.{bits, complement, Selects, InvertsCount};
ghost use Rattle.vb_bits.specs.InBytes.{InBytes};
ghost use Rattle.vb_bits.specs.Runs.{last_place};
ghost use Rattle.vb_c_core.specs.Fits.{DoneIf};
ghost use Rattle.vb_c_core.specs.Place.{answered_place};

use vb_c_core::Place;

/// Returns the index of the `n`-th set bit of the window of `len` bits from bit `offset` on,
/// counted from 0; finds none if at most `n` are set. Counts from the front, 64 bytes at a time, up
/// to the bytes that have it; in a window of more than 4,096 bytes it may also count bytes after
/// these.
#[unsafe(no_mangle)]
pub extern "C" fn vb_select(bytes: &[u8], offset: usize, len: usize, n: usize) -> Place
    requires window { InBytes bytes.now offset len }
    ensures place { Selects (bits bytes.now offset len) n (answered_place result) }
    ensures each { InvertsCount (bits bytes.now offset len) n (answered_place result) }
{
    vb_select::bit_select(bytes, offset, len, n).into()
}

/// Returns the index of the `n`-th unset bit of the window of `len` bits from bit `offset` on,
/// counted from 0; finds none if at most `n` are unset. Costs the same as [`vb_select`].
#[unsafe(no_mangle)]
pub extern "C" fn vb_select_unset(bytes: &[u8], offset: usize, len: usize, n: usize) -> Place
    requires window { InBytes bytes.now offset len }
    ensures place { Selects (complement (bits bytes.now offset len)) n (answered_place result) }
    ensures each { InvertsCount (complement (bits bytes.now offset len)) n (answered_place result) }
{
    vb_select::bit_select_unset(bytes, offset, len, n).into()
}

/// Does [`vb_select`] for vectors of at least 32 bytes: counts with carry-save adders in long
/// windows. It is in no header: from x86-64-v3 on, `bindings/build` renames it to `vb_select`.
#[unsafe(no_mangle)]
pub extern "C" fn vb_select_wide(bytes: &[u8], offset: usize, len: usize, n: usize) -> Place
    requires window { InBytes bytes.now offset len }
    ensures place { Selects (bits bytes.now offset len) n (answered_place result) }
    ensures each { InvertsCount (bits bytes.now offset len) n (answered_place result) }
{
    vb_select::bit_select_wide(bytes, offset, len, n).into()
}

/// Does [`vb_select_unset`] for vectors of at least 32 bytes: counts with carry-save adders in long
/// windows. It is in no header: from x86-64-v3 on, `bindings/build` renames it to
/// `vb_select_unset`.
#[unsafe(no_mangle)]
pub extern "C" fn vb_select_unset_wide(bytes: &[u8], offset: usize, len: usize, n: usize) -> Place
    requires window { InBytes bytes.now offset len }
    ensures place { Selects (complement (bits bytes.now offset len)) n (answered_place result) }
    ensures each { InvertsCount (complement (bits bytes.now offset len)) n (answered_place result) }
{
    vb_select::bit_select_unset_wide(bytes, offset, len, n).into()
}

/// Returns the index of the last set bit of the window of `len` bits from bit `offset` on; finds
/// none if no bit is set. Reads the last word, and then words before it, eight at once.
#[unsafe(no_mangle)]
pub extern "C" fn vb_last_set(bytes: &[u8], offset: usize, len: usize) -> Place
    requires window { InBytes bytes.now offset len }
    ensures { answered_place result ≡ last_place (bits bytes.now offset len) }
{
    vb_select::last_set_index(bytes, offset, len).into()
}

/// Returns whether the window is in the bytes. If so, writes the result of [`vb_select`] to
/// `place`; else leaves it unchanged.
#[unsafe(no_mangle)]
pub extern "C" fn vb_try_select(
    bytes: &[u8],
    offset: usize,
    len: usize,
    n: usize,
    place: &mut Place,
) -> bool
    ensures { DoneIf (InBytes bytes.now offset len)
        (Selects (bits bytes.now offset len) n (answered_place place.new))
        (place.new ≡ place.old) result }
{
    if !vb_bits::window_fits(bytes, offset, len) {
        return false;
    }
    *place = vb_select(bytes, offset, len, n);
    true
}

/// Does [`vb_try_select`] by [`vb_select_wide`], and is renamed like it.
#[unsafe(no_mangle)]
pub extern "C" fn vb_try_select_wide(
    bytes: &[u8],
    offset: usize,
    len: usize,
    n: usize,
    place: &mut Place,
) -> bool
    ensures { DoneIf (InBytes bytes.now offset len)
        (Selects (bits bytes.now offset len) n (answered_place place.new))
        (place.new ≡ place.old) result }
{
    if !vb_bits::window_fits(bytes, offset, len) {
        return false;
    }
    *place = vb_select_wide(bytes, offset, len, n);
    true
}

/// Returns whether the window is in the bytes. If so, writes the result of [`vb_select_unset`] to
/// `place`; else leaves it unchanged.
#[unsafe(no_mangle)]
pub extern "C" fn vb_try_select_unset(
    bytes: &[u8],
    offset: usize,
    len: usize,
    n: usize,
    place: &mut Place,
) -> bool
    ensures { DoneIf (InBytes bytes.now offset len)
        (Selects (complement (bits bytes.now offset len)) n (answered_place place.new))
        (place.new ≡ place.old) result }
{
    if !vb_bits::window_fits(bytes, offset, len) {
        return false;
    }
    *place = vb_select_unset(bytes, offset, len, n);
    true
}

/// Does [`vb_try_select_unset`] by [`vb_select_unset_wide`], and is renamed like it.
#[unsafe(no_mangle)]
pub extern "C" fn vb_try_select_unset_wide(
    bytes: &[u8],
    offset: usize,
    len: usize,
    n: usize,
    place: &mut Place,
) -> bool
    ensures { DoneIf (InBytes bytes.now offset len)
        (Selects (complement (bits bytes.now offset len)) n (answered_place place.new))
        (place.new ≡ place.old) result }
{
    if !vb_bits::window_fits(bytes, offset, len) {
        return false;
    }
    *place = vb_select_unset_wide(bytes, offset, len, n);
    true
}

/// Returns whether the window is in the bytes. If so, writes the result of [`vb_last_set`] to
/// `place`; else leaves it unchanged.
#[unsafe(no_mangle)]
pub extern "C" fn vb_try_last_set(
    bytes: &[u8],
    offset: usize,
    len: usize,
    place: &mut Place,
) -> bool
    ensures { DoneIf (InBytes bytes.now offset len)
        (answered_place place.new ≡ last_place (bits bytes.now offset len))
        (place.new ≡ place.old) result }
{
    if !vb_bits::window_fits(bytes, offset, len) {
        return false;
    }
    *place = vb_last_set(bytes, offset, len);
    true
}
