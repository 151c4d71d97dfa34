// Written in part by tools/write-lists from tools/families/questions.txt.
//! The nearest bits at or after an index, and before one, and whether there are any.
ghost use Rattle.std.specs.Prelude.{◌≡◌, ◌↔◌, ◌<◌, IsTrue};
ghost use Rattle.vb_bits.specs.Bits.{bits, complement, count};
ghost use Rattle.vb_bits.specs.InBytes.{InBytes};
ghost use Rattle.vb_bits.specs.Nearest.{IsNext, IsPrevious};
ghost use Rattle.vb_c_core.specs.Fits.{DoneIf};
ghost use Rattle.vb_c_core.specs.Place.{answered_place};

use vb_bits::window_fits;
use vb_c_core::Place;

/// Returns the index of the first set bit at or after index `from` of the `len` bits from bit
/// `offset` on; finds none if there is none, or if `from` is at least `len`. Reads a word, then the
/// next one, and then four words at a time, up to those that have the bit.
#[unsafe(no_mangle)]
pub extern "C" fn vb_next_set(bytes: &[u8], offset: usize, len: usize, from: usize) -> Place
    requires window { InBytes bytes.now offset len }
    ensures { IsNext (bits bytes.now offset len) from (answered_place result) }
{
    vb_select::next_set(bytes, offset, len, from).into()
}

/// Returns whether the window is in the bytes. If so, writes the result of [`vb_next_set`] to
/// `place`; else leaves it unchanged.
#[unsafe(no_mangle)]
pub extern "C" fn vb_try_next_set(
    bytes: &[u8],
    offset: usize,
    len: usize,
    from: usize,
    place: &mut Place,
) -> bool
    ensures { DoneIf (InBytes bytes.now offset len)
        (IsNext (bits bytes.now offset len) from (answered_place place.new))
        (place.new ≡ place.old) result }
{
    if !window_fits(bytes, offset, len) {
        return false;
    }
    *place = vb_next_set(bytes, offset, len, from);
    true
}

/// Returns the index of the first unset bit at or after index `from` of the `len` bits from bit
/// `offset` on; finds none if there is none, or if `from` is at least `len`. Reads as
/// [`vb_next_set`] does.
#[unsafe(no_mangle)]
pub extern "C" fn vb_next_unset(bytes: &[u8], offset: usize, len: usize, from: usize) -> Place
    requires window { InBytes bytes.now offset len }
    ensures { IsNext (complement (bits bytes.now offset len)) from (answered_place result) }
{
    vb_select::next_unset(bytes, offset, len, from).into()
}

/// Returns whether the window is in the bytes. If so, writes the result of [`vb_next_unset`] to
/// `place`; else leaves it unchanged.
#[unsafe(no_mangle)]
pub extern "C" fn vb_try_next_unset(
    bytes: &[u8],
    offset: usize,
    len: usize,
    from: usize,
    place: &mut Place,
) -> bool
    ensures { DoneIf (InBytes bytes.now offset len)
        (IsNext (complement (bits bytes.now offset len)) from (answered_place place.new))
        (place.new ≡ place.old) result }
{
    if !window_fits(bytes, offset, len) {
        return false;
    }
    *place = vb_next_unset(bytes, offset, len, from);
    true
}

/// Returns the index of the last set bit before index `before` of the `len` bits from bit `offset`
/// on; finds none if there is none. A `before` of at least `len` searches all bits. Reads the word
/// before that index, and then words towards the front, eight at once.
#[unsafe(no_mangle)]
pub extern "C" fn vb_previous_set(bytes: &[u8], offset: usize, len: usize, before: usize) -> Place
    requires window { InBytes bytes.now offset len }
    ensures { IsPrevious (bits bytes.now offset len) before (answered_place result) }
{
    vb_select::previous_set(bytes, offset, len, before).into()
}

/// Returns whether the window is in the bytes. If so, writes the result of [`vb_previous_set`] to
/// `place`; else leaves it unchanged.
#[unsafe(no_mangle)]
pub extern "C" fn vb_try_previous_set(
    bytes: &[u8],
    offset: usize,
    len: usize,
    before: usize,
    place: &mut Place,
) -> bool
    ensures { DoneIf (InBytes bytes.now offset len)
        (IsPrevious (bits bytes.now offset len) before (answered_place place.new))
        (place.new ≡ place.old) result }
{
    if !window_fits(bytes, offset, len) {
        return false;
    }
    *place = vb_previous_set(bytes, offset, len, before);
    true
}

/// Returns the index of the last unset bit before index `before` of the `len` bits from bit
/// `offset` on; finds none if there is none. A `before` of at least `len` searches all bits. Reads
/// as [`vb_previous_set`] does.
#[unsafe(no_mangle)]
pub extern "C" fn vb_previous_unset(bytes: &[u8], offset: usize, len: usize, before: usize) -> Place
    requires window { InBytes bytes.now offset len }
    ensures { IsPrevious (complement (bits bytes.now offset len)) before (answered_place result) }
{
    vb_select::previous_unset(bytes, offset, len, before).into()
}

/// Returns whether the window is in the bytes. If so, writes the result of [`vb_previous_unset`] to
/// `place`; else leaves it unchanged.
#[unsafe(no_mangle)]
pub extern "C" fn vb_try_previous_unset(
    bytes: &[u8],
    offset: usize,
    len: usize,
    before: usize,
    place: &mut Place,
) -> bool
    ensures { DoneIf (InBytes bytes.now offset len)
        (IsPrevious (complement (bits bytes.now offset len)) before (answered_place place.new))
        (place.new ≡ place.old) result }
{
    if !window_fits(bytes, offset, len) {
        return false;
    }
    *place = vb_previous_unset(bytes, offset, len, before);
    true
}

/// Returns whether any of the `len` bits from bit `offset` on is set (false for no bits). Reads up
/// to 64 bits as one word; of more bits the first eight bytes, then the last eight, then the words
/// between, eight at once, up to those with a set bit.
#[unsafe(no_mangle)]
pub extern "C" fn vb_any_set(bytes: &[u8], offset: usize, len: usize) -> bool
    requires window { InBytes bytes.now offset len }
    ensures { IsTrue result ↔ (0 < count (bits bytes.now offset len)) }
{
    vb_select::any_set(bytes, offset, len)
}

/// Returns whether the window is in the bytes. If so, writes the result of [`vb_any_set`] to `any`;
/// else leaves it unchanged.
#[unsafe(no_mangle)]
pub extern "C" fn vb_try_any_set(bytes: &[u8], offset: usize, len: usize, any: &mut bool) -> bool
    ensures { DoneIf (InBytes bytes.now offset len)
        (IsTrue any.new ↔ (0 < count (bits bytes.now offset len))) (any.new ≡ any.old) result }
{
    if !window_fits(bytes, offset, len) {
        return false;
    }
    *any = vb_any_set(bytes, offset, len);
    true
}

/// Returns whether all of the `len` bits from bit `offset` on are set (true for no bits). Reads as
/// [`vb_any_set`] does, up to the bytes or words with an unset bit.
#[unsafe(no_mangle)]
pub extern "C" fn vb_all_set(bytes: &[u8], offset: usize, len: usize) -> bool
    requires window { InBytes bytes.now offset len }
    ensures { IsTrue result ↔ (count (bits bytes.now offset len) ≡ len) }
{
    vb_select::all_set(bytes, offset, len)
}

/// Returns whether the window is in the bytes. If so, writes the result of [`vb_all_set`] to `all`;
/// else leaves it unchanged.
#[unsafe(no_mangle)]
pub extern "C" fn vb_try_all_set(bytes: &[u8], offset: usize, len: usize, all: &mut bool) -> bool
    ensures { DoneIf (InBytes bytes.now offset len)
        (IsTrue all.new ↔ (count (bits bytes.now offset len) ≡ len)) (all.new ≡ all.old) result }
{
    if !window_fits(bytes, offset, len) {
        return false;
    }
    *all = vb_all_set(bytes, offset, len);
    true
}
