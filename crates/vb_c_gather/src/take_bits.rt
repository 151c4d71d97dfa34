// Written in part by tools/write-lists from tools/families/take_bits.txt.
//! Bits taken at indices.
ghost use Rattle.std.specs.Prelude.{◌≡◌, ◌+◌, length, map, pos};
ghost use Rattle.std.specs.Option.{ForSome, option_map};
ghost use Rattle.vb_bits.specs.Bits.{bits};
ghost use Rattle.vb_bits.specs.InBytes.{InBytes};
ghost use Rattle.vb_c_core.specs.Fits.{DoneIf};
ghost use Rattle.vb_c_core.specs.Validity.{HasValidity, validity_of};
ghost use Rattle.vb_c_gather.specs.Taken.{TakesAt};
ghost use Rattle.vb_view.specs.View.{bits_of};

use vb_bits::window_fits;
use vb_c_core::Taken;
use vb_core::BitIndex;
use vb_take::take_into_at;
use vb_view::BitBufferView;

/// Takes (gathers) bits at indices of 8 bits: writes the bits at the indices of the window of `len`
/// bits from bit `offset` on to the bits of `out` from bit `o` on, one for each index. Returns the
/// first position that counts and whose index is out of range (not below `len`), if there is one.
///
/// If `all_valid` is true, each position counts, and the validity is ignored. Else a position
/// counts if its bit of `validity`, from bit `v` on, is true; the others get false, and their
/// indices are ignored. Every other bit of `out` is unchanged. If a position is returned, the bits
/// of `out` for the indices are unspecified.
#[inline(always)]
#[unsafe(no_mangle)]
pub extern "C" fn vb_take_bits_u8(
    out: &mut [u8],
    o: usize,
    bytes: &[u8],
    offset: usize,
    len: usize,
    indices: &[u8],
    all_valid: bool,
    validity: &[u8],
    v: usize,
) -> Taken
    requires room { InBytes out.old o (length indices.now) }
    requires window { InBytes bytes.now offset len }
    requires validity { HasValidity all_valid validity.now v (length indices.now) }
    ensures { TakesAt (bits bytes.now offset len) (map pos indices.now)
        (validity_of all_valid validity.now v (length indices.now)) out.old out.new o result }
{
    // It is inlined, as `take` is: a call would copy the arguments on the stack.
    let window = BitBufferView::new_with_offset(bytes, len, offset);
    take(out, o, window, indices, all_valid, validity, v)
}

/// Returns whether all windows are in their bytes, those of `out` and `validity` with a bit for
/// each index; a validity that is ignored need not be. If so, does [`vb_take_bits_u8`] and writes
/// its result to `taken`; else leaves `out` and `taken` unchanged.
#[unsafe(no_mangle)]
pub extern "C" fn vb_try_take_bits_u8(
    out: &mut [u8],
    o: usize,
    bytes: &[u8],
    offset: usize,
    len: usize,
    indices: &[u8],
    all_valid: bool,
    validity: &[u8],
    v: usize,
    taken: &mut Taken,
) -> bool
    ensures { DoneIf (InBytes out.old o (length indices.now) × InBytes bytes.now offset len
        × HasValidity all_valid validity.now v (length indices.now))
        (TakesAt (bits bytes.now offset len) (map pos indices.now)
        (validity_of all_valid validity.now v (length indices.now)) out.old out.new o taken.new)
        ((out.new ≡ out.old) × (taken.new ≡ taken.old)) result }
{
    if !window_fits(out, o, indices.len())
        || !window_fits(bytes, offset, len)
        || !all_valid && !window_fits(validity, v, indices.len())
    {
        return false;
    }
    *taken = vb_take_bits_u8(out, o, bytes, offset, len, indices, all_valid, validity, v);
    true
}

/// Does [`vb_take_bits_u8`] for indices of 16 bits.
#[inline(always)]
#[unsafe(no_mangle)]
pub extern "C" fn vb_take_bits_u16(
    out: &mut [u8],
    o: usize,
    bytes: &[u8],
    offset: usize,
    len: usize,
    indices: &[u16],
    all_valid: bool,
    validity: &[u8],
    v: usize,
) -> Taken
    requires room { InBytes out.old o (length indices.now) }
    requires window { InBytes bytes.now offset len }
    requires validity { HasValidity all_valid validity.now v (length indices.now) }
    ensures { TakesAt (bits bytes.now offset len) (map pos indices.now)
        (validity_of all_valid validity.now v (length indices.now)) out.old out.new o result }
{
    // It is inlined, as `take` is: a call would copy the arguments on the stack.
    let window = BitBufferView::new_with_offset(bytes, len, offset);
    take(out, o, window, indices, all_valid, validity, v)
}

/// Returns whether all windows are in their bytes, those of `out` and `validity` with a bit for
/// each index; a validity that is ignored need not be. If so, does [`vb_take_bits_u16`] and writes
/// its result to `taken`; else leaves `out` and `taken` unchanged.
#[unsafe(no_mangle)]
pub extern "C" fn vb_try_take_bits_u16(
    out: &mut [u8],
    o: usize,
    bytes: &[u8],
    offset: usize,
    len: usize,
    indices: &[u16],
    all_valid: bool,
    validity: &[u8],
    v: usize,
    taken: &mut Taken,
) -> bool
    ensures { DoneIf (InBytes out.old o (length indices.now) × InBytes bytes.now offset len
        × HasValidity all_valid validity.now v (length indices.now))
        (TakesAt (bits bytes.now offset len) (map pos indices.now)
        (validity_of all_valid validity.now v (length indices.now)) out.old out.new o taken.new)
        ((out.new ≡ out.old) × (taken.new ≡ taken.old)) result }
{
    if !window_fits(out, o, indices.len())
        || !window_fits(bytes, offset, len)
        || !all_valid && !window_fits(validity, v, indices.len())
    {
        return false;
    }
    *taken = vb_take_bits_u16(out, o, bytes, offset, len, indices, all_valid, validity, v);
    true
}

/// Does [`vb_take_bits_u8`] for indices of 32 bits.
#[inline(always)]
#[unsafe(no_mangle)]
pub extern "C" fn vb_take_bits_u32(
    out: &mut [u8],
    o: usize,
    bytes: &[u8],
    offset: usize,
    len: usize,
    indices: &[u32],
    all_valid: bool,
    validity: &[u8],
    v: usize,
) -> Taken
    requires room { InBytes out.old o (length indices.now) }
    requires window { InBytes bytes.now offset len }
    requires validity { HasValidity all_valid validity.now v (length indices.now) }
    ensures { TakesAt (bits bytes.now offset len) (map pos indices.now)
        (validity_of all_valid validity.now v (length indices.now)) out.old out.new o result }
{
    // It is inlined, as `take` is: a call would copy the arguments on the stack.
    let window = BitBufferView::new_with_offset(bytes, len, offset);
    take(out, o, window, indices, all_valid, validity, v)
}

/// Returns whether all windows are in their bytes, those of `out` and `validity` with a bit for
/// each index; a validity that is ignored need not be. If so, does [`vb_take_bits_u32`] and writes
/// its result to `taken`; else leaves `out` and `taken` unchanged.
#[unsafe(no_mangle)]
pub extern "C" fn vb_try_take_bits_u32(
    out: &mut [u8],
    o: usize,
    bytes: &[u8],
    offset: usize,
    len: usize,
    indices: &[u32],
    all_valid: bool,
    validity: &[u8],
    v: usize,
    taken: &mut Taken,
) -> bool
    ensures { DoneIf (InBytes out.old o (length indices.now) × InBytes bytes.now offset len
        × HasValidity all_valid validity.now v (length indices.now))
        (TakesAt (bits bytes.now offset len) (map pos indices.now)
        (validity_of all_valid validity.now v (length indices.now)) out.old out.new o taken.new)
        ((out.new ≡ out.old) × (taken.new ≡ taken.old)) result }
{
    if !window_fits(out, o, indices.len())
        || !window_fits(bytes, offset, len)
        || !all_valid && !window_fits(validity, v, indices.len())
    {
        return false;
    }
    *taken = vb_take_bits_u32(out, o, bytes, offset, len, indices, all_valid, validity, v);
    true
}

/// Does [`vb_take_bits_u8`] for indices of 64 bits.
#[inline(always)]
#[unsafe(no_mangle)]
pub extern "C" fn vb_take_bits_u64(
    out: &mut [u8],
    o: usize,
    bytes: &[u8],
    offset: usize,
    len: usize,
    indices: &[u64],
    all_valid: bool,
    validity: &[u8],
    v: usize,
) -> Taken
    requires room { InBytes out.old o (length indices.now) }
    requires window { InBytes bytes.now offset len }
    requires validity { HasValidity all_valid validity.now v (length indices.now) }
    ensures { TakesAt (bits bytes.now offset len) (map pos indices.now)
        (validity_of all_valid validity.now v (length indices.now)) out.old out.new o result }
{
    // It is inlined, as `take` is: a call would copy the arguments on the stack.
    let window = BitBufferView::new_with_offset(bytes, len, offset);
    take(out, o, window, indices, all_valid, validity, v)
}

/// Returns whether all windows are in their bytes, those of `out` and `validity` with a bit for
/// each index; a validity that is ignored need not be. If so, does [`vb_take_bits_u64`] and writes
/// its result to `taken`; else leaves `out` and `taken` unchanged.
#[unsafe(no_mangle)]
pub extern "C" fn vb_try_take_bits_u64(
    out: &mut [u8],
    o: usize,
    bytes: &[u8],
    offset: usize,
    len: usize,
    indices: &[u64],
    all_valid: bool,
    validity: &[u8],
    v: usize,
    taken: &mut Taken,
) -> bool
    ensures { DoneIf (InBytes out.old o (length indices.now) × InBytes bytes.now offset len
        × HasValidity all_valid validity.now v (length indices.now))
        (TakesAt (bits bytes.now offset len) (map pos indices.now)
        (validity_of all_valid validity.now v (length indices.now)) out.old out.new o taken.new)
        ((out.new ≡ out.old) × (taken.new ≡ taken.old)) result }
{
    if !window_fits(out, o, indices.len())
        || !window_fits(bytes, offset, len)
        || !all_valid && !window_fits(validity, v, indices.len())
    {
        return false;
    }
    *taken = vb_take_bits_u64(out, o, bytes, offset, len, indices, all_valid, validity, v);
    true
}

/// Does [`vb_take_bits_u8`] for indices of any type. Passes the kernel only the bytes that have one
/// of the bits to write, so it can store no others.
///
/// Inlined, since a call would copy the arguments on the stack.
#[inline(always)]
fn take<I: BitIndex>(
    out: &mut [u8],
    o: usize,
    window: BitBufferView<'_>,
    indices: &[I],
    all_valid: bool,
    validity: &[u8],
    v: usize,
) -> Taken
    requires room { InBytes out.old o (length indices.now) }
    requires validity { HasValidity all_valid validity.now v (length indices.now) }
    ensures { TakesAt (bits_of window.entry) (map I.number indices.now)
        (validity_of all_valid validity.now v (length indices.now)) out.old out.new o result }
{
    let end = (o + indices.len()).div_ceil(8);
    let part = &mut out[o / 8..end];
    let valid = valid_part(all_valid, validity, v, indices.len());
    take_from(part, o % 8, window, indices, valid)
}

/// Does [`take`] with a view of the validity, and may store any byte of `out`.
#[inline(always)]
fn take_from<I: BitIndex>(
    out: &mut [u8],
    o: usize,
    window: BitBufferView<'_>,
    indices: &[I],
    validity: Option<BitBufferView<'_>>,
) -> Taken
    requires room { InBytes out.old o (length indices.now) }
    requires validity { ForSome validity (λ v. length (bits_of v) ≡ length indices.now) }
    ensures { TakesAt (bits_of window.entry) (map I.number indices.now)
        (option_map bits_of validity.entry) out.old out.new o result }
{
    take_into_at(out, o, window, indices, validity).err().into()
}

/// Returns the validity of `n` positions; `None` if each counts.
pub(crate) fn valid_part(
    all_valid: bool,
    validity: &[u8],
    v: usize,
    n: usize,
) -> Option<BitBufferView<'_>>
    requires { HasValidity all_valid validity.now v n }
    ensures valid { option_map bits_of result ≡ validity_of all_valid validity.now v n }
    ensures len { ForSome result (λ view. length (bits_of view) ≡ n) }
{
    if all_valid {
        None
    } else {
        Some(BitBufferView::new_with_offset(validity, n, v))
    }
}
