//! Truth values packed into bits.
ghost use Rattle.std.specs.Prelude.{◌≡◌, ◌*◌, ◌≤◌, ◌==◌, not, length, map};
ghost use Rattle.vb_bits.specs.InBytes.{InBytes};
ghost use Rattle.vb_bits.specs.Writes.{Writes};
ghost use Rattle.vb_c_core.specs.Fits.{DoneIf};
ghost use Rattle.vb_c_gather.specs.Packed.{Packs};

use vb_bits::window_fits;
use vb_compare::{Comparison, compare_into};

/// Packs bytes into the bits of `out` from bit `o` on, one bit per byte: true if the byte isn't 0.
/// The bits must be in `out`. Every other bit of `out` is unchanged.
///
/// Compares 64 bytes at a time with 0, by vectors.
#[unsafe(no_mangle)]
pub extern "C" fn vb_pack_truthy(out: &mut [u8], o: usize, truthy: &[u8])
    requires { InBytes out.old o (length truthy.now) }
    ensures { Writes out.old out.new o (map (λ x. not (x == 0)) truthy.now) }
{
    let end = (o + truthy.len()).div_ceil(8);
    pack_within(&mut out[o / 8..end], o % 8, truthy);
}

/// Returns whether `out` has the bits, one for each byte. If so, does [`vb_pack_truthy`]; else
/// leaves `out` unchanged.
#[unsafe(no_mangle)]
pub extern "C" fn vb_try_pack_truthy(out: &mut [u8], o: usize, truthy: &[u8]) -> bool
    ensures { DoneIf (InBytes out.old o (length truthy.now))
        (Writes out.old out.new o (map (λ x. not (x == 0)) truthy.now)) (out.new ≡ out.old) result }
{
    if !window_fits(out, o, truthy.len()) {
        return false;
    }
    vb_pack_truthy(out, o, truthy);
    true
}

/// Does [`vb_pack_truthy`], and may store any byte of `out`.
fn pack_within(out: &mut [u8], o: usize, truthy: &[u8])
    requires { InBytes out.old o (length truthy.now) }
    ensures { Writes out.old out.new o (map (λ x. not (x == 0)) truthy.now) }
{
    compare_into(out, o, truthy, Comparison::NotEqual, 0);
}

/// Packs truth values into the first bytes of `out`, eight into each. `out` must have a bit for
/// each value. The remaining bits of the last byte written are false, and later bytes are
/// unchanged.
#[unsafe(no_mangle)]
pub extern "C" fn vb_pack_bools_padded(out: &mut [u8], bools: &[bool])
    requires { length bools.now ≤ 8 * length out.old }
    ensures { Packs bools.now out.old out.new }
{
    vb_pack::pack_bools(&mut out[..bools.len().div_ceil(8)], bools);
}

/// Returns whether `out` has a bit for each value. If so, does [`vb_pack_bools_padded`]; else
/// leaves `out` unchanged.
#[unsafe(no_mangle)]
pub extern "C" fn vb_try_pack_bools_padded(out: &mut [u8], bools: &[bool]) -> bool
    ensures { DoneIf (length bools.now ≤ 8 * length out.old)
        (Packs bools.now out.old out.new) (out.new ≡ out.old) result }
{
    if !window_fits(out, 0, bools.len()) {
        return false;
    }
    vb_pack_bools_padded(out, bools);
    true
}

/// Packs one bit for each byte of `truthy`, true if the byte isn't 0, into the first bytes of
/// `out`, eight bits into each. `out` must have a bit for each byte of `truthy`. The remaining bits
/// of the last byte written are false, and later bytes are unchanged.
#[unsafe(no_mangle)]
pub extern "C" fn vb_pack_truthy_padded(out: &mut [u8], truthy: &[u8])
    requires { length truthy.now ≤ 8 * length out.old }
    ensures { Packs (map (λ x. not (x == 0)) truthy.now) out.old out.new }
{
    vb_pack::pack_truthy(&mut out[..truthy.len().div_ceil(8)], truthy);
}

/// Returns whether `out` has a bit for each value. If so, does [`vb_pack_truthy_padded`]; else
/// leaves `out` unchanged.
#[unsafe(no_mangle)]
pub extern "C" fn vb_try_pack_truthy_padded(out: &mut [u8], truthy: &[u8]) -> bool
    ensures { DoneIf (length truthy.now ≤ 8 * length out.old)
        (Packs (map (λ x. not (x == 0)) truthy.now) out.old out.new) (out.new ≡ out.old) result }
{
    if !window_fits(out, 0, truthy.len()) {
        return false;
    }
    vb_pack_truthy_padded(out, truthy);
    true
}
