//! Sets bits at indices.
ghost use Rattle.std.specs.Prelude.{◌≡◌, ◌*◌, ◌≤◌, length, IfErr, OnOk};
ghost use Rattle.std.specs.Iterator.{IsFinite};
ghost use Rattle.vb_bits.specs.Bits.{bits};
ghost use Rattle.vb_bits.specs.Marks.{with_true, GivesBelow, FirstNotBelow};
ghost use Rattle.vb_bits.specs.Writes.{Writes};

use crate::bit::set_bit_unchecked;

/// Sets bit `p` of `bytes` for each `p` that `places` returns; an index may repeat. Returns
/// `Err(p)` with the first `p` that isn't below `len`, and then stops polling.
///
/// The caller must prove that `bytes` has at least `len` bits, and that `places` can be polled and
/// ends. On `Ok` no other bit changes. On `Err` the bits below `len` are unspecified, and the
/// others are unchanged.
pub fn set_bits_at<I: Iterator<Item = usize>>(
    bytes: &mut [u8],
    len: usize,
    places: I,
) -> Result<(), usize>
    requires room { len ≤ 8 * length bytes.old }
    requires can { I.can_next places }
    requires finite { IsFinite (I.remaining places) }
    ensures bits { OnOk result (GivesBelow I.next_gives len places
        (λ given. bits bytes.new 0 len ≡ with_true (bits bytes.old 0 len) given)) }
    ensures past { IfErr result (FirstNotBelow I.next_gives len places) }
    ensures others { Writes bytes.old bytes.new 0 (bits bytes.new 0 len) }
{
    for place in places {
        if place >= len {
            return Err(place);
        }
        set_bit_unchecked(bytes, place);
    }
    Ok(())
}
