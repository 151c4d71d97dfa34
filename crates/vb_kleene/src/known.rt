//! Truth values combined, with none of them null.
ghost use Rattle.std.specs.Prelude.{◌≡◌, true, length, replicate};
ghost use Rattle.vb_bits.specs.Bits.{bits};
ghost use Rattle.vb_bits.specs.Operators.{combined_by};
ghost use Rattle.vb_kleene.specs.InBytes.{InBytes};
ghost use Rattle.vb_kleene.specs.View.{bits_of};
ghost use Rattle.vb_kleene.specs.Writes.{Writes};

use vb_bits::{BitOp, copy_bits, fill_bits, zip_words};
use vb_view::BitBufferView;

/// Writes the values combined by `op` to the bits of `trues` from bit `t` on, and the same number
/// of ones to the bits of `valid` from bit `v` on. Every other bit is unchanged.
pub(crate) fn write_known(
    trues: &mut [u8],
    t: usize,
    valid: &mut [u8],
    v: usize,
    left: BitBufferView<'_>,
    right: BitBufferView<'_>,
    op: BitOp,
)
    requires trues { InBytes trues.old t (length (bits_of left)) }
    requires valid { InBytes valid.old v (length (bits_of left)) }
    requires right { length (bits_of right) ≡ length (bits_of left) }
    ensures trues { Writes trues.old trues.new t
        (combined_by op (bits_of left.entry) (bits_of right.entry)) }
    ensures valid { Writes valid.old valid.new v
        (replicate (length (bits_of left.entry)) true) }
{
    let len = left.len();
    copy_bits(trues, t, left.inner(), left.offset(), len);
    zip_words(trues, t, right.inner(), right.offset(), len, op);
    fill_bits(valid, v, v + len, true);
}
