//! Combines windows by an operator.
ghost use Rattle.std.specs.Prelude.{◌+◌, ◌*◌, ◌^◌, ◌<◌, ◌≤◌, length};
ghost use Rattle.vb_bits.specs.Bits.{bits};
ghost use Rattle.vb_bits.specs.InBytes.{InBytes};
ghost use Rattle.vb_bits.specs.Operators.{combined_by};
ghost use Rattle.vb_bits.specs.Writes.{Writes};

use crate::merge::merge_bits;
use crate::operator::{And, AndNot, Or, Xor};

/// An operator on two bits.
#[derive(Clone, Copy, Debug, PartialEq, Eq)]
pub enum BitOp {
    /// True if both are true.
    And,
    /// True if at least one is true.
    Or,
    /// True if exactly one is true.
    Xor,
    /// True if the left one is true and the right one isn't.
    AndNot,
}

/// Replaces bit `d + i` of `dst`, for each `i` below `len`, by `op` of that bit and of bit `s + i`
/// of `src`. The bit of `dst` is the left operand. No other bit of `dst` changes.
///
/// The caller must prove that both windows are in bounds, and that `d + len` and `s + len` fit in a
/// `usize`.
///
/// It processes words of 64 bits, four at a time, at any two offsets.
#[inline(always)]
pub fn zip_words(dst: &mut [u8], d: usize, src: &[u8], s: usize, len: usize, op: BitOp)
    requires into { InBytes dst.old d len }
    requires from { InBytes src.now s len }
    ensures { Writes dst.old dst.new d
        (combined_by op (bits dst.old d len) (bits src.now s len)) }
{
    match op {
        BitOp::And => merge_bits::<And>(dst, d, src, s, len),
        BitOp::Or => merge_bits::<Or>(dst, d, src, s, len),
        BitOp::Xor => merge_bits::<Xor>(dst, d, src, s, len),
        BitOp::AndNot => merge_bits::<AndNot>(dst, d, src, s, len),
    }
}
