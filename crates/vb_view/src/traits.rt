//! Equality of views.
ghost use Rattle.std.specs.Prelude.{◌≡◌, ◌↔◌, IsTrue};
ghost use Rattle.std.specs.Bool.{beq};
ghost use Rattle.std.specs.Cmp.{bool_eq_equiv, on_per, on_equiv, partial_equiv_from_equiv};
ghost use Rattle.std.specs.Cmp.Lexicographic.{pointwise, lists_per, lists_equiv};
ghost use Rattle.vb_view.specs.View.{bits_of};

use crate::view::BitBufferView;
use vb_bits::equal_bits;

impl PartialEq for BitBufferView<'_> {
    ghost eq = { λ x y. pointwise beq (bits_of x) (bits_of y) };

    ghost laws = { on_per bits_of (lists_per (partial_equiv_from_equiv bool_eq_equiv)) };

    /// Returns whether the bits of the two are equal, wherever they are in their bytes. Compares
    /// word by word.
    fn eq(&self, other: &Self) -> bool
        ensures value { result ≡ pointwise beq (bits_of self.now) (bits_of other.now) }
        ensures exact { IsTrue result ↔ (bits_of self.now ≡ bits_of other.now) }
    {
        same_bits(self, other)
    }
}

impl Eq for BitBufferView<'_> {
    ghost laws = { on_equiv bits_of (lists_equiv bool_eq_equiv) };
}

/// Returns whether the lists of bits are equal.
fn same_bits(left: &BitBufferView<'_>, right: &BitBufferView<'_>) -> bool
    ensures { IsTrue result ↔ (bits_of left.now ≡ bits_of right.now) }
{
    left.len() == right.len()
        && equal_bits(
            left.inner(),
            left.offset(),
            right.inner(),
            right.offset(),
            left.len(),
        )
}
