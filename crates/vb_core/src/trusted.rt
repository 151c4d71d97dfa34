//! Iterators that know how many items remain.
ghost use Rattle.std.specs.Prelude.{◌≡◌, ℕ, IfSome};
ghost use Rattle.std.specs.Iterator.{UpTo, at_most};
ghost use Rattle.std.specs.Iterator.SizeHint.{IsWithinCount};
ghost use Rattle.vb_core.specs.Lengths.{IsLength, IsExactCount, CountsDown};
ghost use Rattle.vb_core.specs.ExactCounts.{adapter_counts};

mod std_iterators;

use std::marker::Model;

/// An iterator that knows how many items remain, so a caller can allocate space for all at once.
pub trait TrustedLen: Iterator {
    // The number of remaining items.
    ghost left: { Self → ℕ };

    /// Returns the exact number of remaining items.
    fn exact_len(&self) -> usize
        ensures { result ≡ left self.now };

    // Each item lowers `left` by 1, `next` returns `None` only if `left` is 0, and the items end.
    ghost counts: { IsExactCount Self.next_gives Self.remaining left };
}

/// An iterator and its number of remaining items, which the creator of the adapter has proved.
#[derive(Debug, Drop)]
pub struct TrustedLenAdapter<I> {
    iter: I,
    left: usize,
}

impl<I> Model for TrustedLenAdapter<I> {
    ghost use Rattle.vb_core.specs.Lengths.{Counted};

    ghost Value = { Counted I };

    ghost view = { λ adapter. record { iter = adapter.iter; left = adapter.left } };
}

/// Returns `iter` with its number of items, `n`. The caller must prove that `iter` has returned
/// exactly `n` items when it returns `None`; an iterator that never ends satisfies this for every
/// `n`. The adapter returns `None` after `n` items.
pub fn trusted_len<I: Iterator>(iter: I, n: usize) -> TrustedLenAdapter<I>
    requires { IsLength I.next_gives iter n }
    ensures iter { result.iter ≡ iter }
    ensures left { result.left ≡ n }
    ensures known { IsLength I.next_gives result.iter result.left }
{
    TrustedLenAdapter { iter, left: n }
}

impl<I: Iterator> Iterator for TrustedLenAdapter<I> {
    type Item = I::Item;

    ghost can_next = { λ s. I.can_next s.iter × IsLength I.next_gives s.iter s.left };

    ghost next_gives = { λ s r t. CountsDown (I.next_gives s.iter r t.iter) s.left r t.left };

    ghost remaining = { λ s. at_most s.left };

    fn next(&mut self) -> Option<I::Item> {
        if self.left == 0 {
            return None;
        }
        let item = self.iter.next()?;
        self.left -= 1;
        Some(item)
    }

    /// Returns the number of remaining items as both bounds.
    fn size_hint(&self) -> (usize, Option<usize>)
        ensures exact { result ≡ (self.now.left, Some self.now.left) }
        ensures lower { IsWithinCount result.0 (at_most self.now.left) }
        ensures upper { IfSome result.1 (UpTo (at_most self.now.left)) }
    {
        (self.left, Some(self.left))
    }
}

impl<I: Iterator> TrustedLen for TrustedLenAdapter<I> {
    ghost left = { λ s. s.left };

    ghost counts = { adapter_counts I.next_gives };

    fn exact_len(&self) -> usize {
        self.left
    }
}
