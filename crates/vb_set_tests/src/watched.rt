//! An iterator of known length that counts the items that it gave. It counts because a call that
//! relies on a known length takes it by value, so that a test can't see what is left.
ghost use Rattle.std.specs.Prelude.{⊤};
ghost use Rattle.std.specs.Iterator.{at_most};
ghost use Rattle.vb_core.specs.Lengths.{CountsDown};
ghost use Rattle.vb_set_tests.specs.Watched.{counted_down};

use std::cell::Cell;
use vb_core::TrustedLen;

/// Gives `left` items: all are `item`, except that the last but one is `second_last`.
#[derive(Drop)]
pub struct Watched<'a, T> {
    /// How many items are still to come.
    pub left: usize,
    /// The item.
    pub item: T,
    /// The other one.
    pub second_last: T,
    /// How many were given.
    pub given: &'a Cell<usize>,
}

impl<'a, T: Copy> Iterator for Watched<'a, T> {
    type Item = T;

    ghost next_gives = { λ s r t. CountsDown ⊤ s.left r t.left };

    ghost remaining = { λ s. at_most s.left };

    fn next(&mut self) -> Option<T> {
        if self.left == 0 {
            return None;
        }
        self.given.set(self.given.get().saturating_add(1));
        let item = if self.left == 2 {
            self.second_last
        } else {
            self.item
        };
        self.left -= 1;
        Some(item)
    }
}

impl<'a, T: Copy> TrustedLen for Watched<'a, T> {
    ghost left = { λ s. s.left };

    ghost counts = { counted_down (λ s. s.left) };

    fn exact_len(&self) -> usize {
        self.left
    }
}
