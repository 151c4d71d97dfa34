//! An iterator that owns the list whose items it returns.
ghost use Rattle.std.specs.Prelude.{◌≡◌, List, length, Some, IfSome};
ghost use Rattle.std.specs.Iterator.{YieldsFirst, YieldsLast, UpTo, at_most, item_count};
ghost use Rattle.std.specs.Iterator.SizeHint.{IsWithinCount};
ghost use Rattle.vb_core.specs.ExactCounts.{list_counts};

use crate::trusted::TrustedLen;
use std::marker::Model;

/// A type that holds a list of items.
pub trait HasItems: Drop {
    /// The type of an item.
    type Item: Copy;

    // The items.
    ghost items: { Self → List Self.Item };

    /// Returns the items.
    fn items(&self) -> &[Self::Item]
        ensures { result.now ≡ items self.now };
}

/// An iterator over the items of a list, from either end. It owns the value that holds the list.
#[derive(Drop)]
#[derive_where(Debug; S)]
pub struct OwnedItems<S: HasItems> {
    owner: S,
    start: usize,
    end: usize,
}

impl<S: HasItems> Model for OwnedItems<S> {
    ghost use Rattle.std.specs.Prelude.{List, slice_range, length, ◌≤◌};

    ghost Value = { List S.Item };

    ghost view = { λ s. slice_range (S.items s.owner) s.start s.end };

    ghost invariant = { λ s. record {
      ordered : s.start ≤ s.end;
      within : s.end ≤ length (S.items s.owner);
    } };
}

impl<S: HasItems> OwnedItems<S> {
    /// Returns an iterator over all items of `owner`.
    pub fn new(owner: S) -> OwnedItems<S>
        ensures { result ≡ S.items owner }
    {
        let end = owner.items().len();
        OwnedItems {
            owner,
            start: 0,
            end,
        }
    }
}

impl<S: HasItems> Iterator for OwnedItems<S> {
    type Item = S::Item;

    ghost next_gives = { YieldsFirst (λ rest. rest) };

    ghost remaining = { item_count (λ rest. rest) };

    fn next(&mut self) -> Option<S::Item> {
        if self.start == self.end {
            return None;
        }
        let item = self.owner.items()[self.start];
        self.start += 1;
        Some(item)
    }

    /// Returns the number of remaining items, as both bounds.
    fn size_hint(&self) -> (usize, Option<usize>)
        ensures exact { result ≡ (length self.now, Some (length self.now)) }
        ensures lower { IsWithinCount result.0 (at_most (length self.now)) }
        ensures upper { IfSome result.1 (UpTo (at_most (length self.now))) }
    {
        (self.len(), Some(self.len()))
    }
}

impl<S: HasItems> DoubleEndedIterator for OwnedItems<S> {
    ghost next_back_gives = { YieldsLast (λ rest. rest) };

    fn next_back(&mut self) -> Option<S::Item> {
        if self.start == self.end {
            return None;
        }
        self.end -= 1;
        Some(self.owner.items()[self.end])
    }
}

impl<S: HasItems> ExactSizeIterator for OwnedItems<S> {
    /// Returns the number of remaining items.
    fn len(&self) -> usize
        ensures { result ≡ length self.now }
    {
        self.end - self.start
    }
}

impl<S: HasItems> TrustedLen for OwnedItems<S> {
    ghost left = { length };

    ghost counts = { list_counts (λ x. x) (λ s. s) };

    fn exact_len(&self) -> usize {
        self.len()
    }
}
