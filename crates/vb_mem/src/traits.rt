//! Equality, order, hash and debug text of buffers: those of their lists. Alignments do not count.
ghost use Rattle.std.specs.Cmp.{on_per, on_equiv, on_po, on_total};
ghost use Rattle.std.specs.Cmp.Lexicographic.{pointwise, slice_cmp, slice_partial_cmp};
ghost use Rattle.std.specs.Cmp.Lexicographic.{lists_per, lists_equiv, lists_po, lists_total};
ghost use Rattle.std.specs.Cmp.Lexicographic.{lists_agrees, lists_ties};
ghost use Rattle.std.specs.Hash as fed;
ghost use Rattle.std.specs.Hash.{on_Alike, items_Alike};

use crate::buffer::Buffer;
use crate::buffer_mut::BufferMut;
use std::alloc::Allocator;
use std::cmp::Ordering;
use std::fmt::{self, Debug};
use std::hash::{Hash, Hasher};
use vb_core::Element;

impl<T: Element + PartialEq, A: Allocator> PartialEq for BufferMut<T, A> {
    ghost eq = { λ x y. pointwise T.eq x.list y.list };

    ghost laws = { on_per (λ x. x.list) (lists_per T.laws) };

    fn eq(&self, other: &BufferMut<T, A>) -> bool {
        self.as_slice() == other.as_slice()
    }
}

impl<T: Element + Eq, A: Allocator> Eq for BufferMut<T, A> {
    ghost laws = { on_equiv (λ x. x.list) (lists_equiv T.Eq.laws) };
}

impl<T: Element + PartialEq, A: Allocator> PartialEq for Buffer<T, A> {
    ghost eq = { λ x y. pointwise T.eq x.list y.list };

    ghost laws = { on_per (λ x. x.list) (lists_per T.laws) };

    fn eq(&self, other: &Buffer<T, A>) -> bool {
        self.as_slice() == other.as_slice()
    }
}

impl<T: Element + Eq, A: Allocator> Eq for Buffer<T, A> {
    ghost laws = { on_equiv (λ x. x.list) (lists_equiv T.Eq.laws) };
}

impl<T: Element + PartialOrd, A: Allocator> PartialOrd for Buffer<T, A> {
    ghost partial_cmp = { λ x y. slice_partial_cmp T.partial_cmp x.list y.list };

    ghost laws = { on_po (λ x. x.list) (lists_po T.PartialOrd.laws) };

    fn partial_cmp(&self, other: &Buffer<T, A>) -> Option<Ordering> {
        self.as_slice().partial_cmp(other.as_slice())
    }
}

impl<T: Element + Ord, A: Allocator> Ord for Buffer<T, A> {
    ghost cmp = { λ x y. slice_cmp T.cmp x.list y.list };

    ghost total = { on_total (λ x. x.list) (lists_total T.total) };

    ghost matches_partial_cmp = { λ x y. lists_agrees T.matches_partial_cmp x.list y.list };

    ghost matches_eq = { λ x y. lists_ties T.cmp T.matches_eq x.list y.list };

    fn cmp(&self, other: &Buffer<T, A>) -> Ordering {
        self.as_slice().cmp(other.as_slice())
    }
}

impl<T: Element + Hash, A: Allocator> Hash for Buffer<T, A> {
    ghost hash_input = { λ b. fed.slice T.hash_input b.list };

    ghost respects_eq = { (on_Alike (λ b. b.list)
        (items_Alike (record { fed = T.respects_eq }))).fed };

    fn hash<H: Hasher>(&self, state: &mut H) {
        self.as_slice().hash(state);
    }
}

impl<T: Element + Debug, A: Allocator> Debug for BufferMut<T, A> {
    fn fmt<W: fmt::Write>(&self, f: &mut fmt::Formatter<W>) -> fmt::Result {
        Debug::fmt(&self.as_slice(), f)
    }
}

impl<T: Element + Debug, A: Allocator> Debug for Buffer<T, A> {
    fn fmt<W: fmt::Write>(&self, f: &mut fmt::Formatter<W>) -> fmt::Result {
        Debug::fmt(&self.as_slice(), f)
    }
}
