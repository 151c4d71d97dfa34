//! Equality, order, hash and debug text of the buffers of this crate: those of the buffer inside.
//! Alignments do not count.
ghost use Rattle.std.specs.Prelude.{Some, nat_eq, refl};
ghost use Rattle.std.specs.Ordering.{nat_cmp};
ghost use Rattle.std.specs.Cmp.{on_per, on_equiv, on_po, on_total, partial_equiv_from_equiv};
ghost use Rattle.std.specs.Cmp.Lexicographic.{pointwise, slice_cmp, slice_partial_cmp};
ghost use Rattle.std.specs.Cmp.Lexicographic.{lists_per, lists_equiv, lists_po};
ghost use Rattle.std.specs.Cmp.Lexicographic.{nat_list_eq_equiv, nat_list_cmp_total};
ghost use Rattle.std.specs.Cmp.Lexicographic.{texts_po, texts_ties};
ghost use Rattle.std.specs.Cmp.Rules.{hashing};
ghost use Rattle.std.specs.Hash as fed;
ghost use Rattle.std.proofs.Common.{rules};
ghost use Rattle.std.specs.Hash.{on_Alike, items_Alike};

use crate::buffer_string::BufferString;
use crate::const_buffer::ConstBuffer;
use std::alloc::Allocator;
use std::cmp::Ordering;
use std::fmt::{self, Debug};
use std::hash::{Hash, Hasher};
use vb_core::Element;

impl<T: Element + PartialEq, const N: usize, A: Allocator> PartialEq for ConstBuffer<T, N, A> {
    ghost eq = { λ x y. pointwise T.eq x.list y.list };

    ghost laws = { on_per (λ x. x.list) (lists_per T.laws) };

    fn eq(&self, other: &ConstBuffer<T, N, A>) -> bool {
        self.as_slice() == other.as_slice()
    }
}

impl<T: Element + Eq, const N: usize, A: Allocator> Eq for ConstBuffer<T, N, A> {
    ghost laws = { on_equiv (λ x. x.list) (lists_equiv T.Eq.laws) };
}

impl<T: Element + PartialOrd, const N: usize, A: Allocator> PartialOrd for ConstBuffer<T, N, A> {
    ghost partial_cmp = { λ x y. slice_partial_cmp T.partial_cmp x.list y.list };

    ghost laws = { on_po (λ x. x.list) (lists_po T.PartialOrd.laws) };

    fn partial_cmp(&self, other: &ConstBuffer<T, N, A>) -> Option<Ordering> {
        self.as_slice().partial_cmp(other.as_slice())
    }
}

impl<T: Element + Hash, const N: usize, A: Allocator> Hash for ConstBuffer<T, N, A> {
    ghost hash_input = { λ b. fed.slice T.hash_input b.list };

    ghost respects_eq = { (on_Alike (λ b. b.list)
        (items_Alike (record { fed = T.respects_eq }))).fed };

    fn hash<H: Hasher>(&self, state: &mut H) {
        self.as_slice().hash(state);
    }
}

impl<A: Allocator> PartialEq for BufferString<A> {
    ghost eq = { λ x y. pointwise nat_eq x.list y.list };

    ghost laws = { on_per (λ x. x.list) (partial_equiv_from_equiv nat_list_eq_equiv) };

    fn eq(&self, other: &BufferString<A>) -> bool {
        self.as_str() == other.as_str()
    }
}

impl<A: Allocator> Eq for BufferString<A> {
    ghost laws = { on_equiv (λ x. x.list) nat_list_eq_equiv };
}

impl<A: Allocator> PartialOrd for BufferString<A> {
    ghost partial_cmp = { λ x y. Some (slice_cmp nat_cmp x.list y.list) };

    ghost laws = { on_po (λ x. x.list) texts_po };

    fn partial_cmp(&self, other: &BufferString<A>) -> Option<Ordering> {
        Some(self.cmp(other))
    }
}

impl<A: Allocator> Ord for BufferString<A> {
    ghost cmp = { λ x y. slice_cmp nat_cmp x.list y.list };

    ghost total = { on_total (λ x. x.list) nat_list_cmp_total };

    ghost matches_partial_cmp = { λ x y. refl };

    ghost matches_eq = { λ x y. texts_ties x.list y.list };

    fn cmp(&self, other: &BufferString<A>) -> Ordering {
        self.as_str().cmp(other.as_str())
    }
}

impl<A: Allocator> Hash for BufferString<A> {
    ghost hash_input = { λ b. fed.slice fed.u8 b.list };

    ghost respects_eq = { Prim.search (hashing, rules) };

    fn hash<H: Hasher>(&self, state: &mut H) {
        self.inner().hash(state);
    }
}

impl<T: Element + Debug, const N: usize, A: Allocator> Debug for ConstBuffer<T, N, A> {
    fn fmt<W: fmt::Write>(&self, f: &mut fmt::Formatter<W>) -> fmt::Result {
        Debug::fmt(&self.as_slice(), f)
    }
}

impl<A: Allocator> Debug for BufferString<A> {
    fn fmt<W: fmt::Write>(&self, f: &mut fmt::Formatter<W>) -> fmt::Result {
        Debug::fmt(&self.as_str(), f)
    }
}
