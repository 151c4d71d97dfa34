//! A buffer that grows.
ghost use Rattle.std.specs.Prelude.{◌≡◌, ◌==◌, ◌↔◌, ◌+◌, ◌-◌, ◌<◌, ◌≤◌, [], length, take, drop};
ghost use Rattle.std.specs.Prelude.{slice_get, vec_capacity, IsSome};
ghost use Rattle.std.specs.Borrow.{Lends, Array, sem};
ghost use Rattle.vb_mem.specs.OpenBuffer.{Holds, with_items};
ghost use Rattle.vb_mem.specs.contracts.buffer_mut.BufferMut.{the_row};

use crate::window::Window;
use std::alloc::{Allocator, Global};
use std::marker::Model;
use vb_core::{Alignment, Element};

mod convert;
mod grow;
mod make;

// The alignment that storage is over-aligned to unless the caller prefers another one.
pub(crate) const DEFAULT: Option<Alignment> = Some(Alignment::DEFAULT_ALIGNMENT);

/// A list of items that grows, with an alignment.
///
/// An alignment is a number that the buffer keeps. It does not describe an address: the buffer
/// allocates memory with the alignment of an item. The reported alignment is at least the alignment
/// of an item. The declared alignment belongs to the storage and is at least the reported one.
/// Growth and [`BufferMut::freeze`] keep both.
///
/// A constructor reports its argument `alignment`, which must be at least the alignment of an item.
/// A constructor without this argument reports the alignment of an item. "Over-aligned to 256
/// bytes" means that the storage is declared with 256 bytes, or with the reported alignment if that
/// is greater. An argument `preferred` replaces the 256 bytes; with `None` the declared alignment
/// is the reported one.
#[derive(Drop)]
pub struct BufferMut<T: Element, A: Allocator = Global> {
    pub(crate) items: Vec<T, A>,
    pub(crate) alignment: Alignment,
    pub(crate) declared: Alignment,
}

impl<T: Element, A: Allocator> Model for BufferMut<T, A> {
    ghost use Rattle.std.specs.Prelude.{vec_capacity, ◌≤◌};
    ghost use Rattle.vb_mem.specs.OpenBuffer.{OpenBuffer};

    ghost Value = { OpenBuffer T };

    ghost view = { λ b. record {
      list = b.items.items;
      alignment = b.alignment;
      declared = b.declared;
      room = vec_capacity b.items;
    } };

    ghost invariant = { λ b. record {
      at_least : T.align_exponent ≤ b.alignment;
      fits : b.alignment ≤ b.declared;
    } };
}

impl<T: Element, A: Allocator> BufferMut<T, A> {
    /// Returns the alignment that the buffer reports. It is at least the alignment of an item and
    /// at most the declared alignment.
    pub fn alignment(&self) -> Alignment
        ensures value { result ≡ self.now.alignment }
        ensures at_least { T.align_exponent ≤ result }
        ensures fits { result ≤ self.now.declared }
    {
        self.alignment
    }

    /// Returns the declared alignment of the storage. It is at least the reported alignment.
    pub fn declared(&self) -> Alignment
        ensures value { result ≡ self.now.declared }
        ensures at_least { self.now.alignment ≤ result }
    {
        self.declared
    }

    /// Returns the number of items.
    pub fn len(&self) -> usize
        ensures { result ≡ length self.now.list }
    {
        self.items.len()
    }

    /// Returns whether the buffer has no items.
    pub fn is_empty(&self) -> bool
        ensures { result ≡ (length self.now.list == 0) }
    {
        self.items.is_empty()
    }

    /// Returns the allocator of the storage. Growth and copies use it.
    pub fn allocator(&self) -> &A {
        self.items.allocator()
    }

    /// Returns the number of items that the buffer can hold without another allocation. It is at
    /// least the length.
    pub fn capacity(&self) -> usize
        ensures value { result ≡ self.now.room }
        ensures at_least { length self.now.list ≤ result }
    {
        self.items.capacity()
    }

    /// Returns the items.
    pub fn as_slice(&self) -> &[T]
        ensures { result.now ≡ self.now.list }
    {
        self.items.as_slice()
    }

    /// Lends the items as a mutable slice. When the loan ends, the buffer has the items that the
    /// slice has then, the same number as before; nothing else changes. Clause `writes_back` proves
    /// this.
    pub fn as_mut_slice(&mut self) -> &mut [T]
        ensures* writes_back { sem 𝓛 (Lends (the_row T.row A.row T.Element A.Allocator)
            (Array T.row 0) self.entry result (with_items self.old)) }
        ensures value { result.now ≡ self.old.list }
    {
        self.items.as_mut_slice()
    }

    /// Removes all items. The capacity does not change.
    pub fn clear(&mut self)
        ensures { self.new ≡ record self.old { list = [] } }
    {
        self.items.clear();
    }

    /// Removes all items after the first `len`; removes none if there are no more than `len`. The
    /// capacity does not change.
    pub fn truncate(&mut self, len: usize)
        ensures { self.new ≡ record self.old { list = take len self.old.list } }
    {
        self.items.truncate(len);
    }

    /// Removes the last item and returns it, in constant time. Returns `None` exactly if there are
    /// no items. Nothing else changes, nor does the capacity.
    pub fn pop(&mut self) -> Option<T>
        ensures last { slice_get self.old.list (length self.old.list - 1) ≡ result }
        ensures some { IsSome result ↔ (0 < length self.old.list) }
        ensures left { self.new
            ≡ record self.old { list = take (length self.old.list - 1) self.old.list } }
    {
        self.items.pop()
    }

    /// Returns the items as a vector, in constant time. The vector takes over the storage with its
    /// capacity and allocator, and the call does not allocate. The vector keeps only the alignment
    /// of an item.
    pub fn into_vec(self) -> Vec<T, A>
        ensures items { result.items ≡ self.list }
        ensures room { vec_capacity result ≡ self.room }
    {
        self.items
    }

    // Removes the items outside a window, moves the others to the start, and reports the window's
    // alignment.
    pub(crate) fn narrow(&mut self, window: Window)
        requires within { window.start + window.len ≤ length self.old.list }
        requires at_least { T.align_exponent ≤ window.alignment }
        requires fits { window.alignment ≤ self.old.declared }
        ensures { Holds (take window.len (drop window.start self.old.list)) window.alignment
            self.old.declared self.new }
    {
        if window.start != 0 {
            self.items
                .copy_within(window.start..window.start + window.len, 0);
        }
        self.truncate(window.len);
        self.alignment = window.alignment;
    }
}
