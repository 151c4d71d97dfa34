//! The storage and the window of a shared buffer.
ghost use Rattle.std.specs.Prelude.{◌≡◌, ◌↔◌, ◌+◌, ◌*◌, ◌%◌, ◌^◌, ⊤, IsTrue, IfOk, IsOkUnless};
ghost use Rattle.std.specs.Bool.{OnTrue, OnFalse};
ghost use Rattle.std.specs.Borrow.{sem};
ghost use Rattle.vb_mem.specs.SharedBuffer.{ShowsPart, CanSlice, as_shared};
ghost use Rattle.vb_mem.specs.Loans.{LendsStorage};

use crate::Result;
use crate::buffer_mut::BufferMut;
use crate::window::Window;
use std::alloc::Allocator;
use std::ops::Range;
use std::rc::Rc;
use vb_core::{Alignment, BufferError, Element};

/// The part of a storage that a buffer shows. Other buffers may show parts of the same storage.
#[derive(Drop)]
pub(crate) enum Content<T: Element, A: Allocator> {
    /// No items and no storage, with the alignment that the buffer reports.
    Nothing(Alignment),
    /// A storage with the window that the buffer shows. Without a window it shows all items and
    /// reports the alignment of the storage.
    Stored(Rc<BufferMut<T, A>, A>, Option<Window>),
}

impl<T: Element, A: Allocator> Content<T, A> {
    ghost use Rattle.vb_mem.specs.Content.{seen, IsSound, IsWhole};

    // Returns whether `alignment` divides the byte offset of the item at index `items_on`. The
    // offset may wrap, since each alignment divides 2^64.
    pub(crate) fn is_place_divided(&self, alignment: Alignment, items_on: usize) -> bool
        ensures { IsTrue result
            ↔ (((seen T.SIZE self.now).place + items_on * T.SIZE) % 2 ^ alignment ≡ 0) }
    {
        let start = match self {
            Content::Nothing(_) => 0,
            Content::Stored(_, None) => 0,
            Content::Stored(_, Some(window)) => window.start,
        };
        let item = start.wrapping_add(items_on);
        alignment.is_offset_aligned(item.wrapping_mul(T::SIZE))
    }

    // Removes the items outside a range, and reports `alignment`. `Buffer::can_slice` must hold for
    // both.
    pub(crate) fn narrow(&mut self, range: Range<usize>, alignment: Alignment)
        requires sound { IsSound T.SIZE T.align_exponent self.old }
        requires can_slice { CanSlice T.SIZE T.align_exponent (seen T.SIZE self.old) range
            alignment }
        ensures shows { ShowsPart T.SIZE (seen T.SIZE self.old) range alignment
            (seen T.SIZE self.new) }
        ensures sound { IsSound T.SIZE T.align_exponent self.new }
    {
        if range.start == range.end {
            *self = Content::Nothing(alignment);
            return;
        }
        let len = range.end - range.start;
        let Content::Stored(_, shown) = self else {
            return;
        };
        let start = match shown {
            Some(window) => window.start + range.start,
            None => range.start,
        };
        *shown = Some(Window {
            start,
            len,
            alignment,
        });
    }

    // Narrows the storage to the window if no other buffer shares it. Returns whether it did.
    pub(crate) fn narrow_lone(&mut self) -> bool
        requires { IsSound T.SIZE T.align_exponent self.old }
        ensures narrowed { OnTrue result (IsWhole
            (λ stored. as_shared stored ≡ record (seen T.SIZE self.old) { place = 0 }) self.new) }
        ensures shared { OnFalse result (self.new ≡ self.old) }
    {
        let Content::Stored(storage, shown) = self else {
            return false;
        };
        let Some(growing) = Rc::get_mut(storage) else {
            return false;
        };
        if let Some(window) = shown.take() {
            growing.narrow(window);
        }
        true
    }

    // Lends the storage, which the buffer shows whole and which has no other owner. Std's contract
    // of `Rc::get_mut` does not say when it returns `Some`, so this function has an error case that
    // never occurs.
    pub(crate) fn whole_mut(&mut self) -> Result<&mut BufferMut<T, A>>
        requires { IsWhole (λ _. ⊤) self.old }
        ensures* writes_back { sem 𝓛 (LendsStorage T.row A.row T.Element A.Allocator
            self.entry result) }
        ensures value { IfOk result (λ growing. IsWhole (λ stored. growing.now ≡ stored) self.old) }
        ensures refused { IsOkUnless result BufferError.OutOfMemory }
    {
        match self {
            Content::Nothing(_) => unreachable!(),
            Content::Stored(storage, _) => match Rc::get_mut(storage) {
                Some(growing) => Ok(growing),
                None => Err(BufferError::OutOfMemory),
            },
        }
    }
}
