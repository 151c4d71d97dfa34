//! Growth at the end: by single items, slices and iterators.
ghost use Rattle.std.specs.Prelude.{◌≡◌, ◌≢◌, ◌+◌, ◌-◌, ◌≤◌, List, [], ◌∷◌, ◌++◌, length, max};
ghost use Rattle.std.specs.Prelude.{replicate, take, vec_capacity};
ghost use Rattle.std.specs.Prelude.{OnOk, OnErr, IsOk, IsOkUnless, IfSome};
ghost use Rattle.std.specs.Iterator.{Drains, ExtendsWithItems, HoldsAlong};
ghost use Rattle.std.specs.Iterator.{IsFinite, IsFiniteIterable};
ghost use Rattle.vb_mem.specs.Makes.{NeedsRoom};
ghost use Rattle.vb_mem.specs.OpenBuffer.{Holds, Lengthens, HasRoom};
ghost use Rattle.vb_mem.specs.Collected.{IfItem, OnMemory, GivesThen, GivesValues, GivesError};

use super::BufferMut;
use crate::Result;
use core::mem::replace_with;
use std::alloc::Allocator;
use vb_core::{BufferError, Element, ExtendError, TrustedLen};

impl<T: Element, A: Allocator> BufferMut<T, A> {
    /// Reserves capacity for `additional` more items. If there is capacity already, the call does
    /// not allocate, succeeds, and the capacity does not change. Otherwise it returns `OutOfMemory`
    /// if memory runs out; the buffer is unchanged on error.
    pub fn reserve(&mut self, additional: usize) -> Result<()>
        ensures ok { OnOk result (Lengthens [] self.old self.new) }
        ensures room { OnOk result (HasRoom self.new additional) }
        ensures stays { HasRoom self.old additional → self.new.room ≡ self.old.room }
        ensures needs_room { NeedsRoom additional result self.old self.new }
    {
        if self.items.capacity() - self.items.len() < additional {
            self.items.reserve(additional)?;
        }
        Ok(())
    }

    /// Reserves capacity for `additional` more items, as [`reserve`](Self::reserve) does, but no
    /// more than that: if the capacity grows, it becomes the length plus `additional`.
    pub fn reserve_exact(&mut self, additional: usize) -> Result<()>
        ensures ok { OnOk result (Lengthens [] self.old self.new) }
        ensures room { OnOk result (HasRoom self.new additional) }
        ensures exact { OnOk result (self.new.room
            ≡ max self.old.room (length self.old.list + additional)) }
        ensures needs_room { NeedsRoom additional result self.old self.new }
    {
        self.items.reserve_exact(additional)?;
        Ok(())
    }

    /// Appends an item. If there is capacity, the call does not allocate, succeeds, and the
    /// capacity does not change. Otherwise it returns `OutOfMemory` if memory runs out; the buffer
    /// is unchanged on error. The amortized cost of a push is constant.
    ///
    /// ```rust
    /// let mut values = BufferMut::<u32>::with_capacity(alloc, 2)?;
    /// values.push(7)?;
    /// values.push(9)?;
    /// assert_eq!(rt; values.as_slice(), [7, 9].as_slice());
    /// ```
    pub fn push(&mut self, item: T) -> Result<()>
        ensures ok { OnOk result (Lengthens (item ∷ []) self.old self.new) }
        ensures stays { HasRoom self.old 1 → self.new.room ≡ self.old.room }
        ensures needs_room { NeedsRoom 1 result self.old self.new }
    {
        self.reserve(1)?;
        self.push_unchecked(item);
        Ok(())
    }

    /// Appends an item. The caller must prove that there is capacity for it. The capacity does not
    /// change.
    pub fn push_unchecked(&mut self, item: T)
        requires { HasRoom self.old 1 }
        ensures adds { Lengthens (item ∷ []) self.old self.new }
        ensures stays { self.new.room ≡ self.old.room }
    {
        self.items.push_reserved(item);
    }

    /// Appends `n` copies of an item. If there is capacity, the call does not allocate, succeeds,
    /// and the capacity does not change. Otherwise it returns `OutOfMemory` if memory runs out; the
    /// buffer is unchanged on error.
    pub fn push_n(&mut self, item: T, n: usize) -> Result<()>
        ensures ok { OnOk result (Lengthens (replicate n item) self.old self.new) }
        ensures stays { HasRoom self.old n → self.new.room ≡ self.old.room }
        ensures needs_room { NeedsRoom n result self.old self.new }
    {
        self.reserve(n)?;
        self.push_n_unchecked(item, n);
        Ok(())
    }

    /// Appends `n` copies of an item. The caller must prove that there is capacity for them. The
    /// capacity does not change.
    pub fn push_n_unchecked(&mut self, item: T, n: usize)
        requires { HasRoom self.old n }
        ensures adds { Lengthens (replicate n item) self.old self.new }
        ensures stays { self.new.room ≡ self.old.room }
    {
        replace_with(&mut self.items, (item, n), with_copies);
    }

    /// Changes the number of items to `n`: removes items at the end, or appends copies of `item`.
    /// Both alignments stay the same.
    ///
    /// If `n` is at most the capacity, the call does not allocate, succeeds, and the capacity does
    /// not change. Otherwise it returns `OutOfMemory` if memory runs out; the buffer is unchanged
    /// on error.
    pub fn resize(&mut self, n: usize, item: T) -> Result<()>
        ensures ok { OnOk result (Holds
            (take n self.old.list ++ replicate (n - length self.old.list) item)
            self.old.alignment self.old.declared self.new) }
        ensures grows { self.old.room ≤ self.new.room }
        ensures stays { n ≤ self.old.room → self.new.room ≡ self.old.room }
        ensures needs_room { NeedsRoom (n - length self.old.list) result self.old self.new }
    {
        let len = self.items.len();
        if n <= len {
            self.items.truncate(n);
            return Ok(());
        }
        self.push_n(item, n - len)
    }

    /// Appends copies of the items of a slice, as one block. If there is capacity, the call
    /// succeeds. Otherwise it returns `OutOfMemory` if memory runs out; the buffer is unchanged on
    /// error.
    pub fn extend_from_slice(&mut self, items: &[T]) -> Result<()>
        ensures ok { OnOk result (Lengthens items.now self.old self.new) }
        ensures needs_room { NeedsRoom (length items.now) result self.old self.new }
    {
        self.items.reserve(items.len())?;
        self.items.extend_from_slice(items)?;
        Ok(())
    }

    /// Appends the items of an iterator. The caller must prove that the iterator ends. If there is
    /// capacity for all of them, the call does not allocate and succeeds.
    ///
    /// Otherwise it returns `OutOfMemory` if memory runs out. On error the buffer keeps the items
    /// up to its capacity, and the item that did not fit is lost. The iterator's size hint affects
    /// how much memory the call requests, and so whether memory runs out, but never the items.
    pub fn extend<I: IntoIterator<Item = T>>(&mut self, iter: I) -> Result<()>
        requires { IsFiniteIterable I.into_iter_gives I.IntoIter.can_next
            I.IntoIter.remaining iter }
        ensures lengthens { ExtendsWithItems I.into_iter_gives I.IntoIter.next_gives
            (λ old items new. Lengthens items old new) iter self.old self.new result }
        ensures in_place { ((it : I.IntoIter) → I.into_iter_gives iter it
            → HoldsAlong I.IntoIter.next_gives it (λ items. HasRoom self.old (length items)))
            → IsOk result }
        ensures full { OnErr result (length self.new.list ≡ self.new.room) }
        ensures refused { IsOkUnless result BufferError.OutOfMemory }
    {
        let mut rest = iter.into_iter();
        let end = self.items.len().saturating_add(rest.size_hint().0);
        loop {
            let (over, left) = self.fill_room(rest);
            rest = left;
            let Some(item) = over else {
                return Ok(());
            };
            // Reserves capacity for the items that the hint still promises, if memory allows it.
            let hint = end.saturating_sub(self.items.len());
            let _ = self.reserve(if hint > 1 { hint } else { 0 });
            self.push(item)?;
        }
    }

    // Appends items of an iterator while there is capacity. Returns the item that did not fit.
    fn fill_room<I: Iterator<Item = T>>(&mut self, mut iter: I) -> (Option<T>, I)
        requires can { I.can_next iter }
        requires finite { IsFinite (I.remaining iter) }
        ensures fills { (items : List T) × Lengthens items self.old self.new
            × GivesThen I.can_next I.remaining I.next_gives iter items result.0 result.1 }
        ensures room { self.new.room ≡ self.old.room }
        ensures full { IfSome result.0 (λ _. length self.new.list ≡ self.new.room) }
    {
        for _ in self.items.len()..self.items.capacity() {
            let Some(item) = iter.next() else {
                return (None, iter);
            };
            self.items.push_reserved(item);
        }
        let over = iter.next();
        (over, iter)
    }

    /// Appends the items of an iterator whose length is known: all of them or none. The caller must
    /// prove that its `next` may be called. If there is capacity, the call succeeds. Otherwise it
    /// returns `OutOfMemory` if memory runs out; the buffer is unchanged on error.
    pub fn extend_trusted<I: TrustedLen<Item = T>>(&mut self, iter: I) -> Result<()>
        requires { I.can_next iter }
        ensures ok { OnOk result ((items : List T) × Drains I.next_gives iter items
            × Lengthens items self.old self.new) }
        ensures len { OnOk result (length self.new.list ≡ length self.old.list + I.left iter) }
        ensures needs_room { NeedsRoom (I.left iter) result self.old self.new }
    {
        self.reserve(iter.exact_len())?;
        for item in iter {
            self.items.push_reserved(item);
        }
        Ok(())
    }

    /// Appends the values of an iterator whose length is known, up to its first error. Returns `Ok`
    /// if all its items were values, and all were appended. The caller must prove that its `next`
    /// may be called; in the contract, `I.left` is the number of items that the iterator still has.
    ///
    /// Returns `Memory`, before it polls the first item, if memory runs out; the buffer is
    /// unchanged then. If there is capacity, the call does not allocate. Returns `Item` with the
    /// first error; the values before it are appended.
    pub fn try_extend_trusted<E, I: TrustedLen<Item = Result<T, E>>>(
        &mut self,
        iter: I,
    ) -> Result<(), ExtendError<E>>
        requires { I.can_next iter }
        ensures ok { OnOk result
            (GivesValues I.next_gives iter (λ items. Lengthens items self.old self.new)) }
        ensures len { OnOk result (length self.new.list ≡ length self.old.list + I.left iter) }
        ensures in_place { HasRoom self.old (I.left iter) → result ≢ Err ExtendError.Memory }
        ensures item { IfItem result (λ e. GivesError I.next_gives iter e
            (λ items. Lengthens items self.old self.new)) }
        ensures memory { OnMemory result (self.new ≡ self.old) }
        ensures room { IfItem result (λ _. length self.old.list + I.left iter ≤ self.new.room) }
    {
        if self.reserve(iter.exact_len()).is_err() {
            return Err(ExtendError::Memory);
        }
        for item in iter {
            match item {
                Ok(value) => self.items.push_reserved(value),
                Err(error) => return Err(ExtendError::Item(error)),
            }
        }
        Ok(())
    }
}

// Returns the items followed by copies of one item; there must be capacity for them. The function
// moves the vector in and out so that the compiler vectorizes the loop. No contract of `Vec`'s own
// bulk append promises that the capacity does not change.
fn with_copies<T: Element, A: Allocator>(items: Vec<T, A>, run: (T, usize)) -> (Vec<T, A>, ())
    requires { length items.items + run.1 ≤ vec_capacity items }
    ensures items { result.0.items ≡ items.items ++ replicate run.1 run.0 }
    ensures stays { vec_capacity result.0 ≡ vec_capacity items }
{
    let mut items = items;
    let (item, n) = run;
    for _ in 0..n {
        items.push_reserved(item);
    }
    (items, ())
}
