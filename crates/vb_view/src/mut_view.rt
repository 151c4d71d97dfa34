//! Bits over borrowed bytes, for writing.
ghost use Rattle.std.specs.Prelude.{◌≡◌, ◌+◌, ◌-◌, ◌*◌, ◌/◌, ◌%◌, ◌^◌, ◌<◌, ◌≤◌, ◌==◌, ℕ};
ghost use Rattle.std.specs.Prelude.{List, [], ◌∷◌, Bool, true, false, Some};
ghost use Rattle.std.specs.Prelude.{length, drop, replicate, slice_get, slice_set};
ghost use Rattle.std.specs.Borrow.{GName};
ghost use Rattle.vb_bits.specs.Bits.{bits as window, count, complement};
ghost use Rattle.vb_bits.specs.Edits.{with_fill};
ghost use Rattle.vb_bits.specs.InBytes.{InBytes};
ghost use Rattle.vb_bits.specs.Writes.{Writes};
ghost use Rattle.vb_view.specs.View.{bits_of, offset_of, bytes_of};
ghost use Rattle.vb_view.specs.Windows.{IsWindow};

use crate::view::BitBufferView;
use vb_bits::{fill_bits, set_bit_to};
use vb_walk::BitIterator;

/// The target of a [`BitBufferMutView`]: a `&mut` to bytes, or to a set of bits. A `&mut [u8]`
/// allows every window in it that ends below bit 2^64, a set only the window of its own bits.
/// Programs that write through views call none of these methods.
pub trait BitStore {
    // the bytes that it has
    ghost bytes: { Self → List ℕ };

    // the bits of the window with this offset and length
    ghost bits: { Self → ℕ → ℕ → List Bool };

    // whether it allows a view of this window: bytes allow every window in them that ends below bit
    // 2^64; a set allows only the window of its own bits
    ghost fits: { Self → ℕ → ℕ → Type 0 };

    // any two proofs of that are equal, so no two views differ by their proofs alone
    ghost fits_prop: { (s : Self) (o n : ℕ) (a b : fits s o n) → a ≡ b };

    // the name of the `&mut`: two targets with the same name write to the same memory
    ghost lender: { Self → GName };

    // the properties that no write changes: the number of bytes; for a set also its offset,
    // alignment and capacity
    ghost Kept: { Type 0 };

    ghost kept: { Self → Kept };

    /// Returns all bytes. The target must allow the window. Clause `window` says that the window is
    /// in bounds of the bytes and ends below bit 2^64, and that `bits` are the bits there.
    fn as_slice(&self, offset: usize, len: usize) -> &[u8]
        requires { fits self.now offset len }
        ensures bytes { result.now ≡ bytes self.now }
        ensures window { IsWindow result.now offset (bits self.now offset len) };

    /// Sets bit `i` of the window to `v`; `i` must be below `len`. By clause `bytes` every other
    /// bit of the bytes, and their number, is unchanged.
    fn set_to(&mut self, offset: usize, len: usize, i: usize, v: bool)
        requires fits { fits self.old offset len }
        requires within { i < len }
        ensures bits { bits self.new offset len ≡ slice_set (bits self.old offset len) i v }
        ensures bytes { Writes (bytes self.old) (bytes self.new) (offset + i) (v ∷ []) }
        ensures fits { fits self.new offset len }
        ensures same_reference { lender self.new ≡ lender self.old }
        ensures kept { kept self.new ≡ kept self.old };

    /// Sets the bits of the window from index `start` up to `end`, `end` excluded, to `v`. `start`
    /// must be at most `end`, and `end` at most `len`. By clause `bytes` every other bit of the
    /// bytes, and their number, is unchanged.
    fn fill_range(&mut self, offset: usize, len: usize, start: usize, end: usize, v: bool)
        requires fits { fits self.old offset len }
        requires order { start ≤ end }
        requires within { end ≤ len }
        ensures bits { bits self.new offset len ≡ with_fill (bits self.old offset len) start end v }
        ensures bytes { Writes (bytes self.old) (bytes self.new) (offset + start)
            (replicate (end - start) v) }
        ensures fits { fits self.new offset len }
        ensures same_reference { lender self.new ≡ lender self.old }
        ensures kept { kept self.new ≡ kept self.old };

    // a window that it allows has `len` bits
    ghost counted: { (s : Self) (o n : ℕ) → fits s o n → length (bits s o n) ≡ n };
}

/// A list of bits in borrowed bytes, which can be edited in place.
///
/// Each write goes straight to the borrowed bytes, or to the set that owns them. Contracts see the
/// view's bits, its target (the store), and the offset of its first bit in the store's bytes, in
/// bits.
#[derive(Drop)]
pub struct BitBufferMutView<S: BitStore> {
    store: S,
    offset: usize,
    len: usize,
    ghost fits: { S.fits store offset len } by { S.fits_prop store offset len },
}

impl<S: BitStore> BitBufferMutView<S> {
    ghost use Rattle.vb_view.specs.MutView.{mut_bits_of, store_of, mut_bytes_of, mut_place_of};
    ghost use Rattle.vb_view.specs.MutView.{mut_len_of, KeepsWindow};

    /// Returns a view of the `len` bits of `store` from bit `offset` on. `store` must allow this
    /// window.
    pub fn over(store: S, offset: usize, len: usize) -> Self
        requires { S.fits store offset len }
        ensures bits { mut_bits_of result ≡ S.bits store offset len }
        ensures store { store_of result ≡ store }
        ensures place { mut_place_of result ≡ offset }
        ensures len { mut_len_of result ≡ len }
        ensures bit_len { length (mut_bits_of result) ≡ len }
    {
        BitBufferMutView { store, offset, len }
    }

    /// Returns a view for reading the bits, as they are now.
    pub fn as_view(&self) -> BitBufferView<'_>
        ensures bits { bits_of result ≡ mut_bits_of self.now }
        ensures offset { offset_of result ≡ mut_place_of self.now % 8 }
        ensures bytes { bytes_of result ≡ drop (mut_place_of self.now / 8) (mut_bytes_of self.now) }
    {
        let bytes = self.store.as_slice(self.offset, self.len);
        BitBufferView::new_with_offset(bytes, self.len, self.offset)
    }

    /// Returns the number of bits.
    pub fn len(&self) -> usize
        ensures bits { result ≡ length (mut_bits_of self.now) }
        ensures len { result ≡ mut_len_of self.now }
    {
        self.len
    }

    /// Returns whether the view has no bits.
    pub fn is_empty(&self) -> bool
        ensures { result ≡ (length (mut_bits_of self.now) == 0) }
    {
        self.len == 0
    }

    /// Returns the offset of the first bit in [`as_slice`](Self::as_slice), in bits; it is below 8.
    pub fn offset(&self) -> usize
        ensures value { result ≡ mut_place_of self.now % 8 }
        ensures below { result < 8 }
    {
        self.offset % 8
    }

    /// Returns the bytes from the byte of the first bit on, also those after the last bit.
    pub fn as_slice(&self) -> &[u8]
        ensures bytes { result.now ≡ drop (mut_place_of self.now / 8) (mut_bytes_of self.now) }
        ensures window { IsWindow result.now (mut_place_of self.now % 8) (mut_bits_of self.now) }
    {
        self.as_view().inner()
    }

    /// Returns the bit at index `i`, which must be below the length.
    pub fn value(&self, i: usize) -> bool
        requires { i < length (mut_bits_of self.now) }
        ensures { slice_get (mut_bits_of self.now) i ≡ Some result }
    {
        self.as_view().value(i)
    }

    /// Returns the number of set bits. Reads the bytes once, 64 at a time.
    pub fn true_count(&self) -> usize
        ensures { result ≡ count (mut_bits_of self.now) }
    {
        self.as_view().true_count()
    }

    /// Returns the number of unset bits. Costs the same as [`true_count`](Self::true_count).
    pub fn false_count(&self) -> usize
        ensures { result ≡ count (complement (mut_bits_of self.now)) }
    {
        self.as_view().false_count()
    }

    /// Returns an iterator over the bits as truth values, from either end.
    pub fn iter(&self) -> BitIterator<'_>
        ensures { result ≡ mut_bits_of self.now }
    {
        self.as_view().iter()
    }

    /// Sets the bit at index `i` to `v`; `i` must be below the length. No other bit of the bytes
    /// changes.
    pub fn set_to(&mut self, i: usize, v: bool)
        requires { i < length (mut_bits_of self.old) }
        ensures bits { mut_bits_of self.new ≡ slice_set (mut_bits_of self.old) i v }
        ensures bytes { Writes (mut_bytes_of self.old) (mut_bytes_of self.new)
            (mut_place_of self.old + i) (v ∷ []) }
        ensures keeps { KeepsWindow self.old self.new }
    {
        self.store.set_to(self.offset, self.len, i, v);
    }

    /// Sets the bit at index `i` to true; `i` must be below the length. No other bit of the bytes
    /// changes.
    pub fn set(&mut self, i: usize)
        requires { i < length (mut_bits_of self.old) }
        ensures bits { mut_bits_of self.new ≡ slice_set (mut_bits_of self.old) i true }
        ensures bytes { Writes (mut_bytes_of self.old) (mut_bytes_of self.new)
            (mut_place_of self.old + i) (true ∷ []) }
        ensures keeps { KeepsWindow self.old self.new }
    {
        self.set_to(i, true);
    }

    /// Sets the bit at index `i` to false; `i` must be below the length. No other bit of the bytes
    /// changes.
    pub fn unset(&mut self, i: usize)
        requires { i < length (mut_bits_of self.old) }
        ensures bits { mut_bits_of self.new ≡ slice_set (mut_bits_of self.old) i false }
        ensures bytes { Writes (mut_bytes_of self.old) (mut_bytes_of self.new)
            (mut_place_of self.old + i) (false ∷ []) }
        ensures keeps { KeepsWindow self.old self.new }
    {
        self.set_to(i, false);
    }

    /// Sets the bits from index `start` up to `end`, `end` excluded, to `v`. `start` must be at
    /// most `end`, and `end` at most the length. Fills whole bytes at once; no other bit of the
    /// bytes changes.
    pub fn fill_range(&mut self, start: usize, end: usize, v: bool)
        requires order { start ≤ end }
        requires within { end ≤ length (mut_bits_of self.old) }
        ensures bits { mut_bits_of self.new ≡ with_fill (mut_bits_of self.old) start end v }
        ensures bytes { Writes (mut_bytes_of self.old) (mut_bytes_of self.new)
            (mut_place_of self.old + start) (replicate (end - start) v) }
        ensures keeps { KeepsWindow self.old self.new }
    {
        self.store.fill_range(self.offset, self.len, start, end, v);
    }
}

#[tactic(auto, using(crate::proofs::EditLemmas::edits))]
impl<'a> BitStore for &'a mut [u8] {
    ghost use Rattle.std.specs.Prelude.{ℕ, length, ◌≤◌, ◌<◌, ◌^◌, ◌+◌, ◌*◌};
    ghost use Rattle.std.proofs.Props.{props};
    ghost use Rattle.vb_bits.specs.Bits.{bits as window};
    ghost use Rattle.vb_bits.proofs.BitsLemmas.{length-bits};

    ghost bytes = { λ s. s.now };

    ghost bits = { λ s o n. window s.now o n };

    ghost fits = { λ s o n. (o + n ≤ 8 * length s.now) × (o + n < 2 ^ 64) };

    ghost fits_prop = { λ s o n. Prim.hlevel props };

    ghost lender = { λ s. s.ghost_name };

    ghost Kept = { ℕ };

    ghost kept = { λ s. length s.now };

    ghost counted = { λ s o n _. length-bits s.now o n };

    fn as_slice(&self, offset: usize, len: usize) -> &[u8] {
        self
    }

    fn set_to(&mut self, offset: usize, len: usize, i: usize, v: bool) {
        set_bit_to(self, offset + i, v);
    }

    fn fill_range(&mut self, offset: usize, len: usize, start: usize, end: usize, v: bool) {
        fill_bits(self, offset + start, offset + end, v);
    }
}

#[tactic(auto, using(vb_bits::proofs::WindowLemmas::windows))]
impl<'a> BitBufferMutView<&'a mut [u8]> {
    ghost use Rattle.vb_view.specs.MutView.{mut_bits_of, store_of, mut_len_of};
    ghost use Rattle.vb_view.specs.MutView.{IsSameReference, ShowsWindow};

    /// Returns a view of the first `len` bits of `bytes`, which must have at least `len` bits.
    pub fn new(bytes: &'a mut [u8], len: usize) -> Self
        requires { len ≤ 8 * length bytes.old }
        ensures lends { IsSameReference (store_of result) bytes.entry }
        ensures window { ShowsWindow 0 (window bytes.old 0 len) result }
        ensures len { mut_len_of result ≡ len }
        ensures bit_len { length (mut_bits_of result) ≡ len }
    {
        BitBufferMutView::new_with_offset(bytes, len, 0)
    }

    /// Returns a view of the `len` bits from bit `offset` on. They must be in `bytes`, and
    /// `offset + len` must fit in a `usize`.
    pub fn new_with_offset(bytes: &'a mut [u8], len: usize, offset: usize) -> Self
        requires window { InBytes bytes.old offset len }
        ensures lends { IsSameReference (store_of result) bytes.entry }
        ensures window { ShowsWindow offset (window bytes.old offset len) result }
        ensures len { mut_len_of result ≡ len }
        ensures bit_len { length (mut_bits_of result) ≡ len }
    {
        BitBufferMutView::over(bytes, offset, len)
    }
}
