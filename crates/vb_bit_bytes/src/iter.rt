//! Bytes made from the items of an iterator.
ghost use Rattle.std.specs.Prelude.{◌≡◌, ◌+◌, ◌*◌, ◌≤◌, ◌++◌, ◌⊎◌, ⊤, length};
ghost use Rattle.std.specs.Prelude.{IfOk, MatchResult, IsOkUnless, OnOk};
ghost use Rattle.std.specs.Int.{div_ceil};
ghost use Rattle.std.specs.Iterator.{IsFinite, IsFiniteIterable};
ghost use Rattle.vb_bit_bytes.specs.Given.{GivesPast, GivesUpTo};
ghost use Rattle.vb_mem.specs.Collected.{OfItems};
ghost use Rattle.vb_bits.specs.Bits.{bits};
ghost use Rattle.vb_bits.specs.Digits.{digits};

use crate::lengthen::push_word_unchecked;
use std::alloc::Allocator;
use vb_core::{BufferError, Result};
use vb_mem::{BufferMut, ByteBufferMut};
use vb_pack::pack_bool_word_lanes;

/// Returns the fewest bytes that hold the items of an iterator as their first bits, and the number
/// of items. The caller must prove that the iterator ends. Packs the items 64 at a time, and
/// extends the bytes once for each 64 of them.
///
/// Returns `TooManyBits`, at the first item that exceeds `usize::MAX` items, or `OutOfMemory` if
/// memory runs out. Does not use the iterator's size hint.
pub fn from_iter<A: Allocator + Clone, I: IntoIterator<Item = bool>>(
    alloc: A,
    iter: I,
) -> Result<(ByteBufferMut<A>, usize)>
    requires { IsFiniteIterable I.into_iter_gives I.IntoIter.can_next I.IntoIter.remaining iter }
    ensures made { IfOk result (λ b. OfItems I.into_iter_gives I.IntoIter.next_gives iter
        (λ items. bits b.0.list 0 b.1 ≡ items)) }
    ensures len { IfOk result (λ b. length b.0.list ≡ div_ceil b.1 8) }
    ensures alignment { IfOk result (λ b. b.0.alignment ≡ 0) }
    ensures err { MatchResult result (λ _. ⊤) (λ e. (e ≡ BufferError.OutOfMemory)
        ⊎ ((e ≡ BufferError.TooManyBits)
        × GivesPast I.into_iter_gives I.IntoIter.next_gives iter)) }
{
    let mut bytes = BufferMut::empty(alloc);
    let mut len = 0;
    let mut rest = iter.into_iter();
    loop {
        let (word, count, left) = next_word(rest);
        rest = left;
        if len > usize::MAX - count {
            return Err(BufferError::TooManyBits);
        }
        push_digits(&mut bytes, word, count)?;
        len += count;
        if count < 64 {
            return Ok((bytes, len));
        }
    }
}

/// Takes the next 64 items of an iterator, or fewer if it ends. Returns a word with the items as
/// its lowest digits, the number of items, and the rest of the iterator. The caller must prove that
/// `next` may be called, and that the iterator ends.
#[inline(always)]
pub fn next_word<I: Iterator<Item = bool>>(mut iter: I) -> (u64, usize, I)
    requires can { I.can_next iter }
    requires finite { IsFinite (I.remaining iter) }
    ensures in_word { result.1 ≤ 64 }
    ensures gives { GivesUpTo I.can_next I.remaining I.next_gives 64 iter
        (digits result.0 0 result.1) result.2 }
{
    let mut bools = [false; 64];
    for i in 0..64 {
        let Some(bit) = iter.next() else {
            return (pack_bool_word_lanes(&bools), i, iter);
        };
        bools[i] = bit;
    }
    (pack_bool_word_lanes(&bools), 64, iter)
}

/// Appends the `count` lowest digits of a word after whole bytes, in as few bytes as hold them.
///
/// Returns `OutOfMemory` if memory runs out.
fn push_digits<A: Allocator + Clone>(
    bytes: &mut ByteBufferMut<A>,
    word: u64,
    count: usize,
) -> Result<()>
    requires in_word { count ≤ 64 }
    ensures len { OnOk result (length bytes.new.list
        ≡ length bytes.old.list + div_ceil count 8) }
    ensures bits { OnOk result (bits bytes.new.list 0 (8 * length bytes.old.list + count)
        ≡ bits bytes.old.list 0 (8 * length bytes.old.list) ++ digits word 0 count) }
    ensures alignment { bytes.new.alignment ≡ bytes.old.alignment }
    ensures refused { IsOkUnless result BufferError.OutOfMemory }
{
    if count == 64 && bytes.capacity() - bytes.len() >= 8 {
        push_word_unchecked(bytes, word);
        return Ok(());
    }
    bytes.extend_from_slice(&word.to_le_bytes()[..count.div_ceil(8)])?;
    Ok(())
}
