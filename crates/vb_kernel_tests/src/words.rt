//! Words of windows: worked rows, and words compared with the bits of a view.
ghost use Rattle.std.specs.Iterator.{IsFinite};

use crate::compared::{equal, equal_at, gives};
use crate::sample::view;
use std::process::Abort;
use vb_core::TrustedLen;
use vb_view::BitBufferView;
use vb_walk::{BitChunkIterator, UnalignedBitChunkIterator};

/// The bits of word `k` one by one, where `lead` zero bits precede those of the view.
fn plain_word(view: &BitBufferView<'_>, lead: usize, k: usize) -> u64 {
    let mut word = 0u64;
    for i in 0..64u32 {
        let digit = k.saturating_mul(64).saturating_add(i as usize);
        let place = digit.saturating_sub(lead);
        if digit >= lead && place < view.len() && view.value(place) {
            word |= 1 << i;
        }
    }
    word
}

/// There are `count` words, with the bits of the view after `lead` bits that are 0.
fn words_are_plain<I: TrustedLen<Item = u64> + Drop>(
    rt: &impl Abort,
    view: &BitBufferView<'_>,
    words: I,
    lead: usize,
    count: usize,
)
    requires { I.can_next words × IsFinite (I.remaining words) }
{
    let window = view.meta();
    equal_at(rt, words.exact_len(), count, window);
    let mut k = 0usize;
    for word in words {
        equal_at(rt, word, plain_word(view, lead, k), (k, window));
        k = k.saturating_add(1);
    }
    equal_at(rt, k, count, window);
}

/// The words from the first bit on are full ones, and one more with the bits that are left.
pub(crate) fn chunks_are_plain(rt: &impl Abort, view: &BitBufferView<'_>) {
    let chunks = &view.chunks();
    let (full, rest) = (view.len() / 64, view.len() % 64);
    equal(rt, chunks.chunk_len(), full);
    equal(rt, chunks.remainder_len(), rest);
    words_are_plain(rt, view, chunks.iter(), 0, full);
    words_are_plain(rt, view, chunks.iter_padded(), 0, full.saturating_add(1));
}

/// Each bit of the words is where the bytes have it, and no other bit is set.
pub(crate) fn unaligned_is_plain(rt: &impl Abort, view: &BitBufferView<'_>) {
    let unaligned = &view.unaligned_chunks();
    let lead = if view.is_empty() { 0 } else { view.offset() };
    let padding = unaligned.trailing_padding();
    equal(rt, unaligned.lead_padding(), lead);
    equal(rt, padding < 64, true);
    let digits = lead.saturating_add(view.len()).saturating_add(padding);
    equal(rt, digits % 64, 0);
    words_are_plain(rt, view, unaligned.iter(), lead, digits / 64);
}

/// Words of a window, by the constructors of the iterators.
#[test]
fn words_end_with_the_window(rt: HostRuntime) {
    let rt = &rt;
    let ones = [0xFF; 9];
    gives(rt, BitChunkIterator::new(&ones, 3, 66), &[u64::MAX]);
    gives(rt, BitChunkIterator::new(&ones, 8, 63), &[]);
    let words = UnalignedBitChunkIterator::new(&ones, 3, 66);
    equal(rt, words.len(), 2);
    gives(rt, words, &[18446744073709551608, 31]);
    gives(rt, UnalignedBitChunkIterator::new(&[], 0, 0), &[]);
}

/// Nine bytes of true bits, from bit 3 on.
#[test]
fn bits_beside_a_window_are_0_in_its_words(rt: HostRuntime) {
    let rt = &rt;
    let ones = &view(rt, &[0xFF; 9], 3, 66);
    gives(rt, ones.chunks().iter_padded(), &[u64::MAX, 3]);
    let unaligned = &ones.unaligned_chunks();
    equal(rt, unaligned.prefix(), Some(18446744073709551608));
    equal(rt, unaligned.chunks().len(), 0);
    equal(rt, unaligned.suffix(), Some(31));
    equal(rt, unaligned.lead_padding(), 3);
    equal(rt, unaligned.trailing_padding(), 59);
}

#[test]
fn words_of_no_bits_are_padding(rt: HostRuntime) {
    let rt = &rt;
    let none = &BitBufferView::new(&[], 0);
    gives(rt, none.chunks().iter_padded(), &[0]);
    let unaligned = &none.unaligned_chunks();
    equal(rt, unaligned.prefix(), None);
    equal(rt, unaligned.suffix(), None);
    equal(rt, unaligned.lead_padding(), 0);
    equal(rt, unaligned.trailing_padding(), 0);
}
