//! Walks that are cloned after some of their items. The clauses here prove that a clone is equal to
//! its walk.
ghost use Rattle.std.specs.Prelude.{◌≡◌, IfOk};

use crate::compared::{equal, gives};
use std::alloc::AllocError;
use vb_walk::{
    BitChunkIterator, BitChunks, BitIndexIterator, BitIterator, BitSliceIterator,
    PaddedChunkIterator, UnalignedBitChunk, UnalignedBitChunkIterator,
};

fn bits<'a>(walk: &BitIterator<'a>) -> Result<BitIterator<'a>, AllocError>
    ensures { IfOk result (λ clone. clone ≡ walk.now) }
{
    walk.clone()
}

fn places<'a>(walk: &BitIndexIterator<'a>) -> Result<BitIndexIterator<'a>, AllocError>
    ensures { IfOk result (λ clone. clone ≡ walk.now) }
{
    walk.clone()
}

fn runs<'a>(walk: &BitSliceIterator<'a>) -> Result<BitSliceIterator<'a>, AllocError>
    ensures { IfOk result (λ clone. clone ≡ walk.now) }
{
    walk.clone()
}

fn window<'a>(walk: &BitChunks<'a>) -> Result<BitChunks<'a>, AllocError>
    ensures { IfOk result (λ clone. clone ≡ walk.now) }
{
    walk.clone()
}

fn words<'a>(walk: &BitChunkIterator<'a>) -> Result<BitChunkIterator<'a>, AllocError>
    ensures { IfOk result (λ clone. clone ≡ walk.now) }
{
    walk.clone()
}

fn padded<'a>(walk: &PaddedChunkIterator<'a>) -> Result<PaddedChunkIterator<'a>, AllocError>
    ensures { IfOk result (λ clone. clone ≡ walk.now) }
{
    walk.clone()
}

fn cut<'a>(walk: &UnalignedBitChunk<'a>) -> Result<UnalignedBitChunk<'a>, AllocError>
    ensures { IfOk result (λ clone. clone ≡ walk.now) }
{
    walk.clone()
}

fn cut_words<'a>(
    walk: &UnalignedBitChunkIterator<'a>,
) -> Result<UnalignedBitChunkIterator<'a>, AllocError>
    ensures { IfOk result (λ clone. clone ≡ walk.now) }
{
    walk.clone()
}

/// The walks are cloned after their first item, and the clones compared with the items that are
/// left.
#[test]
fn a_clone_goes_on_where_the_walk_stands(rt: HostRuntime) {
    let rt = &rt;
    let bytes = &[0xFF; 9];
    let mut walk = BitChunkIterator::new(bytes, 3, 66);
    gives(rt, words(&walk).expect(rt, "a clone"), &[u64::MAX]);
    equal(rt, walk.next(), Some(u64::MAX));
    gives(rt, words(&walk).expect(rt, "a clone"), &[]);
    let mut walk = BitChunks::new(bytes, 3, 66).iter_padded();
    equal(rt, walk.next(), Some(u64::MAX));
    gives(rt, padded(&walk).expect(rt, "a clone"), &[3]);
    let mut walk = UnalignedBitChunkIterator::new(bytes, 3, 66);
    drop(walk.next());
    gives(rt, cut_words(&walk).expect(rt, "a clone"), &[31]);
    let mut walk = BitIndexIterator::new(&[0x76], 0, 7);
    equal(rt, walk.next(), Some(1));
    gives(rt, places(&walk).expect(rt, "a clone"), &[2, 4, 5, 6]);
    let mut walk = BitSliceIterator::new(&[0x76], 0, 7);
    equal(rt, walk.next(), Some((1, 3)));
    gives(rt, runs(&walk).expect(rt, "a clone"), &[(4, 7)]);
    let mut walk = BitIterator::new(&[0x76], 0, 3);
    equal(rt, walk.next(), Some(false));
    gives(rt, bits(&walk).expect(rt, "a clone"), &[true, true]);
}

#[test]
fn windows_of_words_are_cloned(rt: HostRuntime) {
    let rt = &rt;
    let bytes = &[0xFF; 9];
    let chunks = window(&BitChunks::new(bytes, 3, 66)).expect(rt, "a clone");
    equal(rt, chunks.remainder_bits(), 3);
    let unaligned = cut(&UnalignedBitChunk::new(bytes, 3, 66)).expect(rt, "a clone");
    equal(rt, unaligned.suffix(), Some(31));
}
