//! Calls that make a buffer: what they make, and each of their requests for memory refused in turn.
use crate::compared::{answers, equal, shows};
use crate::items::{FOUR, PAIR, TRIED, each, refusal};
use std::alloc::Allocator;
use vb_core::{Alignment, BufferError, Result, trusted_len};
use vb_mem::{Buffer, BufferMut};
use vb_testing::{Handle, Refusing};

/// A call that makes a growing buffer.
enum Growing {
    WithCapacity,
    WithCapacityAligned,
    WithCapacityPreferredAligned,
    Zeroed,
    ZeroedAligned,
    ZeroedPreferredAligned,
    Full,
    Clone,
    Aligned,
    CopyFrom,
    CopyFromAligned,
    CopyFromPreferredAligned,
    FromIter,
    FromTrustedLenIter,
    TryFromTrustedLenIter,
    IntoMut,
}

impl Growing {
    fn make<A: Allocator + Clone>(&self, alloc: A) -> Result<BufferMut<u32, A>> {
        let (four, wide) = (Alignment::of::<u32>(), Alignment::from_exponent(9));
        match self {
            Growing::WithCapacity => BufferMut::with_capacity(alloc, 3),
            Growing::WithCapacityAligned => BufferMut::with_capacity_aligned(alloc, 3, wide),
            Growing::WithCapacityPreferredAligned => {
                BufferMut::with_capacity_preferred_aligned(alloc, 3, four, None)
            }
            Growing::Zeroed => BufferMut::zeroed(alloc, 2),
            Growing::ZeroedAligned => BufferMut::zeroed_aligned(alloc, 2, wide),
            Growing::ZeroedPreferredAligned => {
                BufferMut::zeroed_preferred_aligned(alloc, 2, four, Some(wide))
            }
            Growing::Full => BufferMut::full(alloc, 7, 3),
            Growing::Clone => cloned(BufferMut::copy_from(alloc, PAIR)),
            Growing::Aligned => BufferMut::copy_from(alloc, PAIR)?.aligned(wide),
            Growing::CopyFrom => BufferMut::copy_from(alloc, PAIR),
            Growing::CopyFromAligned => BufferMut::copy_from_aligned(alloc, PAIR, wide),
            Growing::CopyFromPreferredAligned => {
                BufferMut::copy_from_preferred_aligned(alloc, PAIR, four, None)
            }
            Growing::FromIter => BufferMut::from_iter(alloc, (3..6u32).filter(each)),
            Growing::FromTrustedLenIter => BufferMut::from_trusted_len_iter(alloc, 3..6u32),
            Growing::TryFromTrustedLenIter => try_collected(alloc),
            Growing::IntoMut => opened(Buffer::copy_from(alloc, PAIR)),
        }
    }
}

/// The clone of a buffer that was made.
pub fn cloned<A: Allocator + Clone>(made: Result<BufferMut<u32, A>>) -> Result<BufferMut<u32, A>> {
    let buffer = made?;
    let clone = buffer.clone();
    drop(buffer);
    clone
}

/// A buffer that was made, to be changed.
pub fn opened<A: Allocator + Clone>(made: Result<Buffer<u32, A>>) -> Result<BufferMut<u32, A>> {
    made?.into_mut()
}

fn try_collected<A: Allocator>(alloc: A) -> Result<BufferMut<u32, A>> {
    let values = trusted_len(TRIED.iter().copied(), 1);
    BufferMut::try_from_trusted_len_iter(alloc, values).map_err(refusal)
}

/// A call that makes a second owner of a storage.
pub enum Twin {
    Clone,
    SliceUnaligned,
    Slice(usize, usize),
    SliceWithAlignment,
}

impl Twin {
    fn make<A: Allocator + Clone>(&self, whole: &Buffer<u32, A>) -> Result<Buffer<u32, A>> {
        let four = Alignment::of::<u32>();
        match self {
            Twin::Clone => whole.clone(),
            Twin::SliceUnaligned if whole.len() >= 2 => whole.slice_unaligned(1..2),
            Twin::Slice(start, end) if whole.can_slice(*start..*end, whole.alignment()) => {
                whole.slice(*start..*end)
            }
            Twin::SliceWithAlignment if whole.can_slice(3..4, four) => {
                whole.slice_with_alignment(3..4, four)
            }
            _ => Err(BufferError::NotAligned),
        }
    }

    /// Returns the second owner of a buffer that was made, and drops the first one.
    pub fn of<A: Allocator + Clone>(&self, made: Result<Buffer<u32, A>>) -> Result<Buffer<u32, A>> {
        let whole = made?;
        let twin = self.make(&whole);
        drop(whole);
        twin
    }
}

/// A call that makes a buffer that may be shared.
enum Shared {
    Frozen(Growing),
    Twin(Twin),
    Aligned,
    CopyFromAligned,
    CopyFromPreferredAligned,
    Zeroed,
    ZeroedAligned,
    ZeroedPreferredAligned,
    Full,
    FromIter,
    FromTrustedLenIter,
    FromVec,
    FromMut,
}

impl Shared {
    fn make<A: Allocator + Clone>(&self, alloc: A) -> Result<Buffer<u32, A>> {
        let (four, wide) = (Alignment::of::<u32>(), Alignment::from_exponent(9));
        match self {
            Shared::Frozen(call) => frozen(call.make(alloc)),
            Shared::Twin(call) => call.of(Buffer::copy_from(alloc, FOUR)),
            Shared::Aligned => Buffer::copy_from(alloc, PAIR)?.aligned(wide),
            Shared::CopyFromAligned => Buffer::copy_from_aligned(alloc, PAIR, wide),
            Shared::CopyFromPreferredAligned => {
                Buffer::copy_from_preferred_aligned(alloc, PAIR, four, None)
            }
            Shared::Zeroed => Buffer::zeroed(alloc, 2),
            Shared::ZeroedAligned => Buffer::zeroed_aligned(alloc, 2, wide),
            Shared::ZeroedPreferredAligned => {
                Buffer::zeroed_preferred_aligned(alloc, 2, four, Some(wide))
            }
            Shared::Full => Buffer::full(alloc, 7, 3),
            Shared::FromIter => Buffer::from_iter(alloc, (3..6u32).filter(each)),
            Shared::FromTrustedLenIter => Buffer::from_trusted_len_iter(alloc, 3..6u32),
            Shared::FromVec => of_vector(alloc),
            Shared::FromMut => Buffer::from_mut(BufferMut::copy_from(alloc, PAIR)?),
        }
    }
}

/// The buffer that was made, to be shared.
pub fn frozen<A: Allocator + Clone>(made: Result<BufferMut<u32, A>>) -> Result<Buffer<u32, A>> {
    made?.freeze()
}

fn vector<A: Allocator + Clone>(alloc: &A) -> Result<Vec<u32, A>> {
    Ok(PAIR.to_vec(alloc.clone()?)?)
}

fn of_vector<A: Allocator + Clone>(alloc: A) -> Result<Buffer<u32, A>> {
    match vector(&alloc) {
        Ok(vector) => Buffer::from_vec(alloc, vector),
        Err(refused) => {
            drop(alloc);
            Err(refused)
        }
    }
}

/// The calls, each with the items of what it makes, the alignments, the reported and the declared
/// one, and how many requests it makes. A copy of the allocator is a request too.
const ROWS: &[(Shared, &[u32], (usize, usize), u64)] = &[
    (Shared::Frozen(Growing::WithCapacity), &[], (4, 256), 4),
    (
        Shared::Frozen(Growing::WithCapacityAligned),
        &[],
        (512, 512),
        4,
    ),
    (
        Shared::Frozen(Growing::WithCapacityPreferredAligned),
        &[],
        (4, 4),
        4,
    ),
    (Shared::Frozen(Growing::Zeroed), &[0, 0], (4, 256), 4),
    (
        Shared::Frozen(Growing::ZeroedAligned),
        &[0, 0],
        (512, 512),
        4,
    ),
    (
        Shared::Frozen(Growing::ZeroedPreferredAligned),
        &[0, 0],
        (4, 512),
        4,
    ),
    (Shared::Frozen(Growing::Full), &[7, 7, 7], (4, 256), 4),
    (Shared::Frozen(Growing::Clone), &[1, 2], (4, 256), 6),
    (Shared::Frozen(Growing::Aligned), &[1, 2], (512, 512), 6),
    (Shared::Frozen(Growing::CopyFrom), &[1, 2], (4, 256), 4),
    (
        Shared::Frozen(Growing::CopyFromAligned),
        &[1, 2],
        (512, 512),
        4,
    ),
    (
        Shared::Frozen(Growing::CopyFromPreferredAligned),
        &[1, 2],
        (4, 4),
        4,
    ),
    (Shared::Frozen(Growing::FromIter), &[3, 4, 5], (4, 256), 4),
    (
        Shared::Frozen(Growing::FromTrustedLenIter),
        &[3, 4, 5],
        (4, 256),
        4,
    ),
    (
        Shared::Frozen(Growing::TryFromTrustedLenIter),
        &[8],
        (4, 256),
        4,
    ),
    (Shared::Frozen(Growing::IntoMut), &[1, 2], (4, 256), 7),
    (Shared::Aligned, &[1, 2], (512, 512), 9),
    (Shared::CopyFromAligned, &[1, 2], (512, 512), 4),
    (Shared::CopyFromPreferredAligned, &[1, 2], (4, 4), 4),
    (Shared::Zeroed, &[0, 0], (4, 256), 4),
    (Shared::ZeroedAligned, &[0, 0], (512, 512), 4),
    (Shared::ZeroedPreferredAligned, &[0, 0], (4, 512), 4),
    (Shared::Full, &[7, 7, 7], (4, 256), 4),
    (Shared::FromIter, &[3, 4, 5], (4, 256), 4),
    (Shared::FromTrustedLenIter, &[3, 4, 5], (4, 256), 4),
    (Shared::FromVec, &[1, 2], (4, 4), 4),
    (Shared::FromMut, &[1, 2], (4, 256), 4),
    (Shared::Twin(Twin::Clone), &[1, 2, 3, 4], (4, 256), 5),
    (Shared::Twin(Twin::SliceUnaligned), &[2], (4, 256), 5),
    (Shared::Twin(Twin::Slice(2, 4)), &[3, 4], (4, 256), 5),
    (Shared::Twin(Twin::SliceWithAlignment), &[4], (4, 256), 5),
];

#[test]
fn made_buffers_show_their_items_or_each_request_is_refused(rt: HostRuntime) {
    let heap = Refusing::new(rt.alloc(), 0);
    for (call, items, alignments, requests) in ROWS {
        for _ in heap.in_turn() {
            let made = call.make(Handle { inner: &heap });
            answers(&rt, &heap, shows(&rt, made, items, *alignments));
        }
        equal(&rt, (heap.has_refused(), heap.asked()), (false, *requests));
    }
}
